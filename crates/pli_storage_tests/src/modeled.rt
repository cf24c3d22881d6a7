//! Calls on plain storage by locators, in areas and on stacks; and which call is which.

use crate::calls::{Answer, Call, Reference, Use};
use crate::items::Item;
use crate::model::{MISMATCH, Meeting, Model, StackModel};
use pli_map::is_area;
use pli_run::RunError;
use pli_value::Locator;
use std::alloc::Global;
use std::process::Abort;

const FULL: Answer = Answer::Raised(RunError::Area);

/// An answer, whether or not it was found early.
fn either(answered: Result<Answer, Answer>) -> Answer {
    match answered {
        Ok(answer) => answer,
        Err(answer) => answer,
    }
}

impl<'m> Model<'m> {
    /// What a locator leads to, where this description is asked for.
    fn located(&self, rt: &impl Abort, shape: usize, locator: Locator) -> Result<Meeting, Answer> {
        match locator {
            Locator::Null => Err(Answer::Raised(RunError::NullLocator)),
            Locator::Offset(_) => Err(Answer::Wrong),
            Locator::Pointer {
                generation,
                position,
            } => {
                let meeting = Meeting {
                    generation,
                    position,
                    shape,
                };
                self.met(rt, meeting)?;
                Ok(meeting)
            }
        }
    }

    /// A reference to a BASED variable.
    fn based(&mut self, rt: &impl Abort, shape: usize, locator: Locator) -> Result<Answer, Answer> {
        let meeting = self.located(rt, shape, locator)?;
        self.meetings.push(meeting).expect(rt, "memory");
        Ok(Answer::locator(locator))
    }

    /// FREE of a BASED variable.
    fn free(&mut self, rt: &impl Abort, shape: usize, locator: Locator) -> Result<Answer, Answer> {
        let meeting = self.located(rt, shape, locator)?;
        let kept = self.kept_mut(rt, meeting.generation);
        if meeting.position > 0 {
            kept.area.release(meeting.position);
        } else if kept.is_based {
            self.end(rt, meeting.generation);
        } else {
            return Err(MISMATCH);
        }
        Ok(Answer::Done)
    }

    /// ADDR of a place.
    fn address(&self, rt: &impl Abort, reference: Reference) -> Result<Answer, Answer> {
        let meeting = self.meeting(rt, reference.whole);
        let content = self.met(rt, meeting)?;
        if reference.offset() == 0 && reference.shape == content.shape {
            Ok(Answer::locator(meeting.locator()))
        } else {
            Err(Answer::Wrong)
        }
    }

    /// The generation that is an area, of which a place is the whole.
    fn area(&self, rt: &impl Abort, reference: Reference) -> Result<u32, Answer> {
        let meeting = self.meeting(rt, reference.whole);
        let content = self.met(rt, meeting)?;
        let is_area = is_area(&self.values.shape(rt, content.shape).description);
        let is_whole = meeting.position == 0
            && reference.offset() == 0
            && reference.shape == content.shape;
        if is_area && is_whole {
            Ok(meeting.generation)
        } else {
            Err(Answer::Wrong)
        }
    }

    /// ALLOCATE of a BASED variable in an area.
    fn allocate_in(
        &mut self,
        rt: &impl Abort,
        alloc: Global,
        area: Reference,
        shape: usize,
        given: &[Item],
    ) -> Result<Answer, Answer> {
        let Some(content) = self.values.begun(rt, shape, given) else {
            return Err(Answer::Wrong);
        };
        let generation = self.area(rt, area)?;
        let size = u32::try_from(self.values.shape(rt, shape).size).expect(rt, "a size");
        let number = self.noted(rt, content);
        let kept = self.kept_mut(rt, generation);
        match kept.area.allocate(rt, alloc, number, size) {
            Some(position) => Ok(Answer::locator(Locator::Pointer {
                generation,
                position,
            })),
            None => Err(FULL),
        }
    }

    /// All blocks of an area end.
    fn empty(&mut self, rt: &impl Abort, area: Reference) -> Result<Answer, Answer> {
        let generation = self.area(rt, area)?;
        self.kept_mut(rt, generation).area.blocks.clear();
        Ok(Answer::Done)
    }

    /// The blocks of one area stand in the other, with what they hold.
    fn assign(
        &mut self,
        rt: &impl Abort,
        source: Reference,
        target: Reference,
    ) -> Result<Answer, Answer> {
        let from = self.area(rt, source)?;
        let to = self.area(rt, target)?;
        let blocks = &self.kept(rt, from).area.blocks;
        let mut blocks = blocks.clone().expect(rt, "memory");
        for block in blocks.iter_mut() {
            let content = self.content(rt, block.description);
            let again = self.values.copy(rt, content);
            block.description = self.noted(rt, again);
        }
        let area = &mut self.kept_mut(rt, to).area;
        if area.take_over(blocks) {
            Ok(Answer::Done)
        } else {
            Err(FULL)
        }
    }

    /// A pointer as an offset of an area.
    fn offset(&self, rt: &impl Abort, area: Reference, locator: Locator) -> Result<Answer, Answer> {
        if let Locator::Offset(_) = locator {
            return Err(Answer::Wrong);
        }
        let area = self.area(rt, area)?;
        match locator {
            Locator::Pointer {
                generation,
                position,
            } if generation == area && position > 0 => {
                Ok(Answer::locator(Locator::Offset(position)))
            }
            Locator::Pointer { .. } => Err(Answer::Raised(RunError::OutsideArea)),
            _ => Ok(Answer::locator(Locator::Offset(0))),
        }
    }

    /// An offset as a pointer into an area.
    fn pointer(
        &self,
        rt: &impl Abort,
        area: Reference,
        locator: Locator,
    ) -> Result<Answer, Answer> {
        let Locator::Offset(position) = locator else {
            return Err(Answer::Wrong);
        };
        let generation = self.area(rt, area)?;
        let pointer = Locator::Pointer {
            generation,
            position,
        };
        Ok(Answer::locator(if position == 0 {
            Locator::Null
        } else {
            pointer
        }))
    }

    /// A CONTROLLED variable.
    fn stack(&self, list: usize) -> Result<&StackModel, Answer> {
        match self.stacks.get(list) {
            Some(stack) => Ok(stack),
            None => Err(Answer::Wrong),
        }
    }

    /// The number of the newest generation of a stack.
    fn newest(&self, list: usize) -> Result<u32, Answer> {
        match self.stack(list)?.numbers.last() {
            Some(number) => Ok(*number),
            None => Err(Answer::Raised(RunError::NoGeneration)),
        }
    }

    /// ALLOCATE of a CONTROLLED variable.
    fn push(&mut self, rt: &impl Abort, alloc: Global, list: usize) -> Result<Answer, Answer> {
        let shape = self.stack(list)?.shape;
        let number = self.make(rt, alloc, shape, false, &[])?;
        let stack = self.stacks.get_mut(list).expect(rt, "a stack");
        stack.numbers.push(number).expect(rt, "memory");
        Ok(Answer::Done)
    }

    /// ALLOCATION of a CONTROLLED variable.
    fn counted(&self, list: usize) -> Result<Answer, Answer> {
        let count = self.stack(list)?.numbers.len();
        if count > 32_767 {
            Err(Answer::Raised(RunError::FixedOverflow))
        } else {
            Ok(Answer::number(count))
        }
    }

    /// FREE of a CONTROLLED variable.
    fn pop(&mut self, rt: &impl Abort, list: usize) -> Result<Answer, Answer> {
        let number = self.newest(list)?;
        self.end(rt, number);
        let stack = self.stacks.get_mut(list).expect(rt, "a stack");
        let _number = stack.numbers.pop();
        Ok(Answer::Done)
    }

    /// A stack more.
    fn add_stack(&mut self, rt: &impl Abort, alloc: Global, shape: usize) -> Answer {
        let list = self.stacks.len();
        let stack = StackModel {
            shape,
            numbers: Vec::new(alloc),
        };
        self.stacks.push(stack).expect(rt, "memory");
        Answer::number(list)
    }

    /// Makes a generation.
    fn made(
        &mut self,
        rt: &impl Abort,
        alloc: Global,
        shape: usize,
        given: &[Item],
    ) -> Result<Answer, Answer> {
        let number = self.make(rt, alloc, shape, false, given)?;
        Ok(Answer::number(number as usize))
    }

    /// Makes a generation for a dummy argument.
    fn make_dummy(
        &mut self,
        rt: &impl Abort,
        alloc: Global,
        shape: usize,
        item: Item,
    ) -> Result<Answer, Answer> {
        if item.fits(&self.values.shape(rt, shape).description) {
            self.made(rt, alloc, shape, &[item])
        } else {
            Err(Answer::Wrong)
        }
    }

    /// ALLOCATE of a BASED variable outside areas.
    fn allocate(
        &mut self,
        rt: &impl Abort,
        alloc: Global,
        shape: usize,
        given: &[Item],
    ) -> Result<Answer, Answer> {
        let generation = self.make(rt, alloc, shape, true, given)?;
        Ok(Answer::locator(Locator::Pointer {
            generation,
            position: 0,
        }))
    }

    /// What is held at a place, if it is a number, or characters.
    fn held_as(&self, rt: &impl Abort, reference: Reference, number: bool) -> Answer {
        match self.held(rt, reference) {
            Answer::Gives(Item::Number(x)) if number => Answer::Gives(Item::Number(x)),
            Answer::Gives(Item::Characters(text)) if !number => Answer::Gives(Item::Characters(
                text,
            )),
            _ => Answer::Nothing,
        }
    }

    /// Does something at a place.
    fn at(&mut self, rt: &impl Abort, reference: Reference, call: Use) -> Answer {
        match call {
            Use::Held => self.held(rt, reference),
            Use::Number => self.held_as(rt, reference, true),
            Use::Text => self.held_as(rt, reference, false),
            Use::Store(item) => self.store(rt, reference, item),
            Use::Put(number) => {
                Answer::of(self.store(rt, reference, Item::Number(number)) == Answer::Done)
            }
            Use::Append(more, room) => Answer::of(self.append(rt, reference, more, room)),
            Use::Address => either(self.address(rt, reference)),
            Use::Empty => either(self.empty(rt, reference)),
            Use::Offset(locator) => either(self.offset(rt, reference, locator)),
            Use::Pointer(locator) => either(self.pointer(rt, reference, locator)),
        }
    }

    /// Makes a call.
    pub(crate) fn answer(&mut self, rt: &impl Abort, alloc: Global, call: Call) -> Answer {
        match call {
            Call::Room(shape) => Answer::of(self.has_room(rt, shape)),
            Call::Make(_, shape, given) => either(self.made(rt, alloc, shape, given)),
            Call::Dummy(shape, item) => either(self.make_dummy(rt, alloc, shape, item)),
            Call::End(numbers) => {
                for number in numbers {
                    self.end(rt, *number);
                }
                Answer::Done
            }
            Call::Allocate(shape, given) => either(self.allocate(rt, alloc, shape, given)),
            Call::AllocateIn(area, shape, given) => {
                either(self.allocate_in(rt, alloc, area, shape, given))
            }
            Call::Based(shape, locator) => either(self.based(rt, shape, locator)),
            Call::Free(shape, locator) => either(self.free(rt, shape, locator)),
            Call::Stack(shape) => self.add_stack(rt, alloc, shape),
            Call::Push(list) => either(self.push(rt, alloc, list)),
            Call::Newest(list) => match self.newest(list) {
                Ok(number) => Answer::number(number as usize),
                Err(answer) => answer,
            },
            Call::Count(list) => either(self.counted(list)),
            Call::Pop(list) => either(self.pop(rt, list)),
            Call::At(reference, call) => self.at(rt, reference, call),
            Call::Copy(source, target) => either(self.copy(rt, source, target)),
            Call::Assign(source, target) => either(self.assign(rt, source, target)),
        }
    }
}
