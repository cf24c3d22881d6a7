//! Plain and slow storage: a list of all generations that were ever made, with their areas and their values, and
//! lists of their numbers.

use crate::area_model::AreaModel;
use crate::calls::{Answer, Reference, Whole};
use crate::items::{Item, Text};
use crate::shapes::Shape;
use crate::values::{Content, Values};
use pli_map::{Description, is_area, is_scalar};
use pli_run::RunError;
use pli_value::Locator;
use std::alloc::Global;
use std::process::Abort;

/// How many bytes may live at once.
const BYTE_LIMIT: u64 = 16_777_216;

/// A generation: what it holds, whether ALLOCATE of a BASED variable has made it, and its area, of no bytes where it
/// is none. Blocks of that have numbers of what they hold for descriptions.
#[derive(Drop)]
pub(crate) struct Kept {
    content: Content,
    pub(crate) is_based: bool,
    is_live: bool,
    pub(crate) area: AreaModel,
}

/// What a reference by a locator has met: a position of a generation, 0 outside areas, and the number of the whole
/// description.
#[derive(Clone, Copy)]
pub(crate) struct Meeting {
    pub(crate) generation: u32,
    pub(crate) position: u32,
    pub(crate) shape: usize,
}

impl Meeting {
    pub(crate) fn locator(self) -> Locator {
        Locator::Pointer {
            generation: self.generation,
            position: self.position,
        }
    }
}

/// A CONTROLLED variable: the number of its description, and the numbers of its generations, the newest last.
#[derive(Drop)]
pub(crate) struct StackModel {
    pub(crate) shape: usize,
    pub(crate) numbers: Vec<u32>,
}

/// All generations by their numbers, what references have met, and the stacks of CONTROLLED variables.
#[derive(Drop)]
pub(crate) struct Model<'m> {
    pub(crate) values: Values<'m>,
    generations: Vec<Kept>,
    live: u64,
    blocks: Vec<Content>,
    pub(crate) meetings: Vec<Meeting>,
    pub(crate) stacks: Vec<StackModel>,
}

pub(crate) const DEAD: Answer = Answer::Raised(RunError::DeadLocator);

pub(crate) const MISMATCH: Answer = Answer::Raised(RunError::DescriptionMismatch);

impl<'m> Model<'m> {
    pub(crate) fn new(alloc: Global, shapes: &'m [Shape]) -> Model<'m> {
        Model {
            values: Values::new(alloc, shapes),
            generations: Vec::new(alloc),
            live: 0,
            blocks: Vec::new(alloc),
            meetings: Vec::new(alloc),
            stacks: Vec::new(alloc),
        }
    }

    /// How many generations were ever made.
    pub(crate) fn count(&self) -> u32 {
        u32::try_from(self.generations.len()).unwrap_or(u32::MAX)
    }

    pub(crate) fn kept(&self, rt: &impl Abort, generation: u32) -> &Kept {
        let kept = self.generations.get(generation as usize);
        kept.expect(rt, "a generation")
    }

    pub(crate) fn kept_mut(&mut self, rt: &impl Abort, generation: u32) -> &mut Kept {
        let kept = self.generations.get_mut(generation as usize);
        kept.expect(rt, "a generation")
    }

    /// The number of the description of a generation.
    pub(crate) fn shape(&self, rt: &impl Abort, generation: u32) -> usize {
        self.kept(rt, generation).content.shape
    }

    /// How many blocks the area of a generation has.
    pub(crate) fn block_count(&self, generation: u32) -> usize {
        match self.generations.get(generation as usize) {
            Some(kept) => kept.area.count(),
            None => 0,
        }
    }

    /// A block of an area, by its number in the order in which blocks were placed, if there is one.
    pub(crate) fn block(&self, rt: &impl Abort, generation: u32, number: usize) -> Option<Meeting> {
        let kept = self.generations.get(generation as usize)?;
        let block = kept.area.blocks.get(number)?;
        Some(Meeting {
            generation,
            position: block.position,
            shape: self.content(rt, block.description).shape,
        })
    }

    /// What a block holds.
    pub(crate) fn content(&self, rt: &impl Abort, number: u32) -> Content {
        let content = self.blocks.get(number as usize);
        *content.expect(rt, "a block")
    }

    /// Notes what a block holds, and answers the number of that.
    pub(crate) fn noted(&mut self, rt: &impl Abort, content: Content) -> u32 {
        let number = u32::try_from(self.blocks.len()).expect(rt, "few blocks");
        self.blocks.push(content).expect(rt, "memory");
        number
    }

    pub(crate) fn has_room(&self, rt: &impl Abort, shape: usize) -> bool {
        let size = self.values.shape(rt, shape).size;
        self.live.saturating_add(size) <= BYTE_LIMIT
    }

    /// Makes a generation, and answers its number.
    pub(crate) fn make(
        &mut self,
        rt: &impl Abort,
        alloc: Global,
        shape: usize,
        is_based: bool,
        given: &[Item],
    ) -> Result<u32, Answer> {
        if !self.has_room(rt, shape) {
            return Err(Answer::Raised(RunError::StorageLimit));
        }
        let Some(content) = self.values.begun(rt, shape, given) else {
            return Err(Answer::Wrong);
        };
        let described = self.values.shape(rt, shape);
        let mut capacity = 0;
        if is_area(&described.description) {
            capacity = u32::try_from(described.size).expect(rt, "a capacity");
        }
        let number = self.count();
        let kept = Kept {
            content,
            is_based,
            is_live: true,
            area: AreaModel::new(alloc, capacity),
        };
        self.generations.push(kept).expect(rt, "memory");
        self.live = self.live.saturating_add(described.size);
        Ok(number)
    }

    /// The generation of a number ends, if it lives.
    pub(crate) fn end(&mut self, rt: &impl Abort, number: u32) {
        if let Some(kept) = self.generations.get_mut(number as usize) {
            if kept.is_live {
                kept.is_live = false;
                let size = self.values.shape(rt, kept.content.shape).size;
                self.live = self.live.saturating_sub(size);
            }
        }
    }

    /// What lives at a position of a generation.
    pub(crate) fn living(
        &self,
        rt: &impl Abort,
        generation: u32,
        position: u32,
    ) -> Result<Content, Answer> {
        let kept = match self.generations.get(generation as usize) {
            Some(kept) if kept.is_live => kept,
            _ => return Err(DEAD),
        };
        if position == 0 {
            return Ok(kept.content);
        }
        match kept.area.block(position) {
            Some(block) => Ok(self.content(rt, block.description)),
            None => Err(DEAD),
        }
    }

    /// The same, where it has the description that was met.
    pub(crate) fn met(&self, rt: &impl Abort, meeting: Meeting) -> Result<Content, Answer> {
        let content = self.living(rt, meeting.generation, meeting.position)?;
        if content.shape == meeting.shape {
            Ok(content)
        } else {
            Err(MISMATCH)
        }
    }

    /// What a call leads into.
    pub(crate) fn meeting(&self, rt: &impl Abort, whole: Whole) -> Meeting {
        match whole {
            Whole::Generation(generation) => Meeting {
                generation,
                position: 0,
                shape: self.shape(rt, generation),
            },
            Whole::Met(number) => *self.meetings.get(number).expect(rt, "a reference"),
        }
    }

    /// Where the values of a place begin.
    fn find(&self, rt: &impl Abort, reference: Reference) -> Result<usize, Answer> {
        let content = self.met(rt, self.meeting(rt, reference.whole))?;
        self.values
            .part(rt, content, reference.offset(), reference.shape)
    }

    /// What the place of a scalar holds.
    pub(crate) fn held(&self, rt: &impl Abort, reference: Reference) -> Answer {
        match self.find(rt, reference) {
            Ok(start) if is_scalar(&self.values.shape(rt, reference.shape).description) => {
                Answer::Gives(self.values.value(rt, start))
            }
            Ok(_) => Answer::Wrong,
            Err(answer) => answer,
        }
    }

    /// Puts a value at the place of a scalar.
    pub(crate) fn store(&mut self, rt: &impl Abort, reference: Reference, item: Item) -> Answer {
        match self.find(rt, reference) {
            Ok(start) if item.fits(&self.values.shape(rt, reference.shape).description) => {
                self.values.put(rt, start, item);
                Answer::Done
            }
            Ok(_) => Answer::Wrong,
            Err(answer) => answer,
        }
    }

    /// Puts characters after those of a string that varies, where both are no more than so many.
    pub(crate) fn append(
        &mut self,
        rt: &impl Abort,
        reference: Reference,
        more: Text,
        room: usize,
    ) -> bool {
        let Description::Varying(_) = self.values.shape(rt, reference.shape).description else {
            return false;
        };
        let Answer::Gives(Item::Characters(text)) = self.held(rt, reference) else {
            return false;
        };
        let both = text.and(rt, more);
        both.length() <= room && self.store(rt, reference, Item::Characters(both)) == Answer::Done
    }

    /// Puts what one place, which is no area's, holds at another.
    pub(crate) fn copy(
        &mut self,
        rt: &impl Abort,
        source: Reference,
        target: Reference,
    ) -> Result<Answer, Answer> {
        let described = self.values.shape(rt, source.shape);
        let from = self.find(rt, source)?;
        if is_area(&described.description) {
            return Err(Answer::Wrong);
        }
        let to = self.find(rt, target)?;
        if source.shape != target.shape {
            return Err(Answer::Wrong);
        }
        self.values.move_to(rt, from, to, described.count);
        Ok(Answer::Done)
    }
}
