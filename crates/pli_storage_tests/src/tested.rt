//! Storage with its stacks, on which calls are made.
ghost use Rattle.std.specs.Prelude.{◌≡◌, length, IfSome};
ghost use Rattle.pli_map.specs.Sizes.{size_of};
ghost use Rattle.pli_map.specs.views.DescriptionView.{description_view};

use crate::calls::{Answer, Call, Reference, Use, Whole};
use crate::items::{Item, Text};
use crate::shapes::Shape;
use pli_bytes::{lay, lay_first};
use pli_locators::{address, allocate_based, based, free_based, offset_in, pointer_in};
use pli_map::{Description, size};
use pli_stacks::Stacks;
use pli_store::{Made, Place, Storage, StoreFault};
use pli_value::Locator;
use std::alloc::Global;
use std::process::Abort;

/// How many bytes after the beginning a place lies at most.
const OFFSET_LIMIT: u64 = 1_000_000;

/// Storage and stacks, and what calls on them name.
#[derive(Drop)]
pub(crate) struct Tested<'m> {
    storage: Storage<'m>,
    stacks: Stacks<'m>,
    shapes: &'m [Shape],
    /// Equal descriptions that stand elsewhere: parts and variables are asked for by these, and blocks have them.
    twins: &'m [Description],
    /// The places of all generations that were ever made.
    made: Vec<Place<'m>>,
    /// Where references by locators led.
    met: Vec<Place<'m>>,
}

/// Whether a call asks for values as they lie in a generation, which it does in no block.
fn is_direct(call: Use) -> bool {
    matches!(
        call,
        Use::Number | Use::Text | Use::Put(_) | Use::Append(..)
    )
}

/// The bytes with which something begins, laid over what stood there; none where its scalars may not hold what is
/// given.
fn initial(
    rt: &impl Abort,
    alloc: Global,
    description: &Description,
    items: &[Item],
) -> Option<Vec<u8>>
    ensures { IfSome result (λ bytes. length bytes.items ≡ size_of (description_view description.now)) }
{
    let size = size(description).expect(rt, "a size");
    let mut bytes = vec![in alloc; b'?'; size as usize].expect(rt, "memory");
    if items.is_empty() {
        lay_first(description, &mut bytes);
        return Some(bytes);
    }
    let mut values = Vec::new(alloc);
    for item in items {
        values.push(item.value(rt, alloc)).expect(rt, "memory");
    }
    if lay(description, &values, &mut bytes) {
        Some(bytes)
    } else {
        None
    }
}

impl<'m> Tested<'m> {
    /// Without generations and stacks.
    pub(crate) fn new(alloc: Global, shapes: &'m [Shape], twins: &'m [Description]) -> Tested<'m> {
        Tested {
            storage: Storage::new(alloc),
            stacks: Stacks::new(alloc),
            shapes,
            twins,
            made: Vec::new(alloc),
            met: Vec::new(alloc),
        }
    }

    /// The description of a number, of which generations are made.
    fn described(&self, rt: &impl Abort, shape: usize) -> &'m Description {
        &self
            .shapes
            .get(shape)
            .expect(rt, "a description")
            .description
    }

    /// The equal one.
    fn twin(&self, rt: &impl Abort, shape: usize) -> &'m Description {
        self.twins.get(shape).expect(rt, "a description")
    }

    /// Where a call leads, if none of the places on the way lies too far from the beginning.
    fn led_to(&self, rt: &impl Abort, reference: Reference) -> Option<Place<'m>> {
        let whole = match reference.whole {
            Whole::Generation(generation) => self.made.get(generation as usize),
            Whole::Met(number) => self.met.get(number),
        };
        let twin = self.twin(rt, reference.shape);
        assert!(rt; reference.low <= reference.subscript);
        let whole = *whole.expect(rt, "a place");
        whole
            .field(reference.first, twin)?
            .element(reference.low, reference.multiplier, reference.subscript)?
            .field(reference.second, twin)
    }

    /// The same, where a place is near enough exactly if it lies no farther from the beginning than that.
    fn place(&self, rt: &impl Abort, reference: Reference) -> Option<Place<'m>> {
        let place = self.led_to(rt, reference);
        assert!(rt; place.is_some() == (reference.offset() <= OFFSET_LIMIT));
        place
    }

    /// Notes the place of a generation that was made.
    fn noted(&mut self, rt: &impl Abort, made: Result<Place<'m>, StoreFault>) -> Answer {
        match made {
            Ok(place) => {
                self.made.push(place).expect(rt, "memory");
                Answer::number(place.generation as usize)
            }
            Err(fault) => Answer::fault(rt, fault),
        }
    }

    /// ALLOCATE of a BASED variable; with values of their own for its scalars as storage makes any.
    fn made_based(
        &mut self,
        rt: &impl Abort,
        alloc: Global,
        shape: usize,
        items: &[Item],
    ) -> Result<Locator, StoreFault> {
        let description = self.described(rt, shape);
        if items.is_empty() {
            return allocate_based(alloc, &mut self.storage, description, &[], None);
        }
        let bytes = initial(rt, alloc, description, items);
        let place = self.storage.make(description, Made::Based, bytes)?;
        Ok(Locator::Pointer {
            generation: place.generation,
            position: 0,
        })
    }

    /// ALLOCATE of a BASED variable, whose place is noted.
    fn allocate(&mut self, rt: &impl Abort, alloc: Global, shape: usize, items: &[Item]) -> Answer {
        let result = self.made_based(rt, alloc, shape, items);
        if let Ok(locator) = &result {
            let place = based(&self.storage, self.twin(rt, shape), *locator);
            let _number = self.noted(rt, place);
        }
        Answer::pointed(rt, result)
    }

    /// The same in an area.
    fn allocate_in(
        &mut self,
        rt: &impl Abort,
        alloc: Global,
        area: Place<'m>,
        shape: usize,
        items: &[Item],
    ) -> Answer {
        let description = self.twin(rt, shape);
        let bytes = initial(rt, alloc, description, items);
        Answer::pointed(rt, self.storage.allocate_in(area, description, bytes))
    }

    /// A reference to a BASED variable, which is noted.
    fn based(&mut self, rt: &impl Abort, shape: usize, locator: Locator) -> Answer {
        let twin = self.twin(rt, shape);
        match based(&self.storage, twin, locator) {
            Ok(place) => {
                self.met.push(place).expect(rt, "memory");
                Answer::pointed(rt, address(&self.storage, place))
            }
            Err(fault) => Answer::fault(rt, fault),
        }
    }

    /// A stack more, of a CONTROLLED variable of the description of a number.
    fn add_stack(&mut self, rt: &impl Abort, alloc: Global, shape: usize) -> Answer {
        let description = self.described(rt, shape);
        let number = self.stacks.add(alloc, description, &[]);
        Answer::number(number.expect(rt, "memory"))
    }

    /// ALLOCATE of a CONTROLLED variable, whose place is noted.
    fn push(&mut self, rt: &impl Abort, alloc: Global, list: usize) -> Answer {
        let stacks = &mut self.stacks;
        let result = stacks.allocate_controlled(alloc, &mut self.storage, list);
        if result.is_ok() {
            let place = self.stacks.newest(list);
            let _number = self.noted(rt, place);
        }
        Answer::done(rt, result)
    }

    /// The newest generation of a stack.
    fn newest(&self, rt: &impl Abort, list: usize) -> Answer {
        match self.stacks.newest(list) {
            Ok(place) => Answer::number(place.generation as usize),
            Err(fault) => Answer::fault(rt, fault),
        }
    }

    /// How many generations a stack has.
    fn count(&self, rt: &impl Abort, list: usize) -> Answer {
        match self.stacks.generations(list) {
            Ok(count) => Answer::number(count as usize),
            Err(fault) => Answer::fault(rt, fault),
        }
    }

    /// What is held at a place.
    fn held(&self, rt: &impl Abort, alloc: Global, place: Place<'m>) -> Answer {
        match self.storage.held(alloc, place) {
            Ok(value) => Answer::Gives(Item::of(rt, &value)),
            Err(fault) => Answer::fault(rt, fault),
        }
    }

    /// The same, if it is a number; each way to read it finds the same.
    fn number(&self, rt: &impl Abort, place: Place<'m>) -> Answer {
        let number = self.storage.number_at(place);
        assert!(rt; self.storage.element_number(place) == number);
        if let Some(lone) = self.storage.lone_number(place) {
            assert!(rt; Some(self.storage.number_alone(place, lone)) == number);
        }
        match number {
            Some(number) => Answer::Gives(Item::Number(number)),
            None => Answer::Nothing,
        }
    }

    /// Puts a number at a place. An even number goes the general way, and an odd one the way of a number that stands
    /// alone, or else that of an element.
    fn put(&mut self, place: Place<'m>, number: i64) -> bool {
        if number % 2 == 0 {
            return self.storage.put_number(place, number);
        }
        match self.storage.lone_number(place) {
            Some(lone) => self.storage.put_number_alone(place, lone, number),
            None => self.storage.put_element_number(place, number),
        }
    }

    /// The same, if it is characters.
    fn text(&self, rt: &impl Abort, place: Place<'m>) -> Answer {
        match self.storage.text_at(place) {
            Some(text) => Answer::Gives(Item::Characters(Text::of(rt, text))),
            None => Answer::Nothing,
        }
    }

    /// Does something at a place.
    fn at(&mut self, rt: &impl Abort, alloc: Global, place: Place<'m>, call: Use) -> Answer {
        match call {
            Use::Held => self.held(rt, alloc, place),
            Use::Number => self.number(rt, place),
            Use::Text => self.text(rt, place),
            Use::Store(item) => {
                let value = item.value(rt, alloc);
                Answer::done(rt, self.storage.stored(place, value))
            }
            Use::Put(number) => Answer::of(self.put(place, number)),
            Use::Append(more, room) => {
                Answer::of(self.storage.append(place, more.characters(rt), room))
            }
            Use::Address => Answer::pointed(rt, address(&self.storage, place)),
            Use::Empty => Answer::done(rt, self.storage.empty_area(place)),
            Use::Offset(locator) => Answer::pointed(rt, offset_in(&self.storage, place, locator)),
            Use::Pointer(locator) => Answer::pointed(rt, pointer_in(&self.storage, place, locator)),
        }
    }

    /// Makes a call that leads to places.
    fn placed(&mut self, rt: &impl Abort, alloc: Global, call: Call) -> Option<Answer> {
        Some(match call {
            Call::At(reference, call) => {
                let place = self.place(rt, reference)?;
                if place.position > 0 && is_direct(call) {
                    return None;
                }
                self.at(rt, alloc, place, call)
            }
            Call::AllocateIn(area, shape, items) => {
                let area = self.place(rt, area)?;
                self.allocate_in(rt, alloc, area, shape, items)
            }
            Call::Copy(source, target) => {
                let (source, target) = (self.place(rt, source)?, self.place(rt, target)?);
                Answer::done(rt, self.storage.copied(source, target))
            }
            Call::Assign(source, target) => {
                let (source, target) = (self.place(rt, source)?, self.place(rt, target)?);
                Answer::done(rt, self.storage.assign_area(source, target))
            }
            _ => panic!(rt; "it leads nowhere"),
        })
    }

    /// Makes a call.
    pub(crate) fn answer(&mut self, rt: &impl Abort, alloc: Global, call: Call) -> Answer {
        match call {
            Call::Room(shape) => { Answer::of(self.storage.has_room(self.described(rt, shape))) }
            Call::Make(how, shape, items) => {
                let description = self.described(rt, shape);
                let bytes = initial(rt, alloc, description, items);
                let made = self.storage.make(description, how, bytes);
                self.noted(rt, made)
            }
            Call::Dummy(shape, item) => {
                let description = self.described(rt, shape);
                let value = item.value(rt, alloc);
                let made = self.storage.make_dummy(alloc, description, value);
                self.noted(rt, made)
            }
            Call::End(numbers) => {
                self.storage.end(numbers);
                Answer::Done
            }
            Call::Allocate(shape, items) => self.allocate(rt, alloc, shape, items),
            Call::Based(shape, locator) => self.based(rt, shape, locator),
            Call::Free(shape, locator) => {
                let twin = self.twin(rt, shape);
                Answer::done(rt, free_based(&mut self.storage, twin, locator))
            }
            Call::Stack(shape) => self.add_stack(rt, alloc, shape),
            Call::Push(list) => self.push(rt, alloc, list),
            Call::Newest(list) => self.newest(rt, list),
            Call::Count(list) => self.count(rt, list),
            Call::Pop(list) => {
                Answer::done(rt, self.stacks.free_controlled(&mut self.storage, list))
            }
            _ => self.placed(rt, alloc, call).unwrap_or(Answer::Far),
        }
    }
}
