//! Random sequences of calls on storage, each with the answers of the model.

use crate::calls::{Answer, Call, Reference, Use, Whole};
use crate::items::{Item, Text};
use crate::model::Meeting;
use crate::numbers::Numbers;
use crate::pairs::Pair;
use crate::shapes::{AREAS, IN_AREAS, all_shapes, twins_of};
use pli_map::Description;
use pli_store::Made;
use pli_value::Locator;
use std::alloc::Global;
use std::process::Abort;
use std::test::*;

/// How many bytes a description takes at most of which generations are made here.
const SMALL: u64 = 64;

impl Numbers {
    /// So many characters, from one on to another so many after it.
    fn characters(&mut self, rt: &impl Abort, count: u16, first: u8, others: u8) -> Text {
        let mut text = [0; 16];
        let count = usize::from(count).min(16);
        for place in 0..count {
            text[place] = first.saturating_add(self.up_to(u32::from(others)) as u8);
        }
        Text::of(rt, &text[..count])
    }

    /// A number: mostly one of so many binary digits, among them the greatest and the least.
    fn number(&mut self, precision: u8) -> i64 {
        let shift = 63 - precision.min(63);
        let any = (u64::from(self.any()) << 32 | u64::from(self.any())).cast_signed();
        match self.up_to(15) {
            0 => any,
            1 => i64::MAX >> shift,
            2 => -(i64::MAX >> shift),
            _ => any >> shift,
        }
    }

    /// A locator: mostly a pointer.
    fn locator(&mut self) -> Locator {
        let (generation, position) = (self.any(), self.any());
        match self.up_to(7) {
            0 => Locator::Offset(position),
            1 => Locator::Null,
            2 => Locator::Pointer {
                generation: u32::MAX,
                position,
            },
            _ => Locator::Pointer {
                generation,
                position,
            },
        }
    }

    /// A value of a scalar: mostly one that it may hold.
    fn item(&mut self, rt: &impl Abort, description: &Description) -> Item {
        let more = u16::from(self.up_to(31) == 0);
        match description {
            Description::FixedBinary(precision) => Item::Number(self.number(*precision)),
            Description::Character(length) => {
                let count = length.saturating_add(more);
                Item::Characters(self.characters(rt, count, b'A', 25))
            }
            Description::Varying(length) => {
                let count = self.up_to(u32::from(length.saturating_add(more))) as u16;
                Item::Characters(self.characters(rt, count, b'A', 25))
            }
            Description::Bit(length) => {
                let count = length.saturating_add(more);
                Item::Bits(self.characters(rt, count, b'0', 1))
            }
            Description::Offset if self.up_to(7) > 0 => Item::Locator(Locator::Offset(self.any())),
            Description::Pointer | Description::Offset => Item::Locator(self.locator()),
            _ => Item::Number(0),
        }
    }

    /// Values for the scalars of a description, or none.
    fn items(
        &mut self,
        rt: &impl Abort,
        alloc: Global,
        pair: &Pair<'_>,
        shape: usize,
    ) -> Vec<Item> {
        let mut items = Vec::new(alloc);
        if self.up_to(2) > 0 {
            for part in pair.model.values.shape(rt, shape).parts.iter() {
                if part.is_scalar {
                    let scalar = pair.model.values.shape(rt, part.shape);
                    let item = self.item(rt, &scalar.description);
                    items.push(item).expect(rt, "memory");
                }
            }
        }
        items
    }

    /// A place so many bytes after the beginning of something, by any way that leads there.
    fn way(&mut self, whole: Whole, offset: u32, shape: usize) -> Reference {
        let first = match self.up_to(3) {
            0 => self.up_to(offset),
            1 => 0,
            _ => offset,
        };
        let multiplier = self.up_to(7) + 1;
        let low = self.up_to(200) as i32 - 100;
        let passed = i32::try_from((offset - first) / multiplier).unwrap_or(0);
        Reference {
            whole,
            first,
            low,
            multiplier,
            subscript: low.saturating_add(passed),
            second: (offset - first) % multiplier,
            shape,
        }
    }

    /// A place in something: mostly that of a part of it.
    fn reference(&mut self, rt: &impl Abort, pair: &Pair<'_>, whole: Whole) -> Reference {
        let shapes = pair.model.values.shapes;
        let shape = pair.model.meeting(rt, whole).shape;
        let parts = &pair.model.values.shape(rt, shape).parts;
        let part = parts.get(self.index(parts.len())).expect(rt, "a part");
        let offset = match self.up_to(31) {
            0 => self.up_to(2_000_000),
            1 => self.up_to(100),
            _ => u32::try_from(part.offset).expect(rt, "an offset"),
        };
        let shape = match self.up_to(31) {
            0 => self.index(shapes.len()),
            _ => part.shape,
        };
        self.way(whole, offset, shape)
    }

    /// A generation that was ever made, mostly a late one, or half the time what a late reference has met.
    fn whole(&mut self, pair: &Pair<'_>) -> Whole {
        let met = pair.model.meetings.len();
        let last = pair.model.count().saturating_sub(1);
        match self.up_to(7) {
            0 => Whole::Generation(self.up_to(last)),
            1..=3 if met > 0 => Whole::Met(
                met.saturating_sub(1).saturating_sub(self.index(met.min(6))),
            ),
            _ => Whole::Generation(last.saturating_sub(self.up_to(9))),
        }
    }

    /// A place in anything.
    fn place(&mut self, rt: &impl Abort, pair: &Pair<'_>) -> Reference {
        let whole = self.whole(pair);
        self.reference(rt, pair, whole)
    }

    /// A locator, and a description: mostly what is at a position of a generation, and that of it.
    fn meeting(&mut self, rt: &impl Abort, pair: &Pair<'_>) -> (Locator, usize) {
        let last = pair.model.count().saturating_sub(1);
        let generation = last.saturating_sub(self.up_to(9));
        let whole = Meeting {
            generation,
            position: 0,
            shape: pair.model.shape(rt, generation),
        };
        let number = self.index(8);
        let meeting = pair.model.block(rt, generation, number).unwrap_or(whole);
        let shape = if self.up_to(3) == 0 {
            self.index(IN_AREAS)
        } else {
            meeting.shape
        };
        let locator = match self.up_to(31) {
            0 => self.locator(),
            1 => Locator::Offset(self.up_to(32)),
            2 => Locator::Pointer {
                generation,
                position: self.up_to(64),
            },
            _ => meeting.locator(),
        };
        (locator, shape)
    }
}

/// Makes a generation of the description of a number.
fn make(
    rt: &impl Abort,
    alloc: Global,
    numbers: &mut Numbers,
    pair: &mut Pair<'_>,
    shape: usize,
) -> Answer {
    let items = numbers.items(rt, alloc, pair, shape);
    let description = &pair.model.values.shape(rt, shape).description;
    let call = match numbers.up_to(7) {
        0 | 1 => Call::Dummy(shape, numbers.item(rt, description)),
        2 => Call::Make(Made::Static, shape, &items),
        3 => Call::Allocate(shape, &items),
        4 => Call::Push(numbers.index(4)),
        _ => Call::Make(Made::Automatic, shape, &items),
    };
    pair.answer(rt, alloc, call)
}

/// What is done at a place, where a value is given.
fn use_with(numbers: &mut Numbers, item: Item) -> Use {
    match (numbers.up_to(9), item) {
        (0, _) => Use::Held,
        (1, _) => Use::Number,
        (2, _) => Use::Text,
        (3, _) => Use::Address,
        (4 | 5, Item::Number(number)) => Use::Put(number),
        (4 | 5, Item::Characters(more)) => Use::Append(more, numbers.index(20)),
        _ => Use::Store(item),
    }
}

/// Makes a call on a place, or copies from it, mostly to one of the same description.
fn use_place(rt: &impl Abort, alloc: Global, numbers: &mut Numbers, pair: &mut Pair<'_>) -> Answer {
    let reference = numbers.place(rt, pair);
    if numbers.up_to(7) > 0 {
        let description = &pair.model.values.shape(rt, reference.shape).description;
        let item = numbers.item(rt, description);
        return pair.answer(rt, alloc, Call::At(reference, use_with(numbers, item)));
    }
    let mut target = reference;
    for _ in 0..8 {
        target = numbers.place(rt, pair);
        if target.shape == reference.shape {
            break;
        }
    }
    pair.answer(rt, alloc, Call::Copy(reference, target))
}

/// Makes a call by a locator.
fn use_locator(
    rt: &impl Abort,
    alloc: Global,
    numbers: &mut Numbers,
    pair: &mut Pair<'_>,
) -> Answer {
    let (locator, shape) = numbers.meeting(rt, pair);
    let call = match numbers.up_to(3) {
        0 => Call::Free(shape, locator),
        _ => Call::Based(shape, locator),
    };
    pair.answer(rt, alloc, call)
}

/// Makes a call on a stack.
fn use_stack(rt: &impl Abort, alloc: Global, numbers: &mut Numbers, pair: &mut Pair<'_>) -> Answer {
    let list = numbers.index(4);
    let call = match numbers.up_to(2) {
        0 => Call::Count(list),
        1 => Call::Newest(list),
        _ => Call::Pop(list),
    };
    pair.answer(rt, alloc, call)
}

/// The whole of a late generation, mostly.
fn likely_area(rt: &impl Abort, numbers: &mut Numbers, pair: &Pair<'_>) -> Reference {
    for _ in 0..16 {
        let whole = numbers.whole(pair);
        let shape = pair.model.meeting(rt, whole).shape;
        if shape < AREAS {
            return Reference::new(whole, 0, shape);
        }
    }
    numbers.place(rt, pair)
}

/// Makes a call on an area.
fn use_area(rt: &impl Abort, alloc: Global, numbers: &mut Numbers, pair: &mut Pair<'_>) -> Answer {
    let area = likely_area(rt, numbers, pair);
    let other = likely_area(rt, numbers, pair);
    let (locator, _) = numbers.meeting(rt, pair);
    let shape = numbers.index(IN_AREAS);
    let items = numbers.items(rt, alloc, pair, shape);
    let call = match numbers.up_to(23) {
        0 => Call::At(area, Use::Empty),
        1 | 2 => Call::Assign(area, other),
        3 | 4 => Call::At(area, Use::Offset(locator)),
        5 | 6 => Call::At(area, Use::Pointer(Locator::Offset(numbers.up_to(40)))),
        7 => Call::At(area, Use::Pointer(locator)),
        _ => Call::AllocateIn(area, shape, &items),
    };
    pair.answer(rt, alloc, call)
}

/// Makes a random call, of the descriptions among so many from a number on.
fn take(
    rt: &impl Abort,
    alloc: Global,
    numbers: &mut Numbers,
    pair: &mut Pair<'_>,
    first: usize,
    count: usize,
) -> Answer {
    let number = first.saturating_add(numbers.index(count)) % pair.model.values.shapes.len().max(1);
    let is_small = pair.model.values.shape(rt, number).size <= SMALL;
    if pair.model.count() == 0 {
        return make(rt, alloc, numbers, pair, if is_small { number } else { 0 });
    }
    match numbers.up_to(31) {
        0 => pair.answer(rt, alloc, Call::Room(number)),
        1 => {
            let ended = [
                numbers.up_to(pair.model.count()),
                numbers.up_to(pair.model.count()),
            ];
            pair.answer(rt, alloc, Call::End(&ended))
        }
        2..=7 if is_small => make(rt, alloc, numbers, pair, number),
        8..=12 => use_locator(rt, alloc, numbers, pair),
        13..=15 => use_stack(rt, alloc, numbers, pair),
        16..=20 if first < AREAS => use_area(rt, alloc, numbers, pair),
        _ => use_place(rt, alloc, numbers, pair),
    }
}

/// Makes so many sequences, of so many descriptions and calls each, and compares what each leaves. In areas these are
/// the first descriptions; else they begin with any.
fn sequences(rt: &impl Abort, alloc: Global, times: u32, in_areas: bool, count: usize, calls: u32) {
    let mut numbers = Numbers::new(1);
    let shapes = all_shapes(rt, alloc);
    let twins = twins_of(rt, alloc, &shapes);
    for _ in 0..times {
        let mut pair = Pair::new(alloc, &shapes, &twins);
        let first = if in_areas {
            0
        } else {
            numbers.index(shapes.len())
        };
        for number in 0..3 {
            let shape = first.saturating_add(number % count.max(1)) % shapes.len().max(1);
            let is_small = pair.model.values.shape(rt, shape).size <= SMALL;
            pair.answer(rt, alloc, Call::Stack(if is_small { shape } else { 0 }));
        }
        for _ in 0..calls {
            take(rt, alloc, &mut numbers, &mut pair, first, count);
        }
        pair.agree(rt, alloc);
    }
}

#[test]
fn one_description(rt: HostRuntime) {
    sequences(&rt, rt.alloc(), 30_000, false, 1, 20);
}

#[test]
fn several_descriptions(rt: HostRuntime) {
    sequences(&rt, rt.alloc(), 30_000, false, 4, 30);
}

#[test]
fn in_areas(rt: HostRuntime) {
    sequences(&rt, rt.alloc(), 5_000, true, IN_AREAS, 100);
}

/// More generations end than those whose memory is kept for others.
#[test]
fn many_generations(rt: HostRuntime) {
    sequences(&rt, rt.alloc(), 1, false, 16, 20_000);
}
