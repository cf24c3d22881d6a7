//! Worked sequences of calls on storage.

use crate::calls::{Answer, Call, Reference, Use, Whole};
use crate::items::Item;
use crate::pairs::Pair;
use crate::shapes::{all_shapes, shape_number, twins_of};
use crate::steps::{natural, steps};
use pli_store::Made;
use std::alloc::Global;
use std::process::Abort;

/// The number with a sign that a word is.
fn integer(rt: &impl Abort, word: &str) -> i32 {
    word.parse().expect(rt, "a number")
}

/// Adds what leads on to an element: `3@1*8+2` is 8 bytes for each subscript that 3 is above low bound 1, and 2 more.
fn add_element(rt: &impl Abort, reference: &mut Reference, words: &str) {
    let (element, second) = words.split_once('+').unwrap_or((words, "0"));
    let (subscript, element) = element.split_once('@').expect(rt, "a low bound");
    let (low, multiplier) = element.split_once('*').expect(rt, "a multiplier");
    reference.subscript = integer(rt, subscript);
    reference.low = integer(rt, low);
    reference.multiplier = natural(rt, multiplier);
    reference.second = natural(rt, second);
}

/// Generation 2 by `2`, what the reference of number 2 has met by `#2`.
fn whole_of(rt: &impl Abort, word: &str) -> Whole {
    match word.strip_prefix("#") {
        Some(number) => Whole::Met(natural(rt, number) as usize),
        None => Whole::Generation(natural(rt, word)),
    }
}

/// The place that a word is: `2` the whole of generation 2, `2+8:n15` a part 8 bytes further, and `2+8+3@1*8+2:n15`
/// one that is so much further again.
fn reference_of(rt: &impl Abort, pair: &Pair<'_>, word: &str) -> Reference {
    let Some((path, name)) = word.split_once(':') else {
        let whole = whole_of(rt, word);
        return Reference::new(whole, 0, pair.model.meeting(rt, whole).shape);
    };
    let shape = shape_number(rt, pair.model.values.shapes, name);
    let (whole, path) = path.split_once('+').unwrap_or((path, "0"));
    let (offset, element) = path.split_once('+').unwrap_or((path, "0@0*0"));
    let mut reference = Reference::new(whole_of(rt, whole), natural(rt, offset), shape);
    add_element(rt, &mut reference, element);
    reference
}

/// The values that words are.
fn items_of(rt: &impl Abort, alloc: Global, words: &str) -> Vec<Item> {
    let mut items = Vec::new(alloc);
    for word in words.split_whitespace() {
        items.push(Item::read(rt, word)).expect(rt, "memory");
    }
    items
}

/// The answer to a call that speaks of a description.
fn described(
    rt: &impl Abort,
    alloc: Global,
    pair: &mut Pair<'_>,
    verb: &str,
    name: &str,
    words: &str,
) -> Answer {
    let shape = shape_number(rt, pair.model.values.shapes, name);
    let items = items_of(rt, alloc, words);
    let call = match (verb, items.as_slice()) {
        ("room", _) => Call::Room(shape),
        ("stack", _) => Call::Stack(shape),
        ("make", items) => Call::Make(Made::Automatic, shape, items),
        ("static", items) => Call::Make(Made::Static, shape, items),
        ("allocate", items) => Call::Allocate(shape, items),
        ("dummy", [item]) => Call::Dummy(shape, *item),
        ("based", [Item::Locator(locator)]) => Call::Based(shape, *locator),
        ("free", [Item::Locator(locator)]) => Call::Free(shape, *locator),
        _ => panic!(rt; "no call"),
    };
    pair.answer(rt, alloc, call)
}

/// The answer to a call that speaks of a stack.
fn stacked(rt: &impl Abort, alloc: Global, pair: &mut Pair<'_>, verb: &str, list: &str) -> Answer {
    let list = natural(rt, list) as usize;
    let call = match verb {
        "newest" => Call::Newest(list),
        "count" => Call::Count(list),
        "pop" => Call::Pop(list),
        _ => Call::Push(list),
    };
    pair.answer(rt, alloc, call)
}

/// What is done at a place, by a word or two.
fn use_of(rt: &impl Abort, verb: &str, words: &str) -> Use {
    let (word, room) = words.split_once(' ').unwrap_or((words, "0"));
    if word.is_empty() {
        return match verb {
            "held" => Use::Held,
            "number" => Use::Number,
            "text" => Use::Text,
            "empty" => Use::Empty,
            _ => Use::Address,
        };
    }
    match (verb, Item::read(rt, word)) {
        ("put", Item::Number(number)) => Use::Put(number),
        ("append", Item::Characters(more)) => Use::Append(more, natural(rt, room) as usize),
        ("offset", Item::Locator(locator)) => Use::Offset(locator),
        ("pointer", Item::Locator(locator)) => Use::Pointer(locator),
        (_, item) => Use::Store(item),
    }
}

/// The answer to a call that speaks of a place.
fn placed(
    rt: &impl Abort,
    alloc: Global,
    pair: &mut Pair<'_>,
    verb: &str,
    target: &str,
    words: &str,
) -> Answer {
    let reference = reference_of(rt, pair, target);
    let call = match verb {
        "copy" => Call::Copy(reference, reference_of(rt, pair, words)),
        "assign" => Call::Assign(reference, reference_of(rt, pair, words)),
        _ => Call::At(reference, use_of(rt, verb, words)),
    };
    pair.answer(rt, alloc, call)
}

/// The answer to ALLOCATE of a BASED variable in an area.
fn allocated(
    rt: &impl Abort,
    alloc: Global,
    pair: &mut Pair<'_>,
    area: &str,
    words: &str,
) -> Answer {
    let (name, words) = words.split_once(' ').unwrap_or((words, ""));
    let items = items_of(rt, alloc, words);
    let shape = shape_number(rt, pair.model.values.shapes, name);
    let area = reference_of(rt, pair, area);
    pair.answer(rt, alloc, Call::AllocateIn(area, shape, &items))
}

/// The answer to the end of generations.
fn ended(rt: &impl Abort, alloc: Global, pair: &mut Pair<'_>, words: &str) -> Answer {
    let mut numbers = Vec::new(alloc);
    for word in words.split_whitespace() {
        numbers.push(natural(rt, word)).expect(rt, "memory");
    }
    pair.answer(rt, alloc, Call::End(&numbers))
}

/// The answer to a call: its verb, what it speaks of, and values.
fn answer_to(rt: &impl Abort, alloc: Global, pair: &mut Pair<'_>, call: &str) -> Answer {
    let (verb, words) = call.split_once(' ').unwrap_or((call, ""));
    let (target, rest) = words.split_once(' ').unwrap_or((words, ""));
    match verb {
        "end" => ended(rt, alloc, pair, words),
        "in" => allocated(rt, alloc, pair, target, rest),
        "newest" | "count" | "pop" | "push" => stacked(rt, alloc, pair, verb, target),
        "room" | "stack" | "make" | "static" | "allocate" | "dummy" | "based" | "free" => {
            described(rt, alloc, pair, verb, target, rest)
        }
        _ => placed(rt, alloc, pair, verb, target, rest),
    }
}

/// Runs sequences, before each of which `// ` stands.
pub(crate) fn run(rt: &impl Abort, alloc: Global, sequences: &str) {
    let shapes = all_shapes(rt, alloc);
    let twins = twins_of(rt, alloc, &shapes);
    for sequence in sequences.split("// ") {
        let mut pair = Pair::new(alloc, &shapes, &twins);
        for step in steps(rt, alloc, sequence).iter() {
            let answer = answer_to(rt, alloc, &mut pair, step.call);
            step.check(rt, &answer.to_string(alloc).expect(rt, "memory"));
        }
        pair.agree(rt, alloc);
    }
}
