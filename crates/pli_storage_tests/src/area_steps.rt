//! Worked sequences of calls on areas.

use crate::area_calls::{Answer, Call};
use crate::area_pairs::{AreaPair, assign};
use crate::steps::{natural, steps};
use std::alloc::Global;
use std::process::Abort;

/// The call that words spell.
fn call_of<'a>(rt: &impl Abort, words: &[&'a str]) -> Call<'a> {
    match *words {
        ["allocate", size] => Call::Allocate(1, natural(rt, size)),
        ["allocate", size, "of", description] => {
            Call::Allocate(natural(rt, description), natural(rt, size))
        }
        ["release", position] => Call::Release(natural(rt, position)),
        ["find", position] => Call::Find(natural(rt, position)),
        ["read", position, at, count] => {
            Call::Read(natural(rt, position), natural(rt, at), natural(rt, count))
        }
        ["write", position, at, text] => {
            Call::Write(natural(rt, position), natural(rt, at), text.as_bytes())
        }
        ["empty"] => Call::Empty,
        ["extent"] => Call::Extent,
        ["count"] => Call::Count,
        ["capacity"] => Call::Capacity,
        ["visited"] => Call::Visited,
        _ => panic!(rt; "no call"),
    }
}

/// The number of an area by its letter.
fn area_number(letter: &str) -> usize {
    match letter {
        "A" => 0,
        "B" => 1,
        _ => 2,
    }
}

/// Makes an area under a number.
fn make(rt: &impl Abort, alloc: Global, areas: &mut Vec<AreaPair>, number: usize, capacity: u32) {
    let area = AreaPair::new(rt, alloc, capacity);
    if number < areas.len() {
        areas[number] = area;
    } else {
        areas.push(area).expect(rt, "memory");
    }
}

/// The answer to a call, whose area is A unless another letter stands before it.
fn answer_to(rt: &impl Abort, alloc: Global, areas: &mut Vec<AreaPair>, call: &str) -> Answer {
    let (letter, call) = match call.split_once(' ') {
        Some(("B", call)) => ("B", call),
        Some(("C", call)) => ("C", call),
        _ => ("A", call),
    };
    let area = area_number(letter);
    let words: Vec<&str> = call.split_whitespace().collect(alloc).expect(rt, "memory");
    match *words {
        ["new", capacity] => {
            make(rt, alloc, areas, area, natural(rt, capacity));
            Answer::Done
        }
        ["assign", source] => assign(rt, areas, area, area_number(source)),
        _ => {
            assert!(rt; area < areas.len());
            areas[area].answer(rt, alloc, call_of(rt, &words))
        }
    }
}

/// Runs sequences, before each of which `// ` stands.
pub(crate) fn run(rt: &impl Abort, alloc: Global, sequences: &str) {
    for sequence in sequences.split("// ") {
        let mut areas = Vec::new(alloc);
        for step in steps(rt, alloc, sequence).iter() {
            let answer = answer_to(rt, alloc, &mut areas, step.call);
            step.check(rt, &answer.to_string(alloc).expect(rt, "memory"));
        }
    }
}
