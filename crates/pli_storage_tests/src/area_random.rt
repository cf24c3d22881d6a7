//! Random sequences of calls on areas, each with the answers of the model.

use crate::area_calls::{Answer, Call};
use crate::area_pairs::{AreaPair, assign};
use crate::numbers::Numbers;
use std::alloc::Global;
use std::process::Abort;
use std::test::*;

impl Numbers {
    /// So many bytes.
    fn bytes(&mut self, rt: &impl Abort, alloc: Global, count: u32) -> Vec<u8> {
        let mut bytes = Vec::new(alloc);
        for _ in 0..count {
            bytes.push(self.up_to(255) as u8).expect(rt, "memory");
        }
        bytes
    }

    /// A size: mostly a small one, now and then one up to the capacity, or any.
    fn size(&mut self, area: &AreaPair) -> u32 {
        match self.up_to(15) {
            0 => self.any(),
            1 => self.up_to(area.model.capacity()),
            _ => self.up_to(20),
        }
    }

    /// A position: mostly that of a block, else any up to 9 past the capacity.
    fn position(&mut self, area: &AreaPair) -> u32 {
        let number = self.index(area.model.count());
        match area.model.place(number) {
            Some((position, _)) if self.up_to(3) > 0 => position,
            _ => self.up_to(area.model.capacity().saturating_add(9)),
        }
    }
}

/// Allocates a block, and writes all its bytes, since those that it has at first are not said.
fn allocate(rt: &impl Abort, alloc: Global, numbers: &mut Numbers, area: &mut AreaPair) {
    let (description, size) = (numbers.any(), numbers.size(area));
    let call = Call::Allocate(description, size);
    let answer = area.answer(rt, alloc, call);
    area.answer(rt, alloc, Call::Visited);
    if let Answer::Position(position) = answer {
        let bytes = numbers.bytes(rt, alloc, size);
        area.answer(rt, alloc, Call::Write(position, 0, &bytes));
    }
}

/// Reads or writes a part of a block.
fn read_or_write(rt: &impl Abort, alloc: Global, numbers: &mut Numbers, area: &mut AreaPair) {
    let position = numbers.position(area);
    let size = area.model.size(position);
    let at = numbers.up_to(size);
    let count = numbers.up_to(size - at);
    if numbers.up_to(1) == 0 {
        area.answer(rt, alloc, Call::Read(position, at, count));
        return;
    }
    let bytes = numbers.bytes(rt, alloc, count);
    area.answer(rt, alloc, Call::Write(position, at, &bytes));
}

/// Makes a random call on an area.
fn take(rt: &impl Abort, alloc: Global, numbers: &mut Numbers, area: &mut AreaPair) {
    let position = numbers.position(area);
    match numbers.up_to(31) {
        0..=15 => allocate(rt, alloc, numbers, area),
        16..=23 => drop(area.answer(rt, alloc, Call::Release(position))),
        24 | 25 => drop(area.answer(rt, alloc, Call::Find(position))),
        26..=29 => read_or_write(rt, alloc, numbers, area),
        30 => area.agree(rt, alloc),
        _ => drop(area.answer(rt, alloc, Call::Empty)),
    }
}

/// Makes 5 to 30 random calls on so many new areas, and compares what they leave.
fn sequence(rt: &impl Abort, alloc: Global, numbers: &mut Numbers, count: u32, eighths: u8) {
    let mut areas = Vec::new(alloc);
    for _ in 0..count {
        let area = AreaPair::new(rt, alloc, 8 * numbers.up_to(u32::from(eighths)));
        areas.push(area).expect(rt, "memory");
    }
    for _ in 0..5 + numbers.up_to(25) {
        let (target, source) = (numbers.index(areas.len()), numbers.index(areas.len()));
        if target != source && numbers.up_to(7) == 0 {
            assign(rt, &mut areas, target, source);
        } else if let Some(area) = areas.get_mut(target) {
            take(rt, alloc, numbers, area);
        }
    }
    for area in areas.iter_mut() {
        area.agree(rt, alloc);
    }
}

/// How many sequences a test makes: 1,008,000 in all six.
const SEQUENCES: u32 = 168_000;

/// Makes the sequences of a test, on so many areas of at most 8 times so many bytes.
fn sequences(rt: &impl Abort, alloc: Global, seed: u64, count: u32, eighths: u8) {
    let mut numbers = Numbers::new(seed);
    for _ in 0..SEQUENCES {
        sequence(rt, alloc, &mut numbers, count, eighths);
    }
}

#[test]
fn one_small_area(rt: HostRuntime) {
    sequences(&rt, rt.alloc(), 1, 1, 16);
}

#[test]
fn one_area(rt: HostRuntime) {
    sequences(&rt, rt.alloc(), 2, 1, 32);
}

#[test]
fn two_small_areas(rt: HostRuntime) {
    sequences(&rt, rt.alloc(), 3, 2, 16);
}

#[test]
fn two_areas(rt: HostRuntime) {
    sequences(&rt, rt.alloc(), 4, 2, 32);
}

#[test]
fn three_small_areas(rt: HostRuntime) {
    sequences(&rt, rt.alloc(), 5, 3, 16);
}

#[test]
fn three_areas(rt: HostRuntime) {
    sequences(&rt, rt.alloc(), 6, 3, 32);
}
