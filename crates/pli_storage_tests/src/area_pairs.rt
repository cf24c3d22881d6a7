//! Areas and their models, on which the same calls are made.

use crate::area_calls::{Answer, Call, answer_of};
use crate::area_model::AreaModel;
use pli_area::Area;
use std::alloc::Global;
use std::process::Abort;

/// An area and its model. A call on both fails where their answers differ.
#[derive(Drop)]
pub(crate) struct AreaPair {
    area: Area,
    pub(crate) model: AreaModel,
}

impl AreaPair {
    /// Both of a capacity, a multiple of 8, without blocks.
    pub(crate) fn new(rt: &impl Abort, alloc: Global, capacity: u32) -> AreaPair {
        assert!(rt; capacity % 8 == 0);
        AreaPair {
            area: Area::new(alloc, capacity).expect(rt, "memory"),
            model: AreaModel::new(alloc, capacity),
        }
    }

    /// Makes a call.
    pub(crate) fn answer(&mut self, rt: &impl Abort, alloc: Global, call: Call) -> Answer {
        let answered = answer_of(rt, alloc, &mut self.area, call);
        let modeled = self.model.answer(rt, alloc, call);
        assert!(rt;
            answered == modeled,
            "{answered}, and by the model {modeled}"
        );
        answered
    }

    /// Assigns another.
    pub(crate) fn assign(&mut self, rt: &impl Abort, source: &AreaPair) -> Answer {
        let answered = match self.area.assign(&source.area) {
            Ok(()) => Answer::Done,
            Err(_) => Answer::Full,
        };
        let modeled = self.model.assign(rt, &source.model);
        assert!(rt;
            answered == modeled,
            "assigned: {answered}, and by the model {modeled}"
        );
        answered
    }

    /// Fails unless both have the same blocks with the same bytes.
    pub(crate) fn agree(&mut self, rt: &impl Abort, alloc: Global) {
        for call in [Call::Capacity, Call::Count, Call::Extent, Call::Visited] {
            self.answer(rt, alloc, call);
        }
        for number in 0..self.model.count() {
            let (position, count) = self.model.place(number).expect(rt, "a block");
            self.answer(rt, alloc, Call::Find(position));
            self.answer(rt, alloc, Call::Read(position, 0, count));
        }
    }
}

/// Assigns one of some areas to another of them; to itself nothing is assigned.
pub(crate) fn assign(
    rt: &impl Abort,
    areas: &mut [AreaPair],
    target: usize,
    source: usize,
) -> Answer {
    assert!(rt; target < areas.len() && source < areas.len());
    if target < source {
        let (front, after) = areas.split_at_mut(source);
        return front[target].assign(rt, &after[0]);
    }
    if source < target {
        let (front, after) = areas.split_at_mut(target);
        return after[0].assign(rt, &front[source]);
    }
    Answer::Done
}
