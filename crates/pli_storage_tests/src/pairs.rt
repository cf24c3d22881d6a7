//! Storage and its model, on which the same calls are made.

use crate::calls::{Answer, Call, Reference, Use, Whole};
use crate::model::Model;
use crate::shapes::Shape;
use crate::tested::Tested;
use pli_map::Description;
use std::alloc::Global;
use std::process::Abort;

/// Storage and its model. A call on both fails where their answers differ.
#[derive(Drop)]
pub(crate) struct Pair<'m> {
    tested: Tested<'m>,
    pub(crate) model: Model<'m>,
}

impl<'m> Pair<'m> {
    /// Both without generations, made of descriptions; parts and variables are asked for by equal ones that stand
    /// elsewhere.
    pub(crate) fn new(alloc: Global, shapes: &'m [Shape], twins: &'m [Description]) -> Pair<'m> {
        Pair {
            tested: Tested::new(alloc, shapes, twins),
            model: Model::new(alloc, shapes),
        }
    }

    /// Makes a call.
    pub(crate) fn answer(&mut self, rt: &impl Abort, alloc: Global, call: Call) -> Answer {
        let answered = self.tested.answer(rt, alloc, call);
        if answered != Answer::Far {
            let modeled = self.model.answer(rt, alloc, call);
            assert!(rt;
                answered == modeled,
                "{answered}, and by the model {modeled}"
            );
        }
        answered
    }

    /// Fails unless both hold the same in each scalar of something.
    fn agree_on(&mut self, rt: &impl Abort, alloc: Global, whole: Whole) {
        let shape = self.model.meeting(rt, whole).shape;
        for part in self.model.values.shape(rt, shape).parts.iter() {
            if part.is_scalar {
                let offset = u32::try_from(part.offset).expect(rt, "an offset");
                let reference = Reference::new(whole, offset, part.shape);
                self.answer(rt, alloc, Call::At(reference, Use::Held));
            }
        }
    }

    /// Fails unless both have the same blocks in a generation.
    fn agree_on_blocks(&mut self, rt: &impl Abort, alloc: Global, generation: u32) {
        for number in 0..self.model.block_count(generation) {
            let block = self
                .model
                .block(rt, generation, number)
                .expect(rt, "a block");
            self.answer(rt, alloc, Call::Based(block.shape, block.locator()));
        }
    }

    /// Fails unless both hold the same in each scalar of each generation that was ever made, and of what references
    /// have met.
    pub(crate) fn agree(&mut self, rt: &impl Abort, alloc: Global) {
        for generation in 0..self.model.count() {
            self.agree_on(rt, alloc, Whole::Generation(generation));
            self.agree_on_blocks(rt, alloc, generation);
        }
        for number in 0..self.model.meetings.len() {
            self.agree_on(rt, alloc, Whole::Met(number));
        }
    }
}
