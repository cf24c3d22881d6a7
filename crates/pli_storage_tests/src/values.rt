//! What plain storage keeps: a value for each scalar of what was ever made, in which every part is tried.

use crate::calls::Answer;
use crate::items::Item;
use crate::shapes::{Part, Shape};
use std::alloc::Global;
use std::process::Abort;

/// What a generation or a block holds: the number of its description, and where its values begin.
#[derive(Clone, Copy)]
pub(crate) struct Content {
    pub(crate) shape: usize,
    pub(crate) start: usize,
}

/// All values.
#[derive(Drop)]
pub(crate) struct Values<'m> {
    pub(crate) shapes: &'m [Shape],
    items: Vec<Item>,
}

impl<'m> Values<'m> {
    pub(crate) fn new(alloc: Global, shapes: &'m [Shape]) -> Values<'m> {
        Values {
            shapes,
            items: Vec::new(alloc),
        }
    }

    /// The description of a number.
    pub(crate) fn shape(&self, rt: &impl Abort, shape: usize) -> &'m Shape {
        self.shapes.get(shape).expect(rt, "a description")
    }

    /// Notes the value with which a scalar begins: one of those given, or without any the first one; false where it
    /// may not hold that.
    fn begin(&mut self, rt: &impl Abort, scalar: Part, given: &[Item]) -> bool {
        let description = &self.shape(rt, scalar.shape).description;
        let item = if given.is_empty() {
            Item::first(description)
        } else {
            given.get(scalar.first).copied()
        };
        match item {
            Some(item) if item.fits(description) => {
                self.items.push(item).expect(rt, "memory");
                true
            }
            _ => false,
        }
    }

    /// What something of a description begins with: these values, or without any the first ones; none where its
    /// scalars may not hold them.
    pub(crate) fn begun(
        &mut self,
        rt: &impl Abort,
        shape: usize,
        given: &[Item],
    ) -> Option<Content> {
        let start = self.items.len();
        let described = self.shape(rt, shape);
        for part in described.parts.iter() {
            if part.is_scalar && !self.begin(rt, *part, given) {
                return None;
            }
        }
        if given.len() > described.count {
            return None;
        }
        Some(Content { shape, start })
    }

    /// The same values again, for something else.
    pub(crate) fn copy(&mut self, rt: &impl Abort, content: Content) -> Content {
        let start = self.items.len();
        for number in 0..self.shape(rt, content.shape).count {
            let item = self.value(rt, content.start.saturating_add(number));
            self.items.push(item).expect(rt, "memory");
        }
        Content { start, ..content }
    }

    /// Where the values of a part begin.
    pub(crate) fn part(
        &self,
        rt: &impl Abort,
        content: Content,
        offset: u64,
        shape: usize,
    ) -> Result<usize, Answer> {
        match self.shape(rt, content.shape).part(offset, shape) {
            Some(part) => Ok(content.start.saturating_add(part.first)),
            None => Err(Answer::Wrong),
        }
    }

    /// A value.
    pub(crate) fn value(&self, rt: &impl Abort, at: usize) -> Item {
        *self.items.get(at).expect(rt, "a value")
    }

    /// Puts a value.
    pub(crate) fn put(&mut self, rt: &impl Abort, at: usize, item: Item) {
        *self.items.get_mut(at).expect(rt, "a value") = item;
    }

    /// Puts so many values at others.
    pub(crate) fn move_to(&mut self, rt: &impl Abort, from: usize, to: usize, count: usize) {
        for number in 0..count {
            let item = self.value(rt, from.saturating_add(number));
            self.put(rt, to.saturating_add(number), item);
        }
    }
}
