//! A plain and slow area: a list of blocks, and every position tried.

use crate::area_calls::{Answer, Call};
use std::alloc::Global;
use std::process::Abort;

/// A block of the model.
#[derive(Clone, Drop)]
pub(crate) struct ModelBlock {
    pub(crate) position: u32,
    pub(crate) description: u32,
    size: u32,
    /// Where what it covers begins and ends.
    start: u64,
    end: u64,
    bytes: Vec<u8>,
}

impl ModelBlock {
    /// Its bytes from one on, where it has so many.
    fn bytes_at(&self, at: u32, count: usize) -> Option<&[u8]> {
        let at = at as usize;
        self.bytes.get(at..at.saturating_add(count))
    }

    /// Writes bytes from one on, and says whether it has so many.
    fn write(&mut self, at: u32, bytes: &[u8]) -> bool {
        let (from, count) = (at as usize, bytes.len());
        if from > self.bytes.len() || count > self.bytes.len() - from {
            return false;
        }
        self.bytes[from..from + count].copy_from_slice(bytes);
        true
    }
}

/// An area as a list of blocks, in the order in which they were placed.
#[derive(Drop)]
pub(crate) struct AreaModel {
    capacity: u32,
    pub(crate) blocks: Vec<ModelBlock>,
    /// How many holes the last allocation looked at.
    visited: u64,
}

impl AreaModel {
    pub(crate) fn new(alloc: Global, capacity: u32) -> AreaModel {
        AreaModel {
            capacity,
            blocks: Vec::new(alloc),
            visited: 0,
        }
    }

    pub(crate) fn capacity(&self) -> u32 {
        self.capacity
    }

    /// The position and the size of the block of a number, in the order in which blocks were placed.
    pub(crate) fn place(&self, number: usize) -> Option<(u32, u32)> {
        let block = self.blocks.get(number)?;
        Some((block.position, block.size))
    }

    /// How many bytes the block at a position has, 0 without one.
    pub(crate) fn size(&self, position: u32) -> u32 {
        self.block(position).map_or(0, |block| block.size)
    }

    pub(crate) fn count(&self) -> usize {
        self.blocks.len()
    }

    pub(crate) fn block(&self, position: u32) -> Option<&ModelBlock> {
        self.blocks.iter().find(|block| block.position == position)
    }

    fn extent(&self) -> u64 {
        self.blocks.iter().map(|block| block.end).max().unwrap_or(0)
    }

    /// Whether no block covers anything from a start to an end, and this is not past the capacity.
    fn is_free(&self, start: u64, end: u64) -> bool {
        end <= u64::from(self.capacity)
            && self
                .blocks
                .iter()
                .all(|block| end <= block.start || block.end <= start)
    }

    /// The first multiple of 8 from which on so many bytes are free.
    fn first_free(&self, room: u64) -> Option<u64> {
        (0..u64::from(self.capacity))
            .step_by(8)
            .find(|start| self.is_free(*start, start.saturating_add(room)))
    }

    /// How many holes begin up to a place, each at 0 or where a block ends.
    fn holes_up_to(&self, last: u64) -> u64 {
        let mut count = u64::from(self.is_free(0, 8));
        for block in &self.blocks {
            if block.end <= last && self.is_free(block.end, block.end.saturating_add(8)) {
                count = count.saturating_add(1);
            }
        }
        count
    }

    /// Places a block, and answers its position, if there is room.
    pub(crate) fn allocate(
        &mut self,
        rt: &impl Abort,
        alloc: Global,
        description: u32,
        size: u32,
    ) -> Option<u32> {
        let room = 8 + u64::from(size).div_ceil(8) * 8;
        let first = self.first_free(room);
        self.visited = self.holes_up_to(first.unwrap_or(u64::from(self.capacity)));
        let start = first?;
        let position = u32::try_from(start.saturating_add(8)).expect(rt, "a position");
        let block = ModelBlock {
            position,
            description,
            size,
            start,
            end: start.saturating_add(room),
            bytes: vec![in alloc; 0; size as usize].expect(rt, "memory"),
        };
        self.blocks.push(block).expect(rt, "memory");
        Some(position)
    }

    /// Takes the block at a position away, if there is one.
    pub(crate) fn release(&mut self, position: u32) -> bool {
        let is_live = self.block(position).is_some();
        self.blocks.retain(move |block| block.position != position);
        is_live
    }

    fn write(&mut self, position: u32, at: u32, bytes: &[u8]) -> Answer {
        for block in self.blocks.iter_mut() {
            if block.position == position && block.write(at, bytes) {
                return Answer::Done;
            }
        }
        Answer::Dead
    }

    fn read(&self, rt: &impl Abort, alloc: Global, position: u32, at: u32, count: u32) -> Answer {
        let Some(block) = self.block(position) else {
            return Answer::Dead;
        };
        match block.bytes_at(at, count as usize) {
            Some(bytes) => Answer::Bytes(bytes.to_vec(alloc).expect(rt, "memory")),
            None => Answer::Dead,
        }
    }

    /// Has these blocks in the place of all, if none ends past the capacity.
    pub(crate) fn take_over(&mut self, blocks: Vec<ModelBlock>) -> bool {
        let capacity = u64::from(self.capacity);
        let fits = blocks.iter().all(|block| block.end <= capacity);
        if fits {
            self.blocks = blocks;
        }
        fits
    }

    /// Takes over the blocks of another.
    pub(crate) fn assign(&mut self, rt: &impl Abort, source: &AreaModel) -> Answer {
        if self.take_over(source.blocks.clone().expect(rt, "memory")) {
            Answer::Done
        } else {
            Answer::Full
        }
    }

    /// Makes a call on the model.
    pub(crate) fn answer(&mut self, rt: &impl Abort, alloc: Global, call: Call) -> Answer {
        match call {
            Call::Allocate(description, size) => {
                match self.allocate(rt, alloc, description, size) {
                    Some(position) => Answer::Position(position),
                    None => Answer::Full,
                }
            }
            Call::Release(position) if self.release(position) => Answer::Done,
            Call::Release(_) => Answer::Dead,
            Call::Find(position) => match self.block(position) {
                Some(block) => Answer::Block(block.description, block.size),
                None => Answer::Dead,
            },
            Call::Read(position, at, count) => self.read(rt, alloc, position, at, count),
            Call::Write(position, at, bytes) => self.write(position, at, bytes),
            Call::Empty => {
                self.blocks.clear();
                Answer::Done
            }
            Call::Extent => Answer::Number(self.extent()),
            Call::Count => Answer::Number(self.count() as u64),
            Call::Capacity => Answer::Number(u64::from(self.capacity)),
            Call::Visited => Answer::Number(self.visited),
        }
    }
}
