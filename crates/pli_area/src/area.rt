//! Areas.
ghost use Rattle.std.specs.Prelude.{◌≡◌, ◌+◌, ◌%◌, ◌<◌, ◌≤◌, [], length, None, ℕ, IsSome, IfSome, IfOk, OnOk, OnErr};
ghost use Rattle.std.specs.Option.{option_map};
ghost use Rattle.std.specs.Result.{result_ok};
ghost use Rattle.pli_area.specs.Areas.{IsArea, IsLeast, IsFull, IsAdded, HasBytes, first_fit, holes_visited, block_at};
ghost use Rattle.pli_area.specs.Areas.{without_block, with_bytes, bytes_at, extent};

use crate::header::{HEADER_SIZE, extent_without, put_header, room_of};
use crate::marks::{Marks, is_marked};
use pli_holes::Chain;
use pli_region::Region;
use std::alloc::{AllocError, Global};
use std::marker::Model;
use thiserror::Error;

/// No hole of an area is long enough for a block, or an area is too small for what is assigned to it.
#[derive(Clone, Copy, Debug, PartialEq, Eq, Error)]
#[error("the area is full")]
pub struct Full;

/// No block is at a position.
#[derive(Clone, Copy, Debug, PartialEq, Eq, Error)]
#[error("no block is at this position")]
pub struct NotLive;

/// What a block is.
#[derive(Clone, Copy, Debug, PartialEq, Eq)]
pub struct Block {
    /// The number of its description.
    pub description: u32,
    /// How many bytes it has.
    pub size: u32,
}

/// An area: a fixed number of bytes, in which blocks are placed and taken away (own). Contracts see its capacity, its
/// blocks in rising positions, and how many holes its last allocation looked at. Blocks with their headers and holes
/// lie side by side in one region. All memory that it will ever need is taken when it is made: no other call takes any.
#[derive(Drop)]
pub struct Area {
    region: Region,
    /// Where headers are. No byte of the region can say so, since blocks may have any bytes.
    marks: Marks,
    chain: Chain,
    /// Where the last block ends, 0 without one.
    extent: u32,
    /// How many blocks there are.
    count: u32,
    /// How many holes the last allocation looked at.
    visited: u32,
}

impl Model for Area {
    ghost use Rattle.std.specs.Prelude.{length};
    ghost use Rattle.pli_area.specs.Areas.{Blocks};

    ghost Value = { Blocks };

    ghost use Rattle.pli_area.specs.Held.{IsHeld};
    ghost use Rattle.pli_area.specs.views.AreaView.{blocks_from};

    ghost view = { λ a. record {
      capacity = length a.region;
      blocks = blocks_from a.region 0 a.marks;
      visited = a.visited;
    } };

    ghost invariant = { λ a. IsHeld a.region a.marks a.chain.first a.extent a.count };
}

impl Area {
    ghost use Rattle.pli_area.specs.views.FoundView.{described, of_block};

    /// An area of so many bytes, a multiple of 8, without blocks. Takes all memory that the area will need.
    pub fn new(alloc: Global, capacity: u32) -> Result<Area, AllocError>
        requires { capacity % 8 ≡ 0 }
        ensures capacity { IfOk result (λ area. area.capacity ≡ capacity) }
        ensures blocks { IfOk result (λ area. area.blocks ≡ []) }
        ensures visited { IfOk result (λ area. area.visited ≡ 0) }
    {
        let mut region = Region::new(alloc, capacity)?;
        let marks = Marks::new(alloc, capacity as usize / 8)?;
        let chain = Chain::whole(&mut region);
        Ok(Area {
            region,
            marks,
            chain,
            extent: 0,
            count: 0,
            visited: 0,
        })
    }

    /// A law: blocks stand in rising positions, at multiples of 8, no two meet, and none passes the capacity.
    pub fn stands(&self)
        ensures { IsArea self.now }
    {
        let _ = &self.extent;
    }

    /// Places a block at the least position that fits, and answers it. What its bytes are at first is not said. `Full`
    /// where no position fits, and then nothing changes but how many holes were looked at. Looks at holes alone until
    /// it finds one.
    pub fn allocate(&mut self, description: u32, size: u32) -> Result<u32, Full>
        ensures place { result_ok result ≡ first_fit self.old size }
        ensures least { IfOk result (λ position. IsLeast self.old size position) }
        ensures added { IfOk result (λ position. IsAdded self.old.blocks self.new.blocks position description size) }
        ensures full { OnErr result (IsFull self.old size) }
        ensures unchanged { OnErr result (self.new.blocks ≡ self.old.blocks) }
        ensures capacity { self.new.capacity ≡ self.old.capacity }
        ensures visited { self.new.visited ≡ holes_visited self.old size }
    {
        let room = room_of(size);
        let taken = self.chain.take(&mut self.region, room);
        self.visited = taken.looked_at;
        let Some(start) = taken.place else {
            return Err(Full);
        };
        put_header(&mut self.region, start, description, size);
        self.marks.set(start as usize / 8, true);
        self.extent = self.extent.max((start as usize + room) as u32);
        self.count += 1;
        Ok(start + HEADER_SIZE)
    }

    /// Takes the block at a position away; the holes beside it and what it covered become one. `NotLive` where no block
    /// is there, and then nothing changes. Passes the holes before the block.
    pub fn release(&mut self, position: u32) -> Result<(), NotLive>
        ensures live { OnOk result (IsSome (block_at self.old.blocks position)) }
        ensures released { OnOk result (self.new.blocks ≡ without_block self.old.blocks position) }
        ensures not_live { OnErr result (block_at self.old.blocks position ≡ None) }
        ensures unchanged { OnErr result (self.new.blocks ≡ self.old.blocks) }
        ensures capacity { self.new.capacity ≡ self.old.capacity }
        ensures visited { self.new.visited ≡ self.old.visited }
    {
        if !is_marked(&self.marks, position) {
            return Err(NotLive);
        }
        let start = position - HEADER_SIZE;
        let room = room_of(self.region.word(start + 4)) as u32;
        let hole = self.chain.give_back(&mut self.region, start, room);
        self.marks.set(start as usize / 8, false);
        self.extent = extent_without(self.extent, start + room, hole.start);
        self.count -= 1;
        Ok(())
    }

    /// What the block at a position is, or `None` where no block is there, whatever bytes stand there. Takes the same
    /// time for any position.
    pub fn find(&self, position: u32) -> Option<Block>
        ensures block { option_map described result ≡ option_map of_block (block_at self.now.blocks position) }
        ensures bytes { IfSome result (λ found. (at count : ℕ) → at + count ≤ found.size
            → HasBytes self.now.blocks position at count) }
    {
        if !is_marked(&self.marks, position) {
            return None;
        }
        let start = position - HEADER_SIZE;
        Some(Block {
            description: self.region.word(start),
            size: self.region.word(start + 4),
        })
    }

    /// Reads bytes of the block at a position, from the byte `at` of the block on, the first being 0.
    pub fn read(&self, position: u32, at: u32, into: &mut [u8])
        requires { HasBytes self.now.blocks position at (length into.old) }
        ensures { into.new ≡ bytes_at self.now.blocks position at (length into.old) }
    {
        self.region.read_into(position + at, into);
    }

    /// Writes bytes into the block at a position, from the byte `at` of the block on, the first being 0.
    pub fn write(&mut self, position: u32, at: u32, from: &[u8])
        requires { HasBytes self.old.blocks position at (length from.now) }
        ensures blocks { self.new.blocks ≡ with_bytes self.old.blocks position at from.now }
        ensures capacity { self.new.capacity ≡ self.old.capacity }
        ensures visited { self.new.visited ≡ self.old.visited }
    {
        self.region.write_from(position + at, from);
    }

    /// Takes all blocks away.
    pub fn empty(&mut self)
        ensures blocks { self.new.blocks ≡ [] }
        ensures capacity { self.new.capacity ≡ self.old.capacity }
        ensures visited { self.new.visited ≡ self.old.visited }
    {
        self.marks.clear();
        self.chain = Chain::whole(&mut self.region);
        self.extent = 0;
        self.count = 0;
    }

    /// Puts the blocks of another area in the place of all, at the same positions. `Full` where the other's extent
    /// passes the capacity, and then nothing changes. Copies the bytes below that extent and the marks; passes no hole.
    pub fn assign(&mut self, source: &Area) -> Result<(), Full>
        ensures fits { OnOk result (extent source.now.blocks ≤ self.old.capacity) }
        ensures assigned { OnOk result (self.new.blocks ≡ source.now.blocks) }
        ensures full { OnErr result (self.old.capacity < extent source.now.blocks) }
        ensures unchanged { OnErr result (self.new.blocks ≡ self.old.blocks) }
        ensures capacity { self.new.capacity ≡ self.old.capacity }
        ensures visited { self.new.visited ≡ self.old.visited }
    {
        let extent = source.extent;
        if extent > self.region.len() {
            return Err(Full);
        }
        self.region.copy_from(&source.region, 0, 0, extent);
        Chain::put_last(&mut self.region, extent);
        self.marks.take_over(&source.marks, extent as usize / 8);
        self.chain = source.chain;
        self.extent = extent;
        self.count = source.count;
        Ok(())
    }

    /// Where the last block ends, 0 without one.
    pub fn extent(&self) -> u32
        ensures { result ≡ extent self.now.blocks }
    {
        self.extent
    }

    /// How many blocks there are.
    pub fn count(&self) -> u32
        ensures { result ≡ length self.now.blocks }
    {
        self.count
    }

    /// How many bytes the area has.
    pub fn capacity(&self) -> u32
        ensures { result ≡ self.now.capacity }
    {
        self.region.len()
    }

    /// How many holes the last allocation looked at: those up to the one that it took, all of them where it was full; 0
    /// before the first.
    pub fn visited(&self) -> u32
        ensures { result ≡ self.now.visited }
    {
        self.visited
    }
}
