//! Chains of holes.
ghost use Rattle.std.specs.Prelude.{◌≡◌, ◌%◌, ◌≤◌, [], List, find, length, nat_le, IfNone};
ghost use Rattle.std.specs.Option.{option_map};
ghost use Rattle.pli_region.specs.Words.{word_at};
ghost use Rattle.pli_holes.specs.declared.hole.Hole.{Hole};
ghost use Rattle.pli_holes.specs.Holes.{Leads, Spells, IsChain, IsInUse, ChangesWithin};
ghost use Rattle.pli_holes.specs.Holes.{hole_between, taken, looked_at, given, hole_given};

use crate::hole::Hole;
use crate::walk::pass;
use crate::write::{lead, put_hole, shorten, touched, touching};
use pli_region::Region;

/// A chain of holes inside a region (own), in rising places: the first word of each hole is how many bytes it has, the
/// second is where the next hole begins, or the region's length. Each has 8 bytes or a multiple of that.
#[derive(Clone, Copy, Debug, PartialEq, Eq)]
pub struct Chain {
    /// Where the first hole begins, or the region's length where there is none.
    pub first: u32,
}

/// What `Chain::take` found.
#[derive(Clone, Copy, Debug, PartialEq, Eq)]
pub struct Taken {
    /// Where the bytes begin that were taken, or `None` where no hole has as many.
    pub place: Option<u32>,
    /// How many holes were looked at.
    pub looked_at: u32,
}

impl Chain {
    /// Makes a region, whose length is a multiple of 8, one hole.
    pub fn whole(region: &mut Region) -> Chain
        requires { length region.old % 8 ≡ 0 }
        ensures spelled { Spells region.new result.first (hole_between 0 (length region.old) []) }
        ensures count { length region.new ≡ length region.old }
    {
        Chain::put_last(region, 0);
        Chain { first: 0 }
    }

    /// Makes the bytes from a place on the last hole, if there are any: a chain that leads to this place leads through
    /// this hole to the region's end.
    pub fn put_last(region: &mut Region, start: u32)
        requires within { start ≤ length region.old }
        requires aligned { start % 8 ≡ 0 }
        requires even { length region.old % 8 ≡ 0 }
        ensures leads { Leads (word_at region.new) start (hole_between start (length region.old) [])
            (length region.old) }
        ensures kept { ChangesWithin (hole_between start (length region.old) []) region.old region.new }
    {
        let room = region.len() - start;
        if room > 0 {
            put_hole(region, Hole { start, room }, start + room);
        }
    }

    /// Takes `room` bytes, a multiple of 8, from the front of the first hole that has them; what is left of the hole
    /// stays in the chain. Where no hole has them, nothing changes. Looks at holes alone until it finds one.
    pub fn take(&mut self, region: &mut Region, room: usize) -> Taken
        requires chain { IsChain region.old self.old.first }
        requires aligned { room % 8 ≡ 0 }
        requires some { 8 ≤ room }
        ensures place { (holes : List Hole) → Spells region.old self.old.first holes
            → option_map (λ h. h.start) (find (λ h. nat_le room h.room) holes) ≡ result.place }
        ensures looked_at { (holes : List Hole) → Spells region.old self.old.first holes
            → result.looked_at ≡ looked_at room holes }
        ensures spelled { (holes : List Hole) → Spells region.old self.old.first holes
            → Spells region.new self.new.first (taken room holes) }
        ensures kept { (holes : List Hole) → Spells region.old self.old.first holes
            → ChangesWithin holes region.old region.new }
        ensures unchanged { IfNone result.place (region.new ≡ region.old) }
    {
        let len = region.len();
        let stop = pass(region, self.first, len, room);
        if stop.at == len {
            return Taken {
                place: None,
                looked_at: stop.passed,
            };
        }
        let to = shorten(region, stop.at, room as u32);
        self.first = lead(region, self.first, stop.before, to);
        Taken {
            place: Some(stop.at),
            looked_at: stop.passed + 1,
        }
    }

    /// Gives back `room` bytes, a multiple of 8, from a place on, which no hole has: they become a hole, joined to the
    /// holes that they touch, and this is the answer.
    pub fn give_back(&mut self, region: &mut Region, start: u32, room: u32) -> Hole
        requires { IsInUse region.old self.old.first start room }
        ensures spelled { (holes : List Hole) → Spells region.old self.old.first holes
            → Spells region.new self.new.first (given start room holes) }
        ensures hole { (holes : List Hole) → Spells region.old self.old.first holes
            → result ≡ hole_given start room holes }
        ensures kept { (holes : List Hole) → Spells region.old self.old.first holes
            → ChangesWithin (given start room holes) region.old region.new }
    {
        let end = region.len();
        let stop = pass(region, self.first, start, usize::MAX);
        let (more, next) = touching(region, end, stop.at, start + room);
        let room = room + more;
        let Some(before) = touched(stop.before, start) else {
            let hole = Hole { start, room };
            put_hole(region, hole, next);
            self.first = lead(region, self.first, stop.before, start);
            return hole;
        };
        let hole = Hole {
            start: before.start,
            room: before.room + room,
        };
        put_hole(region, hole, next);
        hole
    }
}
