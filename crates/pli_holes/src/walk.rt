//! Walks along chains.
ghost use Rattle.std.specs.Prelude.{◌≤◌, ◌<◌, ◌^◌, List, length};
ghost use Rattle.pli_region.specs.Words.{word_at};
ghost use Rattle.pli_holes.specs.declared.hole.Hole.{Hole};
ghost use Rattle.pli_holes.specs.Holes.{Spells, IsChain};
ghost use Rattle.pli_holes.specs.Steps.{HasStopped};

use crate::hole::Hole;
use pli_region::Region;

/// Where a walk along a chain stopped.
#[derive(Clone, Copy)]
pub(crate) struct Stop {
    /// The last hole that was passed.
    pub(crate) before: Option<Hole>,
    /// Where the next begins, or the region's length where all were passed.
    pub(crate) at: u32,
    /// How many were passed.
    pub(crate) passed: u32,
}

/// Passes the holes that begin before the place `until` and have fewer than `room` bytes, up to the first other. Takes
/// time linear in the holes that it passes.
pub(crate) fn pass(region: &Region, first: u32, until: u32, room: usize) -> Stop
    requires chain { IsChain region.now first }
    requires within { until ≤ length region.now }
    requires small { length region.now < 2 ^ 32 }
    ensures { (holes : List Hole) → Spells region.now first holes → HasStopped (word_at region.now)
        (length region.now) first until room holes result.before result.at result.passed }
{
    let mut before = None;
    let mut at = first;
    let mut passed = 0;
    while at < until {
        let hole = Hole {
            start: at,
            room: region.word(at),
        };
        if hole.room as usize >= room {
            break;
        }
        at = region.word(at + 4);
        before = Some(hole);
        passed += 1;
    }
    Stop { before, at, passed }
}
