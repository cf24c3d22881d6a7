//! Words of holes that are read and written.
ghost use Rattle.std.specs.Prelude.{◌≡◌, ◌+◌, ◌%◌, ◌≤◌, ◌<◌, ◌^◌, length, IfSome};
ghost use Rattle.pli_region.specs.Words.{word_at};
ghost use Rattle.pli_holes.specs.Steps.{IsPut, IsLed, IsShortened, IsTouched, IsTouching};

use crate::hole::Hole;
use pli_region::Region;

/// Writes the two words of a hole, the second of which is where the next begins.
pub(crate) fn put_hole(region: &mut Region, hole: Hole, next: u32)
    requires within { hole.start + 8 ≤ length region.old }
    requires small { length region.old < 2 ^ 32 }
    ensures { IsPut region.old region.new hole next }
{
    region.set_word(hole.start, hole.room);
    region.set_word(hole.start + 4, next);
}

/// Makes the hole before lead to a place. Answers where the chain begins: there, where no hole is before.
pub(crate) fn lead(region: &mut Region, first: u32, before: Option<Hole>, to: u32) -> u32
    requires within { IfSome before (λ h. h.start + 8 ≤ length region.old) }
    requires small { length region.old < 2 ^ 32 }
    ensures { IsLed before to region.old first region.new result }
{
    let Some(hole) = before else {
        return to;
    };
    region.set_word(hole.start + 4, to);
    first
}

/// Takes so many bytes, a multiple of 8, from the front of the hole at a place. Answers where what is left begins, or
/// the next hole where nothing is left.
pub(crate) fn shorten(region: &mut Region, start: u32, room: u32) -> u32
    requires within { start + word_at region.old start ≤ length region.old }
    requires fits { room ≤ word_at region.old start }
    requires whole { word_at region.old start % 8 ≡ 0 }
    requires aligned { room % 8 ≡ 0 }
    requires some { 8 ≤ room }
    requires small { length region.old < 2 ^ 32 }
    ensures { IsShortened region.old region.new start room result }
{
    let left = region.word(start) - room;
    let next = region.word(start + 4);
    if left == 0 {
        return next;
    }
    let hole = Hole {
        start: start + room,
        room: left,
    };
    put_hole(region, hole, next);
    hole.start
}

/// The hole before, if there is one and it ends at a place.
pub(crate) fn touched(before: Option<Hole>, place: u32) -> Option<Hole>
    requires { IfSome before (λ h. h.start + h.room ≤ place) }
    ensures { IsTouched before place result }
{
    let hole = before?;
    if hole.start + hole.room == place {
        Some(hole)
    } else {
        None
    }
}

/// How many bytes the hole at `next` has, if it begins at a place, else 0, and where the next after these begins.
pub(crate) fn touching(region: &Region, end: u32, next: u32, place: u32) -> (u32, u32)
    requires end { end ≡ length region.now }
    requires within { next < end → next + 8 ≤ end }
    ensures { IsTouching region.now next place result.0 result.1 }
{
    if next != place || next >= end {
        return (0, next);
    }
    (region.word(next), region.word(next + 4))
}
