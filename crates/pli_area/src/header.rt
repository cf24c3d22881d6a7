//! Headers of blocks: a word for the description and one for the size, before the block's bytes.
ghost use Rattle.std.specs.Prelude.{◌≡◌, ◌+◌, ◌^◌, ◌<◌, ◌≤◌, length, nat_eq, if◌then◌else◌};
ghost use Rattle.pli_area.specs.Areas.{overwritten, rounded};
ghost use Rattle.pli_region.specs.Words.{bytes_of};

use pli_region::Region;

/// How many bytes a block covers before its position (own).
pub(crate) const HEADER_SIZE: u32 = 8;

/// How many bytes a block of a size covers: its header, and its size rounded up to a multiple of 8.
pub(crate) fn room_of(size: u32) -> usize
    ensures { result ≡ 8 + rounded size }
{
    HEADER_SIZE as usize + (size as usize).div_ceil(8) * 8
}

/// Writes the header that begins at a place.
pub(crate) fn put_header(region: &mut Region, start: u32, description: u32, size: u32)
    requires inside { start + 8 ≤ length region.old }
    requires small { length region.old < 2 ^ 32 }
    ensures { region.new ≡ overwritten (overwritten region.old start (bytes_of description)) (start + 4)
        (bytes_of size) }
{
    region.set_word(start, description);
    region.set_word(start + 4, size);
}

/// Where the last block ends once a block is taken away that ended at `end`, where the hole that it left begins at
/// `hole`.
pub(crate) fn extent_without(extent: u32, end: u32, hole: u32) -> u32
    ensures { result ≡ (if nat_eq end extent then hole else extent) }
{
    if end == extent {
        return hole;
    }
    extent
}
