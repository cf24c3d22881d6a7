//! Blocks placed in an area, by the numbers of their descriptions, and taken away.
ghost use Rattle.std.specs.Prelude.{◌≡◌, length, IfOk, OnErr};
ghost use Rattle.std.specs.Result.{result_ok};
ghost use Rattle.pli_area.specs.Areas.{first_fit, with_block, without_block};

use pli_area::{Area, Full};

/// Places a block that begins with these bytes at the least position that fits, and answers it. `Full` where none does,
/// and then nothing changes.
pub(crate) fn place_block(area: &mut Area, number: u32, bytes: &[u8]) -> Result<u32, Full>
    ensures place { result_ok result ≡ first_fit area.old (length bytes.now) }
    ensures blocks { IfOk result (λ position. area.new.blocks ≡ with_block area.old.blocks
        (record { position = position; description = number; size = length bytes.now; bytes = bytes.now })) }
    ensures unchanged { OnErr result (area.new.blocks ≡ area.old.blocks) }
    ensures capacity { area.new.capacity ≡ area.old.capacity }
{
    area.stands();
    if bytes.len() > area.capacity() as usize {
        return Err(Full);
    }
    let position = area.allocate(number, bytes.len() as u32)?;
    area.write(position, 0, bytes);
    Ok(position)
}

/// Takes the block at a position away; where none is there, nothing changes.
pub(crate) fn take_block(area: &mut Area, position: u32)
    ensures blocks { area.new.blocks ≡ without_block area.old.blocks position }
    ensures capacity { area.new.capacity ≡ area.old.capacity }
{
    let _ = area.release(position);
}
