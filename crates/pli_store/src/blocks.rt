//! Blocks of one generation, where that is an area.
ghost use Rattle.std.specs.Prelude.{◌≡◌, ◌≤◌, ◌<◌, ◌%◌, ℕ, true, None, [], length, IfOk, MatchOption, OnErr};
ghost use Rattle.std.specs.Option.{is_some, option_map};
ghost use Rattle.pli_area_blocks.specs.answers.Parts.{PartHolds, PartPut, PartStands, placed};
ghost use Rattle.pli_area_blocks.specs.views.AreaBlocksView.{blocks_view, capacity_of};
ghost use Rattle.pli_bytes.specs.Contents.{values_of};
ghost use Rattle.pli_map.specs.Scalars.{is_area};
ghost use Rattle.pli_map.specs.Sizes.{size_of};
ghost use Rattle.pli_map.specs.views.DescriptionView.{description_view};
ghost use Rattle.pli_world.specs.Areas.{end_of_blocks, place_in, without_block};
ghost use Rattle.pli_world.specs.Storage.{Block, block_at};
ghost use Rattle.pli_store.specs.answers.Blocks.{BlocksChanged, OthersStay, TakesOver};
ghost use Rattle.pli_store.specs.answers.Inhabited.{blocks_in, capacity_in};
ghost use Rattle.pli_store.specs.views.GenerationView.{generation_view};

use crate::generation::Generation;
use pli_area_blocks::AreaBlocks;
use pli_map::{Description, far_size};
use std::alloc::{AllocError, Global};

/// The area that a generation of this description begins as, without blocks; `None` where it is none.
#[inline(always)]
pub fn new_area<'m>(
    alloc: Global,
    description: &Description,
) -> Result<Option<Box<AreaBlocks<'m>>>, AllocError>
    requires { size_of (description_view description.now) ≤ 16777216 }
    ensures there { IfOk result (λ area. is_some area ≡ is_area (description_view description.now)) }
    ensures capacity { IfOk result (λ area. is_area (description_view description.now) ≡ true →
        capacity_in area ≡ size_of (description_view description.now)) }
    ensures blocks { IfOk result (λ area. blocks_in area ≡ []) }
{
    match description {
        Description::Area(_bytes) => {
            let area = boxed_area(alloc, far_size(description) as u32)?;
            Ok(Some(area))
        }
        _ => Ok(None),
    }
}

/// An area of so many bytes without blocks.
#[inline(never)]
fn boxed_area<'m>(alloc: Global, capacity: u32) -> Result<Box<AreaBlocks<'m>>, AllocError>
    requires { capacity % 8 ≡ 0 }
    ensures capacity { IfOk result (λ area. capacity_of area.value ≡ capacity) }
    ensures blocks { IfOk result (λ area. blocks_view area.value ≡ []) }
{
    let area = AreaBlocks::new(alloc, capacity)?;
    Ok(Box::new(alloc, area)?)
}

/// The whole description of the block at a position; `None` where no block is there.
pub fn whole_at<'m>(generation: &Generation<'m>, position: u32) -> Option<&'m Description>
    ensures { option_map (λ d. description_view d.now) result
        ≡ option_map (λ (b : Block). b.description) (block_at (generation_view generation.now).blocks position) }
{
    match &generation.area {
        Some(area) => area.whole_at(position),
        None => None,
    }
}

/// Whether a generation that is an area has fewer bytes than that; then no block of as many or more fits, whatever
/// blocks there are.
pub fn is_exceeded(generation: &Generation<'_>, size: u64) -> bool
    requires { is_area (generation_view generation.now).description ≡ true }
    ensures { result ≡ true → (more : ℕ) → size ≤ more
        → place_in (size_of (generation_view generation.now).description) (generation_view generation.now).blocks more
        ≡ None }
{
    match &generation.area {
        Some(area) => area.is_exceeded(size),
        None => false,
    }
}

/// A block more, of a whole description, which begins with these bytes, at the least position that fits; `None` where
/// none does. After an error or `None` nothing has changed.
#[inline(always)]
pub fn place_block<'m>(
    generation: &mut Generation<'m>,
    description: &'m Description,
    bytes: &[u8],
) -> Result<Option<u32>, AllocError>
    requires area { is_area (generation_view generation.old).description ≡ true }
    requires size { length bytes.now ≡ size_of (description_view description.now) }
    ensures position { IfOk result (λ position. position
        ≡ place_in (size_of (generation_view generation.old).description) (generation_view generation.old).blocks
        (length bytes.now)) }
    ensures blocks { IfOk result (λ position. BlocksChanged generation.old generation.new
        (placed position (description_view description.now) (values_of (description_view description.now) bytes.now))) }
    ensures err { OnErr result (generation_view generation.new ≡ generation_view generation.old) }
{
    match &mut generation.area {
        Some(area) => area.place(description, bytes),
        None => Ok(None),
    }
}

/// The block at a position ends; where none is there, nothing changes.
#[inline(always)]
pub fn end_block(generation: &mut Generation<'_>, position: u32)
    ensures { BlocksChanged generation.old generation.new (λ bs. without_block bs position) }
{
    if let Some(area) = &mut generation.area {
        area.take(position);
    }
}

/// All blocks end.
pub fn end_blocks(generation: &mut Generation<'_>)
    ensures { BlocksChanged generation.old generation.new (λ bs. []) }
{
    if let Some(area) = &mut generation.area {
        area.empty();
    }
}

/// The bytes of a part of the block at a position, so many bytes after the block's beginning.
pub fn read_block(
    alloc: Global,
    generation: &Generation<'_>,
    position: u32,
    offset: u32,
    part: &Description,
) -> Result<Vec<u8>, AllocError>
    requires { PartStands (generation_view generation.now).blocks position offset (description_view part.now) }
    ensures size { IfOk result (λ bytes. length bytes.items ≡ size_of (description_view part.now)) }
    ensures held { IfOk result (λ bytes. PartHolds (generation_view generation.now).blocks position offset
        (description_view part.now)
        (values_of (description_view part.now) bytes.items)) }
{
    match &generation.area {
        Some(area) => area.read(alloc, position, offset, part),
        None => Ok(Vec::new(alloc)),
    }
}

/// Other bytes put there, as many.
pub fn write_block(
    generation: &mut Generation<'_>,
    position: u32,
    offset: u32,
    part: &Description,
    bytes: &[u8],
)
    requires there { PartStands (generation_view generation.old).blocks position offset (description_view part.now) }
    requires size { length bytes.now ≡ size_of (description_view part.now) }
    ensures put { PartPut (generation_view generation.old).blocks
        (generation_view generation.new).blocks position offset
        (description_view part.now) (values_of (description_view part.now) bytes.now) }
    ensures others { OthersStay generation.old generation.new }
{
    if let Some(area) = &mut generation.area {
        area.write(position, offset, part, bytes);
    }
}

/// An area of this description with the blocks of another, at the same positions; `None` where these end past its
/// last byte.
pub fn area_with<'m>(
    alloc: Global,
    description: &Description,
    source: &Generation<'m>,
) -> Result<Option<Box<AreaBlocks<'m>>>, AllocError>
    requires area { is_area (description_view description.now) ≡ true }
    requires size { size_of (description_view description.now) ≤ 16777216 }
    requires source { is_area (generation_view source.now).description ≡ true }
    ensures { IfOk result (λ area. MatchOption area
        (size_of (description_view description.now) < end_of_blocks (generation_view source.now).blocks)
        (TakesOver (size_of (description_view description.now)) (generation_view source.now).blocks)) }
{
    let Some(blocks) = &source.area else {
        return Ok(None);
    };
    let Some(mut area) = new_area(alloc, description)? else {
        return Ok(None);
    };
    if area.assign(alloc, blocks)? {
        Ok(Some(area))
    } else {
        Ok(None)
    }
}

/// Another area, as large, in the place of that of a generation.
pub fn put_area<'m>(generation: &mut Generation<'m>, area: Box<AreaBlocks<'m>>)
    requires area { is_area (generation_view generation.old).description ≡ true }
    requires room { capacity_of area.value ≡ size_of (generation_view generation.old).description }
    ensures { BlocksChanged generation.old generation.new (λ bs. blocks_view area.entry.value) }
{
    generation.area = Some(area);
}
