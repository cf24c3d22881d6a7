//! The blocks of an area.
ghost use Rattle.std.specs.Prelude.{◌≡◌, ◌≤◌, ◌%◌, ℕ, true, None, [], length, IfOk, OnErr};
ghost use Rattle.std.specs.Option.{option_map};
ghost use Rattle.pli_area_blocks.specs.answers.Known.{AreKnown};
ghost use Rattle.pli_area_blocks.specs.answers.Parts.{AssignsBlocks, PartHolds, PartPut, PartStands, placed};
ghost use Rattle.pli_area_blocks.specs.views.BlocksView.{wholes};
ghost use Rattle.pli_bytes.specs.Contents.{values_of};
ghost use Rattle.pli_map.specs.Sizes.{size_of};
ghost use Rattle.pli_map.specs.views.DescriptionView.{description_view};
ghost use Rattle.pli_world.specs.Areas.{place_in, without_block};
ghost use Rattle.pli_world.specs.Storage.{Block, block_at};

use crate::descriptions::number_in;
use crate::placing::{place_block, take_block};
use pli_area::Area;
use pli_map::{Description, far_size};
use std::alloc::{AllocError, Global};

/// The blocks of an area, each of a whole description whose scalars lie in its bytes.
#[derive(Drop)]
pub struct AreaBlocks<'m> {
    area: Area,
    /// The whole descriptions of blocks, by the numbers that the area has of them.
    descriptions: Vec<&'m Description>,
    ghost known: { AreKnown (wholes descriptions.items) area.blocks },
}

impl<'m> AreaBlocks<'m> {
    ghost use Rattle.pli_area_blocks.specs.views.AreaBlocksView.{blocks_view, capacity_of};

    /// No blocks, in an area of so many bytes, a multiple of 8. Takes all memory that the bytes will need.
    pub fn new(alloc: Global, capacity: u32) -> Result<AreaBlocks<'m>, AllocError>
        requires { capacity % 8 ≡ 0 }
        ensures capacity { IfOk result (λ area. capacity_of area ≡ capacity) }
        ensures blocks { IfOk result (λ area. blocks_view area ≡ []) }
    {
        let area = Area::new(alloc, capacity)?;
        let descriptions = Vec::new(alloc);
        Ok(AreaBlocks { area, descriptions })
    }

    /// The whole description of the block at a position; `None` where no block is there. Takes the same time for any
    /// position.
    pub fn whole_at(&self, position: u32) -> Option<&'m Description>
        ensures { option_map (λ d. description_view d.now) result
            ≡ option_map (λ (b : Block). b.description) (block_at (blocks_view self.now) position) }
    {
        let block = self.area.find(position)?;
        Some(self.descriptions[block.description as usize])
    }

    /// Whether the area has fewer bytes than that; then no block of as many or more fits, whatever blocks there are.
    pub fn is_exceeded(&self, size: u64) -> bool
        ensures { result ≡ true → (more : ℕ) → size ≤ more →
            place_in (capacity_of self.now) (blocks_view self.now) more ≡ None }
    {
        self.area.stands();
        let capacity = u64::from(self.area.capacity());
        if size <= capacity {
            return false;
        }
        true
    }

    /// A block more, of a whole description, which begins with these bytes, at the least position that fits; `None`
    /// where none does. Takes memory only where no block had the description before. After an error or `None` nothing
    /// has changed.
    pub fn place(
        &mut self,
        description: &'m Description,
        bytes: &[u8],
    ) -> Result<Option<u32>, AllocError>
        requires { length bytes.now ≡ size_of (description_view description.now) }
        ensures position { IfOk result (λ position. position
            ≡ place_in (capacity_of self.old) (blocks_view self.old) (length bytes.now)) }
        ensures blocks { IfOk result (λ position. blocks_view self.new
            ≡ placed position (description_view description.now)
            (values_of (description_view description.now) bytes.now) (blocks_view self.old)) }
        ensures err { OnErr result (blocks_view self.new ≡ blocks_view self.old) }
        ensures capacity { capacity_of self.new ≡ capacity_of self.old }
    {
        let number = number_in(&mut self.descriptions, description)?;
        Ok(place_block(&mut self.area, number, bytes).ok())
    }

    /// The block at a position ends; where none is there, nothing changes.
    pub fn take(&mut self, position: u32)
        ensures blocks { blocks_view self.new ≡ without_block (blocks_view self.old) position }
        ensures capacity { capacity_of self.new ≡ capacity_of self.old }
    {
        take_block(&mut self.area, position);
    }

    /// The bytes of a part of the block at a position, so many bytes after the block's beginning.
    pub fn read(
        &self,
        alloc: Global,
        position: u32,
        offset: u32,
        part: &Description,
    ) -> Result<Vec<u8>, AllocError>
        requires { PartStands (blocks_view self.now) position offset (description_view part.now) }
        ensures size { IfOk result (λ bytes. length bytes.items ≡ size_of (description_view part.now)) }
        ensures held { IfOk result (λ bytes. PartHolds (blocks_view self.now) position offset
            (description_view part.now)
            (values_of (description_view part.now) bytes.items)) }
    {
        self.area.stands();
        let size = far_size(part) as usize;
        let mut bytes = vec![in alloc; 0; size]?;
        self.area.read(position, offset, &mut bytes);
        Ok(bytes)
    }

    /// Other bytes put there, as many.
    pub fn write(&mut self, position: u32, offset: u32, part: &Description, bytes: &[u8])
        requires there { PartStands (blocks_view self.old) position offset (description_view part.now) }
        requires size { length bytes.now ≡ size_of (description_view part.now) }
        ensures put { PartPut (blocks_view self.old) (blocks_view self.new) position offset (description_view part.now)
            (values_of (description_view part.now) bytes.now) }
        ensures capacity { capacity_of self.new ≡ capacity_of self.old }
    {
        self.area.write(position, offset, bytes);
    }

    /// All blocks end.
    pub fn empty(&mut self)
        ensures blocks { blocks_view self.new ≡ [] }
        ensures capacity { capacity_of self.new ≡ capacity_of self.old }
    {
        self.area.empty();
    }

    /// Takes over the blocks of another area, at the same positions; `false` where they end past the last byte, and
    /// then nothing has changed, as after an error.
    pub fn assign(&mut self, alloc: Global, source: &AreaBlocks<'m>) -> Result<bool, AllocError>
        ensures answer { IfOk result (λ fits. AssignsBlocks fits (capacity_of self.old) (blocks_view source.now)
            (blocks_view self.old) (blocks_view self.new)) }
        ensures err { OnErr result (blocks_view self.new ≡ blocks_view self.old) }
        ensures capacity { capacity_of self.new ≡ capacity_of self.old }
    {
        let mut descriptions = Vec::new(alloc);
        descriptions.extend_from_slice(&source.descriptions)?;
        if self.area.assign(&source.area).is_err() {
            return Ok(false);
        }
        self.descriptions = descriptions;
        Ok(true)
    }
}
