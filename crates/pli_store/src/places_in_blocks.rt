//! Places in blocks: what they hold, and what is put there, by copies of bytes.
ghost use Rattle.std.specs.Prelude.{◌≡◌, ◌≢◌, ℕ, false, length, IfOk, OnErr};
ghost use Rattle.std.specs.Global.{Vec};
ghost use Rattle.pli_bytes.specs.Contents.{values_of};
ghost use Rattle.pli_map.specs.Same.{same};
ghost use Rattle.pli_map.specs.Scalars.{is_area};
ghost use Rattle.pli_map.specs.Sizes.{size_of};
ghost use Rattle.pli_map.specs.views.DescriptionView.{description_view};
ghost use Rattle.pli_value.specs.Value.{value_view};
ghost use Rattle.pli_world.specs.World.{World, copied, held, parts_held, parts_stored, stored};
ghost use Rattle.pli_store.specs.answers.Answered.{Answered};
ghost use Rattle.pli_store.specs.answers.Blocks.{BlockLeads, WholeUsed};

use crate::blocks::{read_block, whole_at, write_block};
use crate::copying::{bytes_of_part, put_bytes};
use crate::fault::StoreFault;
use crate::part::is_part;
use crate::place::Place;
use crate::storage::Storage;
use pli_bytes::{holds, put_value_at, value_at};
use pli_map::{Description, is_area, is_scalar};
use pli_run::RunError;
use pli_value::Value;
use std::alloc::Global;

impl<'m> Storage<'m> {
    ghost use Rattle.pli_store.specs.views.StorageView.{place_view, storage_view, with_storage, SameStorage};

    /// The whole description of what a place leads into. `DeadLocator` where the generation has ended or the block,
    /// `DescriptionMismatch` where a block has another whole description than the place has met.
    pub fn whole_of(&self, place: Place<'_>) -> Result<&'m Description, StoreFault>
        ensures { (w : World) → WholeUsed (place_view place.entry) (with_storage self.now w) result }
    {
        let Some(living) = self.living(place.generation, place.position) else {
            return Err(StoreFault::Raised(RunError::DeadLocator));
        };
        let found = living.place.description;
        if place.position == 0 {
            return Ok(found);
        }
        if !found.equals(place.whole) {
            return Err(StoreFault::Raised(RunError::DescriptionMismatch));
        }
        Ok(found)
    }

    /// Where the generation stands to a part of whose block a place leads. `DeadLocator` where the generation has ended
    /// or the block, `DescriptionMismatch` where the block has another whole description, `NoRule` where no such part
    /// stands there.
    fn block_part(&self, place: Place<'_>) -> Result<usize, StoreFault>
        requires { place.position ≢ 0 }
        ensures { BlockLeads (storage_view self.now) (place_view place.entry) result }
    {
        let dead = StoreFault::Raised(RunError::DeadLocator);
        let Some(at) = self.find(place.generation, place.hint as usize) else {
            return Err(dead);
        };
        let Some(whole) = whole_at(&self.generations[at], place.position) else {
            return Err(dead);
        };
        if !whole.equals(place.whole) {
            return Err(StoreFault::Raised(RunError::DescriptionMismatch));
        }
        if !is_part(whole, place.offset, place.description) {
            return Err(StoreFault::NoRule);
        }
        Ok(at)
    }

    /// The bytes of the part of a block to which a place leads. Errors as for where that stands.
    fn block_bytes(&self, place: Place<'_>) -> Result<Vec<u8>, StoreFault>
        requires { place.position ≢ 0 }
        ensures size { IfOk result (λ bytes. length bytes.items
            ≡ size_of (description_view place.entry.description.now)) }
        ensures held { (w : World) → Answered (λ (bytes : Vec ℕ).
            values_of (description_view place.entry.description.now) bytes.items) result
            (with_storage self.now w) (with_storage self.now w)
            (parts_held (place_view place.entry) (with_storage self.now w)) }
    {
        let at = self.block_part(place)?;
        Ok(read_block(
            self.alloc,
            &self.generations[at],
            place.position,
            place.offset,
            place.description,
        )?)
    }

    /// The bytes of the part to which a place leads, in a block or outside areas. `DeadLocator` where the generation
    /// has ended or the block, `DescriptionMismatch` where the block has another whole description, `NoRule` where no
    /// such part stands there.
    fn part_bytes(&self, place: Place<'_>) -> Result<Vec<u8>, StoreFault>
        ensures size { IfOk result (λ bytes. length bytes.items
            ≡ size_of (description_view place.entry.description.now)) }
        ensures held { (w : World) → Answered (λ (bytes : Vec ℕ).
            values_of (description_view place.entry.description.now) bytes.items) result
            (with_storage self.now w) (with_storage self.now w)
            (parts_held (place_view place.entry) (with_storage self.now w)) }
    {
        if place.position != 0 {
            return self.block_bytes(place);
        }
        let part = self.part(place)?;
        Ok(bytes_of_part(
            self.alloc,
            &self.generations[part.at],
            part.offset,
            place.description,
        )?)
    }

    /// Bytes put at the part of a block to which a place leads, as many. Errors as for where that stands, and then
    /// nothing has changed.
    fn put_block_bytes(&mut self, place: Place<'_>, bytes: &[u8]) -> Result<(), StoreFault>
        requires inside { place.position ≢ 0 }
        requires size { length bytes.now ≡ size_of (description_view place.description.now) }
        ensures answer { (w : World) → Answered (λ _. tt) result (with_storage self.old w) (with_storage self.new w)
            (parts_stored (place_view place.entry) (values_of
            (description_view place.entry.description.now) bytes.now) (with_storage self.old w)) }
        ensures err { OnErr result (SameStorage self.old self.new) }
    {
        let at = self.block_part(place)?;
        write_block(
            &mut self.generations[at],
            place.position,
            place.offset,
            place.description,
            bytes,
        );
        Ok(())
    }

    /// Bytes put at the part to which a place leads, in a block or outside areas, as many. Errors as for what it holds,
    /// and then nothing has changed.
    fn put_part_bytes(&mut self, place: Place<'_>, bytes: &[u8]) -> Result<(), StoreFault>
        requires { length bytes.now ≡ size_of (description_view place.description.now) }
        ensures answer { (w : World) → Answered (λ _. tt) result (with_storage self.old w) (with_storage self.new w)
            (parts_stored (place_view place.entry) (values_of
            (description_view place.entry.description.now) bytes.now) (with_storage self.old w)) }
        ensures err { OnErr result (SameStorage self.old self.new) }
    {
        if place.position != 0 {
            return self.put_block_bytes(place, bytes);
        }
        let part = self.part(place)?;
        put_bytes(&mut self.generations[part.at], part.offset, bytes);
        Ok(())
    }

    /// What the place of a scalar holds, by its bytes.
    pub(crate) fn block_held(&self, alloc: Global, place: Place<'_>) -> Result<Value, StoreFault>
        ensures { (w : World) → Answered value_view result (with_storage self.now w) (with_storage self.now w)
            (held (place_view place.entry) (with_storage self.now w)) }
    {
        let bytes = self.part_bytes(place)?;
        if !is_scalar(place.description) {
            return Err(StoreFault::NoRule);
        }
        Ok(value_at(alloc, &bytes, 0, place.description)?)
    }

    /// A value put at the place of a scalar, by its bytes.
    pub(crate) fn block_stored(&mut self, place: Place<'_>, value: &Value) -> Result<(), StoreFault>
        ensures answer { (w : World) → Answered (λ _. tt) result (with_storage self.old w) (with_storage self.new w)
            (stored (place_view place.entry) (value_view value.now) (with_storage self.old w)) }
        ensures err { OnErr result (SameStorage self.old self.new) }
    {
        let mut bytes = self.part_bytes(place)?;
        if !holds(place.description, value) {
            return Err(StoreFault::NoRule);
        }
        put_value_at(&mut bytes, 0, place.description, value);
        self.put_part_bytes(place, &bytes)
    }

    /// Why what one place holds is not put at another, where that is of another description or the first is an area's.
    /// `DeadLocator` where a generation or a block has ended, `DescriptionMismatch` where a block has another whole
    /// description, first of the source; else `NoRule`, for the source before the target is looked at.
    pub(crate) fn refuse_copy(&self, source: Place<'_>, target: Place<'_>) -> Result<(), StoreFault>
        requires { is_area (description_view source.description.now) ≡ false
            → same (description_view source.description.now) (description_view target.description.now) ≡ false }
        ensures { (w : World) → Answered (λ _. tt) result (with_storage self.now w) (with_storage self.now w)
            (copied (place_view source.entry) (place_view target.entry) (with_storage self.now w)) }
    {
        let whole = self.whole_of(source)?;
        if is_area(source.description) {
            return Err(StoreFault::NoRule);
        }
        if !is_part(whole, source.offset, source.description) {
            return Err(StoreFault::NoRule);
        }
        let _other = self.whole_of(target)?;
        Err(StoreFault::NoRule)
    }

    /// What one place holds put at another of an equal description, which is no area's, by its bytes.
    pub(crate) fn copied_bytes(
        &mut self,
        source: Place<'_>,
        target: Place<'_>,
    ) -> Result<(), StoreFault>
        requires part { is_area (description_view source.description.now) ≡ false }
        requires same { description_view source.description.now ≡ description_view target.description.now }
        ensures answer { (w : World) → Answered (λ _. tt) result (with_storage self.old w) (with_storage self.new w)
            (copied (place_view source.entry) (place_view target.entry) (with_storage self.old w)) }
        ensures err { OnErr result (SameStorage self.old self.new) }
    {
        let bytes = self.part_bytes(source)?;
        self.put_part_bytes(target, &bytes)
    }
}
