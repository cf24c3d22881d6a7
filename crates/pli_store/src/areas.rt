//! Areas: BASED variables allocated and freed in them, and areas that are emptied and assigned.
ghost use Rattle.std.specs.Prelude.{◌≡◌, ◌↔◌, true, IsTrue, List, length, IfSome, OnErr};
ghost use Rattle.pli_map.specs.Scalars.{scalars_of};
ghost use Rattle.pli_map.specs.Sizes.{size_of};
ghost use Rattle.pli_map.specs.Values.{are_held};
ghost use Rattle.pli_map.specs.views.DescriptionView.{description_view};
ghost use Rattle.pli_value.specs.Value as plain;
ghost use Rattle.pli_world.specs.Areas.{allocated_in, assigned, emptied, without_block};
ghost use Rattle.pli_world.specs.Storage.{with_blocks};
ghost use Rattle.pli_world.specs.World.{World};
ghost use Rattle.pli_store.specs.answers.Answered.{Answered};
ghost use Rattle.pli_store.specs.answers.Begins.{Begins, BeginsWith};
ghost use Rattle.pli_store.specs.answers.Blocks.{AreaFound, AreaLeads};

use crate::blocks::{area_with, end_block, end_blocks, is_exceeded, place_block, put_area};
use crate::fault::StoreFault;
use crate::place::Place;
use crate::storage::Storage;
use pli_map::{Description, far_size, is_area};
use pli_run::RunError;
use pli_value::Locator;

/// Whether both are areas of the same size; `false` leaves it open whether they are equal.
#[inline(always)]
fn have_same_size(left: &Description, right: &Description) -> bool
    ensures { result ≡ true → description_view left.now ≡ description_view right.now }
{
    match (left, right) {
        (Description::Area(has), Description::Area(wanted)) => *has == *wanted,
        _ => false,
    }
}

/// Whether both descriptions are equal; areas of the same size take the short way.
#[inline(always)]
fn are_same_areas(left: &Description, right: &Description) -> bool
    ensures { IsTrue result ↔ (description_view left.now ≡ description_view right.now) }
{
    if have_same_size(left, right) {
        return true;
    }
    left.is_same(right)
}

impl<'m> Storage<'m> {
    ghost use Rattle.pli_store.specs.views.StorageView.{place_view, storage_view, made_count, with_storage};
    ghost use Rattle.pli_store.specs.views.StorageView.{SameStorage};

    /// Where the area of a place stands. `DeadLocator` where its generation has ended or the block that it leads into,
    /// `DescriptionMismatch` where a block has another whole description, else `NoRule` where the place is no whole
    /// area.
    #[inline(always)]
    fn area_at(&self, place: Place<'_>) -> Result<usize, StoreFault>
        ensures { AreaLeads self.now (place_view place.entry) result }
    {
        if place.position != 0 {
            let _whole = self.whole_of(place)?;
            return Err(StoreFault::NoRule);
        }
        let Some(at) = self.find(place.generation, place.hint as usize) else {
            return Err(StoreFault::Raised(RunError::DeadLocator));
        };
        if place.offset != 0 {
            return Err(StoreFault::NoRule);
        }
        if !is_area(place.description) {
            return Err(StoreFault::NoRule);
        }
        if !are_same_areas(self.generations[at].description, place.description) {
            return Err(StoreFault::NoRule);
        }
        Ok(at)
    }

    /// An area is used at its place. `DeadLocator` where its generation has ended or the block that the place leads
    /// into, `DescriptionMismatch` where a block has another whole description, else `NoRule` where the place is no
    /// whole area.
    pub fn use_area(&self, area: Place<'_>) -> Result<(), StoreFault>
        ensures { (w : World) → AreaFound (place_view area.entry) (with_storage self.now w) result }
    {
        let _at = self.area_at(area)?;
        Ok(())
    }

    /// ALLOCATE of a BASED variable in an area: a block of this description, which begins with these bytes, and the
    /// pointer to it; without bytes where its scalars may not hold what they should begin with. `NoRule` without bytes;
    /// else errors as where the area is used, `Area` where no position fits, and `OutOfMemory`. After an error nothing
    /// has changed. Takes memory only where no block of the area had the description before.
    #[inline(never)]
    pub fn allocate_in(
        &mut self,
        area: Place<'_>,
        description: &'m Description,
        initial: Option<Vec<u8>>,
    ) -> Result<Locator, StoreFault>
        requires { IfSome initial (λ bytes. length bytes.items ≡ size_of (description_view description.now)) }
        ensures answer { (w : World) (vs : List plain.Value) → Begins (description_view description.now) initial vs
            → Answered (λ locator. locator) result (with_storage self.old w) (with_storage self.new w)
            (allocated_in (place_view area.entry) (record {
              description = description_view description.now;
              initial = vs;
            })
            (with_storage self.old w)) }
        ensures err { OnErr result (SameStorage self.old self.new) }
    {
        let Some(bytes) = initial else {
            return Err(StoreFault::NoRule);
        };
        let made = self.allocate_copy_in(area, description, &bytes);
        self.spare.keep(bytes);
        made
    }

    /// ALLOCATE of a BASED variable in an area: a block of this description, which begins with a copy of these bytes,
    /// and the pointer to it. Errors as where the area is used, `Area` where no position fits, and `OutOfMemory`. After
    /// an error nothing has changed. Takes memory only where no block of the area had the description before.
    #[inline(always)]
    pub fn allocate_copy_in(
        &mut self,
        area: Place<'_>,
        description: &'m Description,
        bytes: &[u8],
    ) -> Result<Locator, StoreFault>
        requires { length bytes.now ≡ size_of (description_view description.now) }
        ensures answer { (w : World) (vs : List plain.Value)
            → BeginsWith (description_view description.now) bytes.now vs
            → Answered (λ locator. locator) result (with_storage self.old w) (with_storage self.new w)
            (allocated_in (place_view area.entry) (record {
              description = description_view description.now;
              initial = vs;
            })
            (with_storage self.old w)) }
        ensures err { OnErr result (SameStorage self.old self.new) }
    {
        let at = self.area_at(area)?;
        let placed = place_block(&mut self.generations[at], description, bytes)?;
        match placed {
            Some(position) => Ok(Locator::Pointer {
                generation: area.generation,
                position,
            }),
            None => Err(StoreFault::Raised(RunError::Area)),
        }
    }

    /// Refuses ALLOCATE in an area of a variable of this description, whose scalars may hold what they should begin
    /// with: errors as where the area is used, else `Area` where that has fewer bytes, and `OutOfMemory` where it has
    /// as many. So no memory is wanted for what is too large for any area.
    pub fn refuse_in(
        &self,
        area: Place<'_>,
        description: &Description,
    ) -> Result<Locator, StoreFault>
        ensures { (w : World) (vs : List plain.Value) → are_held (scalars_of (description_view description.now)) vs
            ≡ true
            → Answered (λ locator. locator) result (with_storage self.now w) (with_storage self.now w)
            (allocated_in (place_view area.entry) (record {
              description = description_view description.now;
              initial = vs;
            })
            (with_storage self.now w)) }
    {
        let at = self.area_at(area)?;
        if is_exceeded(&self.generations[at], far_size(description)) {
            return Err(StoreFault::Raised(RunError::Area));
        }
        Err(StoreFault::OutOfMemory)
    }

    /// The block at the position of a place ends; where none lives there, nothing changes. No search is needed where
    /// the generation stands where it stood as the place was made.
    #[inline(always)]
    pub fn free_block(&mut self, block: Place<'_>)
        ensures storage { let p = place_view block.entry in storage_view self.new
            ≡ with_blocks (storage_view self.old) p.generation (λ bs. without_block bs p.position) }
        ensures made { made_count self.new ≡ made_count self.old }
    {
        if let Some(at) = self.find(block.generation, block.hint as usize) {
            end_block(&mut self.generations[at], block.position);
        }
    }

    /// All blocks of an area end. Errors as where it is used; then nothing has changed.
    pub fn empty_area(&mut self, area: Place<'_>) -> Result<(), StoreFault>
        ensures answer { (w : World) → Answered (λ _. tt) result (with_storage self.old w) (with_storage self.new w)
            (emptied (place_view area.entry) (with_storage self.old w)) }
        ensures err { OnErr result (SameStorage self.old self.new) }
    {
        let at = self.area_at(area)?;
        end_blocks(&mut self.generations[at]);
        Ok(())
    }

    /// The blocks of one area put in the place of those of another, at the same positions, so that offsets keep their
    /// meaning. The source is looked at first: errors as where it is used, then as where the target is, `Area` where
    /// the source's blocks end past the target's last byte, and `OutOfMemory`. After an error nothing has changed.
    /// Takes memory for all that the target has, before it gives up what that had.
    pub fn assign_area(&mut self, source: Place<'_>, target: Place<'_>) -> Result<(), StoreFault>
        ensures answer { (w : World) → Answered (λ _. tt) result (with_storage self.old w) (with_storage self.new w)
            (assigned (place_view source.entry) (place_view target.entry) (with_storage self.old w)) }
        ensures err { OnErr result (SameStorage self.old self.new) }
    {
        let from = self.area_at(source)?;
        let to = self.area_at(target)?;
        let description = self.generations[to].description;
        let Some(area) = area_with(self.alloc, description, &self.generations[from])? else {
            return Err(StoreFault::Raised(RunError::Area));
        };
        put_area(&mut self.generations[to], area);
        Ok(())
    }
}
