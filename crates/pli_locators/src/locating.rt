//! BASED variables, and the pointers of ADDR.
ghost use Rattle.std.specs.Prelude.{◌≡◌, map, IfSome, OnErr};
ghost use Rattle.pli_map.specs.views.DescriptionView.{description_view};
ghost use Rattle.pli_world.specs.World.{World};
ghost use Rattle.pli_stacks.specs.answers.LaidBytes.{IsLaid};
ghost use Rattle.pli_store.specs.answers.Answered.{Answered};
ghost use Rattle.pli_store.specs.views.StorageView.{SameStorage, made_count, place_view, storage_view, target_view};
ghost use Rattle.pli_store.specs.views.StorageView.{with_storage};
ghost use Rattle.pli_world.specs.Areas.{allocated_in};
ghost use Rattle.pli_world.specs.Locating.{addressed, based_allocated, based_freed, located, pointer_to};
ghost use Rattle.pli_world.specs.Locating.{unless_other, without_whole};
ghost use Rattle.pli_world.specs.Locating as plain;
ghost use Rattle.pli_world.specs.Targets.{target_at};
ghost use Rattle.pli_type_tree.specs.Templates.{variable_of};
ghost use Rattle.pli_type_tree.specs.views.TemplateView.{initial_view};
ghost use Rattle.pli_world.specs.World.{unless_dead};

use pli_map::{Description, far_size};
use pli_run::RunError;
use pli_stacks::{first_bytes, make_initial, make_initial_of};
use pli_store::{Kind, Made, Place, Storage, StoreFault, Target};
use pli_type_tree::InitialScalar;
use pli_value::Locator;
use std::alloc::Global;

/// How many bytes a block has at most: as many as may live (own).
const BLOCK_BYTES: u64 = 16_777_216;

/// What lives at a position of a generation: at 0 the generation. `DeadLocator` where nothing does.
#[inline(always)]
fn living_at<'m>(
    storage: &Storage<'m>,
    generation: u32,
    position: u32,
) -> Result<Target<'m>, StoreFault>
    ensures { (w : World) → Answered target_view result w w (unless_dead
        (target_at generation position (storage_view storage.now)) w) }
{
    match storage.living(generation, position) {
        Some(living) => Ok(living),
        None => Err(StoreFault::Raised(RunError::DeadLocator)),
    }
}

/// What lives, if it has this whole description; `DescriptionMismatch` where it has another.
#[inline(always)]
fn of_description<'m>(
    living: Target<'m>,
    description: &Description,
) -> Result<Target<'m>, StoreFault>
    ensures { (w : World) → Answered target_view result w w (unless_other (description_view description.now)
        (target_view living.entry) w) }
{
    if living.place.description.is_same(description) {
        Ok(living)
    } else {
        Err(StoreFault::Raised(RunError::DescriptionMismatch))
    }
}

/// What a locator leads to, where a variable of this description is asked for. `NullLocator` for the null pointer,
/// `DeadLocator` where nothing lives there, `DescriptionMismatch` where what lives has another whole description;
/// `NoRule` for an offset.
#[inline(always)]
fn located<'m>(
    storage: &Storage<'m>,
    description: &Description,
    locator: Locator,
) -> Result<Target<'m>, StoreFault>
    ensures { (w : World) → Answered target_view result (with_storage storage.now w) (with_storage storage.now w)
        (located (description_view description.now) locator (with_storage storage.now w)) }
{
    match locator {
        Locator::Null => Err(StoreFault::Raised(RunError::NullLocator)),
        Locator::Pointer {
            generation,
            position,
        } => of_description(living_at(storage, generation, position)?, description),
        Locator::Offset(_position) => Err(StoreFault::NoRule),
    }
}

/// The pointer to what a place is the whole of.
#[inline(always)]
fn pointer_to(place: Place<'_>) -> Locator
    ensures { result ≡ pointer_to (place_view place.entry) }
{
    Locator::Pointer {
        generation: place.generation,
        position: place.position,
    }
}

/// The place of a BASED variable of this description by a locator. `NullLocator` for the null pointer, `DeadLocator`
/// where nothing lives there, `DescriptionMismatch` where what lives has another whole description; `NoRule` for an
/// offset.
#[inline]
pub fn based<'m>(
    storage: &Storage<'m>,
    description: &Description,
    locator: Locator,
) -> Result<Place<'m>, StoreFault>
    ensures { (w : World) → Answered place_view result (with_storage storage.now w) (with_storage storage.now w)
        (plain.based (description_view description.now) locator (with_storage storage.now w)) }
{
    let living = located(storage, description, locator)?;
    Ok(living.place)
}

/// ALLOCATE of a BASED variable, outside areas: makes a generation of this description, and answers the pointer to it.
/// Its scalars begin with these initial values, and those without one as their types have it; where the bytes of all
/// that were laid before, they are handed over and copied. `StorageLimit` where there is no room for the generation, or
/// `OutOfMemory`. After an error nothing has changed.
#[inline(always)]
pub fn allocate_based<'m>(
    alloc: Global,
    storage: &mut Storage<'m>,
    description: &'m Description,
    scalars: &[InitialScalar],
    laid: Option<&[u8]>,
) -> Result<Locator, StoreFault>
    requires { IfSome laid (λ bytes. IsLaid (record {
      description = description_view description.now;
      initial = map initial_view scalars.now;
    }) bytes.now) }
    ensures answer { (w : World) → Answered (λ locator. locator) result (with_storage storage.old w)
        (with_storage storage.new w)
        (based_allocated (variable_of (record {
          description = description_view description.now;
          initial = map initial_view scalars.now;
        }))
        (with_storage storage.old w)) }
    ensures err { OnErr result (SameStorage storage.old storage.new) }
{
    let place = make_initial(alloc, storage, description, Made::Based, scalars, laid)?;
    Ok(pointer_to(place))
}

/// The same of a generation of this kind.
#[inline(always)]
pub fn allocate_based_of<'m>(
    alloc: Global,
    storage: &mut Storage<'m>,
    kind: &Kind<'m>,
    scalars: &[InitialScalar],
    laid: Option<&[u8]>,
) -> Result<Locator, StoreFault>
    requires { IfSome laid (λ bytes. IsLaid (record {
      description = description_view kind.now.description.now;
      initial = map initial_view scalars.now;
    }) bytes.now) }
    ensures answer { (w : World) → Answered (λ locator. locator) result (with_storage storage.old w)
        (with_storage storage.new w)
        (based_allocated (variable_of (record {
          description = description_view kind.now.description.now;
          initial = map initial_view scalars.now;
        }))
        (with_storage storage.old w)) }
    ensures err { OnErr result (SameStorage storage.old storage.new) }
{
    let place = make_initial_of(alloc, storage, kind, Made::Based, scalars, laid)?;
    Ok(pointer_to(place))
}

/// ALLOCATE of a BASED variable in an area: makes a block of this description there, which begins as a generation of
/// `allocate_based` does, and answers the pointer to it. `DeadLocator` where the generation of the area has ended or
/// the block that the place leads into, `DescriptionMismatch` where a block has another whole description, `NoRule`
/// where the place is no whole area; else `Area` where no position fits, and `OutOfMemory`. After an error nothing has
/// changed.
#[inline(always)]
pub fn allocate_in<'m>(
    alloc: Global,
    storage: &mut Storage<'m>,
    area: Place<'_>,
    description: &'m Description,
    scalars: &[InitialScalar],
    laid: Option<&[u8]>,
) -> Result<Locator, StoreFault>
    requires { IfSome laid (λ bytes. IsLaid (record {
      description = description_view description.now;
      initial = map initial_view scalars.now;
    }) bytes.now) }
    ensures answer { (w : World) → Answered (λ locator. locator) result (with_storage storage.old w)
        (with_storage storage.new w)
        (allocated_in (place_view area.entry)
        (variable_of (record {
          description = description_view description.now;
          initial = map initial_view scalars.now;
        }))
        (with_storage storage.old w)) }
    ensures err { OnErr result (SameStorage storage.old storage.new) }
{
    match laid {
        Some(bytes) => storage.allocate_copy_in(area, description, bytes),
        None => allocate_anew_in(alloc, storage, area, description, scalars),
    }
}

/// The same where nothing was laid before.
#[inline(never)]
fn allocate_anew_in<'m>(
    alloc: Global,
    storage: &mut Storage<'m>,
    area: Place<'_>,
    description: &'m Description,
    scalars: &[InitialScalar],
) -> Result<Locator, StoreFault>
    ensures answer { (w : World) → Answered (λ locator. locator) result (with_storage storage.old w)
        (with_storage storage.new w)
        (allocated_in (place_view area.entry)
        (variable_of (record {
          description = description_view description.now;
          initial = map initial_view scalars.now;
        }))
        (with_storage storage.old w)) }
    ensures err { OnErr result (SameStorage storage.old storage.new) }
{
    let size = far_size(description);
    if size > BLOCK_BYTES {
        return storage.refuse_in(area, description);
    }
    let initial = first_bytes(alloc, storage, description, scalars, None)?;
    storage.allocate_in(area, description, Some(initial))
}

/// What a place is the whole of ends: a generation, with all that lies in it, or a block of one.
#[inline(always)]
fn end_whole(storage: &mut Storage<'_>, place: Place<'_>)
    ensures storage { storage_view storage.new ≡ without_whole (place_view place.entry) (storage_view storage.old) }
    ensures made { made_count storage.new ≡ made_count storage.old }
{
    if place.position == 0 {
        storage.end_one(place.generation);
    } else {
        storage.free_block(place);
    }
}

/// FREE of a BASED variable of this description by a locator: the generation or the block to which it leads ends.
/// `NullLocator`, `DeadLocator`, `DescriptionMismatch` and `NoRule` as for the place, and `DescriptionMismatch` where
/// no ALLOCATE of a BASED variable has made the generation. After an error nothing has changed.
#[inline(always)]
pub fn free_based(
    storage: &mut Storage<'_>,
    description: &Description,
    locator: Locator,
) -> Result<(), StoreFault>
    ensures answer { (w : World) → Answered (λ _. tt) result (with_storage storage.old w) (with_storage storage.new w)
        (based_freed (description_view description.now) locator (with_storage storage.old w)) }
    ensures err { OnErr result (SameStorage storage.old storage.new) }
{
    let living = located(storage, description, locator)?;
    match living.made {
        Made::Based => {
            end_whole(storage, living.place);
            Ok(())
        }
        _ => Err(StoreFault::Raised(RunError::DescriptionMismatch)),
    }
}

/// ADDR of a place: the pointer to the generation or the block of which it is the whole. `DeadLocator` where that has
/// ended, `DescriptionMismatch` where a block of another whole description stands there, `NoRule` where the place is
/// that of a part.
pub fn address(storage: &Storage<'_>, place: Place<'_>) -> Result<Locator, StoreFault>
    ensures { (w : World) → Answered (λ locator. locator) result (with_storage storage.now w)
        (with_storage storage.now w)
        (addressed (place_view place.entry) (with_storage storage.now w)) }
{
    let whole = storage.whole_of(place)?;
    if place.offset == 0 && whole.equals(place.description) {
        Ok(pointer_to(place))
    } else {
        Err(StoreFault::NoRule)
    }
}
