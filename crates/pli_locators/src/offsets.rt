//! Pointers as offsets of an area, and offsets as pointers.
ghost use Rattle.pli_store.specs.answers.Answered.{Answered};
ghost use Rattle.pli_store.specs.views.StorageView.{place_view, with_storage};
ghost use Rattle.pli_world.specs.Areas as plain;
ghost use Rattle.pli_world.specs.World.{World};

use pli_run::RunError;
use pli_store::{Place, Storage, StoreFault};
use pli_value::Locator;

/// A pointer as an offset of an area: its position, whether or not a block lives there; the null pointer as a null
/// offset.
/// `NoRule` for an offset; else `DeadLocator` where the generation of the area has ended, `NoRule` where the place is
/// no whole area, and `OutsideArea` for a pointer that does not lead into it.
pub fn offset_in(
    storage: &Storage<'_>,
    area: Place<'_>,
    locator: Locator,
) -> Result<Locator, StoreFault>
    ensures { (w : World) → Answered (λ locator. locator) result (with_storage storage.now w)
        (with_storage storage.now w)
        (plain.offset_in (place_view area.entry) locator (with_storage storage.now w)) }
{
    match locator {
        Locator::Null => {
            storage.use_area(area)?;
            Ok(Locator::Offset(0))
        }
        Locator::Pointer {
            generation,
            position,
        } => {
            storage.use_area(area)?;
            if generation != area.generation {
                return Err(StoreFault::Raised(RunError::OutsideArea));
            }
            if position == 0 {
                return Err(StoreFault::Raised(RunError::OutsideArea));
            }
            Ok(Locator::Offset(position))
        }
        Locator::Offset(_) => Err(StoreFault::NoRule),
    }
}

/// An offset as a pointer into an area; a null offset as the null pointer. `NoRule` for a pointer; else `DeadLocator`
/// where the generation of the area has ended, and `NoRule` where the place is no whole area.
pub fn pointer_in(
    storage: &Storage<'_>,
    area: Place<'_>,
    locator: Locator,
) -> Result<Locator, StoreFault>
    ensures { (w : World) → Answered (λ locator. locator) result (with_storage storage.now w)
        (with_storage storage.now w)
        (plain.pointer_in (place_view area.entry) locator (with_storage storage.now w)) }
{
    match locator {
        Locator::Offset(position) => {
            storage.use_area(area)?;
            if position == 0 {
                return Ok(Locator::Null);
            }
            Ok(Locator::Pointer {
                generation: area.generation,
                position,
            })
        }
        Locator::Null => Err(StoreFault::NoRule),
        Locator::Pointer { .. } => Err(StoreFault::NoRule),
    }
}
