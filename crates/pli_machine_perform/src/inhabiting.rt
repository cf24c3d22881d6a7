//! Instructions on areas, on operands and storage.
ghost use Rattle.std.specs.Prelude.{map, IfOk, IfSome, OnErr};
ghost use Rattle.pli_map.specs.views.DescriptionView.{description_view};
ghost use Rattle.pli_stacks.specs.answers.LaidBytes.{IsLaid};
ghost use Rattle.pli_store.specs.answers.Answered.{Answered};
ghost use Rattle.pli_store.specs.views.StorageView.{SameStorage, place_view, with_storage};
ghost use Rattle.pli_type_tree.specs.Templates.{variable_of};
ghost use Rattle.pli_type_tree.specs.views.TemplateView.{initial_view};
ghost use Rattle.pli_value.specs.Value.{Located};
ghost use Rattle.pli_world.specs.Locating.{block_made};
ghost use Rattle.pli_world.specs.World.{World};
ghost use Rattle.pli_machine_activations.specs.views.MachineView.{Works};
ghost use Rattle.pli_machine_perform.specs.views.ActView.{Touches, emptied_at, offset_as, pointer_as};

use pli_locators::{allocate_in, offset_in, pointer_in};
use pli_machine_activations::{Stop, stop_at};
use pli_machine_operate::{Operand, pop_locator, push};
use pli_map::{Description, is_area};
use pli_store::{Place, Storage, StoreFault};
use pli_type_tree::InitialScalar;
use pli_value::{Locator, Value};
use std::alloc::{AllocError, Global};

/// Takes an offset, and gives the pointer into an area.
pub fn to_pointer(
    operands: &mut Vec<Operand>,
    storage: &Storage,
    area: Place<'_>,
) -> Result<Option<Stop>, AllocError>
    ensures { IfOk result (Works (pointer_as (place_view area.entry)) operands.old.items operands.new.items storage.now
        storage.now) }
{
    let Some(offset) = pop_locator(operands) else {
        return Ok(Some(Stop::Fault));
    };
    match pointer_in(storage, area, offset) {
        Ok(pointer) => {
            push(operands, Operand::OfValue(Value::Locator(pointer)))?;
            Ok(None)
        }
        Err(fault) => Ok(Some(stop_at(fault)?)),
    }
}

/// Takes a pointer, and gives the offset of an area.
pub fn to_offset(
    operands: &mut Vec<Operand>,
    storage: &Storage,
    area: Place<'_>,
) -> Result<Option<Stop>, AllocError>
    ensures { IfOk result (Works (offset_as (place_view area.entry)) operands.old.items operands.new.items storage.now
        storage.now) }
{
    let Some(pointer) = pop_locator(operands) else {
        return Ok(Some(Stop::Fault));
    };
    match offset_in(storage, area, pointer) {
        Ok(offset) => {
            push(operands, Operand::OfValue(Value::Locator(offset)))?;
            Ok(None)
        }
        Err(fault) => Ok(Some(stop_at(fault)?)),
    }
}

/// Makes a block of a BASED variable in an area from a description and initial values, or from what is laid for them:
/// the pointer to it. No variable that is an area itself stands in another. After an error nothing has changed.
pub fn make_block<'m>(
    alloc: Global,
    storage: &mut Storage<'m>,
    area: Place<'_>,
    description: &'m Description,
    scalars: &[InitialScalar],
    laid: Option<&[u8]>,
) -> Result<Locator, StoreFault>
    requires { IfSome laid (λ bytes. IsLaid (record {
      description = description_view description.now;
      initial = map initial_view scalars.now;
    }) bytes.now) }
    ensures answer { (w : World) → Answered (λ locator. Located locator) result (with_storage storage.old w)
        (with_storage storage.new w)
        (block_made (place_view area.entry)
        (variable_of (record {
          description = description_view description.now;
          initial = map initial_view scalars.now;
        }))
        (with_storage storage.old w)) }
    ensures err { OnErr result (SameStorage storage.old storage.new) }
{
    if is_area(description) {
        return Err(StoreFault::NoRule);
    }
    allocate_in(alloc, storage, area, description, scalars, laid)
}

/// Ends all blocks of an area.
pub fn empty(storage: &mut Storage, area: Place<'_>) -> Result<Option<Stop>, AllocError>
    ensures { IfOk result (Touches (emptied_at (place_view area.entry)) storage.old storage.new) }
{
    match storage.empty_area(area) {
        Ok(()) => Ok(None),
        Err(fault) => Ok(Some(stop_at(fault)?)),
    }
}
