//! Instructions by pointers, on operands and storage.
ghost use Rattle.std.specs.Prelude.{map, IfOk, IfSome};
ghost use Rattle.pli_machine_step.specs.Machine.{leads_to, frees};
ghost use Rattle.pli_map.specs.views.DescriptionView.{description_view};
ghost use Rattle.pli_stacks.specs.answers.LaidBytes.{IsLaid};
ghost use Rattle.pli_store.specs.views.StorageView.{place_view};
ghost use Rattle.pli_type_tree.specs.Templates.{variable_of};
ghost use Rattle.pli_type_tree.specs.views.TemplateView.{initial_view};
ghost use Rattle.pli_machine_perform.specs.views.ActView.{addressed_as, allocates};
ghost use Rattle.pli_machine_activations.specs.views.MachineView.{Works};

use pli_locators::{address, allocate_based, based, free_based};
use pli_machine_activations::{Stop, stop_at};
use pli_machine_operate::{Operand, pop_locator, push};
use pli_map::Description;
use pli_store::{Place, Storage};
use pli_type_tree::InitialScalar;
use pli_value::Value;
use std::alloc::{AllocError, Global};

/// Takes a pointer and gives the place to which it leads, where that is of this whole description.
pub fn lead_to<'m>(
    operands: &mut Vec<Operand<'m>>,
    storage: &Storage<'m>,
    description: &Description,
) -> Result<Option<Stop>, AllocError>
    ensures { IfOk result (Works (leads_to (description_view description.now)) operands.old.items operands.new.items
        storage.now storage.now) }
{
    let Some(locator) = pop_locator(operands) else {
        return Ok(Some(Stop::Fault));
    };
    match based(storage, description, locator) {
        Ok(place) => {
            push(operands, Operand::AtPlace(place))?;
            Ok(None)
        }
        Err(fault) => Ok(Some(stop_at(fault)?)),
    }
}

/// Gives the pointer to what a place is the whole of.
pub fn address_of(
    operands: &mut Vec<Operand>,
    storage: &Storage,
    place: Place<'_>,
) -> Result<Option<Stop>, AllocError>
    ensures { IfOk result (Works (addressed_as (place_view place.entry)) operands.old.items operands.new.items
        storage.now storage.now) }
{
    match address(storage, place) {
        Ok(locator) => {
            push(operands, Operand::OfValue(Value::Locator(locator)))?;
            Ok(None)
        }
        Err(fault) => Ok(Some(stop_at(fault)?)),
    }
}

/// Makes a generation of a BASED variable from a description and initial values, or from what is laid for them, and
/// gives the pointer to it.
pub fn allocate<'m>(
    alloc: Global,
    operands: &mut Vec<Operand<'m>>,
    storage: &mut Storage<'m>,
    description: &'m Description,
    scalars: &[InitialScalar],
    laid: Option<&[u8]>,
) -> Result<Option<Stop>, AllocError>
    requires { IfSome laid (λ bytes. IsLaid (record {
      description = description_view description.now;
      initial = map initial_view scalars.now;
    }) bytes.now) }
    ensures { IfOk result (Works
        (allocates (variable_of (record {
          description = description_view description.now;
          initial = map initial_view scalars.now;
        })))
        operands.old.items operands.new.items storage.old storage.new) }
{
    match allocate_based(alloc, storage, description, scalars, laid) {
        Ok(locator) => {
            push(operands, Operand::OfValue(Value::Locator(locator)))?;
            Ok(None)
        }
        Err(fault) => Ok(Some(stop_at(fault)?)),
    }
}

/// Takes a pointer and frees that to which it leads, where that is of this whole description.
pub fn free(
    operands: &mut Vec<Operand>,
    storage: &mut Storage,
    description: &Description,
) -> Result<Option<Stop>, AllocError>
    ensures { IfOk result (Works (frees (description_view description.now)) operands.old.items operands.new.items
        storage.old storage.new) }
{
    let Some(locator) = pop_locator(operands) else {
        return Ok(Some(Stop::Fault));
    };
    match free_based(storage, description, locator) {
        Ok(()) => Ok(None),
        Err(fault) => Ok(Some(stop_at(fault)?)),
    }
}
