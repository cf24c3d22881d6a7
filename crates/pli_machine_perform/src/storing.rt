//! Instructions on storage, at places.
ghost use Rattle.std.specs.Prelude.{IfOk};
ghost use Rattle.pli_store.specs.views.StorageView.{place_view};
ghost use Rattle.pli_value.specs.Value.{value_view};
ghost use Rattle.pli_machine_perform.specs.views.ActView.{Touches, copied_at, held_as, stored_at};
ghost use Rattle.pli_machine_activations.specs.views.MachineView.{Works};

use pli_machine_activations::{Stop, stop_at};
use pli_machine_operate::{Operand, push};
use pli_store::{Place, Storage};
use pli_value::Value;
use std::alloc::{AllocError, Global};

/// Gives what a place holds. A number takes the short way.
#[inline]
pub fn load(
    alloc: Global,
    operands: &mut Vec<Operand>,
    storage: &Storage,
    place: Place<'_>,
) -> Result<Option<Stop>, AllocError>
    ensures { IfOk result (Works (held_as (place_view place.entry)) operands.old.items operands.new.items storage.now
        storage.now) }
{
    match storage.number_at(place) {
        Some(number) => {
            push(operands, Operand::OfValue(Value::Number(number)))?;
            Ok(None)
        }
        None => load_value(alloc, operands, storage, place),
    }
}

/// The same of any value.
fn load_value(
    alloc: Global,
    operands: &mut Vec<Operand>,
    storage: &Storage,
    place: Place<'_>,
) -> Result<Option<Stop>, AllocError>
    ensures { IfOk result (Works (held_as (place_view place.entry)) operands.old.items operands.new.items storage.now
        storage.now) }
{
    match storage.held(alloc, place) {
        Ok(value) => {
            push(operands, Operand::OfValue(value))?;
            Ok(None)
        }
        Err(fault) => Ok(Some(stop_at(fault)?)),
    }
}

/// Puts a value at a place.
#[inline]
pub fn store(
    storage: &mut Storage,
    place: Place<'_>,
    value: Value,
) -> Result<Option<Stop>, AllocError>
    ensures { IfOk result (Touches (stored_at (place_view place.entry) (value_view value)) storage.old storage.new) }
{
    match storage.stored(place, value) {
        Ok(()) => Ok(None),
        Err(fault) => Ok(Some(stop_at(fault)?)),
    }
}

/// Copies what a source holds to a target.
pub fn copy(
    storage: &mut Storage,
    source: Place<'_>,
    target: Place<'_>,
) -> Result<Option<Stop>, AllocError>
    ensures { IfOk result (Touches (copied_at (place_view source.entry) (place_view target.entry)) storage.old
        storage.new) }
{
    match storage.copied(source, target) {
        Ok(()) => Ok(None),
        Err(fault) => Ok(Some(stop_at(fault)?)),
    }
}
