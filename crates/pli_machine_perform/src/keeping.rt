//! Constants and temporaries.
ghost use Rattle.std.specs.Prelude.{◌≡◌, ◌<◌, length, slice_set, Some, IfOk};
ghost use Rattle.pli_program.specs.declared.instruction.Instruction.TheVariants.{Constant, SetTemporary};
ghost use Rattle.pli_program.specs.declared.instruction.Instruction.TheVariants.{TakeTemporary};
ghost use Rattle.pli_value.specs.Value.{value_view};
ghost use Rattle.pli_machine_activations.specs.views.MachineView.{Does};

use pli_machine_activations::{Machine, Stop};
use pli_machine_operate::{Operand, pop_value, push};
use pli_value::Value;
use std::alloc::{AllocError, Global};

/// A copy of a value. A number takes the short way.
#[inline]
fn copied(alloc: Global, value: &Value) -> Result<Value, AllocError>
    ensures { IfOk result (λ copy. value_view copy ≡ value_view value.now) }
{
    match value {
        Value::Number(number) => Ok(Value::Number(*number)),
        _ => value.copy(alloc),
    }
}

/// Puts a constant upon the operands. A number is copied, any other value is not.
#[inline]
pub fn put_constant<'m>(
    machine: &mut Machine<'m>,
    value: &'m Value,
) -> Result<Option<Stop>, AllocError>
    ensures { IfOk result (Does (Constant (value_view value.now)) machine.old machine.new) }
{
    let operand = match value {
        Value::Number(number) => Operand::OfValue(Value::Number(*number)),
        _ => Operand::OfConstant(value),
    };
    push(&mut machine.here.operands, operand)?;
    Ok(None)
}

/// Keeps a value as a temporary.
fn keep(temporaries: &mut Vec<Option<Value>>, number: usize, value: Value)
    requires { number < length temporaries.old.items }
    ensures { temporaries.new.items ≡ slice_set temporaries.old.items number (Some value) }
{
    temporaries[number] = Some(value);
}

/// Takes a value and keeps it as a temporary.
pub fn set_temporary(
    alloc: Global,
    machine: &mut Machine,
    number: usize,
) -> Result<Option<Stop>, AllocError>
    ensures { IfOk result (Does (SetTemporary number) machine.old machine.new) }
{
    let Some(value) = pop_value(alloc, &mut machine.here.operands)? else {
        return Ok(Some(Stop::Fault));
    };
    let room = &mut *machine.here.room;
    if number >= room.temporaries.len() {
        return Ok(Some(Stop::Fault));
    }
    keep(&mut room.temporaries, number, value);
    Ok(None)
}

/// Puts a copy of a temporary upon the operands, if it was set.
pub fn take_temporary(
    alloc: Global,
    machine: &mut Machine,
    number: usize,
) -> Result<Option<Stop>, AllocError>
    ensures { IfOk result (Does (TakeTemporary number) machine.old machine.new) }
{
    let room = &*machine.here.room;
    let copy = match room.temporaries.get(number) {
        Some(Some(value)) => copied(alloc, value)?,
        _ => return Ok(Some(Stop::Fault)),
    };
    push(&mut machine.here.operands, Operand::OfValue(copy))?;
    Ok(None)
}
