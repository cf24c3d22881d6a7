//! Ends of activations.
ghost use Rattle.std.specs.Prelude.{◌≡◌, ◌<◌, ◌-◌, true, false, None, Some, length, slice_get, vec_len, IfOk, IfSome};
ghost use Rattle.pli_machine_activations.specs.views.Image.{Image};
ghost use Rattle.pli_value.specs.Value.{Number, value_view};
ghost use Rattle.pli_machine_step.specs.Machine.{goes_on, returned_with};
ghost use Rattle.pli_program.specs.declared.instruction.Instruction.TheVariants.{Return, ReturnValue};
ghost use Rattle.pli_machine_activations.specs.answers.Activated.{Awaits, Leaves};
ghost use Rattle.pli_machine_activations.specs.views.MachineView.{Does, IsSame, Moves};

use crate::machine::{Machine, Stop};
use crate::spare::empty;
use pli_machine_operate::{Operand, pop_number, pop_value, push};
use pli_value::Value;
use std::alloc::{AllocError, Global};
use std::mem;

/// Ends the newest activation, where one waits for it, which is to go on as it waited; else the machine stays as it is.
#[inline(always)]
fn leave_at_once(machine: &mut Machine) -> bool
    ensures leaves { Leaves result machine.old machine.new }
    ensures fewer { result ≡ true → length machine.new.waiting.items < length machine.old.waiting.items }
    ensures some { 0 < vec_len machine.old.waiting → result ≡ true }
    ensures next { result ≡ true
        → slice_get machine.old.waiting.items (vec_len machine.old.waiting - 1) ≡ Some machine.new.here }
{
    if machine.waiting.is_empty() {
        return false;
    }
    machine.storage.end(&machine.here.room.pending);
    machine.storage.end(&machine.here.room.owned);
    empty(&mut machine.here);
    let next = machine.waiting.take_last();
    let ended = mem::replace(&mut machine.here, next);
    machine.spare.keep(ended);
    machine.display.turn(&machine.waiting, machine.here.link);
    true
}

/// Whether an activation waits that goes on at once, with memory for an operand more.
#[inline(always)]
fn is_awaited(machine: &Machine) -> bool
    ensures some { result ≡ true → 0 < vec_len machine.now.waiting }
    ensures awaits { result ≡ true
        → IfSome (slice_get machine.now.waiting.items (vec_len machine.now.waiting - 1)) Awaits }
{
    let count = machine.waiting.len();
    if count == 0 {
        return false;
    }
    let next = &machine.waiting[count - 1];
    if next.again {
        return false;
    }
    next.operands.len() < next.operands.capacity()
}

/// Ends the newest activation, where one waits that goes on at once, and gives a number to that one; `false` where it
/// does not, and nothing has changed then.
#[inline(always)]
pub fn give_number(machine: &mut Machine, number: i64) -> bool
    ensures given { result ≡ true → (image : Image) →
        Moves image (λ here frames w. returned_with 0 (Number number) frames w) machine.old machine.new None }
    ensures same { result ≡ false → IsSame machine.old machine.new }
{
    if !is_awaited(machine) {
        return false;
    }
    let _left = leave_at_once(machine);
    machine
        .here
        .operands
        .push_reserved(Operand::OfValue(Value::Number(number)));
    true
}

/// Ends the newest activation, where one waits that goes on at once; `false` where none does, and nothing has changed
/// then.
#[inline(always)]
pub fn end_at_once(machine: &mut Machine) -> bool
    ensures ended { result ≡ true → Does (Return 0) machine.old machine.new None }
    ensures same { result ≡ false → IsSame machine.old machine.new }
{
    if !is_awaited(machine) {
        return false;
    }
    leave_at_once(machine)
}

/// The same, where it is done seldom.
#[inline(never)]
pub fn leave(machine: &mut Machine) -> bool
    ensures leaves { Leaves result machine.old machine.new }
    ensures fewer { result ≡ true → length machine.new.waiting.items < length machine.old.waiting.items }
{
    leave_at_once(machine)
}

/// Lets the newest activation go on that has waited: by a step where it executes its next instruction again.
#[inline(always)]
fn resume(machine: &mut Machine) -> Option<Stop>
    ensures { (image : Image) →
        Moves image (λ here frames w. goes_on machine.old.here.again
        (record here { again = machine.old.here.again }) frames w) machine.old machine.new result }
{
    if !machine.here.again {
        return None;
    }
    if machine.steps >= machine.limit {
        return Some(Stop::OutOfSteps);
    }
    machine.steps += 1;
    None
}

/// Ends the newest activation and so many more.
pub fn return_from(machine: &mut Machine, outward: u8) -> Option<Stop>
    ensures { Does (Return outward) machine.old machine.new result }
{
    for _ended in 0..outward {
        if !leave(machine) {
            return Some(Stop::Fault);
        }
    }
    if leave_at_once(machine) {
        resume(machine)
    } else {
        Some(Stop::Ended)
    }
}

/// Ends the newest activation and so many more, and gives a value to the one that goes on.
#[inline(always)]
pub fn give_back(
    machine: &mut Machine,
    outward: u8,
    value: Value,
) -> Result<Option<Stop>, AllocError>
    ensures { IfOk result (λ stop. (image : Image) →
        Moves image (λ here frames w. returned_with outward (value_view value) frames w) machine.old machine.new stop) }
{
    for _ended in 0..outward {
        if !leave(machine) {
            return Ok(Some(Stop::Fault));
        }
    }
    if !leave_at_once(machine) {
        return Ok(Some(Stop::Fault));
    }
    push(&mut machine.here.operands, Operand::OfValue(value))?;
    Ok(resume(machine))
}

/// Takes a value, ends the newest activation and so many more, and gives the value to the one that goes on. A number
/// takes the short way.
pub fn return_value(
    alloc: Global,
    machine: &mut Machine,
    outward: u8,
) -> Result<Option<Stop>, AllocError>
    ensures { IfOk result (Does (ReturnValue outward) machine.old machine.new) }
{
    match pop_number(&mut machine.here.operands) {
        Some(number) => give_back(machine, outward, Value::Number(number)),
        None => return_newest(alloc, machine, outward),
    }
}

/// The same of any value.
fn return_newest(
    alloc: Global,
    machine: &mut Machine,
    outward: u8,
) -> Result<Option<Stop>, AllocError>
    ensures { IfOk result (Does (ReturnValue outward) machine.old machine.new) }
{
    match pop_value(alloc, &mut machine.here.operands)? {
        Some(value) => give_back(machine, outward, value),
        None => Ok(Some(Stop::Fault)),
    }
}
