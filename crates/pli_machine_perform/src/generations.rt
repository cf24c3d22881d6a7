//! Generations of CONTROLLED variables.
ghost use Rattle.std.specs.Prelude.{◌≡◌, ℕ, pos, List, Some, IfOk, MatchOption};
ghost use Rattle.pli_value.specs.Value.{Number, value_view};
ghost use Rattle.pli_world.specs.Stacks.{stack_named};
ghost use Rattle.pli_world.specs.World.{Yields, Wrong};
ghost use Rattle.pli_machine_step.specs.Machine.{act};
ghost use Rattle.pli_program.specs.Program.{UnitCode};
ghost use Rattle.pli_program.specs.declared.instruction.Instruction.TheVariants.{AllocateControlled};
ghost use Rattle.pli_program.specs.declared.instruction.Instruction.TheVariants.{FreeControlled};
ghost use Rattle.pli_program.specs.declared.instruction.Instruction.TheVariants.{CountGenerations};
ghost use Rattle.pli_code.specs.Modules.{program_of};
ghost use Rattle.pli_machine_activations.specs.views.ImageView.{image_of};
ghost use Rattle.pli_machine_activations.specs.views.MachineView.{Moves, world_of};
ghost use Rattle.pli_machine_perform.specs.answers.AtOnce.{MovesOrStays};
ghost use Rattle.pli_machine_perform.specs.views.HaltView.{DoesIn, Settles, giving_zero};

use crate::halting::{Halt, halt_at};
use pli_machine_activations::{ActiveUnit, Machine, Stop, raise, static_stack, stop_at};
use pli_machine_operate::{Operand, push};
use pli_value::Value;
use std::alloc::{AllocError, Global};

/// The stack of a CONTROLLED variable, by its number among the globals of the newest activation's unit.
#[inline(always)]
fn named_stack<'m>(
    unit: &ActiveUnit<'_, 'm>,
    _machine: &Machine<'m>,
    global: usize,
) -> Option<usize>
    requires { _machine.now.here.unit ≡ unit.now.number }
    ensures { (put : List ℕ) → let w = world_of (image_of unit.now.loaded.now) _machine.now put in
        MatchOption result (stack_named global w ≡ Wrong) (λ stack. stack_named global w ≡ Yields stack w) }
{
    static_stack(unit, global)
}

/// ALLOCATE of a CONTROLLED variable, by its number among the globals of the newest activation's unit.
#[inline(never)]
pub fn allocate_controlled<'m>(
    alloc: Global,
    unit: &ActiveUnit<'_, 'm>,
    machine: &mut Machine<'m>,
    global: usize,
) -> Result<Option<Stop>, AllocError>
    requires { machine.old.here.unit ≡ unit.now.number }
    ensures { IfOk result (λ stop. (u : UnitCode) → Moves (image_of unit.now.loaded.now)
        (act (program_of (image_of unit.now.loaded.now).linked) u (Some (AllocateControlled global))) machine.old
        machine.new stop) }
{
    let Some(stack) = named_stack(unit, machine, global) else {
        return Ok(Some(Stop::Fault));
    };
    match machine
        .stacks
        .allocate_controlled(alloc, &mut machine.storage, stack)
    {
        Ok(()) => Ok(None),
        Err(fault) => Ok(Some(stop_at(fault)?)),
    }
}

/// FREE of a CONTROLLED variable, by its number among the globals of the newest activation's unit.
#[inline(never)]
pub fn free_controlled<'m>(
    unit: &ActiveUnit<'_, 'm>,
    machine: &mut Machine<'m>,
    global: usize,
) -> Result<Option<Stop>, AllocError>
    requires { machine.old.here.unit ≡ unit.now.number }
    ensures { IfOk result (λ stop. (u : UnitCode) → Moves (image_of unit.now.loaded.now)
        (act (program_of (image_of unit.now.loaded.now).linked) u (Some (FreeControlled global))) machine.old
        machine.new stop) }
{
    let Some(stack) = named_stack(unit, machine, global) else {
        return Ok(Some(Stop::Fault));
    };
    match machine.stacks.free_controlled(&mut machine.storage, stack) {
        Ok(()) => Ok(None),
        Err(fault) => Ok(Some(stop_at(fault)?)),
    }
}

/// ALLOCATE of a CONTROLLED variable, by its number among the globals of the newest activation's unit, after which the
/// instruction of a number is the next one; `false` where there is none, and nothing has changed then.
#[inline(always)]
pub fn allocate_at_once<'m>(
    alloc: Global,
    unit: &ActiveUnit<'_, 'm>,
    machine: &mut Machine<'m>,
    global: usize,
    next: usize,
) -> bool
    requires { machine.old.here.unit ≡ unit.now.number }
    ensures done { (u : UnitCode) → MovesOrStays result (image_of unit.now.loaded.now)
        (act (program_of (image_of unit.now.loaded.now).linked) u (Some (AllocateControlled global))) machine.old next
        machine.new }
    ensures unit { machine.new.here.unit ≡ machine.old.here.unit }
{
    let Some(stack) = named_stack(unit, machine, global) else {
        return false;
    };
    match machine
        .stacks
        .allocate_controlled(alloc, &mut machine.storage, stack)
    {
        Ok(()) => {
            machine.here.next = next;
            true
        }
        Err(_fault) => false,
    }
}

/// The same of FREE.
#[inline(always)]
pub fn free_at_once<'m>(
    unit: &ActiveUnit<'_, 'm>,
    machine: &mut Machine<'m>,
    global: usize,
    next: usize,
) -> bool
    requires { machine.old.here.unit ≡ unit.now.number }
    ensures done { (u : UnitCode) → MovesOrStays result (image_of unit.now.loaded.now)
        (act (program_of (image_of unit.now.loaded.now).linked) u (Some (FreeControlled global))) machine.old next
        machine.new }
    ensures unit { machine.new.here.unit ≡ machine.old.here.unit }
{
    let Some(number) = named_stack(unit, machine, global) else {
        return false;
    };
    match machine.stacks.free_controlled(&mut machine.storage, number) {
        Ok(()) => {
            machine.here.next = next;
            true
        }
        Err(_fault) => false,
    }
}

/// ALLOCATE of a CONTROLLED variable as `allocate_at_once` performs it, where all that is needed is at hand, so that no
/// call is made; `false` where it is not, and nothing has changed then.
#[inline(always)]
pub fn allocate_near<'m>(
    unit: &ActiveUnit<'_, 'm>,
    machine: &mut Machine<'m>,
    global: usize,
    next: usize,
) -> bool
    requires { machine.old.here.unit ≡ unit.now.number }
    ensures done { (u : UnitCode) → MovesOrStays result (image_of unit.now.loaded.now)
        (act (program_of (image_of unit.now.loaded.now).linked) u (Some (AllocateControlled global))) machine.old next
        machine.new }
    ensures unit { machine.new.here.unit ≡ machine.old.here.unit }
{
    let Some(stack) = named_stack(unit, machine, global) else {
        return false;
    };
    if !machine.stacks.allocate_at_once(&mut machine.storage, stack) {
        return false;
    }
    machine.here.next = next;
    true
}

/// The same of FREE.
#[inline(always)]
pub fn free_near<'m>(
    unit: &ActiveUnit<'_, 'm>,
    machine: &mut Machine<'m>,
    global: usize,
    next: usize,
) -> bool
    requires { machine.old.here.unit ≡ unit.now.number }
    ensures done { (u : UnitCode) → MovesOrStays result (image_of unit.now.loaded.now)
        (act (program_of (image_of unit.now.loaded.now).linked) u (Some (FreeControlled global))) machine.old next
        machine.new }
    ensures unit { machine.new.here.unit ≡ machine.old.here.unit }
{
    let Some(number) = named_stack(unit, machine, global) else {
        return false;
    };
    if !machine.stacks.free_at_once(&mut machine.storage, number) {
        return false;
    }
    machine.here.next = next;
    true
}

/// How many there are, as a value.
fn count_value(count: u16) -> Value
    ensures { value_view result ≡ Number (pos count) }
{
    Value::Number(i64::from(count))
}

/// What comes of a count that is none: the run stops, or a condition is raised, after whose ON-unit the count is 0.
fn count_halted<'m>(
    alloc: Global,
    unit: &ActiveUnit<'_, 'm>,
    machine: &mut Machine<'m>,
    halt: Halt,
) -> Result<Option<Stop>, AllocError>
    ensures { IfOk result (Settles (image_of unit.now.loaded.now) giving_zero (Some halt) machine.old machine.new) }
{
    match halt {
        Halt::Stops(stop) => Ok(Some(stop)),
        Halt::Raises(condition) => {
            push(&mut machine.here.operands, Operand::OfValue(count_value(0)))?;
            raise(alloc, unit.loaded, machine, condition, false)
        }
    }
}

/// Puts upon the operands how many generations a CONTROLLED variable has, by its number among the globals of the newest
/// activation's unit; 0 after an ON-unit that takes the condition of too many.
pub fn count_generations<'m>(
    alloc: Global,
    unit: &ActiveUnit<'_, 'm>,
    machine: &mut Machine<'m>,
    global: usize,
) -> Result<Option<Stop>, AllocError>
    requires { machine.old.here.unit ≡ unit.now.number }
    ensures { IfOk result (DoesIn (image_of unit.now.loaded.now) (CountGenerations global) machine.old machine.new) }
{
    let Some(stack) = named_stack(unit, machine, global) else {
        return Ok(Some(Stop::Fault));
    };
    match machine.stacks.generations(stack) {
        Ok(count) => {
            push(
                &mut machine.here.operands,
                Operand::OfValue(count_value(count)),
            )?;
            Ok(None)
        }
        Err(fault) => {
            let halt = halt_at(fault)?;
            count_halted(alloc, unit, machine, halt)
        }
    }
}
