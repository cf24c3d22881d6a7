//! One instruction.
ghost use Rattle.std.specs.Prelude.{◌≡◌, true, IfOk};
ghost use Rattle.pli_code.specs.views.CodeView.{member_view};
ghost use Rattle.pli_machine_activations.specs.answers.Served.{is_served};
ghost use Rattle.pli_machine_activations.specs.views.ImageView.{image_of};
ghost use Rattle.pli_machine_activations.specs.views.MachineView.{Performs};

use crate::areas::{allocate_in_area, assign_area, empty_area, to_offset, to_pointer};
use crate::conditions::{establish, revert, signal};
use crate::generations::{allocate_controlled, count_generations, free_controlled};
use crate::instructions::{
    calculate, constant, copy, field, fit, jump, jump_unless, load, make_dummy, store, subscript,
};
use crate::keeping::{set_temporary, take_temporary};
use crate::landing::go_to;
use crate::pointers::{address_of, allocate_based, based, free_based};
use crate::printing::{put, skip};
use crate::slots::{global, local};
use crate::stepping::{line, step};
use crate::strings::{bound_of, fit_to_place, subscript_in};
use pli_code::Instruction;
use pli_machine_activations::{
    ActiveUnit, Machine, Stop, call, call_entry, enter_begin, make_string_dummy, return_from,
    return_value,
};
use std::alloc::{AllocError, Global};

/// Performs an instruction of the newest activation's unit, and answers why the run stops there, if it does. The next
/// instruction is known already.
#[inline(always)]
pub fn perform<'m>(
    alloc: Global,
    unit: &ActiveUnit<'_, 'm>,
    instruction: Instruction,
    machine: &mut Machine<'m>,
) -> Result<Option<Stop>, AllocError>
    requires here { machine.old.here.unit ≡ unit.now.number }
    requires served { is_served unit.now.loaded.now.strings.now instruction ≡ true }
    ensures { IfOk result (Performs (image_of unit.now.loaded.now)
        (member_view unit.now.linked.now) instruction machine.old machine.new) }
{
    let code = &unit.linked.deck.code;
    match instruction {
        Instruction::Step { statement } => Ok(step(machine, statement)),
        Instruction::Line { statement } => Ok(line(machine, statement)),
        Instruction::Jump { target } => Ok(jump(machine, target)),
        Instruction::JumpUnless { target } => Ok(jump_unless(machine, target)),
        Instruction::Goto { outward, target } => Ok(go_to(machine, outward, target as usize)),
        Instruction::Call { block, arguments } => { call(alloc, unit, machine, block, arguments) }
        Instruction::CallExternal { global, arguments } => {
            call_entry(alloc, unit, machine, global as usize, arguments)
        }
        Instruction::Begin { block } => enter_begin(alloc, unit, machine, block),
        Instruction::Return { outward } => Ok(return_from(machine, outward)),
        Instruction::ReturnValue { outward } => return_value(alloc, machine, outward),
        Instruction::Raise(error) => Ok(Some(Stop::Raised(error))),
        Instruction::Stop => Ok(Some(Stop::Ended)),
        Instruction::Local { outward, slot } => local(machine, outward, slot as usize),
        Instruction::Global { number } => global(unit, machine, number as usize),
        Instruction::Based { description } => based(code, machine, description),
        Instruction::Field {
            offset,
            description,
        } => field(code, machine, offset, description),
        Instruction::Subscript {
            low,
            high,
            multiplier,
        } => subscript(machine, low, high, multiplier),
        Instruction::Constant { value } => constant(code, machine, value),
        Instruction::Load => load(alloc, machine),
        Instruction::Store => store(alloc, machine),
        Instruction::Copy => copy(machine),
        Instruction::MakeDummy { template } => make_dummy(alloc, code, machine, template),
        Instruction::Fit { description } => fit(alloc, unit, machine, description),
        Instruction::Operate(operation) => calculate(alloc, unit, machine, operation),
        Instruction::AddressOf => address_of(machine),
        Instruction::Put => put(alloc, machine),
        Instruction::Skip => skip(machine),
        Instruction::SetTemporary { number } => set_temporary(alloc, machine, number as usize),
        Instruction::TakeTemporary { number } => take_temporary(alloc, machine, number as usize),
        Instruction::AllocateControlled { global } => {
            allocate_controlled(alloc, unit, machine, global as usize)
        }
        Instruction::FreeControlled { global } => free_controlled(unit, machine, global as usize),
        Instruction::CountGenerations { global } => {
            count_generations(alloc, unit, machine, global as usize)
        }
        Instruction::AllocateBased { template } => allocate_based(alloc, unit, machine, template),
        Instruction::FreeBased { description } => free_based(code, machine, description),
        Instruction::ToPointer => to_pointer(machine),
        Instruction::ToOffset => to_offset(machine),
        Instruction::AllocateInArea { template, target } => {
            allocate_in_area(alloc, unit, machine, template, target)
        }
        Instruction::AssignArea => assign_area(alloc, unit, machine),
        Instruction::EmptyArea => empty_area(machine),
        Instruction::On { condition, block } => Ok(establish(unit, machine, condition, block)),
        Instruction::Revert { condition } => Ok(revert(machine, condition)),
        Instruction::Signal { condition } => signal(alloc, unit, machine, condition),
        Instruction::SubscriptIn { dimension } => subscript_in(machine, dimension),
        Instruction::BoundOf { which, dimension } => bound_of(machine, which, dimension),
        Instruction::MakeStringDummy { form } => {
            make_string_dummy(alloc, machine, unit.loaded.strings, form)
        }
        Instruction::FitToPlace => fit_to_place(alloc, unit, machine),
    }
}
