//! Instructions that calculate.
ghost use Rattle.std.specs.Prelude.{◌≤◌, IfOk};
ghost use Rattle.pli_map.specs.views.DescriptionView.{description_view};
ghost use Rattle.pli_machine_step.specs.Machine.{fits, fits_to_place};
ghost use Rattle.pli_machine_operate.specs.views.CalculationView.{calculation_view, immediate_view};
ghost use Rattle.pli_operation.specs.Operations.{RaisesCondition};
ghost use Rattle.pli_value.specs.Value.{value_view};
ghost use Rattle.pli_machine_perform.specs.views.ActView.{calculated_as, fitted_at_newest, operated_as, operated_by};
ghost use Rattle.pli_machine_perform.specs.views.HaltView.{Computes, ComputesWith};

use crate::halting::Halt;
use pli_base::statement::Condition;
use pli_machine_activations::Stop;
use pli_machine_operate::{
    Calculation, Immediate, Operand, calculate_by, calculate_from, calculate_numbers,
    calculate_with, fit, fit_number, fit_string, is_within, newest_place, pop_number, pop_three,
    pop_value, push, take_three_numbers, take_two_numbers, take_value,
};
use pli_map::Description;
use pli_operation::Operation;
use pli_run::RunError;
use pli_value::Value;
use pli_value::number::Raised;
use std::alloc::{AllocError, Global};

/// Raises a condition. After the ON-unit that takes it the operation gives 0, which is put upon the operands.
fn raise_zero(operands: &mut Vec<Operand>, raised: Raised) -> Result<Option<Halt>, AllocError>
    ensures { IfOk result (Computes (calculated_as (RaisesCondition raised)) operands.old.items operands.new.items) }
{
    push(operands, Operand::OfValue(Value::Number(0)))?;
    match raised {
        Raised::Overflow => Ok(Some(Halt::Raises(Condition::FixedOverflow))),
        Raised::ZeroDivide => Ok(Some(Halt::Raises(Condition::ZeroDivide))),
    }
}

/// Puts what an operation comes to upon the operands, raises a condition, or stops the run.
#[inline]
fn give(operands: &mut Vec<Operand>, calculation: Calculation) -> Result<Option<Halt>, AllocError>
    ensures { IfOk result (Computes (calculated_as (calculation_view calculation)) operands.old.items
        operands.new.items) }
{
    match calculation {
        Calculation::Gives(value) => {
            push(operands, Operand::OfValue(value))?;
            Ok(None)
        }
        Calculation::GivesBit(bit) => {
            push(operands, Operand::OneBit(bit))?;
            Ok(None)
        }
        Calculation::RaisesCondition(raised) => raise_zero(operands, raised),
        Calculation::OutOfString => Ok(Some(Halt::Stops(Stop::Raised(RunError::StringRange)))),
        Calculation::Misfits => Ok(Some(Halt::Stops(Stop::Fault))),
    }
}

/// The same of what takes no memory.
#[inline]
fn give_immediate(
    operands: &mut Vec<Operand>,
    immediate: Immediate,
) -> Result<Option<Halt>, AllocError>
    ensures { IfOk result (Computes (calculated_as (immediate_view immediate)) operands.old.items operands.new.items) }
{
    match immediate {
        Immediate::Number(number) => {
            push(operands, Operand::OfValue(Value::Number(number)))?;
            Ok(None)
        }
        Immediate::Bit(bit) => {
            push(operands, Operand::OneBit(bit))?;
            Ok(None)
        }
        Immediate::Raises(raised) => raise_zero(operands, raised),
        Immediate::Misfits => Ok(Some(Halt::Stops(Stop::Fault))),
    }
}

/// An operation on the newest operands, with a greatest precision from 0 to 63.
#[inline]
pub fn operate(
    alloc: Global,
    operands: &mut Vec<Operand>,
    operation: Operation,
    greatest: u8,
) -> Result<Option<Halt>, AllocError>
    requires { greatest ≤ 63 }
    ensures { IfOk result (ComputesWith greatest (operated_as operation) operands.old.items operands.new.items) }
{
    match operation.arity() {
        1 => operate_from(alloc, operands, operation),
        3 => operate_by(alloc, operands, operation),
        _ => operate_with(alloc, operands, operation, greatest),
    }
}

/// An operation on the newest operand.
fn operate_from(
    alloc: Global,
    operands: &mut Vec<Operand>,
    operation: Operation,
) -> Result<Option<Halt>, AllocError>
    ensures { IfOk result (Computes (operated_by 1 operation) operands.old.items operands.new.items) }
{
    let Some(value) = pop_value(alloc, operands)? else {
        return Ok(Some(Halt::Stops(Stop::Fault)));
    };
    let calculation = calculate_from(alloc, operation, &value)?;
    give(operands, calculation)
}

/// An operation on the newest two operands. Numbers are not moved.
#[inline]
fn operate_with(
    alloc: Global,
    operands: &mut Vec<Operand>,
    operation: Operation,
    greatest: u8,
) -> Result<Option<Halt>, AllocError>
    requires { greatest ≤ 63 }
    ensures { IfOk result (ComputesWith greatest (operated_by 2 operation) operands.old.items operands.new.items) }
{
    match take_two_numbers(operands) {
        Some((left, right)) => {
            let immediate = calculate_numbers(operation, left, right, greatest)?;
            give_immediate(operands, immediate)
        }
        None => operate_with_values(alloc, operands, operation, greatest),
    }
}

/// An operation on the newest two operands, whatever they are.
fn operate_with_values(
    alloc: Global,
    operands: &mut Vec<Operand>,
    operation: Operation,
    greatest: u8,
) -> Result<Option<Halt>, AllocError>
    requires { greatest ≤ 63 }
    ensures { IfOk result (ComputesWith greatest (operated_by 2 operation) operands.old.items operands.new.items) }
{
    let Some(right) = take_value(alloc, operands)? else {
        return Ok(Some(Halt::Stops(Stop::Fault)));
    };
    let Some(left) = pop_value(alloc, operands)? else {
        drop(right);
        return Ok(Some(Halt::Stops(Stop::Fault)));
    };
    let outcome = calculate_with(alloc, operation, left, right.value(), greatest);
    drop(right);
    let calculation = outcome?;
    give(operands, calculation)
}

/// An operation on the newest three operands. Numbers of which one is held against a limit are not moved.
fn operate_by(
    alloc: Global,
    operands: &mut Vec<Operand>,
    operation: Operation,
) -> Result<Option<Halt>, AllocError>
    ensures { IfOk result (Computes (operated_by 3 operation) operands.old.items operands.new.items) }
{
    match operation {
        Operation::Within => operate_within(alloc, operands),
        _ => operate_by_values(alloc, operands, operation),
    }
}

/// Whether the newest number has not passed a limit. Numbers are not moved.
#[inline]
fn operate_within(alloc: Global, operands: &mut Vec<Operand>) -> Result<Option<Halt>, AllocError>
    ensures { IfOk result (Computes (operated_by 3 Operation.Within) operands.old.items operands.new.items) }
{
    match take_three_numbers(operands) {
        Some((number, limit, step)) => {
            give_immediate(operands, Immediate::Bit(is_within(number, limit, step)))
        }
        None => operate_by_values(alloc, operands, Operation::Within),
    }
}

/// An operation on the newest three operands, whatever they are.
fn operate_by_values(
    alloc: Global,
    operands: &mut Vec<Operand>,
    operation: Operation,
) -> Result<Option<Halt>, AllocError>
    ensures { IfOk result (Computes (operated_by 3 operation) operands.old.items operands.new.items) }
{
    let Some((first, second, third)) = pop_three(alloc, operands)? else {
        return Ok(Some(Halt::Stops(Stop::Fault)));
    };
    let outcome = calculate_by(alloc, operation, &first, &second, &third);
    drop(first);
    drop(second);
    drop(third);
    let calculation = outcome?;
    give(operands, calculation)
}

/// Fits the newest operand to a description. A number is not moved.
#[inline]
pub fn operate_fit(
    alloc: Global,
    operands: &mut Vec<Operand>,
    description: &Description,
) -> Result<Option<Halt>, AllocError>
    ensures { IfOk result (Computes (λ p. fits p (description_view description.now)) operands.old.items
        operands.new.items) }
{
    match pop_number(operands) {
        Some(number) => give_immediate(operands, fit_number(description, number)),
        None => fit_to(alloc, operands, description),
    }
}

/// Fits the newest operand to a description, whatever it is.
fn fit_to(
    alloc: Global,
    operands: &mut Vec<Operand>,
    description: &Description,
) -> Result<Option<Halt>, AllocError>
    ensures { IfOk result (Computes (λ p. fits p (description_view description.now)) operands.old.items
        operands.new.items) }
{
    let Some(value) = pop_value(alloc, operands)? else {
        return Ok(Some(Halt::Stops(Stop::Fault)));
    };
    let calculation = fit(alloc, description, value)?;
    give(operands, calculation)
}

/// Fits a string to the newest place, which stays.
fn fit_at_newest(
    alloc: Global,
    operands: &mut Vec<Operand>,
    value: Value,
) -> Result<Option<Halt>, AllocError>
    ensures { IfOk result (Computes (fitted_at_newest (value_view value)) operands.old.items operands.new.items) }
{
    match newest_place(operands) {
        Some(taken) => {
            let calculation = fit_string(alloc, taken.place().description, value)?;
            give(operands, calculation)
        }
        None => Ok(Some(Halt::Stops(Stop::Fault))),
    }
}

/// Fits the newest operand, a string, to the place below it, which stays.
pub fn operate_fit_to_place(
    alloc: Global,
    operands: &mut Vec<Operand>,
) -> Result<Option<Halt>, AllocError>
    ensures { IfOk result (Computes fits_to_place operands.old.items operands.new.items) }
{
    let Some(value) = pop_value(alloc, operands)? else {
        return Ok(Some(Halt::Stops(Stop::Fault)));
    };
    fit_at_newest(alloc, operands, value)
}
