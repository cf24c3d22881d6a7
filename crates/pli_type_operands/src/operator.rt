//! Operators on typed values.
ghost use Rattle.std.specs.Prelude.{◌≡◌};
ghost use Rattle.pli_base.specs.declared.code.Code.TheVariants.{WrongOperandType};
ghost use Rattle.pli_type_rules.specs.ExpressionTypes as spec;
ghost use Rattle.pli_type_rules.specs.Typing.{or_fault};
ghost use Rattle.pli_type.specs.views.ValueView.{value_view};
ghost use Rattle.pli_base.specs.answers.FailureAnswers.{Gives};
ghost use Rattle.pli_type_operands.specs.Operated.{prefix_of};
ghost use Rattle.pli_type_operands.specs.views.TypingView.{denoted_view};

use crate::answer::TypeError;
use crate::meaning::Denoted;
use pli_base::syntax::{InfixOperator, PrefixOperator};
use pli_base::{Code, fault};
use pli_type::{TypedValue, infix_value, prefix_value};
use std::alloc::Global;

/// What a prefix operator at a token gives: T4 there where it does not take the operand (X3.74).
fn prefix(
    alloc: Global,
    greatest: u8,
    operator: PrefixOperator,
    at: u32,
    operand: TypedValue,
) -> Result<TypedValue, TypeError>
    ensures { Gives value_view result (or_fault WrongOperandType at
        (spec.prefix_value greatest operator (value_view operand))) }
{
    match prefix_value(alloc, greatest, operator, operand)? {
        Some(value) => Ok(value),
        None => Err(fault(Code::WrongOperandType, at)),
    }
}

/// What an infix operator at a token gives: T4 there where it does not take the operands (X3.74).
#[inline(never)]
pub fn infix(
    alloc: Global,
    greatest: u8,
    operator: InfixOperator,
    at: u32,
    left: TypedValue,
    right: TypedValue,
) -> Result<TypedValue, TypeError>
    ensures { Gives value_view result
        (or_fault WrongOperandType at (spec.infix_value greatest operator (value_view left) (value_view right))) }
{
    match infix_value(alloc, greatest, operator, left, right)? {
        Some(value) => Ok(value),
        None => Err(fault(Code::WrongOperandType, at)),
    }
}

/// What a prefix operator at a token makes of a value, as an expression denotes it: T4 there where it does not take the
/// operand.
#[inline(never)]
pub fn prefix_denoted<'a>(
    alloc: Global,
    greatest: u8,
    operator: PrefixOperator,
    at: u32,
    operand: TypedValue,
) -> Result<Denoted<'a>, TypeError>
    ensures { Gives denoted_view result (prefix_of greatest operator at (value_view operand)) }
{
    let value = prefix(alloc, greatest, operator, at, operand)?;
    Ok(Denoted::Result(value))
}
