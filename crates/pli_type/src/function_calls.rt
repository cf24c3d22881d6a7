//! The types of what built-in functions give.
ghost use Rattle.std.specs.Prelude.{◌≡◌, [], ◌∷◌, IfOk, length, map, option_map};
ghost use Rattle.pli_type_rules.specs.ExpressionTypes as ext;
ghost use Rattle.pli_type_rules.specs.FunctionCalls as spec;
ghost use Rattle.pli_type.specs.views.ValueView.{value_view};
ghost use Rattle.pli_type_rules.specs.TypingSteps as steps;
ghost use Rattle.pli_type_tree.specs.views.TypedView.{expression_view, reference_view};

use crate::locators::{offset_of, pointer_into};
use crate::typed_value::{TypedValue, refused, with_two};
use pli_declare::BuiltInFunction;
use pli_map::WhichBound;
use pli_operation::Operation;
use pli_type_rules::{Beginning, ExpressionType, precisions};
use pli_type_tree::{Root, TypedExpression, TypedOperation, TypedReference};
use pli_value::{Locator, Value};
use std::alloc::{AllocError, Global};

/// The precision of LENGTH, INDEX, SIGN, ALLOCATION, LBOUND and HBOUND (own).
const COUNT_PRECISION: u8 = 15;

/// A number that counts something.
const A_COUNT: ExpressionType = ExpressionType::FixedBinary {
    precision: COUNT_PRECISION,
};

/// The type of what a built-in function gives of one value.
fn type_of_one(
    greatest: u8,
    function: BuiltInFunction,
    value: ExpressionType,
) -> Option<ExpressionType>
    ensures { result ≡ spec.call_type greatest function (value ∷ []) }
{
    match function {
        BuiltInFunction::Abs => {
            let precision = value.precision(greatest)?;
            Some(ExpressionType::FixedBinary { precision })
        }
        BuiltInFunction::Sign => {
            value.precision(greatest)?;
            Some(A_COUNT)
        }
        BuiltInFunction::Length => match value {
            ExpressionType::Characters | ExpressionType::Bits => Some(A_COUNT),
            _ => None,
        },
        _ => None,
    }
}

/// The type of what a built-in function gives of two values.
fn type_of_two(
    greatest: u8,
    function: BuiltInFunction,
    left: ExpressionType,
    right: ExpressionType,
) -> Option<ExpressionType>
    ensures { result ≡ spec.call_type greatest function (left ∷ right ∷ []) }
{
    match function {
        BuiltInFunction::Max | BuiltInFunction::Min => {
            let (p, q) = precisions(greatest, left, right)?;
            Some(ExpressionType::FixedBinary {
                precision: p.max(q),
            })
        }
        BuiltInFunction::Mod => {
            let (_, precision) = precisions(greatest, left, right)?;
            Some(ExpressionType::FixedBinary { precision })
        }
        BuiltInFunction::Index => match (left, right) {
            (ExpressionType::Characters, ExpressionType::Characters)
            | (ExpressionType::Bits, ExpressionType::Bits) => Some(A_COUNT),
            _ => None,
        },
        BuiltInFunction::Substring => part_type(greatest, left, right),
        _ => None,
    }
}

/// The type of what a built-in function gives of values of these types, or none where it does not take them. A built-
/// in function converts nothing. ABS gives the precision of its operand, MAX and MIN the greater one, MOD that of its
/// second operand (own).
pub fn call_type(
    greatest: u8,
    function: BuiltInFunction,
    kinds: &[ExpressionType],
) -> Option<ExpressionType>
    ensures { result ≡ spec.call_type greatest function kinds.now }
{
    match (kinds, function) {
        ([x], _) => type_of_one(greatest, function, *x),
        ([x, y], _) => type_of_two(greatest, function, *x, *y),
        ([s, i, n], BuiltInFunction::Substring) => {
            n.precision(greatest)?;
            part_type(greatest, *s, *i)
        }
        _ => None,
    }
}

/// The type of a part of a string: the string's own, where a number says with which element it begins.
fn part_type(greatest: u8, string: ExpressionType, first: ExpressionType) -> Option<ExpressionType>
    ensures { result ≡ steps.with_number (spec.string_kind string) (ext.precision_of greatest first) }
{
    first.precision(greatest)?;
    match string {
        ExpressionType::Characters | ExpressionType::Bits => Some(string),
        _ => None,
    }
}

/// The type of DIVIDE: of the precision that is written, from 1 to `greatest`; none where it is another, or where the
/// operands are no numbers (X3.74).
pub fn quotient_type(
    greatest: u8,
    left: ExpressionType,
    right: ExpressionType,
    precision: u64,
) -> Option<ExpressionType>
    ensures { result ≡ spec.quotient_type greatest left right precision }
{
    let precision = u8::try_from(precision).ok()?;
    if precision == 0 || precision > greatest {
        return None;
    }
    precisions(greatest, left, right)?;
    Some(ExpressionType::FixedBinary { precision })
}

/// The operation that a built-in function of so many values is; none of functions that are not of values alone.
pub fn operation_of(function: BuiltInFunction, given: usize) -> Option<Operation>
    ensures { result ≡ spec.operation_of function given }
{
    match function {
        BuiltInFunction::Abs => Some(Operation::Absolute),
        BuiltInFunction::Sign => Some(Operation::Sign),
        BuiltInFunction::Length => Some(Operation::LengthOf),
        BuiltInFunction::Max => Some(Operation::Greatest),
        BuiltInFunction::Min => Some(Operation::Least),
        BuiltInFunction::Mod => Some(Operation::Modulo),
        BuiltInFunction::Index => Some(Operation::Index),
        BuiltInFunction::Substring if given == 2 => Some(Operation::Rest),
        BuiltInFunction::Substring => Some(Operation::Substring),
        _ => None,
    }
}

/// A call of a built-in function of values, by their types and the values themselves, or none where it does not take
/// them (X3.74).
#[tactic(auto, using(crate::proofs::TypedTrees::operated_all))]
pub fn call(
    greatest: u8,
    function: BuiltInFunction,
    kinds: &[ExpressionType],
    operands: Vec<TypedExpression>,
) -> Option<TypedValue>
    ensures { option_map value_view result
        ≡ spec.calculation (spec.operation_of function (length kinds.now)) (spec.call_type greatest function kinds.now)
        (map expression_view operands.items) }
{
    match (
        operation_of(function, kinds.len()),
        call_type(greatest, function, kinds),
    ) {
        (Some(operation), Some(kind)) => {
            let expression = TypedExpression::Calculated {
                operation: TypedOperation::Operate(operation),
                operands,
            };
            Some(TypedValue { expression, kind })
        }
        _ => None,
    }
}

/// A call of DIVIDE of two values to a precision that is written as a decimal constant, or none where it does not take
/// them (X3.74).
pub fn quotient(
    alloc: Global,
    greatest: u8,
    left: TypedValue,
    right: TypedValue,
    written: Option<u64>,
) -> Result<Option<TypedValue>, AllocError>
    ensures { IfOk result (λ given. option_map value_view given
        ≡ spec.the_quotient greatest (value_view left) (value_view right) written) }
{
    let Some(written) = written else {
        return Ok(refused(left, right));
    };
    let Some(kind) = quotient_type(greatest, left.kind, right.kind, written) else {
        return Ok(refused(left, right));
    };
    let operation = Operation::Divide {
        precision: written as u8,
    };
    let expression = with_two(alloc, operation, left.expression, right.expression)?;
    Ok(Some(TypedValue { expression, kind }))
}

/// A call of ALLOCATION of a variable or a part of one: how many generations a whole CONTROLLED variable has; none of
/// anything else (X3.74).
pub fn generations(reference: &TypedReference) -> Option<TypedValue>
    ensures { option_map value_view result ≡ spec.generations_in (reference_view reference.now) }
{
    match reference {
        TypedReference::Whole(Root::NewestOf { number }) => Some(TypedValue {
            expression: TypedExpression::Generations { number: *number },
            kind: A_COUNT,
        }),
        _ => None,
    }
}

/// A bound of a dimension, counted from 1, of an array that is known where it runs (LBOUND, HBOUND).
pub fn bound_there(which: WhichBound, dimension: u8, variable: TypedReference) -> TypedValue
    ensures { value_view result ≡ spec.bound_there which dimension (reference_view variable) }
{
    TypedValue {
        expression: TypedExpression::Bounded {
            which,
            dimension,
            variable,
        },
        kind: A_COUNT,
    }
}

/// NULL (X3.74).
pub fn null_value() -> TypedValue
    ensures { value_view result ≡ ext.null_value }
{
    TypedValue {
        expression: TypedExpression::Literal(Value::Locator(Locator::Null)),
        kind: ExpressionType::Null,
    }
}

/// A call of ADDR of a variable or a part of one, which is or is not a parameter: a pointer to a whole variable at
/// level 1 that is none; none of anything else (X3.74; that parameters are refused, own).
pub fn address(reference: TypedReference, is_parameter: bool) -> Option<TypedValue>
    ensures { option_map value_view result ≡ spec.address_in is_parameter (reference_view reference) }
{
    if is_parameter {
        drop(reference);
        return None;
    }
    match reference {
        TypedReference::Whole(root) => Some(TypedValue {
            expression: TypedExpression::Address(TypedReference::Whole(root)),
            kind: ExpressionType::Pointer,
        }),
        _ => {
            drop(reference);
            None
        }
    }
}

/// EMPTY where it is no area that is assigned: nothing takes a value of its type, so what it holds does not matter.
pub fn empty_value() -> TypedValue
    ensures { value_view result ≡ ext.empty_value }
{
    TypedValue {
        expression: TypedExpression::Literal(Value::Locator(Locator::Null)),
        kind: ExpressionType::Area,
    }
}

/// A call of POINTER with a value: an offset as a pointer into an area, whatever area its own declaration names; none
/// of anything else, NULL too (X3.74).
pub fn offset_within(
    alloc: Global,
    area: Beginning,
    offset: TypedValue,
) -> Result<Option<TypedValue>, AllocError>
    ensures { IfOk result (λ given. option_map value_view given
        ≡ spec.offset_within area (expression_view offset.expression) offset.kind) }
{
    match offset.kind {
        ExpressionType::Offset { .. } => {
            let expression = pointer_into(alloc, area, offset.expression)?;
            Ok(Some(TypedValue {
                expression,
                kind: ExpressionType::Pointer,
            }))
        }
        _ => {
            drop(offset);
            Ok(None)
        }
    }
}

/// A call of OFFSET with a value: a pointer, NULL too, as an offset of an area, the type of which names none; none of
/// anything else (X3.74; that its type names no area, own).
pub fn pointer_within(
    alloc: Global,
    area: Beginning,
    pointer: TypedValue,
) -> Result<Option<TypedValue>, AllocError>
    ensures { IfOk result (λ given. option_map value_view given
        ≡ spec.pointer_within area (expression_view pointer.expression) pointer.kind) }
{
    match pointer.kind {
        ExpressionType::Pointer | ExpressionType::Null => {
            let expression = offset_of(alloc, area, pointer.expression)?;
            Ok(Some(TypedValue {
                expression,
                kind: ExpressionType::Offset { area: None },
            }))
        }
        _ => {
            drop(pointer);
            Ok(None)
        }
    }
}
