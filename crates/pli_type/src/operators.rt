//! What operators give of typed operands.
ghost use Rattle.std.specs.Prelude.{◌≡◌, Some, None, IfOk, option_map, if◌then◌else◌};
ghost use Rattle.pli_operation.specs.declared.operation.Operation.TheVariants.{Multiply};
ghost use Rattle.pli_type_rules.specs.ExpressionTypes as spec;
ghost use Rattle.pli_type.specs.views.ValueView.{value_view};
ghost use Rattle.pli_type_tree.specs.views.TypedView.{expression_view};

use crate::locators::{as_offset, as_pointer};
use crate::typed_value::{TypedValue, refused, with_one, with_two};
use pli_base::syntax::{InfixOperator, PrefixOperator};
use pli_operation::{Operation, Relation};
use pli_type_rules::{ExpressionType, precisions, product_precision, sum_precision};
use pli_type_tree::{TypedExpression, TypedOperation};
use std::alloc::{AllocError, Global};

/// What a prefix operator gives, or none where it does not take the operand: `+` and `-` take a number, `^` bits
/// (X3.74).
pub fn prefix_value(
    alloc: Global,
    greatest: u8,
    operator: PrefixOperator,
    operand: TypedValue,
) -> Result<Option<TypedValue>, AllocError>
    ensures { IfOk result (λ given. option_map value_view given
        ≡ spec.prefix_value greatest operator (value_view operand)) }
{
    let kind = operand.kind;
    let operation = match (operator, kind, kind.precision(greatest)) {
        (PrefixOperator::Plus, _, Some(_)) => return Ok(Some(operand)),
        (PrefixOperator::Minus, _, Some(_)) => Operation::Negate,
        (PrefixOperator::Not, ExpressionType::Bits, _) => Operation::Not,
        _ => {
            drop(operand);
            return Ok(None);
        }
    };
    let operation = TypedOperation::Operate(operation);
    let expression = with_one(alloc, operation, operand.expression)?;
    Ok(Some(TypedValue { expression, kind }))
}

/// A string of one type in another.
fn string_as(
    alloc: Global,
    expression: TypedExpression,
    from: ExpressionType,
    to: ExpressionType,
) -> Result<TypedExpression, AllocError>
    ensures { IfOk result (λ made. expression_view made ≡ spec.string_as (expression_view expression) from to) }
{
    match (from, to) {
        (ExpressionType::Bits, ExpressionType::Characters) => {
            with_one(
                alloc,
                TypedOperation::Operate(Operation::FromBits),
                expression,
            )
        }
        _ => Ok(expression),
    }
}

/// An operation on two strings in one type.
fn on_strings(
    alloc: Global,
    operation: Operation,
    left: TypedValue,
    right: TypedValue,
    kind: ExpressionType,
) -> Result<TypedExpression, AllocError>
    ensures { IfOk result (λ made. expression_view made
        ≡ spec.on_strings operation (value_view left) (value_view right) kind) }
{
    let left = match string_as(alloc, left.expression, left.kind, kind) {
        Ok(left) => left,
        Err(error) => {
            drop(right);
            return Err(error);
        }
    };
    let right = match string_as(alloc, right.expression, right.kind, kind) {
        Ok(right) => right,
        Err(error) => {
            drop(left);
            return Err(error);
        }
    };
    with_two(alloc, operation, left, right)
}

/// What a comparison of two locators gives, as both are compared: they are equal or not, and none is less than another.
fn locators_compared(
    alloc: Global,
    relation: Relation,
    left: Option<TypedExpression>,
    right: Option<TypedExpression>,
) -> Result<Option<TypedValue>, AllocError>
    ensures { IfOk result (λ given. option_map value_view given
        ≡ spec.locators_compared relation (option_map expression_view left) (option_map expression_view right)) }
{
    match (relation, left, right) {
        (Relation::Equal | Relation::Unequal, Some(left), Some(right)) => {
            let operation = Operation::Compare(relation);
            let expression = with_two(alloc, operation, left, right)?;
            Ok(Some(TypedValue {
                expression,
                kind: ExpressionType::Bits,
            }))
        }
        (_, left, right) => {
            drop(left);
            drop(right);
            Ok(None)
        }
    }
}

/// Whether two locators are compared as offsets: one is an OFFSET, and the other one too, or NULL.
fn are_offsets(left: ExpressionType, right: ExpressionType) -> bool
    ensures { result ≡ spec.are_offsets left right }
{
    matches!(
        (left, right),
        (
            ExpressionType::Offset { .. },
            ExpressionType::Offset { .. } | ExpressionType::Null
        ) | (ExpressionType::Null, ExpressionType::Offset { .. })
    )
}

/// Two locators as they are compared: both as offsets, or else both as pointers; one that can't be so is none.
fn as_compared(
    alloc: Global,
    as_offsets: bool,
    value: TypedValue,
) -> Result<Option<TypedExpression>, AllocError>
    ensures { IfOk result (λ made. option_map expression_view made ≡ (if as_offsets
        then spec.as_offset None (expression_view value.expression) value.kind
        else spec.as_pointer (expression_view value.expression) value.kind)) }
{
    if as_offsets {
        as_offset(alloc, None, value)
    } else {
        as_pointer(alloc, value)
    }
}

/// What a comparison of two locators gives.
fn locators_beside(
    alloc: Global,
    relation: Relation,
    left: TypedValue,
    right: TypedValue,
) -> Result<Option<TypedValue>, AllocError>
    ensures { IfOk result (λ given. option_map value_view given
        ≡ spec.locators_beside relation (value_view left) (value_view right)) }
{
    let as_offsets = are_offsets(left.kind, right.kind);
    let left = match as_compared(alloc, as_offsets, left) {
        Ok(left) => left,
        Err(error) => {
            drop(right);
            return Err(error);
        }
    };
    let right = match as_compared(alloc, as_offsets, right) {
        Ok(right) => right,
        Err(error) => {
            drop(left);
            return Err(error);
        }
    };
    locators_compared(alloc, relation, left, right)
}

/// What a comparison of what are not two locators gives.
fn compared(
    alloc: Global,
    greatest: u8,
    relation: Relation,
    left: TypedValue,
    right: TypedValue,
) -> Result<Option<TypedValue>, AllocError>
    ensures { IfOk result (λ given. option_map value_view given
        ≡ spec.compared greatest relation (value_view left) (value_view right)
        (spec.string_type left.kind right.kind)) }
{
    let expression = match (
        left.kind.beside(right.kind),
        precisions(greatest, left.kind, right.kind),
    ) {
        (Some(kind), _) => on_strings(alloc, Operation::Compare(relation), left, right, kind)?,
        (None, Some(_)) => with_two(
            alloc,
            Operation::Compare(relation),
            left.expression,
            right.expression,
        )?,
        (None, None) => return Ok(refused(left, right)),
    };
    Ok(Some(TypedValue {
        expression,
        kind: ExpressionType::Bits,
    }))
}

/// What a comparison gives.
fn comparison(
    alloc: Global,
    greatest: u8,
    relation: Relation,
    left: TypedValue,
    right: TypedValue,
) -> Result<Option<TypedValue>, AllocError>
    ensures { IfOk result (λ given. option_map value_view given
        ≡ spec.comparison greatest relation (value_view left) (value_view right)) }
{
    if left.kind.is_locator() && right.kind.is_locator() {
        locators_beside(alloc, relation, left, right)
    } else {
        compared(alloc, greatest, relation, left, right)
    }
}

/// What `||` gives.
fn concatenation(
    alloc: Global,
    left: TypedValue,
    right: TypedValue,
) -> Result<Option<TypedValue>, AllocError>
    ensures { IfOk result (λ given. option_map value_view given
        ≡ spec.concatenation (value_view left) (value_view right)) }
{
    match left.kind.beside(right.kind) {
        None => Ok(refused(left, right)),
        Some(kind) => {
            let expression = on_strings(alloc, Operation::Concatenate, left, right, kind)?;
            Ok(Some(TypedValue { expression, kind }))
        }
    }
}

/// What `&` or `|` gives.
fn logical(
    alloc: Global,
    operation: Operation,
    left: TypedValue,
    right: TypedValue,
) -> Result<Option<TypedValue>, AllocError>
    ensures { IfOk result (λ given. option_map value_view given
        ≡ spec.logical operation (value_view left) (value_view right)) }
{
    match (left.kind, right.kind) {
        (ExpressionType::Bits, ExpressionType::Bits) => {
            let expression = with_two(alloc, operation, left.expression, right.expression)?;
            Ok(Some(TypedValue {
                expression,
                kind: ExpressionType::Bits,
            }))
        }
        _ => Ok(refused(left, right)),
    }
}

/// What `+`, `-` or `*` gives, by the precision that it has of those of its operands.
fn arithmetic(
    alloc: Global,
    operation: Operation,
    precision: u8,
    left: TypedValue,
    right: TypedValue,
) -> Result<Option<TypedValue>, AllocError>
    ensures { IfOk result (λ given. option_map value_view given ≡ Some (record {
      expression = spec.with_two operation (expression_view left.expression) (expression_view right.expression);
      kind = ExpressionType.FixedBinary precision;
    })) }
{
    let expression = with_two(alloc, operation, left.expression, right.expression)?;
    Ok(Some(TypedValue {
        expression,
        kind: ExpressionType::FixedBinary { precision },
    }))
}

/// What `+` or `-` gives.
fn sum(
    alloc: Global,
    greatest: u8,
    operation: Operation,
    left: TypedValue,
    right: TypedValue,
) -> Result<Option<TypedValue>, AllocError>
    ensures { IfOk result (λ given. option_map value_view given
        ≡ spec.on_numbers greatest operation (spec.sum_precision greatest) (value_view left) (value_view right)) }
{
    match precisions(greatest, left.kind, right.kind) {
        Some((p, q)) => arithmetic(alloc, operation, sum_precision(greatest, p, q), left, right),
        None => Ok(refused(left, right)),
    }
}

/// What `*` gives.
fn product(
    alloc: Global,
    greatest: u8,
    left: TypedValue,
    right: TypedValue,
) -> Result<Option<TypedValue>, AllocError>
    ensures { IfOk result (λ given. option_map value_view given
        ≡ spec.on_numbers greatest Multiply (spec.product_precision greatest) (value_view left) (value_view right)) }
{
    match precisions(greatest, left.kind, right.kind) {
        Some((p, q)) => {
            let precision = product_precision(greatest, p, q);
            arithmetic(alloc, Operation::Multiply, precision, left, right)
        }
        None => Ok(refused(left, right)),
    }
}

/// What an infix operator gives, or none where it does not take the operands: `+`, `-` and `*` take numbers, `&` and
/// `|` bits, `||` strings, a comparison two numbers, two strings, or for equality alone two locators (X3.74).
pub fn infix_value(
    alloc: Global,
    greatest: u8,
    operator: InfixOperator,
    left: TypedValue,
    right: TypedValue,
) -> Result<Option<TypedValue>, AllocError>
    ensures { IfOk result (λ given. option_map value_view given
        ≡ spec.infix_value greatest operator (value_view left) (value_view right)) }
{
    match operator {
        InfixOperator::Or => logical(alloc, Operation::Or, left, right),
        InfixOperator::And => logical(alloc, Operation::And, left, right),
        InfixOperator::Concatenate => concatenation(alloc, left, right),
        InfixOperator::Equal => comparison(alloc, greatest, Relation::Equal, left, right),
        InfixOperator::NotEqual => comparison(alloc, greatest, Relation::Unequal, left, right),
        InfixOperator::Less => comparison(alloc, greatest, Relation::Less, left, right),
        InfixOperator::LessOrEqual => comparison(alloc, greatest, Relation::AtMost, left, right),
        InfixOperator::Greater => comparison(alloc, greatest, Relation::Greater, left, right),
        InfixOperator::GreaterOrEqual => comparison(
            alloc,
            greatest,
            Relation::AtLeast,
            left,
            right,
        ),
        InfixOperator::Add => sum(alloc, greatest, Operation::Add, left, right),
        InfixOperator::Subtract => sum(alloc, greatest, Operation::Subtract, left, right),
        InfixOperator::Multiply => product(alloc, greatest, left, right),
    }
}
