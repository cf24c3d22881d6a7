//! Expressions with their types.
ghost use Rattle.std.specs.Prelude.{◌≡◌, None, IfOk, option_map};
ghost use Rattle.pli_map.specs.views.DescriptionView.{description_view};
ghost use Rattle.pli_type_rules.specs.ExpressionTypes as spec;
ghost use Rattle.pli_type.specs.views.ValueView.{value_view};
ghost use Rattle.pli_type_tree.specs.views.TypedView.{expression_view, operation_view};

use pli_operation::Operation;
use pli_type_rules::ExpressionType;
use pli_type_tree::{TypedExpression, TypedOperation};
use std::alloc::{AllocError, Global};

/// An expression with its type.
#[derive(Drop)]
pub struct TypedValue {
    pub expression: TypedExpression,
    pub kind: ExpressionType,
}

/// An operation on one operand.
#[tactic(auto, using(pli_type_tree::specs::laws::TypedTreeLaws::calculated_made))]
pub(crate) fn with_one(
    alloc: Global,
    operation: TypedOperation,
    operand: TypedExpression,
) -> Result<TypedExpression, AllocError>
    ensures { IfOk result (λ made. expression_view made ≡ spec.with_one (operation_view operation)
        (expression_view operand)) }
{
    match vec![in alloc; operand] {
        Ok(operands) => Ok(TypedExpression::Calculated {
            operation,
            operands,
        }),
        Err(error) => {
            drop(operation);
            Err(error.into())
        }
    }
}

/// An operation on two operands.
#[tactic(auto, using(crate::proofs::TypedTrees::operated_made))]
pub(crate) fn with_two(
    alloc: Global,
    operation: Operation,
    left: TypedExpression,
    right: TypedExpression,
) -> Result<TypedExpression, AllocError>
    ensures { IfOk result (λ made. expression_view made
        ≡ spec.with_two operation (expression_view left) (expression_view right)) }
{
    let operands = vec![in alloc; left, right]?;
    Ok(TypedExpression::Calculated {
        operation: TypedOperation::Operate(operation),
        operands,
    })
}

/// Drops two operands that are not taken: there is no value of them.
pub(crate) fn refused(left: TypedValue, right: TypedValue) -> Option<TypedValue>
    ensures { result ≡ None }
{
    drop(left);
    drop(right);
    None
}
