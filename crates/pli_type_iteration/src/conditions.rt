//! Conditions.
ghost use Rattle.pli_base.specs.views.SyntaxView as syntax;
ghost use Rattle.pli_type_rules.specs.StatementTyping as spec;
ghost use Rattle.pli_base.specs.answers.FailureAnswers.{Gives};
ghost use Rattle.pli_type_names.specs.UnitNaming.{naming_in};
ghost use Rattle.pli_type_tree.specs.views.TypedView.{expression_view};

use pli_base::syntax::Expression;
use pli_base::{Code, fault};
use pli_type_expression::value_of;
use pli_type_names::Naming;
use pli_type_operands::{TypeError, first_token};
use pli_type_rules::ExpressionType;
use pli_type_tree::TypedExpression;
use std::alloc::Global;

/// A condition, which is a string of bits: T4 at its first token where it is not (X3.74).
pub fn condition(
    alloc: Global,
    naming: &Naming<'_>,
    expression: &Expression,
) -> Result<Box<TypedExpression>, TypeError>
    ensures { Gives (λ x. expression_view x.value) result
        (spec.condition (naming_in naming.now) (syntax.expression_view expression.now)) }
{
    let value = value_of(alloc, naming, expression)?;
    match value.kind {
        ExpressionType::Bits => Ok(Box::new(alloc, value.expression)?),
        _ => {
            drop(value);
            Err(fault(Code::WrongOperandType, first_token(expression)))
        }
    }
}
