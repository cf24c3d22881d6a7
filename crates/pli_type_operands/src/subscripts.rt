//! Subscripts.
ghost use Rattle.std.specs.Prelude.{◌≡◌};
ghost use Rattle.pli_base.specs.views.SyntaxView as syntax;
ghost use Rattle.pli_type_rules.specs.Typing.{first_token, subscript_value};
ghost use Rattle.pli_type.specs.views.ValueView.{value_view};
ghost use Rattle.pli_base.specs.answers.FailureAnswers.{Gives};
ghost use Rattle.pli_type_tree.specs.views.TypedView.{expression_view};

use crate::answer::TypeError;
use crate::token::first_token;
use pli_base::syntax::Expression;
use pli_base::{Code, fault};
use pli_type::TypedValue;
use pli_type_tree::TypedExpression;

/// A subscript, which is a number: T4 at its first token where it is another value.
pub fn subscript(
    greatest: u8,
    expression: &Expression,
    value: TypedValue,
) -> Result<TypedExpression, TypeError>
    ensures { Gives expression_view result
        (subscript_value greatest (first_token (syntax.expression_view expression.now)) (value_view value)) }
{
    match value.kind.precision(greatest) {
        Some(_) => Ok(value.expression),
        None => Err(fault(Code::WrongOperandType, first_token(expression))),
    }
}
