//! Arguments of functions and procedures.
ghost use Rattle.std.specs.Prelude.{◌≡◌};
ghost use Rattle.pli_base.specs.views.SyntaxView.{expression_view};
ghost use Rattle.pli_type_rules.specs.FunctionCalls.{number_written};

use crate::meaning::Denoted;
use pli_base::syntax::{ConstantValue, Expression};

/// An argument, and the number that it is if it is a decimal constant and nothing else.
#[derive(Drop)]
pub struct Argument<'a> {
    pub denoted: Denoted<'a>,
    pub written: Option<u64>,
}

/// The number that stands here, without a sign and without parentheses.
pub fn number_written(expression: &Expression) -> Option<u64>
    ensures { result ≡ number_written (expression_view expression.now) }
{
    match expression {
        Expression::Constant {
            value: ConstantValue::Decimal { value, .. },
            ..
        } => Some(*value),
        _ => None,
    }
}
