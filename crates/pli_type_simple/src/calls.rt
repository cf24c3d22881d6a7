//! CALL.
ghost use Rattle.std.specs.Prelude.{map};
ghost use Rattle.pli_base.specs.views.SyntaxView as syntax;
ghost use Rattle.pli_type_rules.specs.StatementTyping as spec;
ghost use Rattle.pli_base.specs.answers.FailureAnswers.{Gives};
ghost use Rattle.pli_type_operands.specs.views.TypingView.{argument_view};
ghost use Rattle.pli_type_names.specs.UnitNaming.{naming_in};
ghost use Rattle.pli_type_tree.specs.views.TypedView.{form_view};

use pli_base::syntax::{Expression, Identifier};
use pli_base::{Code, fault};
use pli_type_expression::{arguments, pass};
use pli_type_names::{NamedAs, Naming};
use pli_type_operands::{Argument, TypeError};
use pli_type_tree::Form;
use std::alloc::Global;

/// What CALL has in parentheses.
fn call_arguments<'a>(
    alloc: Global,
    naming: &Naming<'a>,
    list: &Option<Vec<Expression>>,
) -> Result<Vec<Argument<'a>>, TypeError>
    ensures { Gives (λ made. map argument_view made.items) result
        (spec.arguments_typed (naming_in naming.now) (syntax.arguments_view list.now)) }
{
    match list {
        None => Ok(Vec::new(alloc)),
        Some(list) => arguments(alloc, naming, list.as_slice()),
    }
}

/// A CALL: the faults of its arguments, from left to right; then T6, T7 or T8 at the name, in this order (own).
pub fn call(
    alloc: Global,
    naming: &Naming<'_>,
    name: Identifier,
    list: &Option<Vec<Expression>>,
) -> Result<Form, TypeError>
    ensures { Gives form_view result (spec.call_typed (naming_in naming.now) name (syntax.arguments_view list.now)) }
{
    let arguments = call_arguments(alloc, naming, list)?;
    let NamedAs::Procedure(procedure) = naming.meaning(name.at) else {
        return Err(fault(Code::NotCallableHere, name.at));
    };
    let arguments = pass(alloc, naming.greatest(), procedure, name.at, arguments)?;
    match procedure.returned {
        None => Ok(Form::Call {
            callee: procedure.callee,
            arguments,
        }),
        Some(_) => Err(fault(Code::NotCallableHere, name.at)),
    }
}
