//! PUT and its items.
ghost use Rattle.std.specs.Prelude.{map};
ghost use Rattle.pli_base.specs.views.SyntaxView as syntax;
ghost use Rattle.pli_type_rules.specs.StatementTyping as spec;
ghost use Rattle.pli_type_rules.specs.TypingSteps as steps;
ghost use Rattle.pli_base.specs.answers.FailureAnswers.{Gives};
ghost use Rattle.pli_type_names.specs.UnitNaming.{naming_in};
ghost use Rattle.pli_type_tree.specs.views.TypedView.{expression_view, form_view};
ghost use Rattle.pli_type_simple.specs.Simple.{put_typed};

use pli_base::syntax::Expression;
use pli_base::{Code, fault};
use pli_type::printed;
use pli_type_expression::value_of;
use pli_type_names::Naming;
use pli_type_operands::{TypeError, first_token};
use pli_type_tree::{Form, TypedExpression};
use std::alloc::Global;

/// An item of PUT: T14 at its first token where it can't be printed (own).
fn item(
    alloc: Global,
    naming: &Naming<'_>,
    expression: &Expression,
) -> Result<TypedExpression, TypeError>
    ensures { Gives expression_view result
        (spec.item (naming_in naming.now) (syntax.expression_view expression.now)) }
{
    let value = value_of(alloc, naming, expression)?;
    match printed(alloc, value)? {
        Some(item) => Ok(item),
        None => Err(fault(Code::CannotPrint, first_token(expression))),
    }
}

/// The items of PUT, or the first fault of them.
fn items(
    alloc: Global,
    naming: &Naming<'_>,
    expressions: &[Expression],
) -> Result<Vec<TypedExpression>, TypeError>
    ensures { Gives (λ items. map expression_view items.items) result
        (steps.items (naming_in naming.now) (map syntax.expression_view expressions.now)) }
{
    let mut items = Vec::new(alloc);
    for expression in expressions {
        let item = item(alloc, naming, expression)?;
        items.push(item)?;
    }
    Ok(items)
}

/// A PUT, or the first fault of its items.
pub fn put(
    alloc: Global,
    naming: &Naming<'_>,
    skip: bool,
    expressions: &[Expression],
) -> Result<Form, TypeError>
    ensures { Gives form_view result
        (put_typed (naming_in naming.now) skip (map syntax.expression_view expressions.now)) }
{
    let items = items(alloc, naming, expressions)?;
    Ok(Form::Put { skip, items })
}
