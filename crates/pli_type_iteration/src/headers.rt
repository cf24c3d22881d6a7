//! What controls a group.
ghost use Rattle.std.specs.Prelude.{◌≡◌, ◌≤◌, option_map};
ghost use Rattle.pli_base.specs.views.StatementView.{control_view, range_view};
ghost use Rattle.pli_type_rules.specs.Temporaries as spec;
ghost use Rattle.pli_base.specs.answers.FailureAnswers.{Gives};
ghost use Rattle.pli_type_names.specs.UnitNaming.{naming_in};
ghost use Rattle.pli_type_iteration.specs.Headers.{header_typed, group_of};
ghost use Rattle.pli_type_iteration.specs.views.HeaderView.{header_view};
ghost use Rattle.pli_type_parts.specs.Parts.{both};
ghost use Rattle.pli_type_tree.specs.views.TypedView.{form_view, statements_view};

use crate::conditions::condition;
use crate::iteration::{IterationText, iteration};
use pli_base::statement::{Control, Range};
use pli_type_names::Naming;
use pli_type_operands::TypeError;
use pli_type_tree::{Form, Iteration, TypedExpression, TypedStatement};
use std::alloc::Global;

/// What controls a group.
#[derive(Drop)]
pub enum Header {
    Plain,
    While(Box<TypedExpression>),
    Iterate(Box<Iteration>),
}

/// How many numbers a group keeps of what limits it: those of TO and BY, and 1 where TO stands without BY.
fn limits_kept(range: &Option<Range>) -> usize
    ensures few { result ≤ 2 }
    ensures value { result ≡ spec.limits_kept (option_map range_view range.now) }
{
    match range {
        None | Some(Range::Repeat(_)) => 0,
        Some(Range::To { .. }) => 2,
        Some(Range::By { to, .. }) => { if to.is_some() { 2 } else { 1 } }
    }
}

/// How many temporaries a group has: with a control variable one for the value that this begins with, and those of its
/// limits.
pub fn kept_by(control: &Option<Control>) -> usize
    ensures few { result ≤ 3 }
    ensures value { result ≡ spec.kept_by (option_map control_view control.now) }
{
    match control {
        None | Some(Control::While(_)) => 0,
        Some(Control::Iterate { range, .. }) => 1 + limits_kept(range),
    }
}

/// What controls a group, whose temporaries begin with this one.
pub fn specified(
    alloc: Global,
    naming: &Naming<'_>,
    temporary: usize,
    control: &Option<Control>,
) -> Result<Header, TypeError>
    ensures { Gives header_view result (header_typed (naming_in naming.now) temporary
        (option_map control_view control.now)) }
{
    match control {
        None => Ok(Header::Plain),
        Some(Control::While(tested)) => Ok(Header::While(condition(alloc, naming, tested)?)),
        Some(
            Control::Iterate {
                variable,
                equals,
                first,
                range,
                condition,
            },
        ) => {
            let text = IterationText {
                variable,
                equals: *equals,
                first,
                range,
                condition,
            };
            let iteration = iteration(alloc, naming, temporary, text)?;
            Ok(Header::Iterate(Box::new(alloc, iteration)?))
        }
    }
}

/// A group of what controls it and its list, if neither has a fault.
pub fn group_form(header: Option<Header>, list: Option<Vec<TypedStatement>>) -> Option<Form>
    ensures { option_map form_view result
        ≡ both group_of (option_map header_view header) (option_map (λ list. statements_view list.items) list) }
{
    let Some(header) = header else {
        drop(list);
        return None;
    };
    let Some(statements) = list else {
        drop(header);
        return None;
    };
    match header {
        Header::Plain => Some(Form::Group(statements)),
        Header::While(condition) => Some(Form::While {
            condition: Box::into_inner(condition),
            statements,
        }),
        Header::Iterate(iteration) => Some(Form::Iterate {
            iteration,
            statements,
        }),
    }
}
