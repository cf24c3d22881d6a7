//! Statements that are put together from their parts, where none of these has a fault.
ghost use Rattle.std.specs.Prelude.{◌≡◌, ◌++◌, is_some, map, option_map, IfOk, OnOk};
ghost use Rattle.pli_type_parts.specs.Parts.{if_of, listed_if};
ghost use Rattle.pli_type_tree.specs.TypedTree as plain;
ghost use Rattle.pli_type_tree.specs.laws.TypedTreeLaws.{boxed_view};
ghost use Rattle.pli_type_tree.specs.views.TypedView.{expression_view, form_view, head_view, statement_view};
ghost use Rattle.pli_type_tree.specs.views.TypedView.{statements_view};

use pli_type_tree::{BlockHead, Form, TypedExpression, TypedStatement};
use std::alloc::{AllocError, Global};

/// A statement of what it says.
pub fn numbered(number: u32, form: Option<Form>) -> Option<TypedStatement>
    ensures { option_map statement_view result ≡ option_map (plain.Statement number) (option_map form_view form) }
{
    match form {
        Some(form) => Some(TypedStatement { number, form }),
        None => None,
    }
}

/// A statement in a box, if it has no fault.
pub fn boxed(
    alloc: Global,
    statement: Option<TypedStatement>,
) -> Result<Option<Box<TypedStatement>>, AllocError>
    ensures { IfOk result (λ made. option_map (λ s. statement_view s.value) made
        ≡ option_map statement_view statement) }
{
    match statement {
        Some(statement) => Ok(Some(Box::new(alloc, statement)?)),
        None => Ok(None),
    }
}

/// What stands after ELSE, if it has no fault.
pub fn otherwise(
    alloc: Global,
    statement: Option<TypedStatement>,
) -> Result<Option<Option<Box<TypedStatement>>>, AllocError>
    ensures { IfOk result (λ made. option_map boxed_view made
        ≡ option_map plain.Else (option_map statement_view statement)) }
{
    match statement {
        Some(statement) => Ok(Some(Some(Box::new(alloc, statement)?))),
        None => Ok(None),
    }
}

/// An IF of its three parts, if none has a fault.
pub fn if_form(
    tested: Option<Box<TypedExpression>>,
    consequence: Option<Box<TypedStatement>>,
    alternative: Option<Option<Box<TypedStatement>>>,
) -> Option<Form>
    ensures { option_map form_view result
        ≡ if_of (option_map (λ x. expression_view x.value) tested)
        (option_map (λ s. statement_view s.value) consequence)
        (option_map boxed_view alternative) }
{
    let Some(condition) = tested else {
        drop(consequence);
        drop(alternative);
        return None;
    };
    let Some(consequence) = consequence else {
        drop(condition);
        drop(alternative);
        return None;
    };
    let Some(alternative) = alternative else {
        drop(condition);
        drop(consequence);
        return None;
    };
    Some(Form::If {
        condition: Box::into_inner(condition),
        consequence,
        alternative,
    })
}

/// A BEGIN block of its list, if that has no fault.
pub fn begin_form(head: BlockHead, list: Option<Vec<TypedStatement>>) -> Option<Form>
    ensures { option_map form_view result
        ≡ option_map (plain.Begin (head_view head)) (option_map (λ list. statements_view list.items) list) }
{
    match list {
        Some(statements) => Some(Form::Begin { head, statements }),
        None => None,
    }
}

/// Puts a statement after others, if it has no fault and leaves something; says whether it has none.
pub fn keep(
    leaves_nothing: bool,
    statement: Option<TypedStatement>,
    statements: &mut Vec<TypedStatement>,
) -> Result<bool, AllocError>
    ensures kept { IfOk result (λ kept. kept ≡ is_some (option_map statement_view statement)) }
    ensures statements { OnOk result (map statement_view statements.new.items
        ≡ map statement_view statements.old.items ++ listed_if leaves_nothing (option_map statement_view statement)) }
{
    let Some(statement) = statement else {
        return Ok(false);
    };
    if leaves_nothing {
        drop(statement);
    } else {
        statements.push(statement)?;
    }
    Ok(true)
}
