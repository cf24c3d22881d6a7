//! Procedures and ON-units that have ended.
ghost use Rattle.std.specs.Prelude.{◌≡◌, None, false, option_map, IfOk};
ghost use Rattle.pli_map.specs.views.DescriptionView.{description_view};
ghost use Rattle.pli_type_rules.specs.StatementTyping as spec;
ghost use Rattle.pli_type_walk.specs.Walking.{Finishes, ended_as, on_unit_ended};
ghost use Rattle.pli_type_tree.specs.TypedTree as plain;
ghost use Rattle.pli_type_tree.specs.views.TypedView.{form_view, statements_view};

use crate::walk::TypingWalk;
use pli_base::statement::Condition;
use pli_map::Description;
use pli_type_parts::innermost;
use pli_type_tree::{BlockHead, Form, TypedProcedure, TypedStatement};
use std::alloc::AllocError;

/// The statement of this number, which is the END of a function; it must not be reached.
fn end_of(returned: Option<&Description>, end: u32) -> Option<u32>
    ensures { result ≡ spec.function_end (option_map (λ d. description_view d.now) returned.entry) end }
{
    match returned {
        None => None,
        Some(_) => Some(end),
    }
}

/// Puts a procedure after those that have ended, if its list has no fault; it leaves nothing where it stands. The
/// statement of the number `end` is its END.
pub fn finish(
    walk: &mut TypingWalk<'_>,
    end: u32,
    head: BlockHead,
    list: Option<Vec<TypedStatement>>,
) -> Result<Option<Form>, AllocError>
    ensures { IfOk result (λ form. Finishes walk.old walk.new plain.Null (ended_as walk.old end head)
        (option_map (λ list. statements_view list.items) list) (option_map form_view form)) }
{
    let Some(statements) = list else {
        return Ok(None);
    };
    let parent = innermost(walk.surroundings.lists.as_slice());
    let procedure = walk.naming.procedure(head.number);
    let parameters = procedure.parameters.len();
    let function_end = end_of(procedure.returned, end);
    walk.procedures.push(TypedProcedure {
        is_on_unit: false,
        head,
        parent: Some(parent),
        parameters,
        function_end,
        statements,
    })?;
    Ok(Some(Form::Null))
}

/// Puts an ON-unit for a condition after the procedures that have ended, if its statement has no fault.
pub fn finish_on_unit(
    walk: &mut TypingWalk<'_>,
    condition: Condition,
    head: BlockHead,
    list: Option<Vec<TypedStatement>>,
) -> Result<Option<Form>, AllocError>
    ensures { IfOk result (λ form. Finishes walk.old walk.new (plain.On condition head.number)
        (on_unit_ended walk.old head)
        (option_map (λ list. statements_view list.items) list) (option_map form_view form)) }
{
    let Some(statements) = list else {
        return Ok(None);
    };
    let block = head.number;
    let parent = innermost(walk.surroundings.lists.as_slice());
    walk.procedures.push(TypedProcedure {
        is_on_unit: true,
        head,
        parent: Some(parent),
        parameters: 0,
        function_end: None,
        statements,
    })?;
    Ok(Some(Form::On { condition, block }))
}
