//! Statements.
ghost use Rattle.std.specs.Prelude.{◌≡◌, ◌≤◌, ◌+◌, None, false, length, option_map, IfOk};
ghost use Rattle.pli_base.specs.views.StatementView as source;
ghost use Rattle.pli_base.specs.views.SyntaxView as syntax;
ghost use Rattle.pli_map.specs.views.DescriptionView.{description_view};
ghost use Rattle.pli_type_rules.specs.StatementTyping as spec;
ghost use Rattle.pli_type_rules.specs.Temporaries.{next_after, kept_by, temporaries_of};
ghost use Rattle.pli_type_iteration.specs.Headers.{Header as PlainHeader, header_typed};
ghost use Rattle.pli_type_walk.specs.NumbersTaken.{taken_among, taken_in, taken_of};
ghost use Rattle.pli_type_walk.specs.Compound.{is_compound};
ghost use Rattle.pli_type_simple.specs.Simple.{simple_typed};
ghost use Rattle.pli_type_walk.specs.Walking.{HasRoom, IsPlaced, in_block, Walks};
ghost use Rattle.pli_type_walk.specs.Walking.{WalksBlock, WalksBody, WalksList, around, based_names, next_at};
ghost use Rattle.pli_type_walk.specs.Walking.{unit_at};
ghost use Rattle.pli_type_parts.specs.views.AroundView.{around_view};
ghost use Rattle.pli_type_iteration.specs.views.HeaderView.{header_view};
ghost use Rattle.pli_type_tree.specs.TypedTree as plain;
ghost use Rattle.pli_type_tree.specs.views.TypedView.{expression_view, form_view, statement_view, statements_view};

use crate::simple::simple;
use pli_base::statement::{Body, Control, Statement};
use pli_base::syntax::Expression;
use pli_map::Description;
use pli_type_iteration::{Header, condition, group_form, kept_by, specified};
use pli_type_parts::{
    begin_form, boxed, if_form, keep, labels_of, leaves_nothing, noted, numbered, otherwise,
};
use pli_type_tree::{BlockHead, Form, TypedExpression, TypedStatement};
use pli_type_walk::{TypingWalk, enter_block, finish, finish_on_unit, kept_in, leave_block};
use std::alloc::{AllocError, Global};
use std::slice;

/// What a block begins with, and its list, if that has no fault.
#[derive(Drop)]
struct TypedBlock {
    head: BlockHead,
    list: Option<Vec<TypedStatement>>,
}

/// A statement without statements in it, whose fault is put after the others.
fn type_simple(
    alloc: Global,
    walk: &mut TypingWalk<'_>,
    at: u32,
    body: &Body,
) -> Result<Option<Form>, AllocError>
    requires placed { IsPlaced walk.old }
    requires simple { is_compound (source.body_view body.now) ≡ false }
    requires room { HasRoom (next_at walk.old) (taken_of (source.body_view body.now)) }
    ensures walked { IfOk result (λ form. Walks plain.Form walk.old walk.new
        (record {
          block = walk.old.next.block;
          temporary = walk.old.next.temporary
              + temporaries_of (based_names walk.old) (source.body_view body.now);
        })
        (spec.of_own (simple_typed (spec.naming_at (unit_at walk.old) (around walk.old))
        (around walk.old) walk.old.next.temporary at
        (source.body_view body.now))) (option_map form_view form)) }
    ensures simple { is_compound (source.body_view body.now) ≡ false }
{
    let temporary = walk.next.temporary;
    let after = temporary + kept_in(&walk.naming, body);
    walk.next.temporary = after;
    let form = simple(
        alloc,
        &walk.naming,
        &walk.surroundings,
        &walk.templates,
        temporary,
        at,
        body,
    );
    noted(form, &mut walk.faults)
}

/// A condition, whose fault is put after the others.
fn type_condition(
    alloc: Global,
    walk: &mut TypingWalk<'_>,
    expression: &Expression,
) -> Result<Option<Box<TypedExpression>>, AllocError>
    requires { IsPlaced walk.old }
    ensures { IfOk result (λ tested. Walks plain.TypedExpression walk.old walk.new (next_at walk.old)
        (spec.of_own (spec.condition (spec.naming_at (unit_at walk.old) (around walk.old))
        (syntax.expression_view expression.now)))
        (option_map (λ x. expression_view x.value) tested)) }
{
    let tested = condition(alloc, &walk.naming, expression);
    noted(tested, &mut walk.faults)
}

/// What controls a group, whose fault is put after the others; its temporaries are counted.
fn type_header(
    alloc: Global,
    walk: &mut TypingWalk<'_>,
    control: &Option<Control>,
) -> Result<Option<Header>, AllocError>
    requires placed { IsPlaced walk.old }
    requires room { HasRoom (next_at walk.old) 4 }
    ensures { IfOk result (λ header. Walks PlainHeader walk.old walk.new
        (record {
          block = walk.old.next.block;
          temporary = walk.old.next.temporary
              + kept_by (option_map source.control_view control.now);
        })
        (spec.of_own (header_typed (spec.naming_at (unit_at walk.old) (around walk.old)) walk.old.next.temporary
        (option_map source.control_view control.now))) (option_map header_view header)) }
{
    let temporary = walk.next.temporary;
    let after = temporary + kept_by(control);
    walk.next.temporary = after;
    let header = specified(alloc, &walk.naming, temporary, control);
    noted(header, &mut walk.faults)
}

/// A statement, if it has no fault. Its faults, and those of the statements in it, are put after the others, in the
/// order of the text.
#[cycle(typed)]
fn type_statement(
    alloc: Global,
    walk: &mut TypingWalk<'_>,
    statement: &Statement,
) -> Result<Option<TypedStatement>, AllocError>
    requires placed { IsPlaced walk.old }
    requires room { HasRoom (next_at walk.old) (taken_in (source.statement_view statement.now)) }
    ensures { IfOk result (λ typed. Walks plain.TypedStatement walk.old walk.new
        (next_after (based_names walk.old) (next_at walk.old) (source.statement_view statement.now))
        (spec.statement_typed (unit_at walk.old) (around walk.old) (next_at walk.old)
        (source.statement_view statement.now))
        (option_map statement_view typed)) }
{
    let form = type_body(alloc, walk, statement.number, statement.at, &statement.body)?;
    Ok(numbered(statement.number, form))
}

/// The same of what the statement of a number says, whose first token after its label is `at`.
#[cycle(typed)]
fn type_body<'a>(
    alloc: Global,
    walk: &mut TypingWalk<'a>,
    number: u32,
    at: u32,
    body: &Body,
) -> Result<Option<Form>, AllocError>
    requires placed { IsPlaced walk.old }
    requires room { HasRoom (next_at walk.old) (taken_of (source.body_view body.now)) }
    ensures { IfOk result (λ form. WalksBody walk.old walk.new number at (source.body_view body.now)
        (option_map form_view form)) }
{
    match body {
        Body::Procedure(procedure) => {
            let value = walk.naming.procedure(walk.next.block).returned;
            let statements = procedure.statements.as_slice();
            let block = type_block(alloc, walk, false, 0, value, number, statements)?;
            finish(walk, procedure.end, block.head, block.list)
        }
        Body::Begin { statements, .. } => {
            let begins = walk.surroundings.begins + 1;
            let value = walk.surroundings.value;
            let block = type_block(
                alloc,
                walk,
                false,
                begins,
                value,
                number,
                statements.as_slice(),
            )?;
            Ok(begin_form(block.head, block.list))
        }
        Body::Do {
            control,
            statements,
            ..
        } => {
            let header = type_header(alloc, walk, control)?;
            let list = type_group(alloc, walk, statements.as_slice())?;
            Ok(group_form(header, list))
        }
        Body::If {
            condition,
            consequence,
            alternative,
        } => {
            let tested = type_condition(alloc, walk, condition)?;
            let typed = type_statement(alloc, walk, consequence)?;
            let consequence = boxed(alloc, typed)?;
            match alternative {
                None => Ok(if_form(tested, consequence, Some(None))),
                Some(statement) => {
                    let other = type_statement(alloc, walk, statement)?;
                    let other = otherwise(alloc, other)?;
                    Ok(if_form(tested, consequence, other))
                }
            }
        }
        Body::On { condition, unit } => {
            let list = slice::from_ref(&**unit);
            let block = type_block(alloc, walk, true, 0, None, number, list)?;
            finish_on_unit(walk, *condition, block.head, block.list)
        }
        _ => type_simple(alloc, walk, at, body),
    }
}

/// The list of a block, which stands in so many BEGIN blocks of a procedure that gives this, or of an ON-unit; its
/// PROCEDURE, BEGIN or ON is the statement of this number. That of an ON-unit is its statement.
#[cycle(typed)]
fn type_block<'a>(
    alloc: Global,
    walk: &mut TypingWalk<'a>,
    is_on_unit: bool,
    begins: usize,
    value: Option<&'a Description>,
    number: u32,
    statements: &[Statement],
) -> Result<TypedBlock, AllocError>
    requires placed { IsPlaced walk.old }
    requires room { HasRoom (next_at walk.old) (4 + taken_among (source.statements_view statements.now)) }
    requires deep { begins ≤ 1 + length (around_view walk.old.surroundings).lists }
    ensures { IfOk result (λ block. WalksBlock walk.old walk.new
        (in_block walk.old is_on_unit begins (option_map (λ d. description_view d.now) value.entry)
        (source.statements_view statements.now))
        number (source.statements_view statements.now) block.head
        (option_map (λ list. statements_view list.items) block.list)) }
{
    let block = enter_block(alloc, walk, is_on_unit, begins, value, statements)?;
    let list = type_statements(alloc, walk, statements)?;
    let head = leave_block(walk, block, number);
    Ok(TypedBlock { head, list })
}

/// The list of a group.
#[cycle(typed)]
fn type_group(
    alloc: Global,
    walk: &mut TypingWalk<'_>,
    statements: &[Statement],
) -> Result<Option<Vec<TypedStatement>>, AllocError>
    requires placed { IsPlaced walk.old }
    requires room { HasRoom (next_at walk.old) (taken_among (source.statements_view statements.now)) }
    ensures { IfOk result (λ typed. WalksList walk.old walk.new
        (spec.in_group (source.statements_view statements.now) (around walk.old))
        (source.statements_view statements.now)
        (option_map (λ list. statements_view list.items) typed)) }
{
    let labels = labels_of(alloc, statements)?;
    walk.surroundings.enter(None, false, labels)?;
    let list = type_statements(alloc, walk, statements)?;
    walk.surroundings.leave();
    Ok(list)
}

/// Statements, without those that leave nothing, if none has a fault. All faults are put after the others, in the
/// order of the text. It calls itself as deep as statements nest.
#[cycle(typed)]
pub(crate) fn type_statements(
    alloc: Global,
    walk: &mut TypingWalk<'_>,
    statements: &[Statement],
) -> Result<Option<Vec<TypedStatement>>, AllocError>
    requires placed { IsPlaced walk.old }
    requires room { HasRoom (next_at walk.old) (taken_among (source.statements_view statements.now)) }
    ensures { IfOk result (λ typed. WalksList walk.old walk.new (around walk.old)
        (source.statements_view statements.now)
        (option_map (λ list. statements_view list.items) typed)) }
{
    let mut typed = Vec::new(alloc);
    let mut complete = true;
    for statement in statements {
        let leaves_nothing = leaves_nothing(&statement.body);
        let kept = type_statement(alloc, walk, statement)?;
        let is_kept = keep(leaves_nothing, kept, &mut typed)?;
        complete = complete && is_kept;
    }
    Ok(if complete { Some(typed) } else { None })
}
