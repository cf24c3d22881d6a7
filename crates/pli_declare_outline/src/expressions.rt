//! The marks of expressions and references.
ghost use Rattle.std.specs.Prelude.{◌≡◌, ◌++◌, ◌∷◌, [], OnOk, IfOk};
ghost use Rattle.pli_base.specs.views.SyntaxView.{expression_view, reference_view, expressions_view, arguments_view};
ghost use Rattle.pli_base.specs.views.SyntaxView.{joined_view};
ghost use Rattle.pli_declare_outline.specs.Outlines.{placed, member_names, reference_marks, joined_marks};
ghost use Rattle.pli_declare_outline.specs.Outlines.{argument_marks, list_marks, expression_marks};
ghost use Rattle.pli_declare_outline.specs.views.NamesView.{names_view};
ghost use Rattle.pli_declare_outline.specs.views.OutlineView.{mark_view, marks_view};

use crate::region::{Mark, PlacedMark};
use crate::used_names::UsedNames;
use pli_base::syntax::{Expression, Identifier, JoinedPart, Joining, Part, Reference};
use std::alloc::{AllocError, Global};

/// A name, and those that are joined to it by `.`.
fn names_of(alloc: Global, name: Identifier, joined: &[JoinedPart]) -> Result<UsedNames, AllocError>
    ensures { IfOk result (λ names. names_view names ≡ name ∷ member_names (joined_view joined.now)) }
{
    if joined.is_empty() {
        return Ok(UsedNames::one(name));
    }
    let mut names = Vec::with_capacity(alloc, joined.len() + 1)?;
    names.push(name)?;
    for part in joined {
        match part.joining {
            Joining::Member => names.push(part.part.name)?,
            Joining::Located => break,
        }
    }
    Ok(UsedNames::Several(names))
}

/// Puts a mark of a region at the end.
pub fn mark<'a>(
    here: usize,
    mark: Mark<'a>,
    marks: &mut Vec<PlacedMark<'a>>,
) -> Result<(), AllocError>
    ensures { OnOk result (marks_view marks.new.items ≡ marks_view marks.old.items
        ++ placed here (mark_view mark.entry ∷ [])) }
{
    marks.push(PlacedMark { region: here, mark })?;
    Ok(())
}

/// The marks of a reference.
#[cycle(marked)]
pub fn mark_reference(
    alloc: Global,
    here: usize,
    reference: &Reference,
    marks: &mut Vec<PlacedMark<'_>>,
) -> Result<(), AllocError>
    ensures { OnOk result (marks_view marks.new.items
        ≡ marks_view marks.old.items ++ placed here (reference_marks (reference_view reference.now))) }
{
    let names = names_of(alloc, reference.first.name, reference.joined.as_slice())?;
    mark(here, Mark::Used(names), marks)?;
    mark_arguments(alloc, here, &reference.first, marks)?;
    mark_joined(alloc, here, reference.joined.as_slice(), marks)
}

/// The marks of the parts that are joined to a reference's first.
#[cycle(marked)]
fn mark_joined(
    alloc: Global,
    here: usize,
    joined: &[JoinedPart],
    marks: &mut Vec<PlacedMark<'_>>,
) -> Result<(), AllocError>
    ensures { OnOk result (marks_view marks.new.items
        ≡ marks_view marks.old.items ++ placed here (joined_marks (joined_view joined.now))) }
{
    for place in 0..joined.len() {
        let part = &joined[place];
        if part.joining == Joining::Located {
            let names = names_of(alloc, part.part.name, &joined[place + 1..])?;
            mark(here, Mark::Used(names), marks)?;
        }
        mark_arguments(alloc, here, &part.part, marks)?;
    }
    Ok(())
}

/// The marks of what stands in the parentheses after a name.
#[cycle(marked)]
fn mark_arguments(
    alloc: Global,
    here: usize,
    part: &Part,
    marks: &mut Vec<PlacedMark<'_>>,
) -> Result<(), AllocError>
    ensures { OnOk result (marks_view marks.new.items
        ≡ marks_view marks.old.items ++ placed here (argument_marks (arguments_view part.now.arguments))) }
{
    match &part.arguments {
        None => Ok(()),
        Some(list) => mark_expressions(alloc, here, list.as_slice(), marks),
    }
}

/// The marks of expressions.
#[cycle(marked)]
pub fn mark_expressions(
    alloc: Global,
    here: usize,
    list: &[Expression],
    marks: &mut Vec<PlacedMark<'_>>,
) -> Result<(), AllocError>
    ensures { OnOk result (marks_view marks.new.items
        ≡ marks_view marks.old.items ++ placed here (list_marks (expressions_view list.now))) }
{
    for expression in list {
        mark_expression(alloc, here, expression, marks)?;
    }
    Ok(())
}

/// The marks of an expression.
#[cycle(marked)]
pub fn mark_expression(
    alloc: Global,
    here: usize,
    expression: &Expression,
    marks: &mut Vec<PlacedMark<'_>>,
) -> Result<(), AllocError>
    ensures { OnOk result (marks_view marks.new.items
        ≡ marks_view marks.old.items ++ placed here (expression_marks (expression_view expression.now))) }
{
    match expression {
        Expression::Reference(reference) => mark_reference(alloc, here, reference, marks),
        Expression::Constant { .. } => Ok(()),
        Expression::Parenthesized { inner, .. } => mark_expression(alloc, here, inner, marks),
        Expression::Prefix { operand, .. } => mark_expression(alloc, here, operand, marks),
        Expression::Infix { left, right, .. } => {
            mark_expression(alloc, here, left, marks)?;
            mark_expression(alloc, here, right, marks)
        }
    }
}
