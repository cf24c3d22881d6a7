//! The outline of statements.
ghost use Rattle.std.specs.Prelude.{◌≡◌, ◌++◌, ◌<◌, ◌≤◌, ◌+◌, [], ◌∷◌, map, length, option_map, OnOk, IfOk};
ghost use Rattle.std.specs.List.{flat_map};
ghost use Rattle.pli_base.specs.views.SyntaxView.{expression_view, reference_view};
ghost use Rattle.pli_base.specs.views.StatementView.{range_view, control_view, allocation_view, body_view};
ghost use Rattle.pli_base.specs.views.StatementView.{statement_view, statements_view, unit_view};
ghost use Rattle.pli_base.specs.laws.StatementLaws.{boxed_view};
ghost use Rattle.pli_declare_outline.specs.Outlines.{placed, optional_marks, range_marks, control_marks, both_marks};
ghost use Rattle.pli_declare_outline.specs.Outlines.{allocation_marks, expression_marks, reference_marks, label_marks};
ghost use Rattle.pli_declare_outline.specs.Outlines.{head_marks, regions_of, statement_marks, statement_regions};
ghost use Rattle.pli_declare_outline.specs.Outlines.{statements_marks, statements_regions, body_marks, body_regions};
ghost use Rattle.pli_declare_outline.specs.Outlines.{alternative_marks, alternative_regions, outline_of};
ghost use Rattle.pli_declare_outline.specs.Walks.{own_marks};
ghost use Rattle.pli_declare_outline.specs.views.OutlineView.{regions_view, marks_view, outline_view};

use crate::expressions::{mark, mark_expression, mark_expressions, mark_reference};
use crate::region::{Mark, PlacedMark};
use crate::used_names::UsedNames;
use pli_base::statement::{Allocation, Body, Control, Range, Statement};
use pli_base::syntax::{Expression, Reference};
use std::alloc::{AllocError, Global};

/// The marks of an expression, if there is one.
fn mark_optional(
    alloc: Global,
    here: usize,
    expression: &Option<Expression>,
    marks: &mut Vec<PlacedMark<'_>>,
) -> Result<(), AllocError>
    ensures { OnOk result (marks_view marks.new.items
        ≡ marks_view marks.old.items ++ placed here (optional_marks expression_marks
        (option_map expression_view expression.now))) }
{
    match expression {
        None => Ok(()),
        Some(expression) => mark_expression(alloc, here, expression, marks),
    }
}

/// The marks of what limits or continues an iteration.
fn mark_range(
    alloc: Global,
    here: usize,
    range: &Range,
    marks: &mut Vec<PlacedMark<'_>>,
) -> Result<(), AllocError>
    ensures { OnOk result (marks_view marks.new.items
        ≡ marks_view marks.old.items ++ placed here (range_marks (range_view range.now))) }
{
    match range {
        Range::To { to, by } => {
            mark_expression(alloc, here, to, marks)?;
            mark_optional(alloc, here, by, marks)
        }
        Range::By { by, to } => {
            mark_expression(alloc, here, by, marks)?;
            mark_optional(alloc, here, to, marks)
        }
        Range::Repeat(next) => mark_expression(alloc, here, next, marks),
    }
}

/// The marks of the specification of a DO group.
fn mark_control(
    alloc: Global,
    here: usize,
    control: &Control,
    marks: &mut Vec<PlacedMark<'_>>,
) -> Result<(), AllocError>
    ensures { OnOk result (marks_view marks.new.items
        ≡ marks_view marks.old.items ++ placed here (control_marks (control_view control.now))) }
{
    match control {
        Control::While(condition) => mark_expression(alloc, here, condition, marks),
        Control::Iterate {
            variable,
            first,
            range,
            condition,
            ..
        } => {
            mark_reference(alloc, here, variable, marks)?;
            mark_expression(alloc, here, first, marks)?;
            if let Some(range) = range {
                mark_range(alloc, here, range, marks)?;
            }
            mark_optional(alloc, here, condition, marks)
        }
    }
}

/// The marks of the specification of a DO group, if there is one.
fn mark_specification(
    alloc: Global,
    here: usize,
    control: &Option<Control>,
    marks: &mut Vec<PlacedMark<'_>>,
) -> Result<(), AllocError>
    ensures { OnOk result (marks_view marks.new.items
        ≡ marks_view marks.old.items ++ placed here (optional_marks control_marks
        (option_map control_view control.now))) }
{
    match control {
        None => Ok(()),
        Some(control) => mark_control(alloc, here, control, marks),
    }
}

/// The marks of two references, in the order of the text.
fn mark_both(
    alloc: Global,
    here: usize,
    area: &Option<Reference>,
    target: &Option<Reference>,
    marks: &mut Vec<PlacedMark<'_>>,
) -> Result<(), AllocError>
    ensures { OnOk result (marks_view marks.new.items
        ≡ marks_view marks.old.items ++ placed here (both_marks (option_map reference_view area.now)
        (option_map reference_view target.now))) }
{
    match (area, target) {
        (Some(area), Some(target)) => {
            if target.first.name.at < area.first.name.at {
                mark_reference(alloc, here, target, marks)?;
                mark_reference(alloc, here, area, marks)
            } else {
                mark_reference(alloc, here, area, marks)?;
                mark_reference(alloc, here, target, marks)
            }
        }
        (Some(only), None) | (None, Some(only)) => mark_reference(alloc, here, only, marks),
        (None, None) => Ok(()),
    }
}

/// The marks of one variable of ALLOCATE.
fn mark_allocation(
    alloc: Global,
    here: usize,
    allocation: &Allocation,
    marks: &mut Vec<PlacedMark<'_>>,
) -> Result<(), AllocError>
    ensures { OnOk result (marks_view marks.new.items
        ≡ marks_view marks.old.items ++ placed here (allocation_marks (allocation_view allocation.now))) }
{
    let names = UsedNames::one(allocation.name);
    mark(here, Mark::Used(names), marks)?;
    mark_both(alloc, here, &allocation.area, &allocation.target, marks)
}

/// The marks of all variables of ALLOCATE.
fn mark_allocations(
    alloc: Global,
    here: usize,
    allocations: &[Allocation],
    marks: &mut Vec<PlacedMark<'_>>,
) -> Result<(), AllocError>
    ensures { OnOk result (marks_view marks.new.items
        ≡ marks_view marks.old.items ++ placed here (flat_map allocation_marks (map allocation_view allocations.now))) }
{
    for allocation in allocations {
        mark_allocation(alloc, here, allocation, marks)?;
    }
    Ok(())
}

/// The marks of references.
fn mark_references(
    alloc: Global,
    here: usize,
    references: &[Reference],
    marks: &mut Vec<PlacedMark<'_>>,
) -> Result<(), AllocError>
    ensures { OnOk result (marks_view marks.new.items
        ≡ marks_view marks.old.items ++ placed here (flat_map reference_marks (map reference_view references.now))) }
{
    for reference in references {
        mark_reference(alloc, here, reference, marks)?;
    }
    Ok(())
}

/// The marks of a statement's own, apart from those of the statements inside it; a procedure begins the region of this
/// number.
pub fn mark_head<'a>(
    alloc: Global,
    here: usize,
    body: &'a Body,
    region: usize,
    marks: &mut Vec<PlacedMark<'a>>,
) -> Result<(), AllocError>
    ensures { OnOk result (marks_view marks.new.items ≡ marks_view marks.old.items
        ++ placed here (own_marks region (body_view body.now))) }
{
    match body {
        Body::Procedure(procedure) => mark(here, Mark::Entered { procedure, region }, marks),
        Body::Do { control, .. } => mark_specification(alloc, here, control, marks),
        Body::If { condition, .. } => mark_expression(alloc, here, condition, marks),
        Body::Assign { target, value, .. } => {
            mark_reference(alloc, here, target, marks)?;
            mark_expression(alloc, here, value, marks)
        }
        Body::Declare(items) => mark(here, Mark::Declared(items.as_slice()), marks),
        Body::Allocate(allocations) => {
            mark_allocations(alloc, here, allocations.as_slice(), marks)
        }
        Body::Free(references) => mark_references(alloc, here, references.as_slice(), marks),
        Body::Call { name, arguments } => {
            let names = UsedNames::one(*name);
            mark(here, Mark::Used(names), marks)?;
            match arguments {
                None => Ok(()),
                Some(list) => mark_expressions(alloc, here, list.as_slice(), marks),
            }
        }
        Body::Goto(label) => mark(here, Mark::Jumped(*label), marks),
        Body::Return(value) => mark_optional(alloc, here, value, marks),
        Body::Put { items, .. } => mark_items(alloc, here, items.as_slice(), marks),
        Body::Null
        | Body::Stop
        | Body::Revert(_)
        | Body::Signal(_)
        | Body::Begin { .. }
        | Body::On { .. } => Ok(()),
    }
}

/// The marks of expressions in a list of statements' own.
fn mark_items(
    alloc: Global,
    here: usize,
    items: &[Expression],
    marks: &mut Vec<PlacedMark<'_>>,
) -> Result<(), AllocError>
    ensures { OnOk result (marks_view marks.new.items
        ≡ marks_view marks.old.items ++ placed here (flat_map expression_marks (map expression_view items.now))) }
{
    for item in items {
        mark_expression(alloc, here, item, marks)?;
    }
    Ok(())
}

/// The mark of a label, where it is no procedure's name.
pub fn mark_label<'a>(
    here: usize,
    statement: &'a Statement,
    marks: &mut Vec<PlacedMark<'a>>,
) -> Result<(), AllocError>
    ensures { OnOk result (marks_view marks.new.items
        ≡ marks_view marks.old.items ++ placed here (label_marks statement.now.label (body_view statement.now.body))) }
{
    match (&statement.label, &statement.body) {
        (_, Body::Procedure(_)) | (None, _) => Ok(()),
        (Some(label), _) => mark(here, Mark::Labelled(*label), marks),
    }
}
