//! The one walk over the statements of a unit: its regions, its marks, and where its statements stand.
ghost use Rattle.std.specs.Prelude.{◌≡◌, ◌+◌, Some, length, OnOk, IfOk};
ghost use Rattle.pli_base.specs.views.StatementView.{body_view, statement_view, statements_view, unit_view};
ghost use Rattle.pli_declare_outline.specs.Outlines.{regions_in, regions_of, regions_among, outline_of};
ghost use Rattle.pli_declare_outline.specs.StatementPlaces.{unit_starts, unit_places};
ghost use Rattle.pli_declare_outline.specs.Walks.{Walked, of_statement, of_statements, of_body, begun, until_end};
ghost use Rattle.pli_declare_outline.specs.views.OutlineView.{outline_view, starts_view};

use crate::expressions::mark;
use crate::region::{Mark, Outline, PlacedMark, Region, RegionKind};
use crate::statement_places::StatementPlace;
use crate::statements::{mark_head, mark_label};
use pli_base::statement::{Body, Procedure, Statement};
use std::alloc::{AllocError, Global};

/// What a statement puts, itself the first.
#[cycle(walk)]
fn walk_statement<'a>(
    alloc: Global,
    here: usize,
    statement: &'a Statement,
    regions: &mut Vec<Region>,
    marks: &mut Vec<PlacedMark<'a>>,
    places: &mut Vec<StatementPlace>,
) -> Result<(), AllocError>
    ensures { OnOk result (Walked regions.old.items regions.new.items marks.old.items marks.new.items
        places.old.items places.new.items
        (of_statement here (length regions.old.items) (statement_view statement.now))
        (regions_in (statement_view statement.now))) }
{
    places.push(StatementPlace {
        number: statement.number,
        region: here,
        label: statement.label,
    })?;
    mark_label(here, statement, marks)?;
    let number = statement.number;
    walk_body(alloc, here, number, &statement.body, regions, marks, places)
}

/// What statements put.
#[cycle(walk)]
fn walk_statements<'a>(
    alloc: Global,
    here: usize,
    statements: &'a [Statement],
    regions: &mut Vec<Region>,
    marks: &mut Vec<PlacedMark<'a>>,
    places: &mut Vec<StatementPlace>,
) -> Result<(), AllocError>
    ensures { OnOk result (Walked regions.old.items regions.new.items marks.old.items marks.new.items
        places.old.items places.new.items
        (of_statements here (length regions.old.items) (statements_view statements.now))
        (regions_among (statements_view statements.now))) }
{
    for statement in statements {
        walk_statement(alloc, here, statement, regions, marks, places)?;
    }
    Ok(())
}

/// A region that ends with the statement of this number, with what the statements in it put.
#[cycle(walk)]
fn walk_region<'a>(
    alloc: Global,
    region: Region,
    end: u32,
    statements: &'a [Statement],
    regions: &mut Vec<Region>,
    marks: &mut Vec<PlacedMark<'a>>,
    places: &mut Vec<StatementPlace>,
) -> Result<(), AllocError>
    ensures { OnOk result (Walked regions.old.items regions.new.items marks.old.items marks.new.items
        places.old.items places.new.items
        (begun region (until_end (of_statements (length regions.old.items) (length regions.old.items + 1)
        (statements_view statements.now)) (length regions.old.items) end))
        (1 + regions_among (statements_view statements.now))) }
{
    let number = regions.len();
    regions.push(region)?;
    walk_statements(alloc, number, statements, regions, marks, places)?;
    places.push(StatementPlace {
        number: end,
        region: number,
        label: None,
    })?;
    Ok(())
}

/// The region of an ON-unit, with what its statement puts.
#[cycle(walk)]
fn walk_on_unit<'a>(
    alloc: Global,
    region: Region,
    statement: &'a Statement,
    regions: &mut Vec<Region>,
    marks: &mut Vec<PlacedMark<'a>>,
    places: &mut Vec<StatementPlace>,
) -> Result<(), AllocError>
    ensures { OnOk result (Walked regions.old.items regions.new.items marks.old.items marks.new.items
        places.old.items places.new.items
        (begun region (of_statement (length regions.old.items) (length regions.old.items + 1)
        (statement_view statement.now)))
        (1 + regions_in (statement_view statement.now))) }
{
    let number = regions.len();
    regions.push(region)?;
    walk_statement(alloc, number, statement, regions, marks, places)
}

/// What the statement of this number puts for what it says.
#[cycle(walk)]
fn walk_body<'a>(
    alloc: Global,
    here: usize,
    number: u32,
    body: &'a Body,
    regions: &mut Vec<Region>,
    marks: &mut Vec<PlacedMark<'a>>,
    places: &mut Vec<StatementPlace>,
) -> Result<(), AllocError>
    ensures { OnOk result (Walked regions.old.items regions.new.items marks.old.items marks.new.items
        places.old.items places.new.items
        (of_body here number (length regions.old.items) (body_view body.now))
        (regions_of (body_view body.now))) }
{
    mark_head(alloc, here, body, regions.len(), marks)?;
    match body {
        Body::Procedure(procedure) => {
            let region = inner(RegionKind::Procedure, here, number);
            let statements = procedure.statements.as_slice();
            let end = procedure.end;
            walk_region(alloc, region, end, statements, regions, marks, places)
        }
        Body::Begin { statements, end } => {
            let region = inner(RegionKind::Begin, here, number);
            let statements = statements.as_slice();
            walk_region(alloc, region, *end, statements, regions, marks, places)
        }
        Body::Do {
            statements,
            end,
            ..
        } => {
            let region = inner(RegionKind::Group, here, number);
            let statements = statements.as_slice();
            walk_region(alloc, region, *end, statements, regions, marks, places)
        }
        Body::If {
            consequence,
            alternative,
            ..
        } => {
            walk_statement(alloc, here, consequence, regions, marks, places)?;
            match alternative {
                None => Ok(()),
                Some(statement) => walk_statement(alloc, here, statement, regions, marks, places),
            }
        }
        Body::On { unit, .. } => {
            let region = inner(RegionKind::OnUnit, here, number);
            walk_on_unit(alloc, region, unit, regions, marks, places)
        }
        Body::Null
        | Body::Assign { .. }
        | Body::Declare(_)
        | Body::Revert(_)
        | Body::Signal(_)
        | Body::Stop
        | Body::Allocate(_)
        | Body::Free(_)
        | Body::Call { .. }
        | Body::Goto(_)
        | Body::Return(_)
        | Body::Put { .. } => Ok(()),
    }
}

/// A region in another, which begins with the statement of this number.
fn inner(kind: RegionKind, outer: usize, statement: u32) -> Region
    ensures { result ≡ record { kind = kind; outer = Some outer; statement = statement } }
{
    Region {
        kind,
        outer: Some(outer),
        statement,
    }
}

/// The outline of a unit, with its statements, by one walk.
pub fn outline(alloc: Global, unit: &Procedure) -> Result<Outline<'_>, AllocError>
    ensures outline { IfOk result (λ outline. outline_view outline ≡ outline_of (unit_view unit.now)) }
    ensures starts { IfOk result (λ outline. starts_view outline.regions.items ≡ unit_starts (unit_view unit.now)) }
    ensures places { IfOk result (λ outline. outline.places.items ≡ unit_places (unit_view unit.now)) }
{
    let mut regions = Vec::new(alloc);
    let mut marks = Vec::new(alloc);
    let mut places = Vec::new(alloc);
    mark(
        0,
        Mark::Entered {
            procedure: unit,
            region: 0,
        },
        &mut marks,
    )?;
    places.push(StatementPlace {
        number: unit.number,
        region: 0,
        label: None,
    })?;
    let region = Region {
        kind: RegionKind::Procedure,
        outer: None,
        statement: unit.number,
    };
    walk_region(
        alloc,
        region,
        unit.end,
        unit.statements.as_slice(),
        &mut regions,
        &mut marks,
        &mut places,
    )?;
    Ok(Outline {
        regions,
        marks,
        places,
    })
}
