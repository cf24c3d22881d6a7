//! From a tree to the resolved unit.
ghost use Rattle.std.specs.Prelude.{◌≡◌, ℕ, nat_eq, IfOk};
ghost use Rattle.indexmap.specs.IndexMap.{get};
ghost use Rattle.pli_base.specs.views.StatementView.{unit_view};
ghost use Rattle.pli_declare_outline.specs.Outlines.{outline_of};
ghost use Rattle.pli_declare_outline.specs.views.OutlineView.{outline_view, marks_view};
ghost use Rattle.pli_declare.specs.Tables.{inner_marks};
ghost use Rattle.pli_declare.specs.Symbols.{found_in};
ghost use Rattle.pli_declare_outline.specs.StatementPlaces.{unit_places};
ghost use Rattle.pli_declare.specs.ResolvedUnits.{functions_in, procedures_in};
ghost use Rattle.pli_resolve.specs.views.UnitView.{IsResolvedUnit, AreTablesOf, AreMapsOf, AreNumbersOf};

use crate::block_numbers::{block_numbers, block_regions};
use crate::look_ups::{functions, procedures, statement_maps};
use crate::tables::block_tables;
use crate::ways::ways;
use indexmap::IndexMap;
use pli_base::statement::Procedure;
use pli_declare::{BuiltInFunction, Resolved, SymbolKey};
use pli_declare_faults::{ResolveError, resolve};
use pli_declare_outline::{Outline, PlacedMark, StatementPlace};
use pli_resolve::{Callables, RegionNumbers, ResolvedUnit, UnitMaps, UnitTables};
use std::alloc::{AllocError, Global};

/// The marks of an outline but the first.
fn marks_after<'a, 'b>(outline: &'a Outline<'b>) -> &'a [PlacedMark<'b>]
    ensures { marks_view result.now ≡ inner_marks (outline_view outline.now).marks }
{
    let Some((_first, marks)) = outline.marks.split_first() else {
        return &outline.marks;
    };
    marks
}

/// Which regions of a unit are blocks.
fn region_numbers(alloc: Global, declared: &Resolved) -> Result<RegionNumbers, AllocError>
    ensures { IfOk result (λ regions. AreNumbersOf regions (unit_view declared.now)) }
{
    Ok(RegionNumbers {
        numbers: block_numbers(alloc, declared.regions())?,
        blocks: block_regions(alloc, declared.regions())?,
    })
}

/// The symbols of procedures' names, by the regions of the procedures.
fn unit_procedures(
    alloc: Global,
    declared: &Resolved,
    regions: &RegionNumbers,
) -> Result<IndexMap<usize, SymbolKey>, AllocError>
    requires { AreNumbersOf regions.now (unit_view declared.now) }
    ensures { IfOk result (λ procedures. (n : ℕ) → get nat_eq procedures n
        ≡ found_in (procedures_in (unit_view declared.now)) n) }
{
    let outermost = regions.blocks.len();
    procedures(
        alloc,
        &regions.numbers,
        outermost,
        declared.outermost(),
        declared.blocks(),
    )
}

/// What may be called in a unit.
fn callables(
    alloc: Global,
    declared: &Resolved,
    regions: &RegionNumbers,
    marks: &[PlacedMark],
) -> Result<Callables, AllocError>
    requires are_numbers { AreNumbersOf regions.now (unit_view declared.now) }
    requires are_marks { marks_view marks.now ≡ inner_marks (outline_of (unit_view declared.now)).marks }
    ensures functions { IfOk result (λ callables. (at : ℕ) →
        get nat_eq callables.functions at ≡ found_in (functions_in
        (inner_marks (outline_of (unit_view declared.now)).marks)) at) }
    ensures procedures { IfOk result (λ callables. (region : ℕ) →
        get nat_eq callables.procedures region ≡ found_in (procedures_in (unit_view declared.now)) region) }
{
    Ok(Callables {
        functions: functions(alloc, marks)?,
        procedures: unit_procedures(alloc, declared, regions)?,
    })
}

/// What is found by a token, the number of a statement, or a region.
fn unit_maps(
    alloc: Global,
    declared: &Resolved,
    regions: &RegionNumbers,
    places: &[StatementPlace],
    marks: &[PlacedMark],
) -> Result<UnitMaps, AllocError>
    requires are_numbers { AreNumbersOf regions.now (unit_view declared.now) }
    requires are_marks { marks_view marks.now ≡ inner_marks (outline_of (unit_view declared.now)).marks }
    requires are_places { places.now ≡ unit_places (unit_view declared.now) }
    ensures { IfOk result (λ maps. AreMapsOf maps (unit_view declared.now)) }
{
    Ok(UnitMaps {
        callables: callables(alloc, declared, regions, marks)?,
        statements: statement_maps(alloc, places)?,
    })
}

/// What is found once for a unit.
fn unit_tables(
    alloc: Global,
    declared: &Resolved,
    outline: &Outline<'_>,
) -> Result<UnitTables, AllocError>
    requires outline { outline_view outline.now ≡ outline_of (unit_view declared.now) }
    requires places { outline.now.places.items ≡ unit_places (unit_view declared.now) }
    ensures { IfOk result (λ tables. AreTablesOf tables (unit_view declared.now)) }
{
    let marks = marks_after(outline);
    let regions = region_numbers(alloc, declared)?;
    let tables = block_tables(alloc, declared.blocks())?;
    let ways = ways(alloc, declared.outermost())?;
    let maps = unit_maps(alloc, declared, &regions, &outline.places, marks)?;
    Ok(UnitTables {
        regions,
        tables,
        ways,
        maps,
    })
}

/// The resolved unit of a tree, or all faults of its declarations and uses: for each declared name and each reference
/// the least code, in the order of their tokens.
pub fn resolve_unit(alloc: Global, unit: &Procedure) -> Result<ResolvedUnit<'_>, ResolveError>
    ensures { IsResolvedUnit result (unit_view unit.now) }
{
    let outline = pli_declare_outline::outline(alloc, unit)?;
    let declared = resolve(alloc, unit, &outline)?;
    let Ok(tables) = unit_tables(alloc, &declared, &outline) else {
        drop(declared);
        return Err(ResolveError::OutOfMemory);
    };
    Ok(ResolvedUnit::new(declared, outline, tables))
}
