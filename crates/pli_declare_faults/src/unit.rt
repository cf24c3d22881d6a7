//! The faults of the declarations of a unit, and what the names mean that it uses.
ghost use Rattle.std.specs.Prelude.{◌≡◌, ◌++◌, map, IfOk, OnOk};
ghost use Rattle.pli_declare_outline.specs.views.OutlineView.{outline_view, placed_view};
ghost use Rattle.pli_declare_tables.specs.answers.Answers.{AreOf};
ghost use Rattle.pli_declare.specs.Tables.{inner_marks};
ghost use Rattle.pli_declare.specs.Resolution.{unit_faults, outline_faults};
ghost use Rattle.pli_declare.specs.Resolved.{of_marks, uses_at, areas_at, locators_at};
ghost use Rattle.pli_declare_faults.specs.answers.Answers.{AreKnown};
ghost use Rattle.pli_declare_faults.specs.answers.Walks.{AreCodes, AreGoodness};

use crate::heading::{heading_code, returned_name_nothing};
use crate::known::Known;
use crate::marks::tell_marks;
use crate::parameters::tell_parameters;
use crate::scopes::Scopes;
use crate::told::tell;
use pli_base::{Code, Fault};
use pli_declare::Use;
use pli_declare_outline::{Mark, Outline, PlacedMark};
use pli_declare_tables::Tables;
use pli_declare_variables::Judged;
use std::alloc::{AllocError, Global};

/// The least code of each name of each block, of which it is known whether the names in its attributes are good.
fn codes_of_blocks(
    alloc: Global,
    known: &Known,
    good: &Vec<Vec<bool>>,
) -> Result<Vec<Vec<Option<Code>>>, AllocError>
    requires { AreGoodness (map (λ list. list.items) good.now.items) (outline_view known.now.scopes.outline.now) }
    ensures { IfOk result (λ codes. AreCodes (map (λ list. list.items) codes.items)
        (outline_view known.now.scopes.outline.now)) }
{
    let mut codes = Vec::new(alloc);
    for block in 0..known.scopes.outline.regions.len() + 1 {
        codes.push(known.codes_of_block(alloc, block, &good[block])?)?;
    }
    Ok(codes)
}

/// The least code of each name of each block; and what the areas and the locators in attributes mean, after others.
fn codes_of(
    alloc: Global,
    scopes: &Scopes,
    judged: &Vec<Vec<Judged>>,
    areas: &mut Vec<Use>,
    locators: &mut Vec<Use>,
) -> Result<Vec<Vec<Option<Code>>>, AllocError>
    requires { AreKnown (map (λ list. list.items) judged.now.items) (outline_view scopes.now.outline.now) }
    ensures codes { IfOk result (λ codes. AreCodes (map (λ list. list.items) codes.items)
        (outline_view scopes.now.outline.now)) }
    ensures areas { let o = outline_view scopes.now.outline.now in
        OnOk result (areas.new.items ≡ areas.old.items ++ of_marks (areas_at o) (inner_marks o.marks)) }
    ensures locators { let o = outline_view scopes.now.outline.now in
        OnOk result (locators.new.items ≡ locators.old.items ++ of_marks (locators_at o) (inner_marks o.marks)) }
{
    let known = Known {
        scopes: *scopes,
        judged,
    };
    let good = known.names_in_attributes(alloc, areas, locators)?;
    codes_of_blocks(alloc, &known, &good)
}

/// The faults of the unit's own heading, which is the first mark.
fn tell_unit(
    alloc: Global,
    outline: &Outline,
    tables: &Tables,
    first: &PlacedMark,
    faults: &mut Vec<Fault>,
) -> Result<(), AllocError>
    requires { AreOf tables.now (outline_view outline.now) }
    ensures { OnOk result (faults.new.items ≡ faults.old.items
        ++ unit_faults (outline_view outline.now) (placed_view first.now)) }
{
    let Mark::Entered { procedure, region } = &first.mark else {
        return Ok(());
    };
    let code = heading_code(returned_name_nothing(procedure), procedure);
    tell(faults, procedure.name.at, code)?;
    tell_parameters(
        alloc,
        outline,
        tables,
        *region,
        &procedure.parameters,
        faults,
    )
}

/// The faults of the marks of an outline, what the names mean that they use, and what the areas and the locators in the
/// attributes of declared names mean, each after others.
fn tell_outline(
    alloc: Global,
    scopes: &Scopes,
    judged: &Vec<Vec<Judged>>,
    faults: &mut Vec<Fault>,
    uses: &mut Vec<Use>,
    areas: &mut Vec<Use>,
    locators: &mut Vec<Use>,
) -> Result<(), AllocError>
    requires { AreKnown (map (λ list. list.items) judged.now.items) (outline_view scopes.now.outline.now) }
    ensures faults { let o = outline_view scopes.now.outline.now in
        OnOk result (faults.new.items ≡ faults.old.items ++ outline_faults o o.marks) }
    ensures uses { let o = outline_view scopes.now.outline.now in
        OnOk result (uses.new.items ≡ uses.old.items ++ of_marks (uses_at o) (inner_marks o.marks)) }
    ensures areas { let o = outline_view scopes.now.outline.now in
        OnOk result (areas.new.items ≡ areas.old.items ++ of_marks (areas_at o) (inner_marks o.marks)) }
    ensures locators { let o = outline_view scopes.now.outline.now in
        OnOk result (locators.new.items ≡ locators.old.items ++ of_marks (locators_at o) (inner_marks o.marks)) }
{
    let Some((first, marks)) = scopes.outline.marks.split_first() else {
        return Ok(());
    };
    tell_unit(alloc, scopes.outline, scopes.tables, first, faults)?;
    let codes = codes_of(alloc, scopes, judged, areas, locators)?;
    tell_marks(alloc, scopes, &codes, marks, faults, uses)
}

/// All faults of an outline; what each reference and the label of each GOTO means; and what the areas and the locators
/// in the attributes of declared names mean.
#[derive(Drop)]
pub(crate) struct Told {
    pub faults: Vec<Fault>,
    pub uses: Vec<Use>,
    pub areas: Vec<Use>,
    pub locators: Vec<Use>,
}

/// What is told of the marks of an outline, where this is known of each name of each block.
pub(crate) fn outline_told(
    alloc: Global,
    scopes: &Scopes,
    judged: &Vec<Vec<Judged>>,
) -> Result<Told, AllocError>
    requires { AreKnown (map (λ list. list.items) judged.now.items) (outline_view scopes.now.outline.now) }
    ensures faults { let o = outline_view scopes.now.outline.now in IfOk result (λ told. told.faults.items
        ≡ outline_faults o o.marks) }
    ensures uses { let o = outline_view scopes.now.outline.now in IfOk result (λ told. told.uses.items
        ≡ of_marks (uses_at o) (inner_marks o.marks)) }
    ensures areas { let o = outline_view scopes.now.outline.now in IfOk result (λ told. told.areas.items
        ≡ of_marks (areas_at o) (inner_marks o.marks)) }
    ensures locators { let o = outline_view scopes.now.outline.now in IfOk result (λ told. told.locators.items
        ≡ of_marks (locators_at o) (inner_marks o.marks)) }
{
    let mut faults = Vec::new(alloc);
    let mut uses = Vec::new(alloc);
    let mut areas = Vec::new(alloc);
    let mut locators = Vec::new(alloc);
    tell_outline(
        alloc,
        scopes,
        judged,
        &mut faults,
        &mut uses,
        &mut areas,
        &mut locators,
    )?;
    Ok(Told {
        faults,
        uses,
        areas,
        locators,
    })
}
