//! From a unit to the resolved unit.
ghost use Rattle.std.specs.Prelude.{◌≡◌, ◌<◌, [], length, map, IfOk};
ghost use Rattle.pli_base.specs.views.StatementView.{unit_view};
ghost use Rattle.pli_declare_outline.specs.Outlines.{outline_of};
ghost use Rattle.pli_declare_outline.specs.views.OutlineView.{outline_view, regions_view};
ghost use Rattle.pli_declare.specs.Tables.{numbers_from, inner_marks, unit_entries};
ghost use Rattle.pli_declare_tables.specs.answers.Answers.{AreOf};
ghost use Rattle.pli_declare.specs.Declarations.{declared_in};
ghost use Rattle.pli_declare.specs.views.DeclarationView.{declaration_view};
ghost use Rattle.pli_declare.specs.Resolution.{outline_faults};
ghost use Rattle.pli_declare.specs.Resolved.{block_at, of_marks, uses_at, areas_at, locators_at};
ghost use Rattle.pli_declare.specs.views.BlockView.{block_view, AreMeanings};
ghost use Rattle.pli_declare.specs.views.ResolvedView.{IsResolved};
ghost use Rattle.pli_declare_faults.specs.answers.Answers.{AreKnown};
ghost use Rattle.pli_declare_faults.specs.answers.Walks.{AreParameters};

use crate::meanings::meanings;
use crate::parameters::{judged_blocks, parameters};
use crate::scopes::Scopes;
use crate::unit::{Told, outline_told};
use pli_base::statement::Procedure;
use pli_base::{Failure, Fault, Name};
use pli_declare::{BlockDeclarations, Declaration, NamedMeanings, Resolved, UnitMeanings};
use pli_declare_constructs::Nesting;
use pli_declare_found::searched_tables;
use pli_declare_outline::Outline;
use pli_declare_tables::{Tables, owners_stand_before};
use pli_declare_variables::{Judged, declare, judge};
use std::alloc::{AllocError, Global};

/// Why there is no resolved unit: all faults of declarations and uses, in the order of their tokens, or that memory was
/// refused.
pub type ResolveError = Failure<Vec<Fault>>;

/// What a region declares, where no declaration has a fault.
fn declared_block<'a>(
    alloc: Global,
    outline: &Outline<'a>,
    tables: &Tables<'a>,
    parameters: &[Vec<Name>],
    judged: &[Vec<Judged>],
    block: usize,
) -> Result<BlockDeclarations<'a>, AllocError>
    requires tabled { AreOf tables.now (outline_view outline.now) }
    requires faultless { outline_faults (outline_view outline.now) (outline_view outline.now).marks ≡ [] }
    requires parameters { AreParameters (map (λ list. list.items) parameters.now) (outline_view outline.now) }
    requires known { AreKnown (map (λ list. list.items) judged.now) (outline_view outline.now) }
    requires within { block < length outline.now.regions.items }
    ensures { IfOk result (λ made. block_view made ≡ block_at (outline_view outline.now) block) }
{
    owners_stand_before();
    let names = &parameters[block];
    let known = &judged[block];
    let declarations = declare(alloc, &tables.blocks[block].entries, names, known)?;
    Ok(BlockDeclarations {
        parameters: Vec::from_slice(alloc, names)?,
        declarations,
    })
}

/// What each region declares, where no declaration has a fault.
fn blocks<'a>(
    alloc: Global,
    outline: &Outline<'a>,
    tables: &Tables<'a>,
    parameters: &[Vec<Name>],
    judged: &[Vec<Judged>],
) -> Result<Vec<BlockDeclarations<'a>>, AllocError>
    requires tabled { AreOf tables.now (outline_view outline.now) }
    requires parameters { AreParameters (map (λ list. list.items) parameters.now) (outline_view outline.now) }
    requires known { AreKnown (map (λ list. list.items) judged.now) (outline_view outline.now) }
    requires faultless { outline_faults (outline_view outline.now) (outline_view outline.now).marks ≡ [] }
    ensures { IfOk result (λ blocks. map block_view blocks.items
        ≡ map (block_at (outline_view outline.now)) (numbers_from 0 (length (outline_view outline.now).regions))) }
{
    let mut blocks = Vec::with_capacity(alloc, outline.regions.len())?;
    for block in 0..outline.regions.len() {
        let declared = declared_block(alloc, outline, tables, parameters, judged, block)?;
        blocks.push(declared)?;
    }
    Ok(blocks)
}

/// What the outermost block declares: the unit's own name, where its heading has no fault.
fn outermost<'a>(
    alloc: Global,
    outline: &Outline<'a>,
    tables: &Tables<'a>,
) -> Result<Vec<Declaration<'a>>, AllocError>
    requires tabled { AreOf tables.now (outline_view outline.now) }
    requires faultless { outline_faults (outline_view outline.now) (outline_view outline.now).marks ≡ [] }
    ensures { IfOk result (λ declarations. map declaration_view declarations.items
        ≡ declared_in (unit_entries (outline_view outline.now).marks) []) }
{
    let entries = tables.unit.entries.as_slice();
    let judged = judge(alloc, entries, &[])?;
    declare(alloc, entries, &[], &judged)
}

/// What names mean, by their tokens.
fn unit_meanings(alloc: Global, told: &Told) -> Result<UnitMeanings, AllocError>
    ensures uses { IfOk result (λ meanings. AreMeanings meanings.uses told.now.uses.items) }
    ensures areas { IfOk result (λ meanings. AreMeanings meanings.named.areas told.now.areas.items) }
    ensures locators { IfOk result (λ meanings. AreMeanings meanings.named.locators told.now.locators.items) }
{
    Ok(UnitMeanings {
        uses: meanings(alloc, &told.uses)?,
        named: NamedMeanings {
            areas: meanings(alloc, &told.areas)?,
            locators: meanings(alloc, &told.locators)?,
        },
    })
}

/// The resolved unit of a tree without faults, by its outline and what is told of its names.
#[tactic(auto, unfolding(pli_declare::specs::Resolved::resolved_of))]
fn resolved<'a>(
    alloc: Global,
    unit: &'a Procedure,
    scopes: &Scopes<'_, 'a>,
    parameters: &[Vec<Name>],
    judged: &[Vec<Judged>],
    told: &Told,
) -> Result<Resolved<'a>, AllocError>
    requires outlined { outline_view scopes.now.outline.now ≡ outline_of (unit_view unit.now) }
    requires faultless { outline_faults (outline_view scopes.now.outline.now)
        (outline_view scopes.now.outline.now).marks ≡ [] }
    requires parameters { AreParameters (map (λ list. list.items) parameters.now)
        (outline_view scopes.now.outline.now) }
    requires known { AreKnown (map (λ list. list.items) judged.now) (outline_view scopes.now.outline.now) }
    requires uses { told.now.uses.items ≡ of_marks (uses_at (outline_view scopes.now.outline.now))
        (inner_marks (outline_view scopes.now.outline.now).marks) }
    requires areas { told.now.areas.items ≡ of_marks (areas_at (outline_view scopes.now.outline.now))
        (inner_marks (outline_view scopes.now.outline.now).marks) }
    requires locators { told.now.locators.items ≡ of_marks (locators_at (outline_view scopes.now.outline.now))
        (inner_marks (outline_view scopes.now.outline.now).marks) }
    ensures { IfOk result (λ r. r ≡ unit.now) }
{
    let regions = Vec::from_slice(alloc, &scopes.outline.regions)?;
    let outermost = outermost(alloc, scopes.outline, scopes.tables)?;
    let blocks = blocks(alloc, scopes.outline, scopes.tables, parameters, judged)?;
    let meanings = unit_meanings(alloc, told)?;
    Ok(Resolved::new(unit, regions, outermost, blocks, meanings))
}

/// The resolved unit of a tree, or all its faults, by its outline and the tables of what its blocks declare.
#[tactic(auto, unfolding(pli_declare::specs::Resolution::resolution_faults))]
fn resolve_told<'a>(
    alloc: Global,
    unit: &'a Procedure,
    outline: &Outline<'a>,
    nesting: &Nesting,
    tables: &Tables<'a>,
) -> Result<Resolved<'a>, ResolveError>
    requires outlined { outline_view outline.now ≡ outline_of (unit_view unit.now) }
    requires nested { nesting.now ≡ regions_view outline.now.regions.items }
    requires tabled { AreOf tables.now (outline_view outline.now) }
    ensures { IsResolved result (unit_view unit.now) }
{
    let scopes = Scopes {
        outline,
        nesting,
        tables,
    };
    let parameters = parameters(alloc, outline)?;
    let judged = judged_blocks(alloc, outline, tables, &parameters)?;
    let told = outline_told(alloc, &scopes, &judged)?;
    if !told.faults.is_empty() {
        return Err(ResolveError::Fault(told.faults));
    }
    Ok(resolved(alloc, unit, &scopes, &parameters, &judged, &told)?)
}

/// The resolved unit of a tree whose outline is given, or all faults of its declarations and uses: for each declared
/// name and each reference the least code, in the order of their tokens.
pub fn resolve<'a>(
    alloc: Global,
    unit: &'a Procedure,
    outline: &Outline<'a>,
) -> Result<Resolved<'a>, ResolveError>
    requires { outline_view outline.now ≡ outline_of (unit_view unit.now) }
    ensures { IsResolved result (unit_view unit.now) }
{
    let nesting = Nesting::new(alloc, &outline.regions)?;
    let tables = searched_tables(alloc, outline, &nesting)?;
    let told = resolve_told(alloc, unit, outline, &nesting, &tables);
    drop(tables);
    told
}
