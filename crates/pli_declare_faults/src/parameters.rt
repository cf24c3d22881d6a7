//! The parameters of procedures.
ghost use Rattle.std.specs.Prelude.{◌≡◌, ◌++◌, ◌∷◌, [], if◌then◌else◌, not, map, get_or, slice_set, IfOk, OnOk};
ghost use Rattle.std.specs.List.{list_any};
ghost use Rattle.pli_base.specs.Name.{Name as Characters};
ghost use Rattle.pli_base.specs.Words.{same_name};
ghost use Rattle.pli_declare_outline.specs.views.OutlineView.{outline_view};
ghost use Rattle.pli_declare.specs.Tables.{entries_in};
ghost use Rattle.pli_declare_tables.specs.views.TableView.{entries_view};
ghost use Rattle.pli_declare_tables.specs.answers.Answers.{AreOf};
ghost use Rattle.pli_declare.specs.Resolution.{at_token, is_item_named, parameter_codes};
ghost use Rattle.pli_declare_faults.specs.answers.Answers.{AreKnown};
ghost use Rattle.pli_declare_faults.specs.answers.Walks.{AreParameters, code_of_parameter};

use crate::lists::no_lists;
use crate::told::tell;
use indexmap::IndexSet;
use pli_base::syntax::Identifier;
use pli_base::{Code, Fault, Name};
use pli_declare_outline::{Mark, Outline};
use pli_declare_tables::{Entity, Entry, Tables, owners_stand_before};
use pli_declare_variables::{Judged, judge};
use std::alloc::{AllocError, AllocFailed, Global};

/// The names of parameters, after others.
fn append_names(names: &mut Vec<Name>, parameters: &[Identifier]) -> Result<(), AllocError>
    ensures { OnOk result (names.new.items ≡ names.old.items ++ map (λ i. i.name) parameters.now) }
{
    for parameter in parameters {
        names.push(parameter.name)?;
    }
    Ok(())
}

/// The names of parameters, after those of their block. A region that is none has no names.
fn append_at(
    all: &mut Vec<Vec<Name>>,
    region: usize,
    parameters: &[Identifier],
) -> Result<(), AllocError>
    ensures { OnOk result (
        let before = map (λ list. list.items) all.old.items in
        map (λ list. list.items) all.new.items ≡ slice_set before region
        (get_or before region [] ++ map (λ i. i.name) parameters.now)) }
{
    let Some(names) = all.get_mut(region) else {
        return Ok(());
    };
    append_names(names, parameters)
}

/// The parameters of each block, of regions and one more.
pub(crate) fn parameters(alloc: Global, outline: &Outline) -> Result<Vec<Vec<Name>>, AllocError>
    ensures { IfOk result (λ all. AreParameters (map (λ list. list.items) all.items) (outline_view outline.now)) }
{
    let mut all = no_lists(alloc, outline.regions.len() + 1)?;
    for placed in &outline.marks {
        let Mark::Entered { procedure, region } = &placed.mark else {
            continue;
        };
        append_at(&mut all, *region, &procedure.parameters)?;
    }
    Ok(all)
}

/// What is known of each name of each block.
pub(crate) fn judged_blocks(
    alloc: Global,
    outline: &Outline,
    tables: &Tables,
    parameters: &[Vec<Name>],
) -> Result<Vec<Vec<Judged>>, AllocError>
    requires tabled { AreOf tables.now (outline_view outline.now) }
    requires parameters { AreParameters (map (λ list. list.items) parameters.now) (outline_view outline.now) }
    ensures { IfOk result (λ judged. AreKnown (map (λ list. list.items) judged.items) (outline_view outline.now)) }
{
    owners_stand_before();
    let mut judged = Vec::new(alloc);
    for (block, table) in tables.blocks.iter().enumerate() {
        judged.push(judge(alloc, &table.entries, &parameters[block])?)?;
    }
    Ok(judged)
}

/// The names of the items at level 1.
fn item_names(alloc: Global, entries: &[Entry]) -> Result<IndexSet<Name>, AllocError>
    ensures { IfOk result (λ names. (name : Characters) → list_any (same_name name) names.keys
        ≡ list_any (is_item_named name) (entries_view entries.now)) }
{
    let mut names = IndexSet::new(alloc);
    for entry in entries {
        if let (Entity::Item { .. }, None) = (&entry.entity, entry.owner) {
            names.insert(entry.identifier.name)?;
        }
    }
    Ok(names)
}

/// The names of the items at level 1 of a block. A region that is none has no items.
fn block_names(
    alloc: Global,
    outline: &Outline,
    tables: &Tables,
    block: usize,
) -> Result<IndexSet<Name>, AllocError>
    requires { AreOf tables.now (outline_view outline.now) }
    ensures { IfOk result (λ names. (name : Characters) → list_any (same_name name) names.keys
        ≡ list_any (is_item_named name) (entries_in (outline_view outline.now) block)) }
{
    match tables.blocks.get(block) {
        Some(table) => item_names(alloc, &table.entries),
        None => Ok(IndexSet::new(alloc)),
    }
}

/// The code of a parameter, by whether none before it has its name and whether an item has it.
fn parameter_code(is_new: bool, is_item: bool) -> Option<Code>
    ensures { result ≡ code_of_parameter (not is_new) is_item }
{
    if !is_new {
        Some(Code::DeclaredTwice)
    } else if !is_item {
        Some(Code::AttributesMissing)
    } else {
        None
    }
}

/// Tells the fault of a parameter of a procedure whose items at level 1 have these names, and puts its name to those
/// before the next.
#[tactic(auto, using(crate::proofs::ParameterNames::not_not))]
fn tell_parameter(
    items: &IndexSet<Name>,
    before: &mut IndexSet<Name>,
    parameter: &Identifier,
    faults: &mut Vec<Fault>,
) -> Result<(), AllocError>
    ensures before { OnOk result (before.new.keys ≡ (if list_any
        (same_name parameter.now.name) before.old.keys then before.old.keys else before.old.keys ++ parameter.now.name
        ∷ [])) }
    ensures told { OnOk result (faults.new.items ≡ faults.old.items
        ++ at_token parameter.now.at (code_of_parameter (list_any (same_name parameter.now.name) before.old.keys)
        (list_any (same_name parameter.now.name) items.now.keys))) }
{
    let is_new = before.insert(parameter.name)?;
    let code = parameter_code(is_new, items.contains(&parameter.name));
    tell(faults, parameter.at, code)
}

/// The faults of the parameters of the procedure that is a region: A2 where one before it has its name, A4 where no
/// item at level 1 of its block has it.
pub(crate) fn tell_parameters(
    alloc: Global,
    outline: &Outline,
    tables: &Tables,
    region: usize,
    parameters: &[Identifier],
    faults: &mut Vec<Fault>,
) -> Result<(), AllocError>
    requires { AreOf tables.now (outline_view outline.now) }
    ensures { OnOk result (faults.new.items ≡ faults.old.items
        ++ parameter_codes (outline_view outline.now) region [] parameters.now) }
{
    if parameters.is_empty() {
        return Ok(());
    }
    let items = block_names(alloc, outline, tables, region)?;
    let mut before = IndexSet::new(alloc);
    for parameter in parameters {
        tell_parameter(&items, &mut before, parameter, faults)?;
    }
    Ok(())
}
