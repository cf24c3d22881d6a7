//! What is found by tokens, by the numbers of statements, and by regions.
ghost use Rattle.std.specs.Prelude.{◌≡◌, ◌++◌, ℕ, nat_eq, map, IfOk, OnOk};
ghost use Rattle.std.specs.List.{flat_map};
ghost use Rattle.indexmap.specs.IndexMap.{get};
ghost use Rattle.pli_declare.specs.views.BlockView.{block_view};
ghost use Rattle.pli_declare_outline.specs.views.OutlineView.{mark_view, marks_view};
ghost use Rattle.pli_declare.specs.views.DeclarationView.{declaration_view, kind_view};
ghost use Rattle.pli_declare.specs.Symbols.{found_after, found_in};
ghost use Rattle.pli_declare.specs.ResolvedUnits as spec;

use indexmap::IndexMap;
use pli_declare::{
    BlockDeclarations, BuiltInFunction, Declaration, DeclaredKind, SymbolKey, function_named,
};
use pli_declare_outline::{Mark, PlacedMark, StatementPlace};
use pli_resolve::StatementMaps;
use std::alloc::{AllocError, Global};

/// Notes the built-in function that a mark names.
fn note_function(
    functions: &mut IndexMap<u32, BuiltInFunction>,
    mark: &Mark,
) -> Result<(), AllocError>
    ensures { OnOk result ((at : ℕ) → get nat_eq functions.new at
        ≡ found_after (get nat_eq functions.old at) (spec.functions_at (mark_view mark.now)) at) }
{
    let Mark::Used(names) = mark else {
        return Ok(());
    };
    let [name] = names.as_slice() else {
        return Ok(());
    };
    if let Some(function) = function_named(name.name) {
        functions.insert(name.at, function)?;
    }
    Ok(())
}

/// The built-in functions that marks name, by their tokens.
pub(crate) fn functions(
    alloc: Global,
    marks: &[PlacedMark],
) -> Result<IndexMap<u32, BuiltInFunction>, AllocError>
    ensures { IfOk result (λ functions. (at : ℕ) → get nat_eq functions at
        ≡ found_in (spec.functions_in (marks_view marks.now)) at) }
{
    let mut functions = IndexMap::new(alloc);
    for placed in marks {
        note_function(&mut functions, &placed.mark)?;
    }
    Ok(functions)
}

/// Notes the statement of a label.
fn note_label(labels: &mut IndexMap<u32, u32>, place: StatementPlace) -> Result<(), AllocError>
    ensures { OnOk result ((at : ℕ) → get nat_eq labels.new at
        ≡ found_after (get nat_eq labels.old at) (spec.label_statement place) at) }
{
    let label = place.label;
    if let Some(label) = label {
        labels.insert(label.at, place.number)?;
    }
    Ok(())
}

/// The statements of labels, by the labels' tokens.
fn labels(alloc: Global, places: &[StatementPlace]) -> Result<IndexMap<u32, u32>, AllocError>
    ensures { IfOk result (λ labels. (at : ℕ) → get nat_eq labels at
        ≡ found_in (flat_map spec.label_statement places.now) at) }
{
    let mut labels = IndexMap::new(alloc);
    for place in places {
        note_label(&mut labels, *place)?;
    }
    Ok(labels)
}

/// The regions of statements, by their numbers.
fn statement_regions(
    alloc: Global,
    places: &[StatementPlace],
) -> Result<IndexMap<u32, usize>, AllocError>
    ensures { IfOk result (λ regions. (number : ℕ) → get nat_eq regions number
        ≡ found_in (map (λ p. (p.number, p.region)) places.now) number) }
{
    let mut regions = IndexMap::new(alloc);
    for place in places {
        regions.insert(place.number, place.region)?;
    }
    Ok(regions)
}

/// Where statements and their labels stand.
pub(crate) fn statement_maps(
    alloc: Global,
    places: &[StatementPlace],
) -> Result<StatementMaps, AllocError>
    ensures regions { IfOk result (λ maps. (number : ℕ) → get nat_eq maps.regions number
        ≡ found_in (map (λ p. (p.number, p.region)) places.now) number) }
    ensures labels { IfOk result (λ maps. (at : ℕ) → get nat_eq maps.labels at
        ≡ found_in (flat_map spec.label_statement places.now) at) }
{
    Ok(StatementMaps {
        regions: statement_regions(alloc, places)?,
        labels: labels(alloc, places)?,
    })
}

/// Notes the symbol of a procedure's name.
fn note_procedure(
    procedures: &mut IndexMap<usize, SymbolKey>,
    key: SymbolKey,
    kind: &DeclaredKind,
) -> Result<(), AllocError>
    ensures { OnOk result ((region : ℕ) → get nat_eq procedures.new region
        ≡ found_after (get nat_eq procedures.old region) (spec.procedure_at key (kind_view kind.now)) region) }
{
    if let DeclaredKind::Procedure { region, .. } = kind {
        procedures.insert(*region, key)?;
    }
    Ok(())
}

/// Notes the symbols of procedures' names in a block.
fn note_procedures(
    procedures: &mut IndexMap<usize, SymbolKey>,
    block: usize,
    declarations: &[Declaration],
) -> Result<(), AllocError>
    ensures { OnOk result ((region : ℕ) → get nat_eq procedures.new region
        ≡ found_after (get nat_eq procedures.old region) (spec.procedures_from block 0
        (map declaration_view declarations.now)) region) }
{
    for (number, declaration) in declarations.iter().enumerate() {
        note_procedure(procedures, SymbolKey { block, number }, &declaration.kind)?;
    }
    Ok(())
}

/// Notes the symbols of the names of the procedures that a region declares.
fn note_block(
    procedures: &mut IndexMap<usize, SymbolKey>,
    numbers: &[usize],
    region: usize,
    block: &BlockDeclarations,
) -> Result<(), AllocError>
    ensures { OnOk result ((k : ℕ) → get nat_eq procedures.new k
        ≡ found_after (get nat_eq procedures.old k) (spec.block_procedures numbers.now region
        (block_view block.now)) k) }
{
    let number = numbers.get(region).copied().unwrap_or(0);
    note_procedures(procedures, number, &block.declarations)
}

/// Notes the symbols of the names of the procedures that the outermost block and each region declare.
#[tactic(auto, using(pli_resolve::proofs::LookUps::found_then))]
fn note_blocks(
    procedures: &mut IndexMap<usize, SymbolKey>,
    numbers: &[usize],
    outermost: usize,
    unit: &[Declaration],
    blocks: &[BlockDeclarations],
) -> Result<(), AllocError>
    ensures { OnOk result ((region : ℕ) → get nat_eq procedures.new region
        ≡ found_after (get nat_eq procedures.old region) (spec.procedures_from outermost 0
        (map declaration_view unit.now) ++ spec.procedures_of numbers.now 0 (map block_view blocks.now)) region) }
{
    note_procedures(procedures, outermost, unit)?;
    for (region, block) in blocks.iter().enumerate() {
        note_block(procedures, numbers, region, block)?;
    }
    Ok(())
}

/// The symbols of procedures' names, by the regions of the procedures.
pub(crate) fn procedures(
    alloc: Global,
    numbers: &[usize],
    outermost: usize,
    unit: &[Declaration],
    blocks: &[BlockDeclarations],
) -> Result<IndexMap<usize, SymbolKey>, AllocError>
    ensures { IfOk result (λ procedures. (region : ℕ) → get nat_eq procedures region
        ≡ found_in (spec.procedures_from outermost 0 (map declaration_view unit.now)
        ++ spec.procedures_of numbers.now 0 (map block_view blocks.now)) region) }
{
    let mut procedures = IndexMap::new(alloc);
    note_blocks(&mut procedures, numbers, outermost, unit, blocks)?;
    Ok(procedures)
}
