//! What the variables of a unit are made from.
ghost use Rattle.std.specs.Prelude.{◌≡◌, ℕ, List, IfOk, map, option_map, slice_get};
ghost use Rattle.std.specs.List.{All};
ghost use Rattle.pli_base.specs.views.StatementView.{unit_view};
ghost use Rattle.pli_declare_outline.specs.Outlines.{PlacedMark};
ghost use Rattle.pli_declare.specs.ResolvedUnits.{resolved_unit_of};
ghost use Rattle.pli_resolve.specs.views.UnitView.{AreSymbolsOf};
ghost use Rattle.pli_type_rules.specs.NamedUnits as units;
ghost use Rattle.pli_type_rules.specs.NamedUnits.{all_globals, block_globals, is_based, named_unit, templates_of};
ghost use Rattle.pli_type_templates.specs.Groups.{is_such};
ghost use Rattle.pli_type_templates.specs.ItemNames.{AreOfItems, HasFewMarks, HasFewRegions};
ghost use Rattle.pli_type_templates.specs.views.BlockView.{AreKnown, block_symbols};
ghost use Rattle.pli_type_templates.specs.views.NumberView.{marks_of};
ghost use Rattle.pli_type_templates.specs.views.PlacedView.{HasGlobalItem, placed_view};
ghost use Rattle.pli_type_templates.specs.views.UnitView.{automatic_at, based_at, row_view};
ghost use Rattle.pli_type_tree.specs.views.GlobalView.{globals_view};
ghost use Rattle.pli_type_tree.specs.views.TemplateView.{groups_view, template_view};

use crate::block_names::{BlockNames, block_names};
use crate::global_groups::groups;
use crate::globals::put_globals;
use crate::groups::lifetime_groups;
use crate::item_numbers::ItemNumbers;
use crate::lifetime::Lifetime;
use crate::placed_globals::{PlacedGlobal, sort};
use pli_declare::{Symbol, SymbolKind};
use pli_resolve::ResolvedUnit;
use pli_type_tree::{GlobalGroup, InitialScalar, Template, VariableGroup};
use std::alloc::{AllocError, Global};
use std::mem;

/// What the variables of a unit are made from, in the order of the text.
#[derive(Drop)]
pub struct UnitTemplates {
    /// The AUTOMATIC variables of each block, under the block's number.
    pub automatic: Vec<Vec<VariableGroup>>,
    /// The BASED variables of each block, under the block's number.
    pub based: Vec<Vec<VariableGroup>>,
    /// The globals of all blocks, in the order of their names in the text.
    pub globals: Vec<GlobalGroup>,
}

impl UnitTemplates {
    /// Takes what the AUTOMATIC variables of a block are made from; nothing is left there.
    pub fn take(&mut self, alloc: Global, block: usize) -> Vec<VariableGroup>
        ensures taken { groups_view result.items ≡ automatic_at self.old block }
        ensures others { (k : ℕ) → (k ≡ block → ⊥) → automatic_at self.new k ≡ automatic_at self.old k }
        ensures based { self.new.based ≡ self.old.based }
        ensures globals { self.new.globals ≡ self.old.globals }
    {
        let nothing = Vec::new(alloc);
        if block >= self.automatic.len() {
            return nothing;
        }
        mem::replace(&mut self.automatic[block], nothing)
    }

    /// A copy of what the BASED variable of this number among those of a block is made from, if there is one. Takes
    /// time for the groups of the block's BASED variables, and for the copy.
    pub fn based_copy(
        &self,
        alloc: Global,
        block: usize,
        number: usize,
    ) -> Result<Option<Template>, AllocError>
        ensures { IfOk result (λ made. option_map template_view made ≡ slice_get (based_at self.now block) number) }
    {
        let Some(groups) = self.based.get(block) else {
            return Ok(None);
        };
        match template_in(groups, number) {
            Some(template) => Ok(Some(template_copy(alloc, template)?)),
            None => Ok(None),
        }
    }
}

/// What the variable of this number in groups is made from, if there is one.
#[tactic(auto, using(crate::proofs::GroupsFound::group_here, crate::proofs::GroupsFound::group_past, crate::proofs::GroupsFound::groups_end))]
fn template_in(groups: &[VariableGroup], number: usize) -> Option<&Template>
    ensures { option_map (λ t. template_view t.now) result ≡ slice_get (groups_view groups.now) number }
{
    let mut left = number;
    for group in groups {
        if left < group.count {
            return Some(&group.template);
        }
        left -= group.count;
    }
    None
}

/// A copy of a template, with its initial values.
fn template_copy(alloc: Global, template: &Template) -> Result<Template, AllocError>
    ensures { IfOk result (λ made. template_view made ≡ template_view template.now) }
{
    let mut scalars = Vec::new(alloc);
    for scalar in &template.initial {
        scalars.push(InitialScalar {
            offset: scalar.offset,
            value: scalar.value.copy(alloc)?,
        })?;
    }
    Ok(Template {
        description: template.description.copy(alloc)?,
        initial: scalars,
    })
}

/// What the variables of a lifetime of each block are made from.
fn lifetime_rows<'a>(
    alloc: Global,
    items: &ItemNumbers<'_>,
    wanted: Lifetime,
    blocks: &'a [BlockNames<'a>],
) -> Result<Vec<Vec<VariableGroup>>, AllocError>
    requires known { All AreKnown blocks.now }
    requires items { All (All (AreOfItems (marks_of items.now))) (map block_symbols blocks.now) }
    ensures { IfOk result (λ made. map row_view made.items ≡ map (templates_of (is_such wanted))
        (map block_symbols blocks.now)) }
{
    let mut made = Vec::new(alloc);
    for block in blocks {
        made.push(lifetime_groups(alloc, items, wanted, block.symbols, &block.members)?)?;
    }
    Ok(made)
}

/// The globals of blocks, block after block.
fn unit_globals<'a>(
    alloc: Global,
    blocks: &'a [BlockNames<'a>],
) -> Result<Vec<PlacedGlobal<'a>>, AllocError>
    requires { All AreKnown blocks.now }
    ensures globals { IfOk result (λ made. map placed_view made.items
        ≡ block_globals 63 (map block_symbols blocks.now)) }
    ensures items { IfOk result (λ made. (marks : List PlacedMark) →
        All (All (AreOfItems marks)) (map block_symbols blocks.now)
        → All (HasGlobalItem marks) made.items) }
{
    let mut globals = Vec::new(alloc);
    for block in blocks {
        put_globals(block.symbols, &block.members, &mut globals)?;
    }
    Ok(globals)
}

/// The globals of blocks, in the order of their names in the text.
fn sorted_groups<'a>(
    alloc: Global,
    items: &ItemNumbers<'_>,
    blocks: &'a [BlockNames<'a>],
) -> Result<Vec<GlobalGroup>, AllocError>
    requires known { All AreKnown blocks.now }
    requires items { All (All (AreOfItems (marks_of items.now))) (map block_symbols blocks.now) }
    ensures { IfOk result (λ made. globals_view made.items ≡ all_globals 63 (map block_symbols blocks.now)) }
{
    let mut globals = unit_globals(alloc, blocks)?;
    sort(&mut globals)?;
    groups(alloc, items, &globals)
}

/// Whether it may be asked which item of DECLARE a symbol is of.
fn asks_for_item(symbol: &Symbol<'_>) -> bool {
    match symbol.kind {
        SymbolKind::Variable { initial, .. } => !initial.is_empty(),
        SymbolKind::Entry { .. } => true,
        _ => false,
    }
}

/// Whether it may be asked which item of DECLARE a symbol of these blocks is of: of variables with initial values, and
/// of entries.
fn ask_for_items(blocks: &[BlockNames<'_>]) -> bool {
    for block in blocks {
        for symbol in block.symbols {
            if asks_for_item(symbol) {
                return true;
            }
        }
    }
    false
}

/// What the AUTOMATIC and BASED variables of each block of a unit with these symbols are made from, and its globals
/// (X3.74; the limits own): variables of numbers, strings and locators alone and areas, of at most 1,000,000 bytes
/// each. Initial values stand in the order of the text, fitted to their scalars. Those of an item of DECLARE are made
/// once for its names that stand in a row. Takes time for the symbols, for the marks where an item is asked for, for
/// the values that are kept, and for sorting the globals.
pub fn templates<'a>(
    alloc: Global,
    resolved: &'a ResolvedUnit<'a>,
    symbols: &'a [Vec<Symbol<'a>>],
) -> Result<UnitTemplates, AllocError>
    requires { AreSymbolsOf symbols.now (unit_view resolved.now) }
    ensures automatic { IfOk result (λ made. (block : ℕ) → automatic_at made block
        ≡ (named_unit 63 (resolved_unit_of (unit_view resolved.now))).automatic block) }
    ensures based { IfOk result (λ made. (block : ℕ) → based_at made block
        ≡ templates_of (is_based 63) (units.block_symbols (resolved_unit_of (unit_view resolved.now)) block)) }
    ensures globals { IfOk result (λ made. globals_view made.globals.items
        ≡ (named_unit 63 (resolved_unit_of (unit_view resolved.now))).globals) }
    ensures regions { IfOk result (λ _. HasFewRegions (unit_view resolved.now)) }
    ensures marks { IfOk result (λ _. HasFewMarks (unit_view resolved.now)) }
{
    let blocks = block_names(alloc, symbols)?;
    let are_asked_for = ask_for_items(&blocks);
    let items = ItemNumbers::of(alloc, resolved.unit(), resolved.outline(), are_asked_for)?;
    let automatic = lifetime_rows(alloc, &items, Lifetime::Activation, &blocks)?;
    let based = lifetime_rows(alloc, &items, Lifetime::Allocation, &blocks)?;
    let globals = sorted_groups(alloc, &items, &blocks)?;
    Ok(UnitTemplates {
        automatic,
        based,
        globals,
    })
}
