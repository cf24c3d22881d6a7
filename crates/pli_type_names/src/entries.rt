//! What is found once for each block of a unit, for the procedures among them.
ghost use Rattle.std.specs.Prelude.{◌≡◌, IfOk, length, map, option_map, slice_get};
ghost use Rattle.pli_base.specs.views.StatementView.{unit_view};
ghost use Rattle.pli_map.specs.Description as described;
ghost use Rattle.pli_map.specs.views.DescriptionView.{description_view};
ghost use Rattle.pli_map.specs.views.ParameterView.{type_seen};
ghost use Rattle.pli_declare.specs.ResolvedUnits.{resolved_unit_of};
ghost use Rattle.pli_resolve.specs.views.UnitView.{resolved_block_view};
ghost use Rattle.pli_type_rules.specs.NamedUnits as units;
ghost use Rattle.pli_type_names.specs.BlockEntries.{area_of, entry_at, parameters_in, returned_in};
ghost use Rattle.pli_type_names.specs.views.EntryView.{AreEntries, entry_view};

use crate::descriptions::is_valued;
use crate::parameters::{parameters_of, returned_area_of, returned_of};
use pli_declare::{ResolvedBlockKind, SymbolKey};
use pli_map::{Description, TypeRef};
use pli_resolve::{ResolvedBlock, ResolvedUnit};
use std::alloc::{AllocError, Global};

/// What is found once for a block.
#[derive(Drop)]
pub(crate) struct BlockEntry<'a> {
    /// Whether it is a procedure whose value, if it gives one, a variable could hold.
    pub is_named: bool,
    /// The block that it stands in.
    pub outer: Option<usize>,
    /// What its parameters are.
    pub parameters: Vec<TypeRef<'a>>,
    /// What it gives, if it is that of a function.
    pub returned: Option<&'a Description>,
    /// The area that OFFSET in its RETURNS names.
    pub area: Option<SymbolKey>,
}

/// Whether a variable could hold what a procedure gives, if it gives anything.
pub(crate) fn gives_stored(returned: Option<&Description>) -> bool
    ensures { result ≡ units.gives_stored 63 (option_map (λ d. description_view d.now) returned.entry) }
{
    match returned {
        None => true,
        Some(returned) => is_valued(returned),
    }
}

/// What is found for the block of this number.
fn block_entry<'r>(
    alloc: Global,
    resolved: &'r ResolvedUnit<'r>,
    undescribed: &'r Description,
    number: usize,
    block: ResolvedBlock<'r>,
) -> Result<BlockEntry<'r>, AllocError>
    requires { description_view undescribed.now ≡ described.Pointer }
    ensures { IfOk result (λ entry. entry_view entry
        ≡ entry_at (resolved_unit_of (unit_view resolved.now)) number (resolved_block_view block.entry)) }
{
    let parameters = parameters_of(alloc, resolved, undescribed, number)?;
    let returned = returned_of(resolved, number);
    let is_procedure = matches!(block.kind, ResolvedBlockKind::Procedure);
    Ok(BlockEntry {
        is_named: is_procedure && gives_stored(returned),
        outer: block.outer,
        parameters,
        returned,
        area: returned_area_of(resolved, number),
    })
}

/// What is found for each block of a unit, under its number.
pub(crate) fn block_entries<'r>(
    alloc: Global,
    resolved: &'r ResolvedUnit<'r>,
    undescribed: &'r Description,
) -> Result<Vec<BlockEntry<'r>>, AllocError>
    requires { description_view undescribed.now ≡ described.Pointer }
    ensures { IfOk result (λ made. AreEntries made.items resolved.now) }
{
    let mut made = Vec::new(alloc);
    while let Some(block) = resolved.block(made.len()) {
        let entry = block_entry(alloc, resolved, undescribed, made.len(), block)?;
        made.push(entry)?;
    }
    Ok(made)
}

/// What the parameters of the block of this number are; none where there is no such block.
pub(crate) fn parameters_at<'n, 'a>(
    entries: &'n [BlockEntry<'a>],
    none: &'n [TypeRef<'a>],
    block: usize,
) -> &'n [TypeRef<'a>]
    requires { length none.now ≡ 0 }
    ensures { map type_seen result.now ≡ parameters_in (slice_get (map entry_view entries.now) block) }
{
    let Some(entry) = entries.get(block) else {
        return none;
    };
    &entry.parameters
}

/// What the block of this number gives, if there is one and it is that of a function.
pub(crate) fn returned_at<'a>(entries: &[BlockEntry<'a>], block: usize) -> Option<&'a Description>
    ensures { option_map (λ d. description_view d.now) result
        ≡ returned_in (slice_get (map entry_view entries.now) block) }
{
    let Some(entry) = entries.get(block) else {
        return None;
    };
    entry.returned
}

/// The area that OFFSET in the RETURNS of the block of this number names, if there is one.
pub(crate) fn area_at(entries: &[BlockEntry<'_>], block: usize) -> Option<SymbolKey>
    ensures { result ≡ area_of (slice_get (map entry_view entries.now) block) }
{
    let Some(entry) = entries.get(block) else {
        return None;
    };
    entry.area
}
