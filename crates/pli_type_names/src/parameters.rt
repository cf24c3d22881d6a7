//! The parameters of blocks, and what they give.
ghost use Rattle.std.specs.Prelude.{◌≡◌, IfOk, map, option_map};
ghost use Rattle.std.specs.Option.{unwrap_or};
ghost use Rattle.pli_base.specs.views.StatementView.{unit_view};
ghost use Rattle.pli_map.specs.Description as described;
ghost use Rattle.pli_map.specs.ParameterTypes as types;
ghost use Rattle.pli_map.specs.views.DescriptionView.{description_view};
ghost use Rattle.pli_map.specs.views.ParameterView.{type_seen};
ghost use Rattle.pli_declare.specs.ResolvedUnits.{resolved_unit_of, symbol_at};
ghost use Rattle.pli_declare.specs.views.SymbolView.{symbol_kind_view};
ghost use Rattle.pli_type_rules.specs.NamedUnits as units;
ghost use Rattle.pli_type_names.specs.BlockEntries as spec;
ghost use Rattle.pli_type_rules.specs.NamedUnits.{type_in, parameters_of, returned_area_of, returned_of};

use pli_declare::{ResolvedBlockKind, SymbolKey, SymbolKind};
use pli_map::{Description, TypeRef};
use pli_resolve::ResolvedUnit;
use std::alloc::{AllocError, Global};

/// Whether a block is a procedure.
fn is_procedure(kind: ResolvedBlockKind) -> bool
    ensures { result ≡ units.is_procedure kind }
{
    matches!(kind, ResolvedBlockKind::Procedure)
}

/// The numbers of the parameters of a block among its symbols, each under its slot.
pub(crate) fn parameter_numbers<'r>(resolved: &'r ResolvedUnit<'r>, number: usize) -> &'r [usize]
    ensures { result.now ≡ units.parameter_numbers (resolved_unit_of (unit_view resolved.now)) number }
{
    let Some(block) = resolved.block(number) else {
        return &[];
    };
    if !is_procedure(block.kind) {
        return &[];
    }
    block.parameters
}

/// What a variable of its own is, or a parameter in which a `*` stands; none of anything else.
fn variable_type<'r>(kind: SymbolKind<'r>) -> Option<TypeRef<'r>>
    ensures { unwrap_or (option_map type_seen result) (types.Stated described.Pointer)
        ≡ spec.type_with (symbol_kind_view kind.entry) }
{
    match kind {
        SymbolKind::Variable { description, .. } => Some(TypeRef::Stated(description)),
        SymbolKind::OpenParameter { taken, .. } => Some(taken.lent()),
        _ => None,
    }
}

/// What the parameter is that is the symbol under a key; none where the symbol is no variable.
fn parameter_at<'r>(resolved: &'r ResolvedUnit<'r>, key: SymbolKey) -> Option<TypeRef<'r>>
    ensures { unwrap_or (option_map type_seen result) (types.Stated described.Pointer)
        ≡ type_in (symbol_at (resolved_unit_of (unit_view resolved.now)) key) }
{
    let Some(symbol) = resolved.symbol(key) else {
        return None;
    };
    variable_type(symbol.kind)
}

/// What the parameters of a block are; what is undescribed stands for one that is no variable, of which a unit without
/// faults has none.
pub(crate) fn parameters_of<'r>(
    alloc: Global,
    resolved: &'r ResolvedUnit<'r>,
    undescribed: &'r Description,
    block: usize,
) -> Result<Vec<TypeRef<'r>>, AllocError>
    requires { description_view undescribed.now ≡ described.Pointer }
    ensures { IfOk result (λ made. map type_seen made.items
        ≡ parameters_of (resolved_unit_of (unit_view resolved.now)) block) }
{
    let mut made = Vec::new(alloc);
    let numbers = parameter_numbers(resolved, block);
    for number in numbers {
        let key = SymbolKey {
            block,
            number: *number,
        };
        made.push(parameter_at(resolved, key).unwrap_or(TypeRef::Stated(undescribed)))?;
    }
    Ok(made)
}

/// What a procedure gives.
fn returned_by<'r>(kind: SymbolKind<'r>) -> Option<&'r Description>
    ensures { option_map (λ d. description_view d.now) result ≡ spec.returned_with (symbol_kind_view kind.entry) }
{
    let SymbolKind::Procedure { returned, .. } = kind else {
        return None;
    };
    returned
}

/// The symbol of a procedure's name, if a block is one.
fn name_of(resolved: &ResolvedUnit<'_>, number: usize) -> Option<SymbolKey>
    ensures { result ≡ units.name_of (resolved_unit_of (unit_view resolved.now)) number }
{
    let block = resolved.block(number)?;
    if !is_procedure(block.kind) {
        return None;
    }
    block.name
}

/// What a block gives, if it is that of a function.
pub(crate) fn returned_of<'r>(
    resolved: &'r ResolvedUnit<'r>,
    number: usize,
) -> Option<&'r Description>
    ensures { option_map (λ d. description_view d.now) result
        ≡ returned_of (resolved_unit_of (unit_view resolved.now)) number }
{
    let key = name_of(resolved, number)?;
    let Some(symbol) = resolved.symbol(key) else {
        return None;
    };
    returned_by(symbol.kind)
}

/// The area that OFFSET in the RETURNS of a procedure names; none of anything else.
fn area_returned_by(kind: SymbolKind<'_>) -> Option<SymbolKey>
    ensures { result ≡ spec.area_with (symbol_kind_view kind.entry) }
{
    let SymbolKind::Procedure { area, .. } = kind else {
        return None;
    };
    area
}

/// The area that OFFSET names in the RETURNS of a block, if it is that of a function.
pub(crate) fn returned_area_of(resolved: &ResolvedUnit<'_>, number: usize) -> Option<SymbolKey>
    ensures { result ≡ returned_area_of (resolved_unit_of (unit_view resolved.now)) number }
{
    let key = name_of(resolved, number)?;
    let Some(symbol) = resolved.symbol(key) else {
        return None;
    };
    area_returned_by(symbol.kind)
}
