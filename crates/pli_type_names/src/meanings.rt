//! What the symbols of blocks mean, wherever their names are used.
ghost use Rattle.std.specs.Prelude.{◌≡◌, ◌≤◌, ◌+◌, ◌++◌, ◌∷◌, [], IfOk, OnOk, None, length, map, option_map, get_or};
ghost use Rattle.std.specs.List.{All};
ghost use Rattle.pli_base.specs.views.StatementView.{unit_view};
ghost use Rattle.pli_map.specs.views.DescriptionView.{description_view};
ghost use Rattle.pli_map.specs.views.ParameterView.{type_seen, type_view};
ghost use Rattle.pli_declare.specs.ResolvedUnits.{resolved_unit_of};
ghost use Rattle.pli_declare.specs.views.SymbolView.{symbol_view, symbol_kind_view};
ghost use Rattle.pli_resolve.specs.views.UnitView.{AreSymbolsOf};
ghost use Rattle.pli_type_rules.specs.NamedUnits.{block_symbols, globals_before, parameter_numbers};
ghost use Rattle.pli_type_names.specs.OnWays.{IsLevel};
ghost use Rattle.pli_type_names.specs.Seen.{entry_kept, kept_symbols, kind_kept, on_way, open_kept};
ghost use Rattle.pli_type_names.specs.views.MeaningView.{AreMeanings, meant_view, row_view};
ghost use Rattle.pli_type_names.specs.views.VariableView.{own_view};

use crate::descriptions::is_open_parameter;
use crate::entries::gives_stored;
use crate::level::StructureLevel;
use crate::levels::{part_on_way, variable_at};
use crate::order::global_places;
use crate::own_variable::OwnVariable;
use crate::own_variables::{is_parameter, own_variables};
use crate::parameters::parameter_numbers;
use crate::part::StridedPart;
use crate::place::Location;
use pli_declare::{Symbol, SymbolKey, SymbolKind};
use pli_map::{Description, ParameterType, TypeRef};
use pli_resolve::ResolvedUnit;
use std::alloc::{AllocError, Global};

/// What a symbol means, wherever its name is used.
#[derive(Drop)]
pub(crate) enum SymbolMeaning<'a> {
    Variable {
        begins: Location,
        /// What the whole variable is, which is open where a `*` stands in a parameter.
        whole: TypeRef<'a>,
        /// Whether it is a member, and not a variable of its own.
        is_member: bool,
        /// Which part of the variable it is; none where the way leads nowhere, and of what is open.
        part: Option<StridedPart<'a>>,
        /// The area that OFFSET in its declaration names.
        area: Option<SymbolKey>,
    },
    /// The procedure that is the block of this number.
    Procedure(usize),
    /// The external procedure of the entry that has this number among the globals, with its parameters, what it gives
    /// if it is a function, and the area that OFFSET in its RETURNS names.
    Entry {
        number: usize,
        parameters: Vec<TypeRef<'a>>,
        returned: Option<&'a Description>,
        area: Option<SymbolKey>,
    },
    /// The label of the statement of this number.
    Label(u32),
    Untyped,
}

/// What an entry means that has this number among the globals, and whose RETURNS names this area.
fn entry_meaning<'a>(
    alloc: Global,
    number: usize,
    described: &'a [ParameterType],
    returned: Option<&'a Description>,
    area: Option<SymbolKey>,
) -> Result<SymbolMeaning<'a>, AllocError>
    ensures { IfOk result (λ meant. meant_view meant ≡ entry_kept number (map type_view described.now)
        (option_map (λ d. description_view d.now) returned.entry) area) }
{
    if !gives_stored(returned) {
        return Ok(SymbolMeaning::Untyped);
    }
    let mut parameters = Vec::new(alloc);
    for taken in described {
        parameters.push(taken.lent())?;
    }
    Ok(SymbolMeaning::Entry {
        number,
        parameters,
        returned,
        area,
    })
}

/// The part of a variable of its own on this way, whose OFFSET names this area.
fn meant_on_way<'a>(
    alloc: Global,
    variables: &[Option<OwnVariable<'a>>],
    root: usize,
    path: &'a [usize],
    area: Option<SymbolKey>,
    levels: &mut Vec<StructureLevel<'a>>,
) -> Result<SymbolMeaning<'a>, AllocError>
    requires { All (IsLevel (map (option_map own_view) variables.now)) levels.old.items }
    ensures meaning { IfOk result (λ meant. meant_view meant
        ≡ on_way (get_or (map (option_map own_view) variables.now) root None) path.now area) }
    ensures levels { IfOk result (λ _. All (IsLevel (map (option_map own_view) variables.now)) levels.new.items) }
{
    let Some(variable) = variable_at(variables, root) else {
        return Ok(SymbolMeaning::Untyped);
    };
    let part = part_on_way(alloc, variables, root, path, levels)?;
    Ok(SymbolMeaning::Variable {
        begins: variable.begins,
        whole: TypeRef::Stated(variable.description),
        is_member: !path.is_empty(),
        part,
        area,
    })
}

/// A parameter in which a `*` stands, which is the symbol of this number, where its slot has that.
fn open_meaning<'a>(
    parameters: &[usize],
    number: usize,
    slot: usize,
    taken: &'a ParameterType,
    area: Option<SymbolKey>,
) -> SymbolMeaning<'a>
    ensures { meant_view result ≡ open_kept parameters.now number slot (type_view taken.now) area }
{
    if !is_open_parameter(taken) || !is_parameter(parameters, slot, number) {
        return SymbolMeaning::Untyped;
    }
    SymbolMeaning::Variable {
        begins: Location::Passed { slot },
        whole: taken.lent(),
        is_member: false,
        part: None,
        area,
    }
}

/// What the symbol of this number means; an entry has this number among the globals.
fn symbol_meaning<'a>(
    alloc: Global,
    parameters: &[usize],
    variables: &[Option<OwnVariable<'a>>],
    number: usize,
    global: usize,
    kind: SymbolKind<'a>,
    levels: &mut Vec<StructureLevel<'a>>,
) -> Result<SymbolMeaning<'a>, AllocError>
    requires { All (IsLevel (map (option_map own_view) variables.now)) levels.old.items }
    ensures meaning { IfOk result (λ meant. meant_view meant
        ≡ kind_kept parameters.now (map (option_map own_view) variables.now) number global
        (symbol_kind_view kind.entry)) }
    ensures levels { IfOk result (λ _. All (IsLevel (map (option_map own_view) variables.now)) levels.new.items) }
{
    match kind {
        SymbolKind::Variable { area, .. } => {
            meant_on_way(alloc, variables, number, &[], area, levels)
        }
        SymbolKind::OpenParameter { taken, slot, area } => {
            Ok(open_meaning(parameters, number, slot, taken, area))
        }
        SymbolKind::Member {
            root,
            path,
            area,
            ..
        } => meant_on_way(alloc, variables, root, path, area, levels),
        SymbolKind::Procedure { block, .. } => Ok(SymbolMeaning::Procedure(block)),
        SymbolKind::Label { statement } => Ok(SymbolMeaning::Label(statement)),
        SymbolKind::Entry {
            parameters: described,
            returned,
            area,
        } => entry_meaning(alloc, global, described, returned, area),
        SymbolKind::BuiltIn => Ok(SymbolMeaning::Untyped),
    }
}

/// What each symbol of a block means, where the blocks before have so many globals; each has its place in the order of
/// the text.
fn symbol_meanings<'a>(
    alloc: Global,
    symbols: &[Symbol<'a>],
    parameters: &[usize],
    places: &[usize],
    globals: &mut usize,
) -> Result<Vec<SymbolMeaning<'a>>, AllocError>
    requires { globals.old ≤ length places.now }
    ensures meanings { IfOk result (λ meanings. map meant_view meanings.items
        ≡ kept_symbols (record {
          parameters = parameters.now;
          places = places.now;
          globals = globals.old;
          symbols = map symbol_view symbols.now;
        })) }
    ensures counted { IfOk result (λ _. globals.new
        ≡ globals.old + globals_before 63 (map symbol_view symbols.now) (length symbols.now)) }
{
    let mut numbers = Vec::with_capacity(alloc, symbols.len())?;
    let variables = own_variables(alloc, symbols, parameters, places, globals, &mut numbers)?;
    let mut levels = Vec::new(alloc);
    let mut meanings = Vec::with_capacity(alloc, symbols.len())?;
    for (number, symbol) in symbols.iter().enumerate() {
        let global = numbers[number];
        let meaning = symbol_meaning(
            alloc,
            parameters,
            &variables,
            number,
            global,
            symbol.kind,
            &mut levels,
        )?;
        meanings.push(meaning)?;
    }
    Ok(meanings)
}

/// Puts what the symbols of the block of this number mean, where the blocks before have so many globals.
fn put_meanings<'r>(
    alloc: Global,
    resolved: &'r ResolvedUnit<'r>,
    symbols: &[Symbol<'r>],
    places: &[usize],
    block: usize,
    globals: &mut usize,
    made: &mut Vec<Vec<SymbolMeaning<'r>>>,
) -> Result<(), AllocError>
    requires placed { globals.old ≤ length places.now }
    requires symbols { map symbol_view symbols.now
        ≡ block_symbols (resolved_unit_of (unit_view resolved.now)) block }
    ensures meanings { OnOk result (map row_view made.new.items ≡ map row_view made.old.items
        ++ kept_symbols (record {
          parameters = parameter_numbers (resolved_unit_of (unit_view resolved.now)) block;
          places = places.now;
          globals = globals.old;
          symbols = block_symbols (resolved_unit_of (unit_view resolved.now)) block;
        }) ∷ []) }
    ensures counted { OnOk result (globals.new ≡ globals.old
        + globals_before 63 (block_symbols (resolved_unit_of (unit_view resolved.now)) block)
        (length (block_symbols (resolved_unit_of (unit_view resolved.now)) block))) }
{
    let parameters = parameter_numbers(resolved, block);
    let row = symbol_meanings(alloc, symbols, parameters, places, globals)?;
    made.push(row)?;
    Ok(())
}

/// What the symbols of each block of a unit mean, and of the outermost one, under the block's number.
pub(crate) fn unit_meanings<'r>(
    alloc: Global,
    resolved: &'r ResolvedUnit<'r>,
    symbols: &[Vec<Symbol<'r>>],
) -> Result<Vec<Vec<SymbolMeaning<'r>>>, AllocError>
    requires { AreSymbolsOf symbols.now (unit_view resolved.now) }
    ensures { IfOk result (λ made. AreMeanings made.items resolved.now) }
{
    let places = global_places(alloc, symbols)?;
    let mut made = Vec::with_capacity(alloc, symbols.len())?;
    let mut globals = 0;
    for (block, row) in symbols.iter().enumerate() {
        put_meanings(
            alloc,
            resolved,
            row,
            &places,
            block,
            &mut globals,
            &mut made,
        )?;
    }
    Ok(made)
}
