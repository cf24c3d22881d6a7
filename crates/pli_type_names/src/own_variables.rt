//! The variables of their own among the symbols of a block, and where each begins.
ghost use Rattle.std.specs.Prelude.{◌≡◌, ◌≤◌, ◌<◌, ◌+◌, ◌++◌, IfOk, get_or, length, map, option_map, true};
ghost use Rattle.pli_map.specs.views.DescriptionView.{description_view};
ghost use Rattle.pli_declare.specs.views.SymbolView.{symbol_view, symbol_kind_view};
ghost use Rattle.pli_type_rules.specs.NamedUnits as units;
ghost use Rattle.pli_type_rules.specs.NamedUnits.{globals_before, is_automatic, is_based, one_global, one_such};
ghost use Rattle.pli_type_names.specs.Numbered.{each_from};
ghost use Rattle.pli_type_names.specs.OwnVariables as spec;
ghost use Rattle.pli_type_names.specs.OwnVariables.{based_of, globals_of, own_after, place_after, slots_of};
ghost use Rattle.pli_type_names.specs.views.VariableView.{own_view};

use crate::descriptions::{is_stored, is_valued};
use crate::order::under;
use crate::own_variable::OwnVariable;
use crate::place::Location;
use pli_declare::{StorageClass, Symbol, SymbolKind};
use pli_map::Description;
use std::alloc::{AllocError, Global};

/// The first slot of a block's activation that is free, how many globals there are before, block after block, and how
/// many BASED variables the block has so far.
#[derive(Clone, Copy)]
struct Free {
    slot: usize,
    globals: usize,
    based: usize,
}

/// Takes a number.
fn take(free: &mut usize) -> usize
    requires { free.old < 18446744073709551615 }
    ensures taken { result ≡ free.old }
    ensures left { free.new ≡ free.old + 1 }
{
    let taken = *free;
    *free = taken + 1;
    taken
}

/// Whether the parameter in a slot is the symbol of this number.
pub(crate) fn is_parameter(parameters: &[usize], slot: usize, number: usize) -> bool
    ensures { result ≡ units.is_parameter parameters.now slot number }
{
    let Some(parameter) = parameters.get(slot) else {
        return false;
    };
    *parameter == number
}

/// The slot of a parameter that is the symbol of this number.
fn parameter_place(parameters: &[usize], slot: usize, number: usize) -> Option<Location>
    ensures { result ≡ place_after parameters.now 0 0 0 number (StorageClass.Parameter slot) }
{
    if is_parameter(parameters, slot, number) {
        Some(Location::Passed { slot })
    } else {
        None
    }
}

/// Where a variable of this class and number begins: parameters and AUTOMATIC variables in slots, STATIC and CONTROLLED
/// ones under their numbers among the globals; BASED ones have numbers of their own.
fn place(
    class: StorageClass,
    number: usize,
    parameters: &[usize],
    places: &[usize],
    free: &mut Free,
) -> Option<Location>
    requires slot { free.old.slot < 18446744073709551615 }
    requires global { free.old.globals < 18446744073709551615 }
    requires based { free.old.based < 18446744073709551615 }
    ensures begins { result ≡ place_after parameters.now free.old.slot
        (get_or places.now free.old.globals 0) free.old.based number class }
    ensures slots { free.new.slot ≡ free.old.slot + slots_of class }
    ensures globals { free.new.globals ≡ free.old.globals + globals_of class }
    ensures based { free.new.based ≡ free.old.based + based_of class }
{
    match class {
        StorageClass::Automatic => {
            let slot = take(&mut free.slot);
            Some(Location::InBlock { slot })
        }
        StorageClass::Static => {
            let number = under(places, take(&mut free.globals));
            Some(Location::BeforeProgram { number })
        }
        StorageClass::Controlled => {
            let number = under(places, take(&mut free.globals));
            Some(Location::NewestOf { number })
        }
        StorageClass::Parameter(slot) => parameter_place(parameters, slot, number),
        StorageClass::Based(locator) => {
            let number = take(&mut free.based);
            Some(Location::Based { number, locator })
        }
    }
}

/// Whether a variable of a class is compiled: a BASED one is no area.
#[tactic(auto, using(crate::proofs::PlainLemmas::valued_stored))]
fn is_kept(class: StorageClass, description: &Description) -> bool
    ensures kept { result ≡ spec.is_kept class (description_view description.now) }
    ensures stored { result ≡ true → units.is_stored 63 (description_view description.now) ≡ true }
{
    match class {
        StorageClass::Based(_) => is_valued(description),
        _ => is_stored(description),
    }
}

/// The variable that the symbol of this number is, if it is one that is compiled.
#[tactic(auto, using(crate::proofs::VariableStarts::slots_kept, crate::proofs::VariableStarts::globals_kept, crate::proofs::VariableStarts::based_kept, crate::proofs::VariableStarts::slots_unkept, crate::proofs::VariableStarts::globals_unkept, crate::proofs::VariableStarts::based_unkept))]
fn own_variable<'a>(
    kind: SymbolKind<'a>,
    number: usize,
    parameters: &[usize],
    places: &[usize],
    free: &mut Free,
) -> Option<OwnVariable<'a>>
    requires slot { free.old.slot < 18446744073709551615 }
    requires global { free.old.globals < 18446744073709551615 }
    requires based { free.old.based < 18446744073709551615 }
    ensures variable { option_map own_view result
        ≡ own_after parameters.now free.old.slot (get_or places.now free.old.globals 0) free.old.based number
        (symbol_kind_view kind.entry) }
    ensures slots { free.new.slot ≡ free.old.slot + one_such (is_automatic 63) (symbol_kind_view kind.entry) }
    ensures globals { free.new.globals ≡ free.old.globals + one_global 63 (symbol_kind_view kind.entry) }
    ensures based { free.new.based ≡ free.old.based + one_such (is_based 63) (symbol_kind_view kind.entry) }
{
    match kind {
        SymbolKind::Variable {
            description,
            class,
            ..
        } => {
            if !is_kept(class, description) {
                return None;
            }
            let begins = place(class, number, parameters, places, free)?;
            Some(OwnVariable {
                begins,
                description,
            })
        }
        SymbolKind::Entry { .. } => {
            take(&mut free.globals);
            None
        }
        _ => None,
    }
}

/// For each symbol of a block the variable that it is, if it is one of its own that is compiled. The blocks before have
/// so many globals; each has its place in the order of the text. Puts for each symbol the number among the globals that
/// it has if it is one.
pub(crate) fn own_variables<'a>(
    alloc: Global,
    symbols: &[Symbol<'a>],
    parameters: &[usize],
    places: &[usize],
    globals: &mut usize,
    numbers: &mut Vec<usize>,
) -> Result<Vec<Option<OwnVariable<'a>>>, AllocError>
    requires { globals.old ≤ length places.now }
    ensures variables { IfOk result (λ variables. map (option_map own_view) variables.items
        ≡ spec.own_variables (record {
          parameters = parameters.now;
          places = places.now;
          globals = globals.old;
          symbols = map symbol_view symbols.now;
        })) }
    ensures counted { IfOk result (λ _. globals.new
        ≡ globals.old + globals_before 63 (map symbol_view symbols.now) (length symbols.now)) }
    ensures numbers { IfOk result (λ _. numbers.new.items ≡ numbers.old.items
        ++ each_from (λ number s. get_or places.now (globals.old
        + globals_before 63 (map symbol_view symbols.now) number) 0) 0 (map symbol_view symbols.now)) }
{
    let mut free = Free {
        slot: parameters.len(),
        globals: *globals,
        based: 0,
    };
    let mut variables = Vec::with_capacity(alloc, symbols.len())?;
    for (number, symbol) in symbols.iter().enumerate() {
        numbers.push(under(places, free.globals))?;
        let variable = own_variable(symbol.kind, number, parameters, places, &mut free);
        variables.push(variable)?;
    }
    *globals = free.globals;
    Ok(variables)
}
