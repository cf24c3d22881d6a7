//! The globals of a unit in the order of the text.
ghost use Rattle.std.specs.Prelude.{◌≡◌, ◌<◌, ◌++◌, IfOk, OnOk, get_or, length, map, if◌then◌else◌};
ghost use Rattle.std.specs.List.{All};
ghost use Rattle.pli_map.specs.views.DescriptionView.{description_view};
ghost use Rattle.pli_declare.specs.views.SymbolView.{symbol_view, symbol_kind_view};
ghost use Rattle.pli_resolve.specs.views.UnitView.{rows_view};
ghost use Rattle.pli_type_rules.specs.NamedUnits as units;
ghost use Rattle.pli_type_rules.specs.NamedUnits.{all_tokens, global_tokens, one_global};
ghost use Rattle.pli_type_rules.specs.TextOrder.{numbers_from, place_from, text_order, text_places};

use crate::descriptions::is_stored;
use pli_declare::{StorageClass, Symbol, SymbolKind};
use pli_map::Description;
use std::alloc::{AllocError, Global};

/// Whether a variable is STATIC or CONTROLLED, and compiled.
fn is_whole_program(class: StorageClass, description: &Description) -> bool
    ensures { result ≡ units.is_global 63 class (description_view description.now) }
{
    match class {
        StorageClass::Static | StorageClass::Controlled => is_stored(description),
        _ => false,
    }
}

/// Whether a symbol is a global: a STATIC or CONTROLLED variable that is compiled, or an entry.
fn is_global(kind: SymbolKind<'_>) -> bool
    ensures { (if result then 1 else 0) ≡ one_global 63 (symbol_kind_view kind.entry) }
{
    match kind {
        SymbolKind::Variable {
            description,
            class,
            ..
        } => is_whole_program(class, description),
        SymbolKind::Entry { .. } => true,
        _ => false,
    }
}

/// Puts the tokens of the names of globals among the symbols of a block.
fn put_tokens(symbols: &[Symbol<'_>], tokens: &mut Vec<usize>) -> Result<(), AllocError>
    ensures { OnOk result (tokens.new.items ≡ tokens.old.items ++ global_tokens 63 (map symbol_view symbols.now)) }
{
    for symbol in symbols {
        if is_global(symbol.kind) {
            tokens.push(symbol.identifier.at as usize)?;
        }
    }
    Ok(())
}

/// The tokens of the names of a unit's globals, block after block.
fn unit_tokens(alloc: Global, symbols: &[Vec<Symbol<'_>>]) -> Result<Vec<usize>, AllocError>
    ensures { IfOk result (λ tokens. tokens.items ≡ all_tokens 63 (rows_view symbols.now)) }
{
    let mut tokens = Vec::new(alloc);
    for row in symbols {
        put_tokens(row, &mut tokens)?;
    }
    Ok(tokens)
}

/// The numbers below a count.
fn numbers_below(alloc: Global, count: usize) -> Result<Vec<usize>, AllocError>
    ensures { IfOk result (λ numbers. numbers.items ≡ numbers_from 0 count) }
{
    let mut numbers = Vec::new(alloc);
    for number in 0..count {
        numbers.push(number)?;
    }
    Ok(numbers)
}

/// What stands under a number; 0 where there is nothing.
pub(crate) fn under(items: &[usize], number: usize) -> usize
    ensures { result ≡ get_or items.now number 0 }
{
    match items.get(number) {
        Some(item) => *item,
        None => 0,
    }
}

/// The numbers of tokens, each counted from 0, in the order of the tokens.
fn sorted_numbers(alloc: Global, tokens: &[usize]) -> Result<Vec<usize>, AllocError>
    ensures { IfOk result (λ numbers. numbers.items ≡ text_order tokens.now) }
{
    let mut numbers = numbers_below(alloc, tokens.len())?;
    numbers.sort_by_key(|number| under(tokens, *number))?;
    Ok(numbers)
}

/// For each number below the count of these numbers its place among them.
fn places_among(alloc: Global, numbers: &[usize]) -> Result<Vec<usize>, AllocError>
    requires { All (λ number. number < length numbers.now) numbers.now }
    ensures { IfOk result (λ places. places.items
        ≡ map (λ number. place_from 0 number numbers.now) (numbers_from 0 (length numbers.now))) }
{
    let mut places = vec![in alloc; 0_usize; numbers.len()]?;
    for place in (0..numbers.len()).rev() {
        let number = numbers[place];
        places[number] = place;
    }
    Ok(places)
}

/// For each global of a unit with these symbols, block after block, its number in the order of the names in the text.
/// Takes time for the symbols, and for sorting the globals.
pub(crate) fn global_places(
    alloc: Global,
    symbols: &[Vec<Symbol<'_>>],
) -> Result<Vec<usize>, AllocError>
    ensures { IfOk result (λ places. places.items ≡ text_places (all_tokens 63 (rows_view symbols.now))) }
{
    let tokens = unit_tokens(alloc, symbols)?;
    let numbers = sorted_numbers(alloc, &tokens)?;
    places_among(alloc, &numbers)
}
