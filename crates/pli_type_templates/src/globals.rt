//! The globals among the symbols of a block.
ghost use Rattle.std.specs.Prelude.{◌≡◌, ◌++◌, List, IfSome, OnOk, map};
ghost use Rattle.std.specs.List.{All};
ghost use Rattle.pli_declare_outline.specs.Outlines.{PlacedMark};
ghost use Rattle.pli_declare.specs.views.SymbolView.{symbol_view};
ghost use Rattle.pli_type_rules.specs.NamedUnits.{global_of, globals_of, kind_of_class, placed};
ghost use Rattle.pli_type_templates.specs.Groups.{AreMembers, global_made};
ghost use Rattle.pli_type_templates.specs.ItemNames.{AreOfItems};
ghost use Rattle.pli_type_templates.specs.views.ItemView.{HasMadeItem, items_view, made_template, rows_view};
ghost use Rattle.pli_type_templates.specs.views.PlacedView.{HasGlobal, HasGlobalItem, global_found, placed_view};
ghost use Rattle.pli_type_templates.specs.views.PlacedView.{unit_global_view};

use crate::groups::made_in;
use crate::items::ValuedItem;
use crate::lifetime::Lifetime;
use crate::made_variable::MadeVariable;
use crate::placed_globals::{PlacedGlobal, UnitGlobal};
use pli_base::Name;
use pli_declare::{ScopeAttribute, StorageClass, Symbol, SymbolKind};
use pli_program::VariableKind;
use std::alloc::AllocError;

/// How the generations come of a variable of this class that is there for the whole program.
fn kind_of(class: StorageClass) -> VariableKind
    ensures { result ≡ kind_of_class class }
{
    match class {
        StorageClass::Controlled => VariableKind::Controlled,
        _ => VariableKind::Static,
    }
}

/// A variable of this name, by its scope.
fn variable_global<'a>(
    scope: ScopeAttribute,
    kind: VariableKind,
    name: Name,
    made: MadeVariable<'a>,
) -> UnitGlobal<'a>
    ensures view { unit_global_view result ≡ global_of scope kind name (made_template made.entry) }
    ensures item { (marks : List PlacedMark) → HasMadeItem marks made.entry → HasGlobal marks made.entry.at result }
{
    match scope {
        ScopeAttribute::Internal => UnitGlobal::OwnVariable { kind, made },
        ScopeAttribute::External => UnitGlobal::ExternalVariable { name, kind, made },
    }
}

/// The global that a symbol with these members is, if it is one: a STATIC or CONTROLLED variable that is compiled, or
/// an entry.
fn global_in<'a>(symbol: &Symbol<'a>, members: &'a [ValuedItem<'a>]) -> Option<UnitGlobal<'a>>
    ensures view { global_found result ≡ global_made (symbol_view symbol.now) (items_view members.now) }
    ensures item { (marks : List PlacedMark) → AreOfItems marks (symbol_view symbol.now)
        → IfSome result (HasGlobal marks symbol.now.identifier.at) }
{
    match symbol.kind {
        SymbolKind::Variable { class, scope, .. } => {
            let made = made_in(Lifetime::Program, symbol, members)?;
            Some(variable_global(scope, kind_of(class), symbol.identifier.name, made))
        }
        SymbolKind::Entry {
            parameters,
            returned,
            ..
        } => Some(UnitGlobal::EntryPoint {
            name: symbol.identifier.name,
            parameters,
            returned,
        }),
        _ => None,
    }
}

/// Puts the global that a symbol is, if it is one.
fn put_global<'a>(
    symbol: &Symbol<'a>,
    members: &'a [ValuedItem<'a>],
    globals: &mut Vec<PlacedGlobal<'a>>,
) -> Result<(), AllocError>
    ensures globals { OnOk result (map placed_view globals.new.items ≡ map placed_view globals.old.items
        ++ map (placed symbol.now.identifier.at) (global_made (symbol_view symbol.now) (items_view members.now))) }
    ensures items { OnOk result ((marks : List PlacedMark) → AreOfItems marks (symbol_view symbol.now)
        → All (HasGlobalItem marks) globals.old.items → All (HasGlobalItem marks) globals.new.items) }
{
    let Some(global) = global_in(symbol, members) else {
        return Ok(());
    };
    let at = symbol.identifier.at;
    if globals.push(PlacedGlobal { at, global }).is_err() {
        return Err(AllocError);
    }
    Ok(())
}

/// Puts the globals among the symbols of a block, in the order of the text.
pub(crate) fn put_globals<'a>(
    symbols: &'a [Symbol<'a>],
    members: &'a [Vec<ValuedItem<'a>>],
    globals: &mut Vec<PlacedGlobal<'a>>,
) -> Result<(), AllocError>
    requires { AreMembers (rows_view members.now) (map symbol_view symbols.now) }
    ensures globals { OnOk result (map placed_view globals.new.items
        ≡ map placed_view globals.old.items ++ globals_of 63 (map symbol_view symbols.now)) }
    ensures items { OnOk result ((marks : List PlacedMark) → All (AreOfItems marks) (map symbol_view symbols.now)
        → All (HasGlobalItem marks) globals.old.items → All (HasGlobalItem marks) globals.new.items) }
{
    for number in 0..symbols.len() {
        put_global(&symbols[number], &members[number], globals)?;
    }
    Ok(())
}
