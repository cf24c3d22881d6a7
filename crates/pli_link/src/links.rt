//! External variables in the order of their names, and what the external globals of units stand for.
ghost use Rattle.std.specs.Prelude.{◌≡◌, List, map, IfOk};
ghost use Rattle.pli_base.specs.Name as base;
ghost use Rattle.pli_code.specs.CodeTables.{there};
ghost use Rattle.pli_code.specs.views.CodeView.{external_view, global_view};
ghost use Rattle.pli_link.specs.Links as spec;
ghost use Rattle.pli_link.specs.answers.Tables.{external_name, AreNumbered, AreSmall};
ghost use Rattle.pli_link.specs.views.NameView.{declaration_view, externals_view};

use crate::names::KnownExternal;
use indexmap::IndexMap;
use pli_base::Name;
use pli_code::{CodedGlobal, External};
use std::alloc::{AllocError, Global};
use std::collections::BTreeMap;

/// A number in two bytes: the greatest that they hold stands for every greater one, which no module within its limits
/// has.
fn short(number: u64) -> u16
    ensures { result ≡ spec.short number }
{
    number.min(65_535) as u16
}

/// An external variable with its first declaration.
fn external_of(name: Name, external: &KnownExternal<'_>) -> External
    ensures { external_view result ≡ spec.external_of (name, declaration_view external.now) }
{
    External {
        name,
        kind: external.kind,
        unit: short(external.unit as u64),
        global: short(external.global as u64),
    }
}

/// External variables with their first declarations, in the order of their names.
pub(crate) fn externals_in(
    alloc: Global,
    externals: &BTreeMap<Name, KnownExternal<'_>>,
) -> Result<Vec<External>, AllocError>
    ensures { IfOk result (λ made. map external_view made.items
        ≡ map spec.external_of (externals_view externals.now.entries)) }
{
    let mut made = Vec::with_capacity(alloc, externals.len())?;
    for (name, external) in externals {
        made.push(external_of(*name, external))?;
    }
    Ok(made)
}

/// The numbers of external variables, by their names.
pub(crate) fn numbers_of(
    alloc: Global,
    externals: &[External],
) -> Result<IndexMap<Name, u16>, AllocError>
    ensures { IfOk result (λ numbers. AreNumbered numbers.entries (map external_name externals.now)) }
{
    let mut numbers = IndexMap::new(alloc);
    for number in (0..externals.len()).rev() {
        numbers.insert(externals[number].name, short(number as u64))?;
    }
    Ok(numbers)
}

/// The number of an external variable; each one of a module has one.
fn number_in(numbers: &IndexMap<Name, u16>, name: &Name) -> u16
    ensures { (names : List base.Name) → AreNumbered numbers.now.entries names →
        result ≡ spec.number_in names name.now }
{
    match numbers.get(name) {
        None => 0,
        Some(number) => *number,
    }
}

/// The unit that has an external procedure; each entry of a module has one.
fn unit_in(procedures: &IndexMap<Name, usize>, name: &Name) -> u16
    requires { AreSmall procedures.now.entries }
    ensures { result ≡ spec.unit_in procedures.now.entries name.now }
{
    match procedures.get(name) {
        None => 0,
        Some(number) => *number as u16,
    }
}

/// What a global stands for that other units know: the number of an external variable or, for an entry, of its unit.
fn link_in(
    numbers: &IndexMap<Name, u16>,
    procedures: &IndexMap<Name, usize>,
    global: &CodedGlobal,
) -> Option<u16>
    requires { AreSmall procedures.now.entries }
    ensures { (names : List base.Name) → AreNumbered numbers.now.entries names
        → there result ≡ spec.link_in names procedures.now.entries (global_view global.now) }
{
    match global {
        CodedGlobal::OwnVariable { .. } => None,
        CodedGlobal::ExternalVariable { name, .. } => Some(number_in(numbers, name)),
        CodedGlobal::EntryPoint { name, .. } => Some(unit_in(procedures, name)),
    }
}

/// What all such globals stand for, in their order.
pub(crate) fn links_of(
    alloc: Global,
    numbers: &IndexMap<Name, u16>,
    procedures: &IndexMap<Name, usize>,
    globals: &[CodedGlobal],
) -> Result<Vec<u16>, AllocError>
    requires { AreSmall procedures.now.entries }
    ensures { IfOk result (λ links. (names : List base.Name) → AreNumbered numbers.now.entries names
        → links.items ≡ spec.links_of names procedures.now.entries (map global_view globals.now)) }
{
    let mut links = Vec::new(alloc);
    for global in globals {
        if let Some(number) = link_in(numbers, procedures, global) {
            links.push(number)?;
        }
    }
    Ok(links)
}
