//! Modules of units without faults.
ghost use Rattle.std.specs.Prelude.{◌≡◌, List, map, position, None, true, IfOk};
ghost use Rattle.pli_base.specs.Name as base;
ghost use Rattle.pli_code.specs.views.CodeView.{lent_member_view, lent_module_view};
ghost use Rattle.pli_deck_write.specs.ModuleFields.{module_field};
ghost use Rattle.pli_deck_write.specs.ModuleSpelling.{module_bytes, module_fault, SpellsModule};
ghost use Rattle.pli_link.specs.Links as spec;
ghost use Rattle.pli_link.specs.answers.Tables.{AreNames, AreNumbered, AreSmall, units_in};
ghost use Rattle.pli_link.specs.views.UnitView.{compiled_view};

use crate::links::{externals_in, links_of, numbers_of};
use crate::names::Names;
use crate::units::NamedUnit;
use indexmap::IndexMap;
use pli_base::Name;
use pli_code::{LentMember, LentModule, Version};
use pli_deck_write::write_module;
use std::alloc::{AllocError, Global};

/// A module of units that are linked, their decks lent.
#[derive(Drop)]
pub struct Linked<'a> {
    pub program: LentModule<'a>,
}

impl<'a> Linked<'a> {
    /// The bytes of the module, which are its one spelling where it has one. An error comes where memory runs out.
    pub fn bytes(&self, alloc: Global) -> Result<Vec<u8>, AllocError>
        ensures bytes { IfOk result (λ v. v.items ≡ module_bytes (lent_module_view self.now.program)) }
        ensures spelled { let m = lent_module_view self.now.program in
            module_field.fits m ≡ true → module_fault m ≡ None → IfOk result (λ v. SpellsModule v.items m) }
    {
        write_module(alloc, &self.program)
    }
}

/// Where the first main procedure stands.
pub(crate) fn main_at(units: &[NamedUnit<'_>]) -> Option<usize>
    ensures { result ≡ position (λ u. u.deck.now.is_main) units.now }
{
    units.iter().position(|unit| unit.deck.is_main)
}

/// A unit with what its external globals stand for.
fn linked_unit<'a>(
    alloc: Global,
    numbers: &IndexMap<Name, u16>,
    procedures: &IndexMap<Name, usize>,
    unit: &NamedUnit<'a>,
) -> Result<LentMember<'a>, AllocError>
    requires { AreSmall procedures.now.entries }
    ensures { IfOk result (λ linked. (names : List base.Name) → AreNumbered numbers.now.entries names
        → lent_member_view linked ≡ spec.linked_unit names procedures.now.entries (compiled_view unit.now)) }
{
    Ok(LentMember {
        name: unit.unit,
        deck: unit.deck,
        links: links_of(alloc, numbers, procedures, &unit.deck.code.globals)?,
    })
}

/// Units with what their external globals stand for.
fn linked_units<'a>(
    alloc: Global,
    numbers: &IndexMap<Name, u16>,
    procedures: &IndexMap<Name, usize>,
    units: &[NamedUnit<'a>],
) -> Result<Vec<LentMember<'a>>, AllocError>
    requires { AreSmall procedures.now.entries }
    ensures { IfOk result (λ linked. (names : List base.Name) → AreNumbered numbers.now.entries names
        → map lent_member_view linked.items ≡ map (spec.linked_unit names procedures.now.entries)
        (map compiled_view units.now)) }
{
    let mut linked = Vec::with_capacity(alloc, units.len())?;
    for unit in units {
        linked.push(linked_unit(alloc, numbers, procedures, unit)?)?;
    }
    Ok(linked)
}

/// The module of units whose names these are, of which the one of this number is the main one.
pub(crate) fn module_of<'a>(
    alloc: Global,
    names: &Names<'a, '_>,
    main: u16,
) -> Result<LentModule<'a>, AllocError>
    requires names { AreNames names.now }
    requires small { AreSmall names.now.procedures.now.entries }
    ensures { IfOk result (λ made. lent_module_view made ≡ spec.module_of (units_in names.now) main) }
{
    let externals = externals_in(alloc, names.externals)?;
    let numbers = numbers_of(alloc, &externals)?;
    let units = linked_units(alloc, &numbers, names.procedures, names.units)?;
    Ok(LentModule {
        version: Version::WRITTEN,
        main,
        externals,
        units,
    })
}
