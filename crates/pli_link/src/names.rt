//! What names mean to all units of a module.
ghost use Rattle.std.specs.Prelude.{◌≡◌, map, IfOk, OnOk};
ghost use Rattle.pli_link.specs.answers.Classes.{AreClassed, known_in};
ghost use Rattle.pli_link.specs.Names as spec;
ghost use Rattle.pli_link.specs.views.UnitView.{compiled_view};
ghost use Rattle.pli_link.specs.views.NameView.{declaration_view, externals_view};
ghost use Rattle.pli_code.specs.views.CodeView.{code_view, global_view};

use crate::alike::template_at;
use crate::classes::class_of;
use crate::units::NamedUnit;
use indexmap::{IndexMap, IndexSet};
use pli_base::Name;
use pli_code::{Code, CodedGlobal};
use pli_program::VariableKind;
use pli_type_keys::TemplateKey;
use std::alloc::{AllocError, Global};
use std::collections::BTreeMap;

/// An external variable: the kind and the template of its first declaration, if the unit's tables have it, its class
/// among the templates that are known, and the unit and the global of that declaration.
#[derive(Clone, Copy)]
pub(crate) struct KnownExternal<'a> {
    pub kind: VariableKind,
    pub template: Option<TemplateKey<'a>>,
    pub class: Option<usize>,
    pub unit: usize,
    pub global: usize,
}

/// What names mean to all units of a module.
#[derive(Clone, Copy)]
pub(crate) struct Names<'a, 'b> {
    pub units: &'b [NamedUnit<'a>],
    /// External procedures, by the numbers of the first units that have one of their names.
    pub procedures: &'b IndexMap<Name, usize>,
    pub externals: &'b BTreeMap<Name, KnownExternal<'a>>,
}

/// Notes the number of a unit for the name of its procedure, unless one before has the name.
fn note_procedure(
    procedures: &mut IndexMap<Name, usize>,
    name: Name,
    number: usize,
) -> Result<(), AllocError>
    ensures { OnOk result (procedures.new.entries ≡ spec.with_first procedures.old.entries (name, number)) }
{
    if procedures.contains_key(&name) {
        return Ok(());
    }
    procedures.insert(name, number)?;
    Ok(())
}

/// The external procedures, by the numbers of their units.
pub(crate) fn procedures(
    alloc: Global,
    units: &[NamedUnit<'_>],
) -> Result<IndexMap<Name, usize>, AllocError>
    ensures { IfOk result (λ found. found.entries ≡ spec.procedures (map compiled_view units.now)) }
{
    let mut found = IndexMap::new(alloc);
    for (number, unit) in units.iter().enumerate() {
        note_procedure(&mut found, unit.deck.name, number)?;
    }
    Ok(found)
}

/// Notes a declaration for its name, with the class of its template, unless one before has the name.
fn note_external<'a>(
    known: &mut IndexSet<TemplateKey<'a>>,
    externals: &mut BTreeMap<Name, KnownExternal<'a>>,
    name: Name,
    external: KnownExternal<'a>,
) -> Result<(), AllocError>
    ensures first { OnOk result (externals_view externals.new.entries
        ≡ spec.with_declaration (externals_view externals.old.entries) (name, declaration_view external.entry)) }
    ensures classed { OnOk result (AreClassed (known_in known.old.keys) externals.old.entries →
        AreClassed (known_in known.new.keys) externals.new.entries) }
{
    if externals.contains_key(&name) {
        return Ok(());
    }
    let class = class_of(known, external.template)?;
    let classed = KnownExternal { class, ..external };
    if externals.insert(name, classed).is_err() {
        return Err(AllocError);
    }
    Ok(())
}

/// Notes the external variables of the unit of this number.
fn note_shared<'a>(
    known: &mut IndexSet<TemplateKey<'a>>,
    externals: &mut BTreeMap<Name, KnownExternal<'a>>,
    code: &'a Code,
    unit: usize,
    globals: &'a [CodedGlobal],
) -> Result<(), AllocError>
    ensures first { OnOk result (externals_view externals.new.entries
        ≡ spec.first_declared (externals_view externals.old.entries)
        (spec.shared_from (code_view code.now) unit 0 (map global_view globals.now))) }
    ensures classed { OnOk result (AreClassed (known_in known.old.keys) externals.old.entries →
        AreClassed (known_in known.new.keys) externals.new.entries) }
{
    for (number, global) in globals.iter().enumerate() {
        if let CodedGlobal::ExternalVariable {
            name,
            kind,
            template,
        } = global
        {
            let external = KnownExternal {
                kind: *kind,
                template: template_at(code, *template),
                class: None,
                unit,
                global: number,
            };
            note_external(known, externals, *name, external)?;
        }
    }
    Ok(())
}

/// The external variables, each with its first declaration; their templates become known.
pub(crate) fn externals<'a>(
    alloc: Global,
    known: &mut IndexSet<TemplateKey<'a>>,
    units: &[NamedUnit<'a>],
) -> Result<BTreeMap<Name, KnownExternal<'a>>, AllocError>
    ensures first { IfOk result (λ found. externals_view found.entries ≡ spec.externals (map compiled_view units.now)) }
    ensures classed { IfOk result (λ found. AreClassed (known_in known.new.keys) found.entries) }
{
    let mut found = BTreeMap::new(alloc);
    for (number, unit) in units.iter().enumerate() {
        note_shared(
            known,
            &mut found,
            &unit.deck.code,
            number,
            &unit.deck.code.globals,
        )?;
    }
    Ok(found)
}
