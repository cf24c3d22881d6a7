//! Globals that fit no procedure, or not the procedure or the variable of their name.
ghost use Rattle.std.specs.Prelude.{◌≡◌, ◌++◌, ℕ, List, [], Option, Some, map, option_map, IfOk, OnOk};
ghost use Rattle.pli_type_tree.specs.Templates.{Template};
ghost use Rattle.pli_link.specs.Mismatches as spec;
ghost use Rattle.pli_link.specs.Alike.{signature_at};
ghost use Rattle.pli_link.specs.Names as meaning;
ghost use Rattle.pli_link.specs.answers.Classes.{Grows, IsClass, IsClassFor, IsFirstClassed, known_in};
ghost use Rattle.pli_link.specs.answers.Tables.{AreNames, HaveClasses, units_in};
ghost use Rattle.pli_type_keys.specs.declared.key.TemplateKey.{TemplateKey};
ghost use Rattle.pli_link.specs.views.NameView.{declaration_view};
ghost use Rattle.pli_link.specs.views.UnitView.{compiled_view};
ghost use Rattle.pli_type_keys.specs.views.KeyView.{templated};
ghost use Rattle.pli_code.specs.CodeTables.{template_at, there};
ghost use Rattle.pli_code.specs.CodeTables as plain;
ghost use Rattle.pli_link.specs.declared.global_fault.GlobalFault.TheVariants as faults;
ghost use Rattle.pli_code.specs.views.CodeView.{code_view, global_view, signature_view};

use crate::alike::{is_same_kind, is_same_signature};
use crate::classes::class_for;
use crate::global_fault::GlobalFault;
use crate::names::{KnownExternal, Names};
use crate::units::{LinkedName, NamedUnit};
use indexmap::IndexSet;
use pli_base::Name;
use pli_code::{Code, CodedGlobal, CodedSignature};
use pli_program::VariableKind;
use pli_type_keys::TemplateKey;
use std::alloc::{AllocError, Global};

/// The first unit whose external procedure has this name.
fn unit_named<'a, 'b>(names: &Names<'a, 'b>, name: &Name) -> Option<&'b NamedUnit<'a>>
    requires { AreNames names.now }
    ensures { option_map (λ u. compiled_view u.now) result ≡ meaning.unit_named (units_in names.now) name.now }
{
    let number = names.procedures.get(name)?;
    names.units.get(*number)
}

/// Whether an entry of this signature is unlike the procedure of its name.
fn is_unlike_procedure(
    code: &Code,
    signature: &CodedSignature,
    procedure: Option<&NamedUnit<'_>>,
) -> bool
    ensures { result ≡ spec.is_unlike_procedure (signature_at (code_view code.now) (signature_view signature.now))
        (option_map (λ u. compiled_view u.now) procedure.entry) }
{
    match procedure {
        None => false,
        Some(unit) => !is_same_signature(
            &unit.deck.code,
            &unit.deck.code.signature,
            code,
            signature,
        ),
    }
}

/// Whether an external variable of this kind and class is like the first one of its name.
fn is_like_first(kind: VariableKind, class: Option<usize>, first: &KnownExternal<'_>) -> bool
    ensures { (known : List Template) (t : Option Template) → IsClass known t class
        → IsClass known (option_map templated first.now.template) first.now.class
        → result ≡ spec.is_like_first kind t (Some (declaration_view first.now)) }
{
    is_same_kind(first.kind, kind) && first.class == class
}

/// Whether an external variable of this kind and class is unlike the first one of its name, or has a procedure's name.
fn is_unlike(
    kind: VariableKind,
    class: Option<usize>,
    procedure: Option<&NamedUnit<'_>>,
    first: Option<&KnownExternal<'_>>,
) -> bool
    ensures { (known : List Template) (t : Option Template) → IsClass known t class → IsFirstClassed known first.entry
        → result ≡ spec.is_unlike kind t (option_map (λ u. compiled_view u.now) procedure.entry)
        (option_map (λ e. declaration_view e.now) first.entry) }
{
    match (procedure, first) {
        (Some(_), _) | (None, None) => true,
        (None, Some(first)) => !is_like_first(kind, class, first),
    }
}

/// Whether an external variable of a unit, whose template has this class, is unlike the first one of its name, or has a
/// procedure's name.
fn is_unlike_variable(
    names: &Names<'_, '_>,
    name: &Name,
    kind: VariableKind,
    class: Option<usize>,
) -> bool
    requires { AreNames names.now }
    ensures { (code : plain.Code) (template : ℕ) (known : List TemplateKey) → HaveClasses known names.now →
        IsClass (known_in known) (template_at code template) class
        → result ≡ spec.has_fault (units_in names.now) faults.Mismatch code
        (plain.ExternalVariable name.now kind template) }
{
    is_unlike(
        kind,
        class,
        unit_named(names, name),
        names.externals.get(name),
    )
}

/// Whether a global of a unit has a fault; of an external variable this is its template's class.
fn has_fault(
    names: &Names<'_, '_>,
    fault: GlobalFault,
    class: Option<usize>,
    code: &Code,
    global: &CodedGlobal,
) -> bool
    requires { AreNames names.now }
    ensures { (known : List TemplateKey) → HaveClasses known names.now →
        IsClassFor fault (known_in known) (code_view code.now) (global_view global.now) class
        → result ≡ spec.has_fault (units_in names.now) fault (code_view code.now) (global_view global.now) }
{
    match (fault, global) {
        (GlobalFault::Unresolved, CodedGlobal::EntryPoint { name, .. }) => {
            !names.procedures.contains_key(name)
        }
        (GlobalFault::Mismatch, CodedGlobal::EntryPoint { name, signature }) => {
            is_unlike_procedure(code, signature, unit_named(names, name))
        }
        (GlobalFault::Mismatch, CodedGlobal::ExternalVariable { name, kind, .. }) => {
            is_unlike_variable(names, name, *kind, class)
        }
        _ => false,
    }
}

/// The name of a global, if it has one.
fn name_of(global: &CodedGlobal) -> Option<Name>
    ensures { there result ≡ spec.name_of (global_view global.now) }
{
    match global {
        CodedGlobal::OwnVariable { .. } => None,
        CodedGlobal::ExternalVariable { name, .. } | CodedGlobal::EntryPoint { name, .. } => {
            Some(*name)
        }
    }
}

/// The name of a global that has a fault.
fn faulty_name(
    names: &Names<'_, '_>,
    fault: GlobalFault,
    class: Option<usize>,
    code: &Code,
    global: &CodedGlobal,
) -> Option<Name>
    requires { AreNames names.now }
    ensures { (known : List TemplateKey) → HaveClasses known names.now →
        IsClassFor fault (known_in known) (code_view code.now) (global_view global.now) class
        → there result ≡ spec.faulty_in (units_in names.now) fault (code_view code.now) (global_view global.now) }
{
    if has_fault(names, fault, class, code, global) {
        name_of(global)
    } else {
        None
    }
}

/// The names of the globals of a unit that have a fault, each once.
fn names_with_fault<'a>(
    alloc: Global,
    known: &mut IndexSet<TemplateKey<'a>>,
    names: &Names<'a, '_>,
    fault: GlobalFault,
    code: &'a Code,
    globals: &[CodedGlobal],
) -> Result<IndexSet<Name>, AllocError>
    requires names { AreNames names.now }
    requires classes { HaveClasses known.old.keys names.now }
    ensures found { IfOk result (λ found. found.keys ≡ spec.each_once []
        (spec.faulty_names (units_in names.now) fault (code_view code.now) (map global_view globals.now))) }
    ensures grows { Grows known.old.keys known.new.keys }
{
    let mut found = IndexSet::new(alloc);
    for global in globals {
        let class = class_for(known, fault, code, global)?;
        if let Some(name) = faulty_name(names, fault, class, code, global) {
            found.insert(name)?;
        }
    }
    Ok(found)
}

/// Appends names with their unit.
fn add_linked(
    linked: &mut Vec<LinkedName>,
    unit: Name,
    names: &IndexSet<Name>,
) -> Result<(), AllocError>
    ensures { OnOk result (linked.new.items ≡ linked.old.items ++ spec.linked_in unit names.now.keys) }
{
    for name in names {
        linked.push(LinkedName { name: *name, unit })?;
    }
    Ok(())
}

/// The names of globals that have a fault, with their units, in the order of the units.
pub(crate) fn faulty_names<'a>(
    alloc: Global,
    known: &mut IndexSet<TemplateKey<'a>>,
    names: &Names<'a, '_>,
    fault: GlobalFault,
    units: &[NamedUnit<'a>],
) -> Result<Vec<LinkedName>, AllocError>
    requires names { AreNames names.now }
    requires classes { HaveClasses known.old.keys names.now }
    ensures linked { IfOk result (λ linked. linked.items ≡ spec.faulty_linked (units_in names.now) fault
        (map compiled_view units.now)) }
    ensures grows { Grows known.old.keys known.new.keys }
{
    let mut linked = Vec::new(alloc);
    for unit in units {
        let found = names_with_fault(
            alloc,
            known,
            names,
            fault,
            &unit.deck.code,
            &unit.deck.code.globals,
        )?;
        add_linked(&mut linked, unit.unit, &found)?;
    }
    Ok(linked)
}
