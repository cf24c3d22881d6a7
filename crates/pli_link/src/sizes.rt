//! How large a module is.
ghost use Rattle.std.specs.Prelude.{◌≡◌, ◌≤◌, length, map, nat_lt, IfSome, option_map};
ghost use Rattle.std.specs.List.{flat_map, sum_by};
ghost use Rattle.std.specs.Map.{values_of};
ghost use Rattle.pli_map.specs.views.DescriptionView.{description_view};
ghost use Rattle.pli_link.specs.ModuleSize as spec;
ghost use Rattle.pli_link.specs.Names.{externals};
ghost use Rattle.pli_link.specs.answers.Counting.{counted, counted_one};
ghost use Rattle.pli_link.specs.answers.Tables.{AreNames, units_in};
ghost use Rattle.pli_link.specs.views.UnitView.{compiled_view};
ghost use Rattle.pli_link.specs.views.NameView.{declaration_view, externals_view};
ghost use Rattle.pli_code.specs.views.CodeView.{code_view, global_view};
ghost use Rattle.pli_code.specs.CodeTables.{there};
ghost use Rattle.pli_type_keys.specs.views.KeyView.{templated};

use crate::alike::template_at;
use crate::names::{KnownExternal, Names};
use crate::units::NamedUnit;
use pli_base::Name;
use pli_code::{Code, CodedGlobal};
use pli_map::{Description, size};
use pli_program::VariableKind;
use pli_type_keys::TemplateKey;
use std::collections::BTreeMap;

/// The most bytes that live at once (own).
const BYTE_LIMIT: u32 = 16_777_216;

/// The most units of a module (own).
const UNIT_LIMIT: usize = 65_535;

/// The most external variables of a module (own).
const EXTERNAL_LIMIT: usize = 65_535;

/// The most instructions of a module (own).
const INSTRUCTION_LIMIT: usize = 1_000_000;

/// Bytes with those of a variable more, unless it has too many or they are too many.
fn with_bytes(bytes: u32, description: &Description) -> Option<u32>
    requires { bytes ≤ 16777216 }
    ensures counts { result ≡ counted_one bytes (description_view description.now) }
    ensures within { IfSome result (λ more. more ≤ 16777216) }
{
    let bytes = bytes + size(description)?;
    if bytes > BYTE_LIMIT {
        return None;
    }
    Some(bytes)
}

/// The same of a template, if the tables have it.
fn with_template(bytes: u32, template: &Option<TemplateKey<'_>>) -> Option<u32>
    requires { bytes ≤ 16777216 }
    ensures counts { result ≡ counted bytes (there (option_map templated template.now)) }
    ensures within { IfSome result (λ more. more ≤ 16777216) }
{
    match template {
        None => Some(bytes),
        Some(template) => with_bytes(bytes, template.description),
    }
}

/// The same of an external variable, if it is STATIC.
fn with_shared(bytes: u32, external: &KnownExternal<'_>) -> Option<u32>
    requires { bytes ≤ 16777216 }
    ensures counts { result ≡ counted bytes (spec.shared_in (declaration_view external.now)) }
    ensures within { IfSome result (λ more. more ≤ 16777216) }
{
    match external.kind {
        VariableKind::Static => with_template(bytes, &external.template),
        VariableKind::Controlled => Some(bytes),
    }
}

/// Bytes with those of the STATIC variables that a unit has for itself, unless they are too many.
fn with_own(bytes: u32, code: &Code, globals: &[CodedGlobal]) -> Option<u32>
    requires { bytes ≤ 16777216 }
    ensures counts { result ≡ counted bytes (spec.own_of (code_view code.now) (map global_view globals.now)) }
    ensures within { IfSome result (λ more. more ≤ 16777216) }
{
    let mut bytes = bytes;
    for global in globals {
        if let CodedGlobal::OwnVariable {
            kind: VariableKind::Static,
            template,
        } = global
        {
            bytes = with_template(bytes, &template_at(code, *template))?;
        }
    }
    Some(bytes)
}

/// Bytes with those of the STATIC variables that units have for themselves, unless they are too many.
fn with_all_own(units: &[NamedUnit<'_>]) -> Option<u32>
    ensures counts { result ≡ counted 0 (spec.all_own (map compiled_view units.now)) }
    ensures within { IfSome result (λ more. more ≤ 16777216) }
{
    let mut bytes = 0;
    for unit in units {
        bytes = with_own(bytes, &unit.deck.code, &unit.deck.code.globals)?;
    }
    Some(bytes)
}

/// Bytes with those of the external variables that are STATIC, unless they are too many.
fn with_externals(bytes: u32, externals: &BTreeMap<Name, KnownExternal<'_>>) -> Option<u32>
    requires { bytes ≤ 16777216 }
    ensures counts { result ≡ counted bytes (flat_map spec.shared_in
        (values_of (externals_view externals.now.entries))) }
    ensures within { IfSome result (λ more. more ≤ 16777216) }
{
    let mut bytes = bytes;
    for external in externals.values() {
        bytes = with_shared(bytes, external)?;
    }
    Some(bytes)
}

/// Whether units have too many instructions.
fn are_instructions_too_many(units: &[NamedUnit<'_>]) -> bool
    ensures { result ≡ nat_lt 1000000 (sum_by (λ c. length c.deck.code.instructions) (map compiled_view units.now)) }
{
    let mut count = 0;
    for unit in units {
        count += unit.deck.code.instructions.len();
        if count > INSTRUCTION_LIMIT {
            return true;
        }
    }
    false
}

/// The bytes of the static variables, unless they are too many.
fn bytes_made(names: &Names<'_, '_>) -> Option<u32>
    requires { AreNames names.now }
    ensures { result ≡ counted 0 (spec.variables_made (units_in names.now)) }
{
    with_externals(with_all_own(names.units)?, names.externals)
}

/// Whether the static variables are too large.
fn are_variables_too_large(names: &Names<'_, '_>) -> bool
    requires { AreNames names.now }
    ensures { result ≡ spec.are_too_large (map (λ t. t.description) (spec.variables_made (units_in names.now))) }
{
    bytes_made(names).is_none()
}

/// Whether there are too many external variables.
fn are_externals_too_many(names: &Names<'_, '_>) -> bool
    requires { AreNames names.now }
    ensures { result ≡ nat_lt 65535 (length (externals (units_in names.now))) }
{
    names.externals.len() > EXTERNAL_LIMIT
}

/// Whether the module of units is too large.
pub(crate) fn is_too_large(names: &Names<'_, '_>) -> bool
    requires { AreNames names.now }
    ensures { result ≡ spec.is_too_large (units_in names.now) }
{
    are_variables_too_large(names)
        || are_externals_too_many(names)
        || are_instructions_too_many(names.units)
        || names.units.len() > UNIT_LIMIT
}
