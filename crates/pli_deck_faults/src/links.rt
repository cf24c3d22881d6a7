//! Whether what the external names of a module stand for is there.
ghost use Rattle.std.specs.Prelude.{◌≡◌, map, nat_eq, Some, slice_get};
ghost use Rattle.std.specs.List.{filter, list_all};
ghost use Rattle.pli_code.specs.views.CodeView.{external_view, global_view, kind_number, member_view, module_view};
ghost use Rattle.pli_deck_write.specs.ModuleFields as module_fields;
ghost use Rattle.pli_deck_write.specs.ModuleSpelling as spelling;

use pli_code::{CodedGlobal, External, Member, Module};
use pli_program::VariableKind;

/// Whether a global is of a kind of externals.
fn has_kind(kind: VariableKind, global: &CodedGlobal) -> bool
    ensures { result ≡ spelling.has_kind (kind_number kind) (Some (global_view global.now)) }
{
    match (kind, global) {
        (
            VariableKind::Static,
            CodedGlobal::ExternalVariable {
                kind: VariableKind::Static,
                ..
            },
        ) => true,
        (
            VariableKind::Controlled,
            CodedGlobal::ExternalVariable {
                kind: VariableKind::Controlled,
                ..
            },
        ) => true,
        _ => false,
    }
}

/// Whether an external's first declaration is there, and of its kind.
fn external_stands(units: &[Member], external: &External) -> bool
    ensures { let e = external_view external.now in
        result ≡ spelling.has_kind e.kind (spelling.global_at (map member_view units.now) e.unit e.global) }
{
    let Some(unit) = units.get(usize::from(external.unit)) else {
        return false;
    };
    match unit.deck.code.globals.get(usize::from(external.global)) {
        Some(global) => has_kind(external.kind, global),
        None => false,
    }
}

/// Whether the first declarations of externals are there.
fn externals_stand(units: &[Member], externals: &[External]) -> bool
    ensures { result ≡ list_all (λ e. spelling.has_kind e.kind
        (spelling.global_at (map member_view units.now) e.unit e.global)) (map external_view externals.now) }
{
    for external in externals {
        if !external_stands(units, external) {
            return false;
        }
    }
    true
}

/// Whether an external is there, and of a global's kind.
fn variable_stands(externals: &[External], global: &CodedGlobal, link: u16) -> bool
    ensures { result ≡ spelling.is_of_kind (module_fields.global_tag (global_view global.now))
        (slice_get (map external_view externals.now) link) }
{
    match externals.get(usize::from(link)) {
        Some(external) => has_kind(external.kind, global),
        None => false,
    }
}

/// Whether what an external global stands for is there: a unit for an entry, and an external of its kind for a
/// variable.
fn link_stands(program: &Module, global: &CodedGlobal, link: u16) -> bool
    ensures { result ≡ spelling.is_good_link (module_view program.now) (global_view global.now) link }
{
    match global {
        CodedGlobal::EntryPoint { .. } => usize::from(link) < program.units.len(),
        _ => variable_stands(&program.externals, global, link),
    }
}

/// Whether a global is known by an external name.
pub fn is_external(global: &CodedGlobal) -> bool
    ensures { result ≡ module_fields.is_external (global_view global.now) }
{
    match global {
        CodedGlobal::OwnVariable { .. } => false,
        _ => true,
    }
}

/// Whether what the external globals of a unit stand for is there.
fn globals_linked(program: &Module, globals: &[CodedGlobal], links: &[u16]) -> bool
    ensures { result ≡ spelling.are_good_links (module_view program.now)
        (filter module_fields.is_external (map global_view globals.now)) links.now }
{
    let mut at: usize = 0;
    for global in globals {
        if is_external(global) {
            if at >= links.len() {
                return true;
            }
            if !link_stands(program, global, links[at]) {
                return false;
            }
            at += 1;
        }
    }
    true
}

/// Whether what the external globals of units stand for is there.
fn units_linked(program: &Module, units: &[Member]) -> bool
    ensures { result ≡ list_all (λ u. spelling.are_good_links (module_view program.now)
        (filter module_fields.is_external u.deck.code.globals) u.links) (map member_view units.now) }
{
    for unit in units {
        if !globals_linked(program, &unit.deck.code.globals, &unit.links) {
            return false;
        }
    }
    true
}

/// Whether the main unit, the first declarations of externals, and what external globals stand for are there.
pub fn links_stand(program: &Module) -> bool
    ensures { result ≡ spelling.links_stand (module_view program.now) }
{
    usize::from(program.main) < program.units.len()
        && externals_stand(&program.units, &program.externals)
        && units_linked(program, &program.units)
}
