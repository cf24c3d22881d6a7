//! Whether a module keeps the limits.
ghost use Rattle.std.specs.Prelude.{◌≡◌, ◌≤◌, min, nat_le, length, map, get_or, slice_get, option_map, IfOk};
ghost use Rattle.std.specs.List.{sum_by};
ghost use Rattle.pli_code.specs.views.CodeView.{code_view, coded_template_view, external_view, global_view};
ghost use Rattle.pli_code.specs.views.CodeView.{member_view, module_view};
ghost use Rattle.pli_deck_write.specs.ModuleSpelling as spelling;
ghost use Rattle.pli_deck_faults.specs.CutSizes.{cut_size, cut_sizes, unit_sizes};
ghost use Rattle.pli_deck_faults.specs.Remains.{Remains};

use pli_code::{Code, CodedGlobal, External, Member, Module};
use pli_map::{ParameterType, far_size};
use pli_program::VariableKind;
use std::alloc::{AllocError, Global};

/// The greatest number of instructions of a module (own).
const INSTRUCTION_LIMIT: usize = 1_000_000;

/// The greatest number of bytes of a module's static variables (own).
const STATIC_LIMIT: u64 = 16_777_216;

/// Whether the instructions of units are no more than there may be.
fn instructions_within(units: &[Member]) -> bool
    ensures { result ≡ nat_le (sum_by (λ u. length u.deck.code.instructions) (map member_view units.now)) 1000000 }
{
    let mut left = INSTRUCTION_LIMIT;
    for unit in units {
        let count = unit.deck.code.instructions.len();
        if count > left {
            return false;
        }
        left -= count;
    }
    true
}

/// The number of the description of a template of code, if the code has the template.
fn described(code: &Code, number: u16) -> Option<u16>
    ensures { result ≡ option_map (λ t. t.description) (slice_get
        (map coded_template_view code.now.templates.items) number) }
{
    let template = code.templates.get(usize::from(number))?;
    Some(template.description)
}

/// The size of a description of this number; 0 where there is none.
fn size_at(sizes: &[u64], number: u16) -> u64
    ensures { result ≡ get_or sizes.now number 0 }
{
    match sizes.get(usize::from(number)) {
        Some(size) => *size,
        None => 0,
    }
}

/// The bytes of a template of code; FAR stands for every greater number.
fn template_bytes(code: &Code, sizes: &[u64], number: u16) -> u64
    requires { sizes.now ≡ cut_sizes code.now.descriptions.items }
    ensures { result ≡ min (spelling.template_bytes (code_view code.now) number) 4294967296 }
{
    match described(code, number) {
        Some(description) => size_at(sizes, description),
        None => 0,
    }
}

/// The bytes of a variable that is a unit's own and static.
fn static_bytes(code: &Code, sizes: &[u64], global: &CodedGlobal) -> u64
    requires { sizes.now ≡ cut_sizes code.now.descriptions.items }
    ensures { result ≡ min (spelling.static_bytes (code_view code.now) (global_view global.now)) 4294967296 }
{
    match global {
        CodedGlobal::OwnVariable {
            kind: VariableKind::Static,
            template,
        } => template_bytes(code, sizes, *template),
        _ => 0,
    }
}

/// Whether the static variables of a unit, its own ones, are within so many bytes, and what is then left.
fn after_unit(code: &Code, sizes: &[u64], bytes: u64) -> Option<u64>
    requires { (bytes ≤ 16777216) × (sizes.now ≡ cut_sizes code.now.descriptions.items) }
    ensures { Remains result bytes (sum_by (spelling.static_bytes (code_view code.now))
        (map global_view code.now.globals.items)) }
{
    let mut left = bytes;
    for global in &code.globals {
        let taken = static_bytes(code, sizes, global);
        if taken > left {
            return None;
        }
        left -= taken;
    }
    Some(left)
}

/// The size of a description; FAR stands for every greater one, and 0 for that of a type with a `*`.
fn cut_size(of: &ParameterType) -> u64
    ensures { result ≡ cut_size of.now }
{
    match of.stated() {
        Some(description) => far_size(description),
        None => 0,
    }
}

/// The sizes of descriptions and types; FAR stands for every greater one.
fn sizes_of(alloc: Global, types: &[ParameterType]) -> Result<Vec<u64>, AllocError>
    ensures { IfOk result (λ sizes. sizes.items ≡ cut_sizes types.now) }
{
    let mut sizes = Vec::new(alloc);
    for of in types {
        sizes.push(cut_size(of))?;
    }
    Ok(sizes)
}

/// The sizes of the descriptions of units.
fn all_sizes(alloc: Global, units: &[Member]) -> Result<Vec<Vec<u64>>, AllocError>
    ensures { IfOk result (λ all. map (λ sizes. sizes.items) all.items ≡ map unit_sizes units.now) }
{
    let mut all = Vec::new(alloc);
    for unit in units {
        all.push(sizes_of(alloc, &unit.deck.code.descriptions)?)?;
    }
    Ok(all)
}

/// What is left of so many bytes after the static variables that units have for themselves; none where these are more.
fn after_units(units: &[Member], all: &[Vec<u64>], bytes: u64) -> Option<u64>
    requires { (bytes ≤ 16777216) × (map (λ sizes. sizes.items) all.now ≡ map unit_sizes units.now) }
    ensures { Remains result bytes (sum_by (λ u. sum_by (spelling.static_bytes u.deck.code) u.deck.code.globals)
        (map member_view units.now)) }
{
    let mut left = bytes;
    let mut place: usize = 0;
    for unit in units {
        left = after_unit(&unit.deck.code, &all[place], left)?;
        place += 1;
    }
    Some(left)
}

/// The bytes of a global that is an external static variable.
fn declared_bytes(code: &Code, sizes: &[u64], number: u16) -> u64
    requires { sizes.now ≡ cut_sizes code.now.descriptions.items }
    ensures { result ≡ min (spelling.declared_bytes (code_view code.now)
        (slice_get (map global_view code.now.globals.items) number)) 4294967296 }
{
    match code.globals.get(usize::from(number)) {
        Some(
            CodedGlobal::ExternalVariable {
                kind: VariableKind::Static,
                template,
                ..
            },
        ) => template_bytes(code, sizes, *template),
        _ => 0,
    }
}

/// The bytes of an external static variable, by its first declaration.
fn external_bytes(units: &[Member], all: &[Vec<u64>], external: &External) -> u64
    requires { map (λ sizes. sizes.items) all.now ≡ map unit_sizes units.now }
    ensures { result ≡ min (spelling.external_bytes (map member_view units.now) (external_view external.now))
        4294967296 }
{
    let place = usize::from(external.unit);
    if place >= units.len() {
        return 0;
    }
    declared_bytes(&units[place].deck.code, &all[place], external.global)
}

/// What is left of so many bytes after external static variables; none where these are more.
fn after_externals(
    units: &[Member],
    all: &[Vec<u64>],
    externals: &[External],
    bytes: u64,
) -> Option<u64>
    requires { (bytes ≤ 16777216) × (map (λ sizes. sizes.items) all.now ≡ map unit_sizes units.now) }
    ensures { Remains result bytes (sum_by (spelling.external_bytes (map member_view units.now))
        (map external_view externals.now)) }
{
    let mut left = bytes;
    for external in externals {
        let taken = external_bytes(units, all, external);
        if taken > left {
            return None;
        }
        left -= taken;
    }
    Some(left)
}

/// Whether a module keeps the limits. An error comes where memory runs out.
pub fn module_within(alloc: Global, program: &Module) -> Result<bool, AllocError>
    ensures { IfOk result (λ good. good ≡ spelling.module_within_limits (module_view program.now)) }
{
    let units = program.units.as_slice();
    let all = all_sizes(alloc, units)?;
    if !instructions_within(units) {
        return Ok(false);
    }
    match after_units(units, &all, STATIC_LIMIT) {
        Some(left) => Ok(after_externals(units, &all, &program.externals, left).is_some()),
        None => Ok(false),
    }
}
