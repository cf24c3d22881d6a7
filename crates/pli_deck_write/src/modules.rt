//! Modules as bytes.
ghost use Rattle.std.specs.Prelude.{◌≡◌, ◌++◌, None, true, length, map, IfOk, OnOk};
ghost use Rattle.std.specs.List.{flat_map};
ghost use Rattle.byteorder.specs.Endian.{big_bytes};
ghost use Rattle.pli_code.specs.Modules as modules;
ghost use Rattle.pli_code.specs.views.CodeView.{kind_number, external_view, lent_member_view, lent_module_view};
ghost use Rattle.pli_deck_write.specs.ModuleFields as module_fields;
ghost use Rattle.pli_deck_write.specs.ModuleSpelling.{module_bytes, module_fault, SpellsModule};
ghost use Rattle.pli_deck_write.specs.answers.ModuleHead.{head_bytes};

use crate::spelled::put_spelled;
use crate::write::write_deck;
use crate::writing::{PutsOne, put_bytes, put_count, put_list, put_name};
use pli_code::fields::{put_byte, put_short};
use pli_code::{External, LentMember, LentModule};
use pli_program::VariableKind;
use std::alloc::{AllocError, Global};

/// The number of a kind.
fn kind_number(kind: VariableKind) -> u8
    ensures { result ≡ kind_number kind }
{
    match kind {
        VariableKind::Static => 2,
        VariableKind::Controlled => 3,
    }
}

/// Puts an external.
struct Externals;

impl PutsOne for Externals {
    type Value = External;

    ghost Said = { modules.External };

    ghost say = { external_view };

    ghost bytes_of = { λ _. (module_fields.external_after None).bytes_of };

    #[tactic(auto, unfolding(crate::specs::ModuleFields::external_after))]
    fn put(&self, out: &mut Vec<u8>, value: &External) -> Result<(), AllocError> {
        put_name(out, &value.name)?;
        put_byte(out, kind_number(value.kind))?;
        put_short(out, value.unit)?;
        put_short(out, value.global)
    }
}

/// Puts a unit, whose deck is written apart first, since its length stands before it.
fn put_member(alloc: Global, out: &mut Vec<u8>, unit: &LentMember<'_>) -> Result<(), AllocError>
    ensures { OnOk result (out.new.items ≡ out.old.items ++ module_fields.member_bytes (lent_member_view unit.now)) }
{
    let deck = write_deck(alloc, unit.deck)?;
    put_spelled(out, unit, &deck)
}

/// Puts units one after another.
fn put_members(alloc: Global, out: &mut Vec<u8>, units: &[LentMember<'_>]) -> Result<(), AllocError>
    ensures { OnOk result (out.new.items ≡ out.old.items ++ flat_map module_fields.member_bytes
        (map lent_member_view units.now)) }
{
    for unit in units {
        put_member(alloc, out, unit)?;
    }
    Ok(())
}

/// Puts what stands before the units of a module: PLIM, the version, how many units there are, the main one, and
/// externals.
pub(crate) fn put_head(out: &mut Vec<u8>, program: &LentModule<'_>) -> Result<(), AllocError>
    ensures { OnOk result (out.new.items ≡ out.old.items ++ head_bytes (lent_module_view program.now)) }
{
    put_bytes(out, b"PLIM")?;
    put_byte(out, program.version.number())?;
    put_count(out, program.units.len())?;
    put_short(out, program.main)?;
    put_list(out, &Externals, &program.externals)
}

/// Puts a module: what stands before its units, and the units.
fn put_module(alloc: Global, out: &mut Vec<u8>, program: &LentModule<'_>) -> Result<(), AllocError>
    ensures { OnOk result (out.new.items ≡ out.old.items ++ module_bytes (lent_module_view program.now)) }
{
    put_head(out, program)?;
    put_members(alloc, out, &program.units)
}

/// The bytes of a module, which are its one spelling where it has one. An error comes where memory runs out.
pub fn write_module(alloc: Global, program: &LentModule<'_>) -> Result<Vec<u8>, AllocError>
    ensures bytes { IfOk result (λ v. v.items ≡ module_bytes (lent_module_view program.now)) }
    ensures spelled { let m = lent_module_view program.now in
        module_fields.module_field.fits m ≡ true → module_fault m ≡ None → IfOk result (λ v. SpellsModule v.items m) }
{
    let mut out = Vec::new(alloc);
    put_module(alloc, &mut out, program)?;
    Ok(out)
}
