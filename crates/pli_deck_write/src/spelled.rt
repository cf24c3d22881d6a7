//! Modules as bytes, where the bytes of their decks are there already.
ghost use Rattle.std.specs.Prelude.{◌≡◌, ◌++◌, map, IfOk, OnOk};
ghost use Rattle.std.specs.List.{flat_map};
ghost use Rattle.pli_code.specs.views.CodeView.{lent_member_view, lent_module_view};
ghost use Rattle.pli_deck_write.specs.ModuleFields as module_fields;
ghost use Rattle.pli_deck_write.specs.ModuleSpelling.{module_bytes};
ghost use Rattle.pli_deck_write.specs.Spelling.{deck_bytes};
ghost use Rattle.pli_deck_write.specs.answers.SpelledUnits.{AreDecks};

use crate::modules::put_head;
use crate::putting::put_numbers;
use crate::writing::{put_bytes, put_large_count, put_name};
use pli_code::{LentMember, LentModule};
use std::alloc::{AllocError, Global};

/// Puts a unit, whose deck has these bytes.
#[tactic(auto, unfolding(crate::specs::ModuleFields::member))]
pub(crate) fn put_spelled(
    out: &mut Vec<u8>,
    unit: &LentMember<'_>,
    deck: &[u8],
) -> Result<(), AllocError>
    requires { deck.now ≡ deck_bytes (lent_member_view unit.now).deck }
    ensures { OnOk result (out.new.items ≡ out.old.items ++ module_fields.member_bytes (lent_member_view unit.now)) }
{
    put_name(out, &unit.name)?;
    put_large_count(out, deck.len())?;
    put_bytes(out, deck)?;
    put_numbers(out, &unit.links)
}

/// Puts units one after another, whose decks have these bytes.
fn put_spelled_members(
    out: &mut Vec<u8>,
    units: &[LentMember<'_>],
    decks: &[&[u8]],
) -> Result<(), AllocError>
    requires { AreDecks (map (λ d. d.now) decks.now) (map lent_member_view units.now) }
    ensures { OnOk result (out.new.items ≡ out.old.items ++ flat_map module_fields.member_bytes
        (map lent_member_view units.now)) }
{
    for (at, unit) in units.iter().enumerate() {
        put_spelled(out, unit, decks[at])?;
    }
    Ok(())
}

/// The bytes of a module, whose decks have these bytes, in the order of its units: what `write_module` gives, with no
/// deck written anew. An error comes where memory runs out.
pub fn write_spelled_module(
    alloc: Global,
    program: &LentModule<'_>,
    decks: &[&[u8]],
) -> Result<Vec<u8>, AllocError>
    requires { AreDecks (map (λ d. d.now) decks.now) (lent_module_view program.now).units }
    ensures { IfOk result (λ v. v.items ≡ module_bytes (lent_module_view program.now)) }
{
    let mut out = Vec::new(alloc);
    put_head(&mut out, program)?;
    put_spelled_members(&mut out, &program.units, decks)?;
    Ok(out)
}
