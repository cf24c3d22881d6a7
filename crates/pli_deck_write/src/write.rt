//! Decks as bytes.
ghost use Rattle.std.specs.Prelude.{◌≡◌, ◌++◌, IfOk, OnOk};
ghost use Rattle.pli_deck_write.specs.DeckFields as deck_fields;
ghost use Rattle.pli_deck_write.specs.Spelling.{deck_bytes, IsDeck, SpellsDeck};
ghost use Rattle.pli_code.specs.views.CodeView.{code_view, deck_view};

use crate::describing::Descriptions;
use crate::putting::{Blocks, Constants, Globals, Instructions, Templates, put_signature};
use crate::writing::{put_bytes, put_flag, put_list, put_name};
use pli_code::fields::put_byte;
use pli_code::{Code, Deck, Version};
use std::alloc::{AllocError, Global};

/// Puts code as a version has it: its signature, its tables and its instructions.
#[tactic(auto, unfolding(crate::specs::DeckFields::code), using(crate::proofs::PutLemmas::mapped_length, crate::proofs::PutLemmas::unmapped))]
fn put_code(out: &mut Vec<u8>, version: Version, code: &Code) -> Result<(), AllocError>
    ensures { OnOk result (out.new.items ≡ out.old.items ++ (deck_fields.code version).bytes_of (code_view code.now)) }
{
    put_signature(out, &code.signature)?;
    put_list(out, &Descriptions, code.descriptions.as_slice())?;
    put_list(out, &Templates { version }, code.templates.as_slice())?;
    put_list(out, &Constants { version }, code.values.as_slice())?;
    put_list(out, &Globals, code.globals.as_slice())?;
    put_list(out, &Blocks, code.blocks.as_slice())?;
    put_list(out, &Instructions, code.instructions.as_slice())
}

/// Puts the contents of a deck.
#[tactic(auto, unfolding(crate::specs::DeckFields::contents))]
fn put_contents(out: &mut Vec<u8>, deck: &Deck) -> Result<(), AllocError>
    ensures { let parts = deck_fields.deck_parts (deck_view deck.now) in
        OnOk result (out.new.items ≡ out.old.items ++ (deck_fields.contents parts.0).bytes_of parts.1) }
{
    put_name(out, &deck.name)?;
    put_flag(out, deck.is_main)?;
    put_code(out, deck.version, &deck.code)
}

/// Puts a deck: PLID, the version, and the contents.
#[tactic(auto, unfolding(crate::specs::DeckFields::deck_in_versions))]
fn put_deck(out: &mut Vec<u8>, deck: &Deck) -> Result<(), AllocError>
    ensures { OnOk result (out.new.items ≡ out.old.items ++ deck_bytes (deck_view deck.now)) }
{
    put_bytes(out, b"PLID")?;
    put_byte(out, deck.version.number())?;
    put_contents(out, deck)
}

/// The bytes of a deck in its version, which are its one spelling where it has one. An error comes where memory runs
/// out.
pub fn write_deck(alloc: Global, deck: &Deck) -> Result<Vec<u8>, AllocError>
    ensures bytes { IfOk result (λ v. v.items ≡ deck_bytes (deck_view deck.now)) }
    ensures spelled { IsDeck (deck_view deck.now) → IfOk result (λ v. SpellsDeck v.items (deck_view deck.now)) }
{
    let mut out = Vec::new(alloc);
    put_deck(&mut out, deck)?;
    Ok(out)
}
