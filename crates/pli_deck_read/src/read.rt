//! Decks from bytes.
ghost use Rattle.std.specs.Prelude.{◌≡◌, ◌<◌, ℕ, Ok, IfOk, slice_index};
ghost use Rattle.pli_deck_write.specs.DeckFaults.{fault_of};
ghost use Rattle.pli_deck_write.specs.Spelling.{SpellsDeck, deck_read, deck_read_in};
ghost use Rattle.pli_deck_write.specs.Whole.{whole};
ghost use Rattle.pli_code.specs.CodeTables as plain;
ghost use Rattle.pli_code.specs.views.CodeView.{deck_view};
ghost use Rattle.pli_base.specs.answers.FailureAnswers.{Gives};
ghost use Rattle.pli_deck_read.specs.Wanted.{wanted_version};

use crate::error::ReadError;
use crate::whole::deck_at;
use pli_code::{Deck, DeckFault, Version};
use pli_deck_faults::deck_fault;
use std::alloc::Global;

/// A deck, if no bytes stand after it and it has no fault.
#[tactic(auto, using(crate::proofs::WholeReading::more_left, crate::proofs::WholeReading::none_left))]
fn whole(alloc: Global, deck: Deck, rest: &[u8]) -> Result<Deck, ReadError>
    ensures { Gives deck_view result (whole fault_of (deck_view deck) rest.now) }
{
    if !rest.is_empty() {
        return Err(ReadError::Fault(DeckFault::Trailing));
    }
    match deck_fault(alloc, &deck)? {
        None => Ok(deck),
        Some(fault) => Err(ReadError::Fault(fault)),
    }
}

/// The deck that bytes are in the wanted version, or in any where none is wanted, or the first fault.
#[tactic(auto, unfolding(pli_deck_write::specs::Spelling::deck_read_in))]
pub fn read(alloc: Global, wanted: Option<Version>, bytes: &[u8]) -> Result<Deck, ReadError>
    ensures exact { Gives deck_view result (deck_read_in (wanted_version wanted) bytes.now) }
    ensures bytes { (place : ℕ) → slice_index bytes.now place < 256 }
{
    match deck_at(alloc, wanted, bytes) {
        Ok((deck, rest)) => whole(alloc, deck, rest),
        Err(error) => Err(error),
    }
}

/// The deck that bytes spell, in any version. An error is the first fault, or that memory ran out. Takes memory in
/// proportion to the bytes, and no call is deeper than the 512 levels of descriptions.
pub fn read_deck(alloc: Global, bytes: &[u8]) -> Result<Deck, ReadError>
    // What is read is spelled so.
    ensures read { IfOk result (λ d. SpellsDeck bytes.now (deck_view d)) }
    // What is spelled so is read, unless memory runs out.
    ensures spelled { (d : plain.Deck) → SpellsDeck bytes.now d → Gives deck_view result (Ok d) }
    // Which fault it is.
    ensures exact { Gives deck_view result (deck_read bytes.now) }
{
    read(alloc, None, bytes)
}
