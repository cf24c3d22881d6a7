//! Decks with their bytes.
ghost use Rattle.std.specs.Prelude.{◌≡◌, IfOk};
ghost use Rattle.pli_code.specs.views.CodeView.{deck_view};
ghost use Rattle.pli_deck_write.specs.Spelling.{deck_bytes};
ghost use Rattle.pli_meaning.specs.Scratch.{is_long};

use pli_code::{Deck, copied_deck};
use pli_deck_write::write_deck;
use std::alloc::{AllocError, Global};
use std::marker::Model;

/// The greatest number of bytes of a deck: its length in a module has four bytes (own).
const BYTE_LIMIT: usize = 4_294_967_295;

/// A deck with the bytes that it is written as, so that a module of it is made without writing it again. Contracts see
/// the deck.
#[derive(Drop)]
pub struct SpelledDeck {
    deck: Deck,
    bytes: Vec<u8>,
}

impl Model for SpelledDeck {
    ghost use Rattle.std.specs.Prelude.{◌≡◌};
    ghost use Rattle.pli_code.specs.declared.code.Deck as decks;
    ghost use Rattle.pli_code.specs.views.CodeView.{deck_view};
    ghost use Rattle.pli_deck_write.specs.Spelling.{deck_bytes};
    ghost use Rattle.pli_map.specs.contracts.description.Description as described;
    ghost use Rattle.pli_map.specs.contracts.parameter.ParameterType as types;
    ghost use Rattle.std.specs.Coded.{codes};

    ghost Value = { decks.Deck };

    ghost coded = { Prim.hlevel (codes, described.the_row.coded, types.the_row.coded) };

    ghost view = { λ s. s.deck };

    ghost invariant = { λ s. s.bytes.items ≡ deck_bytes (deck_view s.deck) };
}

impl SpelledDeck {
    /// A deck, with its bytes. An error comes where memory runs out.
    pub fn new(alloc: Global, deck: Deck) -> Result<SpelledDeck, AllocError>
        ensures { IfOk result (λ spelled. spelled ≡ deck) }
    {
        let mut bytes = write_deck(alloc, &deck)?;
        bytes.shrink_to_fit();
        Ok(SpelledDeck { deck, bytes })
    }

    /// The deck.
    pub fn deck(&self) -> &Deck
        ensures { result.now ≡ self.now }
    {
        &self.deck
    }

    /// The bytes that the deck is written as.
    pub fn bytes(&self) -> &[u8]
        ensures { result.now ≡ deck_bytes (deck_view self.now) }
    {
        self.bytes.as_slice()
    }

    /// Whether they are more than the four bytes of a deck's length in a module can count (own).
    #[tactic(auto, using(pli_deck_write::proofs::BytesAlike::deck_same))]
    pub fn is_long(&self) -> bool
        ensures { result ≡ is_long (deck_view self.now) }
    {
        self.bytes.len() > BYTE_LIMIT
    }

    /// A copy, which equals the original. An error comes where memory runs out.
    pub fn copy(&self, alloc: Global) -> Result<SpelledDeck, AllocError>
        ensures { IfOk result (λ copy. deck_view copy ≡ deck_view self.now) }
    {
        SpelledDeck::new(alloc, copied_deck(alloc, &self.deck)?)
    }
}
