//! What compiling a unit gives.
ghost use Rattle.std.specs.Prelude.{◌≡◌, Ok, Err, option_map, IfOk};
ghost use Rattle.std.specs.Result.{result_ok};
ghost use Rattle.pli_code.specs.views.CodeView.{deck_view};
ghost use Rattle.pli_deck_write.specs.Spelling.{deck_bytes};
ghost use Rattle.pli_deck.specs.Faults.{faults_of};
ghost use Rattle.pli_deck.specs.views.OutcomeView.{outcome_view};

use crate::spelled::SpelledDeck;
use pli_base::Fault;
use pli_code::Deck;
use std::alloc::{AllocError, Global};

/// What a unit was compiled to: its deck, or its faults. One comes from `Compiler::compile` and from `copy` alone.
/// Contracts see the deck or the faults.
#[derive(Drop)]
pub struct Compiled {
    deck: Option<SpelledDeck>,
    /// Told where there is no deck.
    faults: Vec<Fault>,
}

impl Compiled {
    /// The deck of a unit that was compiled.
    #[tactic(auto, unfolding(crate::specs::views::OutcomeView::outcome_view))]
    pub(crate) fn whole(alloc: Global, deck: SpelledDeck) -> Compiled
        ensures { outcome_view result ≡ Ok (deck_view deck) }
    {
        Compiled {
            deck: Some(deck),
            faults: Vec::new(alloc),
        }
    }

    /// The faults of a unit that was not.
    #[tactic(auto, unfolding(crate::specs::views::OutcomeView::outcome_view))]
    pub(crate) fn faulty(faults: Vec<Fault>) -> Compiled
        ensures { outcome_view result ≡ Err faults.items }
    {
        Compiled { deck: None, faults }
    }

    /// The deck, where there are no faults.
    #[tactic(auto, unfolding(crate::specs::views::OutcomeView::outcome_view))]
    pub fn deck(&self) -> Option<&Deck>
        ensures { option_map (λ deck. deck_view deck.now) result ≡ result_ok (outcome_view self.now) }
    {
        match &self.deck {
            Some(spelled) => Some(spelled.deck()),
            None => None,
        }
    }

    /// The bytes that the deck is written as, where there are no faults.
    #[tactic(auto, unfolding(crate::specs::views::OutcomeView::outcome_view))]
    pub fn bytes(&self) -> Option<&[u8]>
        ensures { option_map (λ bytes. bytes.now) result ≡ option_map deck_bytes (result_ok (outcome_view self.now)) }
    {
        match &self.deck {
            Some(spelled) => Some(spelled.bytes()),
            None => None,
        }
    }

    /// The faults, in the order in which the pass that has them tells them; none where there is a deck.
    #[tactic(auto, unfolding(crate::specs::views::OutcomeView::outcome_view))]
    pub fn faults(&self) -> &[Fault]
        ensures { result.now ≡ faults_of (outcome_view self.now) }
    {
        match self.deck {
            Some(_) => &self.faults[..0],
            None => &self.faults,
        }
    }

    /// A copy, which equals the original. Takes time in proportion to the code. An error comes where memory runs out.
    #[tactic(auto, unfolding(crate::specs::views::OutcomeView::outcome_view))]
    pub fn copy(&self, alloc: Global) -> Result<Compiled, AllocError>
        ensures { IfOk result (λ copy. outcome_view copy ≡ outcome_view self.now) }
    {
        match &self.deck {
            Some(spelled) => Ok(Compiled::whole(alloc, spelled.copy(alloc)?)),
            None => Ok(Compiled::faulty(Vec::from_slice(alloc, &self.faults)?)),
        }
    }
}
