//! Laws of what a deck says of its unit.
ghost use Rattle.pli_deck_laws.specs.DeckLaws.{ScalarsAreFound, NumbersFit, UnitsAreSaid};
ghost use Rattle.pli_deck_laws.specs.examples.DeckUnits.{WorkedIsWellFormed};

/// A law: the scalar that begins on a byte of a description is the one that decks find there.
#[tactic(auto, using(crate::proofs::ScalarsStand::scalars_are_found))]
pub fn scalars_are_found()
    ensures { ScalarsAreFound }
{}

/// A law: the code of a unit that is well formed and numbered well has no number that is wider than its field, where
/// the globals, the blocks, their slots and the instructions are within the limits of tables. So it is too long only
/// where it is over one of the other limits.
#[tactic(auto, using(crate::proofs::NumbersFit::numbers_fit))]
pub fn numbers_fit()
    ensures { NumbersFit }
{}

/// A law: the deck of a unit that is well formed, numbered well and not too long, of the version in which decks are
/// written, is one that bytes spell: each of its numbers is in the range of its field, what it names is there, its
/// jumps lead to instructions, and its templates are within their limits.
pub fn units_are_said()
    ensures { UnitsAreSaid }
{}

/// A worked example: a unit with templates, a group with a control variable and a call is well formed.
pub fn worked_unit()
    ensures { WorkedIsWellFormed }
{}
