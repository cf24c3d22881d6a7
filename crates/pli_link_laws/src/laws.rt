//! Laws of linked modules: which bytes spell them, and which decks they have.
ghost use Rattle.pli_link_laws.specs.LinkedModules.{LinkedModulesAreSpelled, LinkingKeepsDecks};

/// A law: where at most 999 units are linked, and the name and the deck of each have a spelling, the deck's in the
/// version in which modules are written, the bytes of the module spell it, and no other: its externals stand in the
/// order of their names, each where it is first declared, each external global leads to an external of its kind or to a
/// unit, and instructions and variables are within their limits.
pub fn linked_modules_are_spelled()
    ensures { LinkedModulesAreSpelled }
{}

/// A law: where units are linked without a fault, the decks of their module are, in order, the decks of the compiled
/// units: linking takes nothing from a unit's deck and adds nothing to it.
#[tactic(auto, using(crate::proofs::LinkedFrom::linking_keeps_decks))]
pub fn linking_keeps_decks()
    ensures { LinkingKeepsDecks }
{}
