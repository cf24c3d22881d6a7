//! The law of the grammar.
ghost use Rattle.pli_grammar.specs.GrammarLaws.{UnitsAreParsed};

/// A law: the tree of a unit, or its one fault, is what the parser gives, for all tokens.
#[tactic(auto, using(crate::proofs::UnitsAlike::unit_same))]
pub fn units_are_parsed()
    ensures { UnitsAreParsed }
{}
