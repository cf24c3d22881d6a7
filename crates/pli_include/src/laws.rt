//! Laws of expansion.
ghost use Rattle.pli_include.specs.examples.Examples.{Included, IncludedQuoted, LastTokenTooMany, DirectiveTooLong};
ghost use Rattle.pli_include.specs.examples.Examples.{AbsentMember, Recursive, TooManyBeforeRecursive};
ghost use Rattle.pli_include.specs.examples.Examples.{NotEndedInMember, QuotedNoName, FaultyMember, Twice};
ghost use Rattle.pli_include.specs.laws.Laws.{LevelIsNeverMet, TextsHaveOrigins, TraceDecides, ExpansionStays};

/// A law: an expansion's recursion is founded on the tokens that may still be read, so that its level is never met.
pub fn level_is_never_met()
    ensures { LevelIsNeverMet }
{}

/// A law: members that have the same under each name that an expansion looked up have the same expansion, with the same
/// names; so a store that answers the names of a trace as before has that expansion still.
pub fn trace_decides()
    ensures looks { TraceDecides }
    ensures stores { ExpansionStays }
{}

/// A law: each text of an expansion has its origin, and no more texts stay than tokens may be read.
pub fn texts_have_origins()
    ensures { TextsHaveOrigins }
{}

/// Worked examples of expansions and of their first faults.
#[tactic(auto, unfolding(crate::specs::Expansion::expanded_within, crate::specs::Expansion::included, crate::specs::Expansion::read_pieces, crate::specs::Pieces::pieces_after))]
pub fn worked_examples()
    ensures included { Included }
    ensures included_quoted { IncludedQuoted }
    ensures last_token_too_many { LastTokenTooMany }
    ensures directive_too_long { DirectiveTooLong }
    ensures absent_member { AbsentMember }
    ensures recursive { Recursive }
    ensures too_many_before_recursive { TooManyBeforeRecursive }
    ensures not_ended_in_member { NotEndedInMember }
    ensures quoted_no_name { QuotedNoName }
    ensures faulty_member { FaultyMember }
    ensures twice { Twice }
{}
