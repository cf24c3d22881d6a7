//! Laws of the places of faults.
ghost use Rattle.pli_meaning.specs.DiagnosticPlaces.{DiagnosticsHavePlaces, FaultsHavePlaces};
ghost use Rattle.pli_meaning.specs.FaultOrder.{DeclarationFaultsRise};
ghost use Rattle.pli_meaning.specs.MarkTokens.{MarksRise};
ghost use Rattle.pli_meaning.specs.StatementStarts.{StatementsBegin};
ghost use Rattle.pli_meaning.specs.TypeFaultPlaces.{TypeFaultsStandAtTokens};

/// A law: where the tokens of a tree rise, and its statements begin where they should, the tokens of its outline's
/// marks rise.
#[tactic(auto, using(crate::proofs::MarksRise::marks_rise))]
pub fn marks_rise()
    ensures { MarksRise }
{}

/// A law: in each unit that is read an assignment begins at the first token of its target, and an inner procedure is
/// labelled by its own name.
#[tactic(auto, using(crate::proofs::StatementsBegin::statements_begin))]
pub fn statements_begin()
    ensures { StatementsBegin }
{}

/// A law: the faults of the declarations of a unit that is read stand at tokens of its text that rise, so that no two
/// stand at one token.
#[tactic(auto, using(crate::proofs::DeclarationFaultsRise::declaration_faults_rise))]
pub fn declaration_faults_rise()
    ensures { DeclarationFaultsRise }
{}

/// A law: each fault of types of a unit that is read stands at a token of the text.
#[tactic(auto, using(crate::proofs::TypeFaultsStand::type_faults_stand_at_tokens))]
pub fn type_faults_stand_at_tokens()
    ensures { TypeFaultsStandAtTokens }
{}

/// A law: each fault of a unit, of its grammar, its declarations, its types or its code, stands at a token of its text,
/// and at 0 where the text has none; so each diagnostic of a unit that could be expanded stands where a token of the
/// expansion comes from, and at line 1 of the unit where the expansion has no token.
#[tactic(auto, using(crate::proofs::PlacesHold::faults_have_places, crate::proofs::PlacesHold::diagnostics_have_places))]
pub fn faults_have_places()
    ensures faults { FaultsHavePlaces }
    ensures diagnostics { DiagnosticsHavePlaces }
{}
