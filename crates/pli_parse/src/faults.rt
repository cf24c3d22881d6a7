//! Laws of the grammar: which faults units and statements have.
ghost use Rattle.std.specs.Prelude.{◌≡◌, ℕ, ◌+◌, ◌-◌, Err, false, length};
ghost use Rattle.pli_base.specs.Reading.{at_fault};
ghost use Rattle.pli_base.specs.Words.{Tokens};
ghost use Rattle.pli_base.specs.declared.code.Code.TheVariants.{NoProcedure, EndMissing, TextAfterEnd};
ghost use Rattle.pli_base.specs.declared.token.Fault.{Fault};
ghost use Rattle.pli_parse_fault.specs.FaultCodes.{IsToldOf};
ghost use Rattle.pli_parse_statement.specs.StatementReading.{has_semicolon, statement_at, unit_of};
ghost use Rattle.pli_parse_statement.specs.StatementWords.{Context};
ghost use Rattle.pli_parse.specs.UnitFaults.{HasNoProcedure, HasTextAfter};

/// A law: P1 is answered exactly where the text is empty or one of its first three tokens cannot stand, at the first
/// such.
#[tactic(auto, using(crate::proofs::UnitFaults::no_procedure_told, crate::proofs::UnitFaults::no_procedure_met))]
pub fn no_procedure_begins()
    ensures told { (ts : Tokens) (p : ℕ) → HasNoProcedure ts p → unit_of ts ≡ at_fault NoProcedure p }
    ensures met { (ts : Tokens) (f : Fault) → unit_of ts ≡ Err f → f.code ≡ NoProcedure → HasNoProcedure ts f.at }
{}

/// A law: P9 stands at the last token, and is answered where no `;` is ahead of a statement's start.
#[tactic(auto, using(crate::proofs::UnitFaults::end_missing_met, crate::proofs::UnitFaults::end_missing_of_statement, crate::proofs::UnitFaults::no_semicolon_ahead))]
pub fn texts_end_too_early()
    ensures units { (ts : Tokens) (f : Fault) → unit_of ts ≡ Err f → f.code ≡ EndMissing → f.at ≡ length ts - 1 }
    ensures statements { (c : Context) (levels p k : ℕ) (ts : Tokens) (f : Fault) →
        statement_at levels c p k ts ≡ Err f → f.code ≡ EndMissing → f.at ≡ p + length ts - 1 }
    ensures no_semicolon { (c : Context) (levels p k : ℕ) (ts : Tokens) →
        has_semicolon ts ≡ false → statement_at levels c p k ts ≡ at_fault EndMissing (p + length ts - 1) }
{}

/// A law: P10 is answered exactly where a front of the tokens spells a unit and something stands after it, at its
/// first token.
#[tactic(auto, using(crate::proofs::UnitFaults::text_after_told, crate::proofs::UnitFaults::text_after_met))]
pub fn text_stands_after()
    ensures told { (ts : Tokens) (p : ℕ) → HasTextAfter ts p → unit_of ts ≡ at_fault TextAfterEnd p }
    ensures met { (ts : Tokens) (f : Fault) → unit_of ts ≡ Err f → f.code ≡ TextAfterEnd → HasTextAfter ts f.at }
{}

/// A law: a fault of a statement is never P1 or P10; it stands at one of its tokens, or the text ends too early, and it
/// is P9.
#[tactic(auto, using(crate::proofs::StatementFaultPlaces::statement_told))]
pub fn statements_have_codes_of_parts()
    ensures { (c : Context) (levels p k : ℕ) (ts : Tokens) (f : Fault) → statement_at levels c p k ts ≡ Err f →
        IsToldOf p ts f }
{}
