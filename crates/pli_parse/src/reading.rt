//! A law of the grammar of statements: what is read is spelled so.
ghost use Rattle.std.specs.Prelude.{◌≡◌, ℕ, Ok, None};
ghost use Rattle.pli_base.specs.Words.{Tokens};
ghost use Rattle.pli_base.specs.Reading.{Front};
ghost use Rattle.pli_parse_declaration.specs.DeclarationGrammar.{SpellsFront};
ghost use Rattle.pli_base.specs.Statements as tree;
ghost use Rattle.pli_base.specs.Statements.{AwaitsElse};
ghost use Rattle.pli_parse_statement.specs.StatementWords.{Context};
ghost use Rattle.pli_parse_statement.specs.StatementReading.{statement_at, else_first, unit_of};
ghost use Rattle.pli_parse_statement.specs.StatementGrammar.{SpellsStatement, SpellsUnit};

/// A law: what is read is spelled so, of the unit, and of a statement, which the front of the tokens spells. After a
/// statement that awaits an ELSE none stands.
#[tactic(auto, using(crate::proofs::StatementRead::unit_reads, crate::proofs::StatementRead::statement_spelled, crate::proofs::StatementRead::none_awaited))]
pub fn units_read_are_spelled()
    ensures units { (ts : Tokens) (u : tree.ExternalProcedure) → unit_of ts ≡ Ok u → SpellsUnit ts u }
    ensures statements { (c : Context) (levels p k : ℕ) (ts : Tokens) (x : Front tree.Statement) →
        statement_at levels c p k ts ≡ Ok x → SpellsFront (λ q us s. SpellsStatement c levels q k us s) p ts x }
    ensures alternatives { (c : Context) (levels p k : ℕ) (ts : Tokens) (x : Front tree.Statement) →
        statement_at levels c p k ts ≡ Ok x → AwaitsElse x.value → else_first x.rest ≡ None }
{}
