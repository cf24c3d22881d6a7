//! Laws of the grammar of statements and units: what is spelled so is read, and tokens spell at most one unit.
ghost use Rattle.std.specs.Prelude.{◌≡◌, Ok};
ghost use Rattle.pli_base.specs.Words.{Tokens};
ghost use Rattle.pli_base.specs.Statements as tree;
ghost use Rattle.pli_parse_statement.specs.StatementGrammar.{SpellsUnit};
ghost use Rattle.pli_parse_statement.specs.StatementReading.{unit_of};

/// A law: the tree of a unit that tokens spell is what is read of them.
pub fn units_spelled_are_read()
    ensures { (ts : Tokens) (u : tree.ExternalProcedure) → SpellsUnit ts u → unit_of ts ≡ Ok u }
{}

/// A law: tokens spell at most one unit.
pub fn one_unit()
    ensures { (ts : Tokens) (u v : tree.ExternalProcedure) → SpellsUnit ts u → SpellsUnit ts v → u ≡ v }
{}
