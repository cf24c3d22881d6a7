//! Laws of what names mean where types are asked for, and of the numbers of statements.
ghost use Rattle.std.specs.Prelude.{◌≡◌, ℕ, true, Ok};
ghost use Rattle.pli_base.specs.Statements.{ExternalProcedure};
ghost use Rattle.pli_base.specs.Words.{Tokens};
ghost use Rattle.pli_parse_expression.specs.Expressions.{Deeper};
ghost use Rattle.pli_parse_expression.specs.Operators.{nesting_limit};
ghost use Rattle.pli_parse_statement.specs.StatementReading.{unit_of};
ghost use Rattle.pli_declare.specs.ResolvedUnits.{ResolvedUnit, resolved_unit_of};
ghost use Rattle.pli_type_rules.specs.NamedUnits.{named_unit};
ghost use Rattle.pli_type_laws.specs.NameFacts.{NameFacts};
ghost use Rattle.pli_type_laws.specs.Nesting.{ListNests};
ghost use Rattle.pli_type_laws.specs.Numbering.{AreNumbered};
ghost use Rattle.pli_type_laws.specs.UnitBlocks.{BlocksAreOfTree};

/// A law: where the blocks of a unit are those of its tree, a name that means a variable means one of the blocks around
/// or of the program, which begins where its root says and has the type that is said, as a whole generation unless it
/// is a parameter; or a BASED one, and then the locator that BASED names is there; each of its parts is where its
/// offset and its subscripts say, wherever these are within their bounds, and the area is there that its OFFSET names;
/// a name that means a procedure means one of the tree, directly in a block around, and the area is there that its
/// RETURNS names; and each variable begins with values that its scalars hold.
pub fn names_mean_variables()
    ensures { (r : ResolvedUnit) → BlocksAreOfTree r → NameFacts (named_unit 63 r) }
{}

/// A law: the blocks of a resolved unit are those of its tree, where procedures, BEGIN blocks and ON-units begin.
#[tactic(auto, using(crate::proofs::BlocksOfUnits::blocks_are_of_tree))]
pub fn blocks_are_of_tree()
    ensures { (u : ExternalProcedure) → BlocksAreOfTree (resolved_unit_of u) }
{}

/// A law: the statements of a unit that is read are numbered in the order of the text.
#[tactic(auto, using(crate::proofs::NumberingHolds::units_are_numbered))]
pub fn statements_are_numbered()
    ensures { (texts : Tokens) (u : ExternalProcedure) → unit_of texts ≡ Ok u →
        (from : ℕ) × AreNumbered from u.statements }
{}

/// A law: the statements of a unit that is read nest within the limit, and a procedure stands directly in the list of a
/// block.
pub fn statements_nest()
    ensures { (texts : Tokens) (u : ExternalProcedure) → unit_of texts ≡ Ok u →
        Deeper (λ m. ListNests true m u.statements) nesting_limit }
{}
