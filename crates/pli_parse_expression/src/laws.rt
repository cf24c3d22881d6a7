//! Laws of the grammar.
ghost use Rattle.std.specs.Prelude.{◌≡◌, ℕ, ◌+◌, ◌≤◌, ◌++◌, Ok, Err, length, true};
ghost use Rattle.pli_base.specs.FaultPlaces.{FaultStands};
ghost use Rattle.pli_base.specs.Syntax.{Expression, Reference};
ghost use Rattle.pli_base.specs.TreeTokens.{Rises, expression_tokens, reference_tokens};
ghost use Rattle.pli_base.specs.declared.token.Fault.{Fault};
ghost use Rattle.pli_parse_fault.specs.FirstFaults.{IsFirstFault};
ghost use Rattle.pli_parse_expression.specs.Expressions.{operators, SpellsOutermost, SpellsReferenceAlone};
ghost use Rattle.pli_parse_expression.specs.Expressions.{EndsExpression, EndsReference};
ghost use Rattle.pli_parse_expression.specs.Ends.{ExpressionEnds, ReferenceEnds};
ghost use Rattle.pli_base.specs.Reading.{Front};
ghost use Rattle.pli_parse_expression.specs.declared.counted.Counted.{Counted};
ghost use Rattle.pli_parse_expression.specs.Reading.{counted, expression_at, reference_at};
ghost use Rattle.pli_parse_expression.specs.laws.Laws.{FrontSpells};
ghost use Rattle.pli_parse_expression.specs.AssignmentGrammar.{IsAssignment};
ghost use Rattle.pli_parse_expression.specs.Assignments.{is_assignment};
ghost use Rattle.pli_parse_expression.specs.examples.Examples.{SignAndSum, Differences, AllLevels, Comparisons};
ghost use Rattle.pli_parse_expression.specs.examples.Examples.{Alternatives, LocatedMember, NoArguments, InParentheses};
ghost use Rattle.pli_parse_expression.specs.examples.Examples.{TwoLists, TextEnds, NoOperand, NotClosed, NoListThere};
ghost use Rattle.pli_parse_expression.specs.examples.Examples.{NothingAfterComma, NoMember, NothingLocated};
ghost use Rattle.pli_parse_expression.specs.examples.Examples.{DeepestList, TooDeepList, TooDeepSign, LastOperator};
ghost use Rattle.pli_parse_expression.specs.examples.Examples.{TooManyOperators, Target};
ghost use Rattle.pli_base.specs.Words.{Tokens};

/// Worked examples: what is read at the front of tokens, and the faults.
pub fn worked_examples()
    ensures sign_and_sum { SignAndSum }
    ensures differences { Differences }
    ensures all_levels { AllLevels }
    ensures comparisons { Comparisons }
    ensures alternatives { Alternatives }
    ensures located_member { LocatedMember }
    ensures no_arguments { NoArguments }
    ensures in_parentheses { InParentheses }
    ensures two_lists { TwoLists }
    ensures text_ends { TextEnds }
    ensures no_operand { NoOperand }
    ensures not_closed { NotClosed }
    ensures no_list_there { NoListThere }
    ensures nothing_after_comma { NothingAfterComma }
    ensures no_member { NoMember }
    ensures nothing_located { NothingLocated }
    ensures deepest_list { DeepestList }
    ensures too_deep_list { TooDeepList }
    ensures too_deep_sign { TooDeepSign }
    ensures last_operator { LastOperator }
    ensures too_many_operators { TooManyOperators }
    ensures target { Target }
{}

/// A law: the front of the tokens spells the expression that is read there, within the limits.
#[tactic(auto, using(crate::proofs::ReadIsSpelled::expression_spelled))]
pub fn expressions_read_are_spelled()
    ensures { (levels p : ℕ) (ts : Tokens) (x : Front (Counted Expression)) →
        expression_at levels 0 p ts ≡ Ok x → FrontSpells (SpellsOutermost levels) p ts x }
{}

/// A law: an expression that is spelled within the limits, before tokens that cannot continue it, is read.
#[tactic(auto, using(crate::proofs::SpelledIsRead::expression_is_read))]
pub fn expressions_spelled_are_read()
    ensures { (levels p : ℕ) (ts more : Tokens) (e : Expression) → SpellsOutermost levels p ts e → EndsExpression more →
        expression_at levels 0 p (ts ++ more) ≡ counted e (operators e) (p + length ts) more }
{}

/// A law: tokens spell one expression at most.
#[tactic(auto, using(crate::proofs::SpelledIsRead::at_most_one))]
pub fn one_expression()
    ensures { (levels p : ℕ) (ts : Tokens) (e f : Expression) →
        SpellsOutermost levels p ts e → SpellsOutermost levels p ts f → e ≡ f }
{}

/// A law: the front of the tokens spells the reference that is read there, within the limits.
#[tactic(auto, using(crate::proofs::ReadIsSpelled::reference_spelled))]
pub fn references_read_are_spelled()
    ensures { (levels p : ℕ) (ts : Tokens) (x : Front (Counted Reference)) →
        reference_at levels p ts ≡ Ok x → FrontSpells (SpellsReferenceAlone levels) p ts x }
{}

/// A law: a reference that is spelled within the limits, before tokens that cannot continue it, is read.
#[tactic(auto, using(crate::proofs::SpelledIsRead::reference_is_read))]
pub fn references_spelled_are_read()
    ensures { (levels p : ℕ) (ts more : Tokens) (r : Reference) → SpellsReferenceAlone levels p ts r →
        EndsReference more →
        reference_at levels p (ts ++ more) ≡ counted r 0 (p + length ts) more }
{}

/// A law: tokens spell one reference at most.
#[tactic(auto, using(crate::proofs::SpelledIsRead::at_most_one_reference))]
pub fn one_reference()
    ensures { (levels p : ℕ) (ts : Tokens) (r s : Reference) →
        SpellsReferenceAlone levels p ts r → SpellsReferenceAlone levels p ts s → r ≡ s }
{}

/// A law: the test for an assignment accepts tokens exactly where they are a reference, `=` and one expression.
pub fn assignments_are_recognized()
    ensures accepted { (p : ℕ) (ts : Tokens) → is_assignment ts ≡ true → IsAssignment p ts }
    ensures spelled { (p : ℕ) (ts : Tokens) → IsAssignment p ts → is_assignment ts ≡ true }
{}

/// A law: a fault of reading stands at one of the tokens from the first on, or, where they have ended, at the last.
pub fn faults_stand_at_tokens()
    ensures expressions { (levels p : ℕ) (ts : Tokens) (f : Fault) → expression_at levels 0 p ts ≡ Err f →
        FaultStands p ts f }
    ensures references { (levels p : ℕ) (ts : Tokens) (f : Fault) → reference_at levels p ts ≡ Err f →
        FaultStands p ts f }
{}

/// A law: a fault of reading is the first fault of the tokens: those before its token can be completed to an expression
/// within the limits, and with it they cannot; or all can, and they have ended. Tokens have no first fault elsewhere.
pub fn first_faults()
    ensures expressions { (levels p : ℕ) (ts : Tokens) (f : Fault) →
        expression_at levels 0 p ts ≡ Err f → IsFirstFault (SpellsOutermost levels) p ts f }
    ensures references { (levels p : ℕ) (ts : Tokens) (f : Fault) →
        reference_at levels p ts ≡ Err f → IsFirstFault (SpellsReferenceAlone levels) p ts f }
    ensures one_place { (levels p : ℕ) (ts : Tokens) (f g : Fault) →
        IsFirstFault (SpellsOutermost levels) p ts f → IsFirstFault (SpellsOutermost levels) p ts g → f.at ≡ g.at }
    ensures one_place_of_reference { (levels p : ℕ) (ts : Tokens) (f g : Fault) →
        IsFirstFault (SpellsReferenceAlone levels) p ts f → IsFirstFault (SpellsReferenceAlone levels) p ts g →
        f.at ≡ g.at }
{}

/// A law: the tokens of the tree that is read rise in the order of the text, from the first that is read to the last.
pub fn tokens_of_trees_rise()
    ensures expressions { (levels p : ℕ) (ts : Tokens) (x : Front (Counted Expression)) →
        expression_at levels 0 p ts ≡ Ok x → Rises p (expression_tokens x.value.tree) x.next }
    ensures references { (levels p : ℕ) (ts : Tokens) (x : Front (Counted Reference)) →
        reference_at levels p ts ≡ Ok x → Rises p (reference_tokens x.value.tree) x.next }
{}

/// A law: an expression that is spelled within the limits is read exactly before tokens that do not continue it, which
/// its last operand tells; and no longer front of the tokens spells one.
pub fn longest_expressions()
    ensures ended { (levels p : ℕ) (ts more : Tokens) (e : Expression) → SpellsOutermost levels p ts e →
        ExpressionEnds e more →
        expression_at levels 0 p (ts ++ more) ≡ counted e (operators e) (p + length ts) more }
    ensures left { (levels p : ℕ) (ts : Tokens) (x : Front (Counted Expression)) →
        expression_at levels 0 p ts ≡ Ok x → ExpressionEnds x.value.tree x.rest }
    ensures longest { (levels p : ℕ) (ts : Tokens) (x : Front (Counted Expression)) →
        expression_at levels 0 p ts ≡ Ok x →
        (longer more : Tokens) (e : Expression) → ts ≡ longer ++ more → SpellsOutermost levels p longer e →
        p + length longer ≤ x.next }
{}

/// A law: the same of a reference.
pub fn longest_references()
    ensures ended { (levels p : ℕ) (ts more : Tokens) (r : Reference) → SpellsReferenceAlone levels p ts r →
        ReferenceEnds r more →
        reference_at levels p (ts ++ more) ≡ counted r 0 (p + length ts) more }
    ensures left { (levels p : ℕ) (ts : Tokens) (x : Front (Counted Reference)) →
        reference_at levels p ts ≡ Ok x → ReferenceEnds x.value.tree x.rest }
    ensures longest { (levels p : ℕ) (ts : Tokens) (x : Front (Counted Reference)) → reference_at levels p ts ≡ Ok x →
        (longer more : Tokens) (r : Reference) → ts ≡ longer ++ more → SpellsReferenceAlone levels p longer r →
        p + length longer ≤ x.next }
{}
