//! Laws of the grammar of statements: what is read of some texts, where faults stand, and how tokens of trees rise.
ghost use Rattle.std.specs.Prelude.{◌≡◌, ℕ, Ok, Err, length};
ghost use Rattle.pli_base.specs.FaultPlaces.{StandsAtToken, FaultStands};
ghost use Rattle.pli_base.specs.Reading.{Front};
ghost use Rattle.pli_base.specs.Statements as tree;
ghost use Rattle.pli_base.specs.TreeTokens.{Rises, statement_tokens, unit_tokens};
ghost use Rattle.pli_base.specs.Words.{Tokens};
ghost use Rattle.pli_base.specs.declared.token.Fault.{Fault};
ghost use Rattle.pli_parse_statement.specs.StatementReading.{statement_at, unit_of};
ghost use Rattle.pli_parse_statement.specs.StatementWords.{Context};
ghost use Rattle.pli_parse.specs.examples.StatementExamples.{KeywordsOfIf, KeywordsOfDo, KeywordsOfPut};
ghost use Rattle.pli_parse.specs.examples.StatementExamples.{LabelThatIsKeyword, DeclareAssigned, NearestIf};
ghost use Rattle.pli_parse.specs.examples.StatementExamples.{ElseOfBoth, ElseAssigned, ElseLabel, LabelledGroup};
ghost use Rattle.pli_parse.specs.examples.StatementExamples.{UnitOfGoTo, SetBeforeIn, WholeUnit, NoText};
ghost use Rattle.pli_parse.specs.examples.StatementExamples.{NoProcedureWord, NoSemicolon, NoSemicolonAhead};
ghost use Rattle.pli_parse.specs.examples.StatementExamples.{TextAfterUnit, NoValue, GoAlone, NoItem, ListNotClosed};
ghost use Rattle.pli_parse.specs.examples.StatementExamples.{NumberAfterDo, NumberAfterGoto, NoThen, NameOfNoLabel};
ghost use Rattle.pli_parse.specs.examples.StatementExamples.{BlockNotEnded, NoEquals, NoResult, NameAsBound, TwoLabels};
ghost use Rattle.pli_parse.specs.examples.StatementExamples.{LabelOfEnd, ProcedureWithoutLabel, NoCondition};
ghost use Rattle.pli_parse.specs.examples.StatementExamples.{ReturnInOnUnit, DeclareAfterThen, ProcedureInGroup};
ghost use Rattle.pli_parse.specs.examples.StatementExamples.{NoPutOption, TwoSkips, GroupTooDeep, ConditionTooDeep};
ghost use Rattle.pli_parse.specs.examples.StatementExamples.{ByBeforeTo, NumbersInBlock, DeepestGroup, WhileAssigned};
ghost use Rattle.pli_parse.specs.examples.StatementExamples.{NoProcedureOption, NoMain, TwoAreas, LabelAfterThen};
ghost use Rattle.pli_parse.specs.examples.StatementExamples.{EndAfterThen, StrayElse, IfAfterOn, LabelOfDeclare};
ghost use Rattle.pli_parse.specs.examples.StatementExamples.{NoReturnedValue, NameOfOuterLabel, EndNotEnded};

/// Worked examples of what statements and units are read as, and of faults.
pub fn worked_examples()
    ensures keywords_of_if { KeywordsOfIf }
    ensures keywords_of_do { KeywordsOfDo }
    ensures keywords_of_put { KeywordsOfPut }
    ensures label_that_is_keyword { LabelThatIsKeyword }
    ensures declare_assigned { DeclareAssigned }
    ensures nearest_if { NearestIf }
    ensures else_of_both { ElseOfBoth }
    ensures else_assigned { ElseAssigned }
    ensures else_label { ElseLabel }
    ensures labelled_group { LabelledGroup }
    ensures unit_of_go_to { UnitOfGoTo }
    ensures set_before_in { SetBeforeIn }
    ensures whole_unit { WholeUnit }
    ensures no_text { NoText }
    ensures no_procedure_word { NoProcedureWord }
    ensures no_semicolon { NoSemicolon }
    ensures no_semicolon_ahead { NoSemicolonAhead }
    ensures text_after_unit { TextAfterUnit }
    ensures no_value { NoValue }
    ensures go_alone { GoAlone }
    ensures no_item { NoItem }
    ensures list_not_closed { ListNotClosed }
    ensures number_after_do { NumberAfterDo }
    ensures number_after_goto { NumberAfterGoto }
    ensures no_then { NoThen }
    ensures name_of_no_label { NameOfNoLabel }
    ensures block_not_ended { BlockNotEnded }
    ensures no_equals { NoEquals }
    ensures no_result { NoResult }
    ensures name_as_bound { NameAsBound }
    ensures two_labels { TwoLabels }
    ensures label_of_end { LabelOfEnd }
    ensures procedure_without_label { ProcedureWithoutLabel }
    ensures no_condition { NoCondition }
    ensures return_in_on_unit { ReturnInOnUnit }
    ensures declare_after_then { DeclareAfterThen }
    ensures procedure_in_group { ProcedureInGroup }
    ensures no_put_option { NoPutOption }
    ensures two_skips { TwoSkips }
    ensures group_too_deep { GroupTooDeep }
    ensures condition_too_deep { ConditionTooDeep }
    ensures by_before_to { ByBeforeTo }
    ensures numbers_in_block { NumbersInBlock }
    ensures deepest_group { DeepestGroup }
    ensures while_assigned { WhileAssigned }
    ensures no_procedure_option { NoProcedureOption }
    ensures no_main { NoMain }
    ensures two_areas { TwoAreas }
    ensures label_after_then { LabelAfterThen }
    ensures end_after_then { EndAfterThen }
    ensures stray_else { StrayElse }
    ensures if_after_on { IfAfterOn }
    ensures label_of_declare { LabelOfDeclare }
    ensures no_returned_value { NoReturnedValue }
    ensures name_of_outer_label { NameOfOuterLabel }
    ensures end_not_ended { EndNotEnded }
{}

/// A law: the fault of a unit stands at a token of its text, and at 0 where the text has none; that of a statement
/// stands at one of the tokens from its first on, or, where they have ended, at the last.
pub fn faults_stand_at_tokens()
    ensures units { (ts : Tokens) (f : Fault) → unit_of ts ≡ Err f → StandsAtToken ts f }
    ensures statements { (c : Context) (levels p k : ℕ) (ts : Tokens) (f : Fault) →
        statement_at levels c p k ts ≡ Err f → FaultStands p ts f }
{}

/// A law: the tokens of the tree that is read rise in the order of the text, each before the text's end.
pub fn tokens_of_units_rise()
    ensures units { (ts : Tokens) (u : tree.ExternalProcedure) → unit_of ts ≡ Ok u →
        Rises 0 (unit_tokens u) (length ts) }
    ensures statements { (c : Context) (levels p k : ℕ) (ts : Tokens) (x : Front tree.Statement) →
        statement_at levels c p k ts ≡ Ok x → Rises p (statement_tokens x.value) x.next }
{}
