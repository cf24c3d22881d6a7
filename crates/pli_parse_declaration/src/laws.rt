//! Laws of the grammar of declarations: what it spells and what is read are one.
ghost use Rattle.std.specs.Prelude.{◌≡◌, ◌≤◌, ◌+◌, ◌++◌, ℕ, List, Ok, Err, length};
ghost use Rattle.pli_base.specs.FaultPlaces.{FaultStands};
ghost use Rattle.pli_base.specs.TreeTokens.{Rises, tokens_of_each, item_tokens};
ghost use Rattle.pli_base.specs.Words.{Tokens};
ghost use Rattle.pli_base.specs.Reading.{Front, read_as};
ghost use Rattle.pli_base.specs.Declarations as tree;
ghost use Rattle.pli_base.specs.declared.token.Fault.{Fault};
ghost use Rattle.pli_parse_declaration.specs.DeclarationReading.{items_at, declaration_at, returned_at};
ghost use Rattle.pli_parse_declaration.specs.DeclarationGrammar.{SpellsFront, SpellsItems, SpellsDeclaration};
ghost use Rattle.pli_parse_declaration.specs.DeclarationGrammar.{SpellsReturned, Anywhere, EndsItems};
ghost use Rattle.pli_parse_declaration.specs.ItemEnds.{ItemsEnd};
ghost use Rattle.pli_parse_declaration.specs.examples.DeclarationExamples.{NameThatIsKeyword, Levels, Nest, Asterisks};
ghost use Rattle.pli_parse_declaration.specs.examples.DeclarationExamples.{NoAsteriskAfterColon};
ghost use Rattle.pli_parse_declaration.specs.examples.DeclarationExamples.{NoAsteriskAsPrecision, Values, WrongWord};
ghost use Rattle.pli_parse_declaration.specs.examples.DeclarationExamples.{NoLevelInParentheses, NoScaleButZero};
ghost use Rattle.pli_parse_declaration.specs.examples.DeclarationExamples.{NoFactorOfString, NoDescription};
ghost use Rattle.pli_parse_declaration.specs.examples.DeclarationExamples.{NoDescriptionAfterComma, NoAttributeInNest};
ghost use Rattle.pli_parse_declaration.specs.examples.DeclarationExamples.{TextEnds};

/// Worked examples of what is read after DECLARE, and of faults.
pub fn worked_examples()
    ensures name_that_is_keyword { NameThatIsKeyword }
    ensures levels { Levels }
    ensures nest { Nest }
    ensures asterisks { Asterisks }
    ensures no_asterisk_after_colon { NoAsteriskAfterColon }
    ensures no_asterisk_as_precision { NoAsteriskAsPrecision }
    ensures values { Values }
    ensures wrong_word { WrongWord }
    ensures no_level_in_parentheses { NoLevelInParentheses }
    ensures no_scale_but_zero { NoScaleButZero }
    ensures no_factor_of_string { NoFactorOfString }
    ensures no_description { NoDescription }
    ensures no_description_after_comma { NoDescriptionAfterComma }
    ensures no_attribute_in_nest { NoAttributeInNest }
    ensures text_ends { TextEnds }
{}

/// A law: what is read is spelled so, of items, of all that stands after DECLARE, and of what stands after RETURNS.
pub fn declarations_read_are_spelled()
    ensures items { (p : ℕ) (ts : Tokens) (x : Front (List tree.Item)) →
        items_at p ts ≡ Ok x → SpellsFront SpellsItems p ts x }
    ensures declaration { (p : ℕ) (ts : Tokens) (x : Front (List tree.Item)) →
        declaration_at p ts ≡ Ok x → SpellsFront SpellsDeclaration p ts x }
    ensures returned { (p : ℕ) (ts : Tokens) (x : Front (List tree.DescribedAttribute)) →
        returned_at p ts ≡ Ok x → SpellsFront (Anywhere SpellsReturned) p ts x }
{}

/// A law: what is spelled so is read, in front of any tokens; of items alone, in front of tokens that continue none. So
/// a list of tokens spells at most one tree.
pub fn declarations_spelled_are_read()
    ensures items { (p : ℕ) (ts more : Tokens) (items : List tree.Item) →
        SpellsItems p ts items → EndsItems more → items_at p (ts ++ more) ≡ read_as items (p + length ts) more }
    ensures declaration { (p : ℕ) (ts more : Tokens) (items : List tree.Item) →
        SpellsDeclaration p ts items → declaration_at p (ts ++ more) ≡ read_as items (p + length ts) more }
    ensures returned { (p : ℕ) (ts more : Tokens) (attributes : List tree.DescribedAttribute) →
        SpellsReturned ts attributes → returned_at p (ts ++ more) ≡ read_as attributes (p + length ts) more }
{}

/// A law: tokens spell at most one list of items.
pub fn one_declaration()
    ensures { (p : ℕ) (ts : Tokens) (items others : List tree.Item) →
        SpellsDeclaration p ts items → SpellsDeclaration p ts others → items ≡ others }
{}

/// A law: a fault of reading stands at one of the tokens from the first on, or, where they have ended, at the last.
#[tactic(auto, using(crate::proofs::DeclarationFaults::items_fault_stands, crate::proofs::DeclarationFaults::declaration_fault_stands, crate::proofs::DeclarationFaults::returned_fault_stands))]
pub fn faults_stand_at_tokens()
    ensures items { (p : ℕ) (ts : Tokens) (f : Fault) → items_at p ts ≡ Err f → FaultStands p ts f }
    ensures declaration { (p : ℕ) (ts : Tokens) (f : Fault) → declaration_at p ts ≡ Err f → FaultStands p ts f }
    ensures returned { (p : ℕ) (ts : Tokens) (f : Fault) → returned_at p ts ≡ Err f → FaultStands p ts f }
{}

/// A law: the tokens of the names that are read rise in the order of the text, from the first that is read to the last.
#[tactic(auto, using(crate::proofs::DeclarationTokens::items_read_rise, crate::proofs::DeclarationTokens::declaration_read_rises))]
pub fn tokens_of_items_rise()
    ensures items { (p : ℕ) (ts : Tokens) (x : Front (List tree.Item)) →
        items_at p ts ≡ Ok x → Rises p (tokens_of_each item_tokens x.value) x.next }
    ensures declaration { (p : ℕ) (ts : Tokens) (x : Front (List tree.Item)) →
        declaration_at p ts ≡ Ok x → Rises p (tokens_of_each item_tokens x.value) x.next }
{}

/// A law: items that are spelled are read exactly before tokens that do not continue them, which the last of them
/// tells; and no longer front of the tokens spells any.
#[tactic(auto, using(crate::proofs::DeclarationItemsAgain::items_before, crate::proofs::DeclarationEnds::items_end, crate::proofs::DeclarationEnds::items_longest))]
pub fn longest_items()
    ensures ended { (p : ℕ) (ts more : Tokens) (items : List tree.Item) →
        SpellsItems p ts items → ItemsEnd items more → items_at p (ts ++ more) ≡ read_as items (p + length ts) more }
    ensures left { (p : ℕ) (ts : Tokens) (x : Front (List tree.Item)) → items_at p ts ≡ Ok x → ItemsEnd x.value x.rest }
    ensures longest { (p : ℕ) (ts : Tokens) (x : Front (List tree.Item)) → items_at p ts ≡ Ok x →
        (longer more : Tokens) (items : List tree.Item) → ts ≡ longer ++ more → SpellsItems p longer items →
        p + length longer ≤ x.next }
{}
