//! What is read is spelled so, what is spelled so is read, and a fault stands at the first place where nothing can.
ghost use Rattle.std.specs.Prelude.{◌≡◌, ◌≢◌, ℕ, List, [], ◌++◌, Ok, Err};
ghost use Rattle.pli_base.specs.declared.token.Token.{Token};
ghost use Rattle.pli_base.specs.declared.token.TokenText.{TokenText};
ghost use Rattle.pli_lex.specs.declared.answer.LexFault.{LexFault};
ghost use Rattle.pli_lex.specs.examples.Examples.{ProcedureLine, LowerCaseLine, TabLine, BinaryConstants};
ghost use Rattle.pli_lex.specs.examples.Examples.{CharacterConstants, BitConstants, Signs, CommentLine, CommentLines};
ghost use Rattle.pli_lex.specs.examples.Examples.{CommentOnOneLine, TwoLines, UnendedComments, UnendedStrings};
ghost use Rattle.pli_lex.specs.examples.Examples.{BadNumbers, TooManyDigits, GreatestNumbers, BadBitConstants};
ghost use Rattle.pli_lex.specs.examples.Examples.{CharactersThenName, BadCharacters, LongestName};
ghost use Rattle.pli_lex.specs.Tokens.{IsToken, EndsAt, Spells, SpellsLines};
ghost use Rattle.pli_lex.specs.Faults.{HasFault, HasLineFault};
ghost use Rattle.pli_lex.specs.Reading.{tokens_of, lexed};

/// A law: the tokens that are read in a text are those that it spells, each on its line.
#[tactic(auto, using(crate::proofs::SpelledAndRead::text_is_spelled))]
pub fn texts_read_are_spelled()
    ensures { (text : List ℕ) (tokens : List Token) →
        tokens_of text ≡ Ok tokens → Spells text tokens }
{}

/// A law: the tokens that a text spells are read in it, so that it spells one list of tokens at most.
pub fn texts_spelled_are_read()
    ensures { (text : List ℕ) (tokens : List Token) →
        Spells text tokens → tokens_of text ≡ Ok tokens }
{}

/// A law: the fault that is met in a text is that of the first place where neither a separator nor a token can stand.
#[tactic(auto, using(crate::proofs::SpelledAndRead::text_is_faulty))]
pub fn texts_have_their_faults()
    ensures { (text : List ℕ) (fault : LexFault) → tokens_of text ≡ Err fault → HasFault text fault }
{}

/// A law: the fault of the first place where nothing can stand is the one that is met, so that a text has one fault at
/// most, and none where it spells tokens.
pub fn texts_faults_are_met()
    ensures { (text : List ℕ) (fault : LexFault) → HasFault text fault → tokens_of text ≡ Err fault }
{}

/// A law: the tokens that are read in lines are those that they spell, each on its line.
#[tactic(auto, using(crate::proofs::SpelledAndRead::lines_are_spelled))]
pub fn lines_read_are_spelled()
    ensures { (lines : List (List ℕ)) (tokens : List Token) →
        lexed lines ≡ Ok tokens → SpellsLines lines tokens }
{}

/// A law: the tokens that lines spell are read in them, so that they spell one list of tokens at most.
pub fn lines_spelled_are_read()
    ensures { (lines : List (List ℕ)) (tokens : List Token) →
        SpellsLines lines tokens → lexed lines ≡ Ok tokens }
{}

/// A law: the fault that is met in lines is that of the first place where neither a separator nor a token can stand.
#[tactic(auto, using(crate::proofs::SpelledAndRead::lines_are_faulty))]
pub fn lines_have_their_faults()
    ensures { (lines : List (List ℕ)) (fault : LexFault) → lexed lines ≡ Err fault → HasLineFault lines fault }
{}

/// A law: the fault of the first place where nothing can stand is the one that is met.
pub fn lines_faults_are_met()
    ensures { (lines : List (List ℕ)) (fault : LexFault) → HasLineFault lines fault → lexed lines ≡ Err fault }
{}

/// A law: where a token ends, it is the longest that can stand there.
pub fn tokens_are_longest()
    ensures { (run rest : List ℕ) (token : TokenText) → IsToken run token → EndsAt run token rest →
        (more after : List ℕ) (other : TokenText) → rest ≡ more ++ after → more ≢ [] → IsToken (run ++ more) other →
        ⊥ }
{}

/// Worked examples of what lines spell and of their faults.
#[tactic(auto, unfolding(crate::specs::Reading::string_from, crate::specs::Reading::token_at, crate::specs::Reading::closing_width, crate::specs::Reading::piece_at, crate::specs::Reading::tokens_after))]
pub fn worked_examples()
    ensures procedure { ProcedureLine }
    ensures lower_case { LowerCaseLine }
    ensures tab { TabLine }
    ensures binary_constants { BinaryConstants }
    ensures character_constants { CharacterConstants }
    ensures bit_constants { BitConstants }
    ensures signs { Signs }
    ensures comment { CommentLine }
    ensures comment_over_lines { CommentLines }
    ensures comment_on_one_line { CommentOnOneLine }
    ensures two_lines { TwoLines }
    ensures unended_comments { UnendedComments }
    ensures unended_strings { UnendedStrings }
    ensures bad_numbers { BadNumbers }
    ensures too_many_digits { TooManyDigits }
    ensures greatest_numbers { GreatestNumbers }
    ensures bad_bits { BadBitConstants }
    ensures characters_then_name { CharactersThenName }
    ensures bad_characters { BadCharacters }
    ensures names { LongestName }
{}
