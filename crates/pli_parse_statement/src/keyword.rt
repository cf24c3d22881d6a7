//! The keywords with which statements begin, and where statements stand.
ghost use Rattle.std.specs.Prelude.{◌≡◌, IfSome};
ghost use Rattle.pli_parse_declaration.specs.DeclarationWords.{is_either};
ghost use Rattle.pli_parse_statement.specs.StatementWords.{keyword_of, simple_keyword_of, condition_of};
ghost use Rattle.pli_parse_statement.specs.answers.StatementAnswers.{words};

use pli_base::Name;
use pli_base::statement::Condition;

/// The keyword that a statement begins with. No word is reserved: it is one only where a statement begins that is no
/// assignment.
#[derive(Clone, Copy)]
pub enum Keyword {
    Procedure,
    Declare,
    End,
    Begin,
    Do,
    If,
    On,
    Revert,
    Signal,
    Stop,
    Allocate,
    Free,
    Call,
    Goto,
    /// GO with TO after it.
    GoTo,
    Return,
    Put,
}

/// Where a statement stands. Not every statement may stand everywhere (X3.74).
#[derive(Clone, Copy)]
pub enum StatementStanding {
    /// Directly in the list of a procedure or a BEGIN block.
    InBlock,
    /// Directly in the list of a DO group.
    InGroup,
    /// After THEN or ELSE.
    AsClause,
    /// After ON.
    AsOnUnit,
}

/// Whether the name is this word or its abbreviation.
fn is_either(name: &Name, long: &[u8], short: &[u8]) -> bool
    ensures { result ≡ is_either long.now short.now name.now }
{
    name.is(long) || name.is(short)
}

/// The keyword of one word that a name is where a statement begins (X3.74). GO is none without TO after it.
#[tactic(auto, unfolding(crate::specs::StatementWords::keyword_of))]
pub fn statement_keyword(name: &Name) -> Option<Keyword>
    ensures value { result ≡ keyword_of name.now }
    ensures word { IfSome result (λ keyword. words keyword ≡ 1) }
{
    if is_either(name, b"PROCEDURE", b"PROC") {
        Some(Keyword::Procedure)
    } else if is_either(name, b"DECLARE", b"DCL") {
        Some(Keyword::Declare)
    } else if name.is(b"END") {
        Some(Keyword::End)
    } else if name.is(b"BEGIN") {
        Some(Keyword::Begin)
    } else if name.is(b"DO") {
        Some(Keyword::Do)
    } else if name.is(b"IF") {
        Some(Keyword::If)
    } else if name.is(b"ON") {
        Some(Keyword::On)
    } else {
        simple_keyword(name)
    }
}

/// The keyword of one word that a name is where a statement with no statement inside begins, apart from DECLARE and
/// END.
#[tactic(auto)]
fn simple_keyword(name: &Name) -> Option<Keyword>
    ensures value { result ≡ simple_keyword_of name.now }
    ensures word { IfSome result (λ keyword. words keyword ≡ 1) }
{
    if name.is(b"REVERT") {
        Some(Keyword::Revert)
    } else if name.is(b"SIGNAL") {
        Some(Keyword::Signal)
    } else if name.is(b"STOP") {
        Some(Keyword::Stop)
    } else if name.is(b"ALLOCATE") {
        Some(Keyword::Allocate)
    } else if name.is(b"FREE") {
        Some(Keyword::Free)
    } else if name.is(b"CALL") {
        Some(Keyword::Call)
    } else if name.is(b"GOTO") {
        Some(Keyword::Goto)
    } else if name.is(b"RETURN") {
        Some(Keyword::Return)
    } else if name.is(b"PUT") {
        Some(Keyword::Put)
    } else {
        None
    }
}

/// The condition that a name is after ON, REVERT and SIGNAL (X3.53).
#[tactic(auto, unfolding(crate::specs::StatementWords::condition_of))]
pub fn named_condition(name: &Name) -> Option<Condition>
    ensures { result ≡ condition_of name.now }
{
    if is_either(name, b"FIXEDOVERFLOW", b"FOFL") {
        Some(Condition::FixedOverflow)
    } else if is_either(name, b"ZERODIVIDE", b"ZDIV") {
        Some(Condition::ZeroDivide)
    } else if name.is(b"AREA") {
        Some(Condition::Area)
    } else {
        None
    }
}
