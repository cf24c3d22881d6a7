//! What a statement begins with, and where it may stand.
ghost use Rattle.std.specs.Option.{option_copied};
ghost use Rattle.std.specs.Prelude.{◌≡◌, ℕ, ◌≤◌, ◌+◌, length, position, true, None, option_map, is_some, IfOk, IfSome};
ghost use Rattle.pli_base.specs.Words.{is_semicolon};
ghost use Rattle.pli_parse_statement.specs.StatementWords.{up_to_semicolon, begins_assignment, keyword_of, word_kind};
ghost use Rattle.pli_parse_statement.specs.StatementWords.{first_kind, kind_of};
ghost use Rattle.pli_parse_statement.specs.StatementReading.{has_semicolon, label_at, bad_label, on_unit_misplaced};
ghost use Rattle.pli_parse_statement.specs.StatementReading.{standing_misplaced, misplacement, else_first, next_by};
ghost use Rattle.pli_parse_statement.specs.StatementReading.{next_of};
ghost use Rattle.pli_parse_statement.specs.answers.StatementAnswers.{context_view, kind_view, AfterKind};
ghost use Rattle.pli_parse_statement.specs.answers.StatementAnswers.{misplacement_view, next_view, AfterNext};
ghost use Rattle.pli_parse_statement.specs.answers.StatementAnswers.{IsBeginning};
ghost use Rattle.pli_base.specs.answers.ReadingAnswers.{Continues, front_view};

use crate::cursor::{after_word, is_name};
use crate::keyword::{Keyword, StatementStanding, statement_keyword};
use pli_base::syntax::Identifier;
use pli_base::{Code, Front, Name, Sign, TokenText};
use pli_parse_expression::is_assignment;
use std::alloc::{AllocError, Global};

/// Where a statement stands, and whether it belongs to an ON-unit, in which there is no RETURN.
#[derive(Clone, Copy)]
pub struct Context {
    pub standing: StatementStanding,
    pub in_on_unit: bool,
}

/// What a statement is, by its tokens after the label. Keyed and Empty have the tokens after the keyword and the `;`.
#[derive(Clone, Copy)]
pub enum StatementKind<'a> {
    Assigns,
    Empty(&'a [TokenText]),
    Keyed(Keyword, &'a [TokenText]),
    Unknown,
}

/// Where the fault of a statement lies that may not stand where it does.
#[derive(Clone, Copy)]
pub enum Misplacement {
    AtLabel(Code),
    AtStatement(Code),
}

/// What a statement begins with.
#[derive(Clone, Copy)]
pub struct Beginning<'a> {
    /// Whether a `;` is ahead.
    pub has_semicolon: bool,
    /// What the statement is, by its tokens after the label.
    pub kind: StatementKind<'a>,
}

/// What comes next in a list of statements: its END, with the tokens after it, or another statement.
#[derive(Clone, Copy)]
pub enum NextStatement<'a> {
    EndsHere(&'a [TokenText]),
    Another,
}

/// Whether the token is `;`.
fn is_semicolon(text: &TokenText) -> bool
    ensures { result ≡ is_semicolon text.now }
{
    matches!(text, TokenText::Sign(Sign::Semicolon))
}

/// Where the first `;` stands.
fn end_of(texts: &[TokenText]) -> Option<usize>
    ensures { result ≡ position is_semicolon texts.now }
{
    texts.iter().position(|text| is_semicolon(text))
}

/// The tokens before the first `;`, if there is one.
fn text_of(texts: &[TokenText]) -> Option<&[TokenText]>
    ensures { up_to_semicolon texts.now ≡ option_copied result }
{
    let end = end_of(texts)?;
    let (text, _) = texts.split_at(end);
    Some(text)
}

/// Whether a `;` is ahead.
#[tactic(auto, using(crate::proofs::StatementTexts::ahead))]
pub fn has_semicolon(texts: &[TokenText]) -> bool
    ensures { result ≡ has_semicolon texts.now }
{
    text_of(texts).is_some()
}

/// Whether the tokens up to the first `;` are an assignment, whatever the words are.
#[tactic(auto, unfolding(crate::specs::StatementWords::begins_assignment))]
fn begins_assignment(alloc: Global, texts: &[TokenText]) -> Result<bool, AllocError>
    ensures { IfOk result (λ b. b ≡ begins_assignment texts.now) }
{
    match text_of(texts) {
        Some(text) => is_assignment(alloc, text),
        None => Ok(false),
    }
}

/// What a statement is that begins with this name and is no assignment.
#[tactic(auto)]
fn word_kind<'a>(name: &Name, rest: &'a [TokenText]) -> StatementKind<'a>
    ensures value { kind_view result ≡ word_kind (keyword_of name.now) name.now rest.now }
    ensures place { AfterKind (length rest.now + 1) result }
{
    match statement_keyword(name) {
        Some(keyword) => StatementKind::Keyed(keyword, rest),
        None => {
            if is_name(name, b"GO") {
                match after_word(b"TO", rest) {
                    Some(after) => StatementKind::Keyed(Keyword::GoTo, after),
                    None => StatementKind::Unknown,
                }
            } else {
                StatementKind::Unknown
            }
        }
    }
}

/// What a statement is that is no assignment.
#[tactic(auto, unfolding(crate::specs::StatementWords::first_kind))]
fn first_kind(texts: &[TokenText]) -> StatementKind<'_>
    ensures value { kind_view result ≡ first_kind texts.now }
    ensures place { AfterKind (length texts.now) result }
{
    match texts {
        [TokenText::Sign(Sign::Semicolon), rest @ ..] => StatementKind::Empty(rest),
        [TokenText::Word(name), rest @ ..] => word_kind(name, rest),
        _ => StatementKind::Unknown,
    }
}

/// What a statement is of these tokens, of which this is the text up to the first `;`, if there is one.
#[tactic(auto, unfolding(crate::specs::StatementWords::kind_of, crate::specs::StatementWords::begins_assignment))]
fn kind_of<'a>(
    alloc: Global,
    text: Option<&[TokenText]>,
    texts: &'a [TokenText],
) -> Result<StatementKind<'a>, AllocError>
    requires { up_to_semicolon texts.now ≡ option_copied text }
    ensures value { IfOk result (λ kind. kind_view kind ≡ kind_of texts.now) }
    ensures place { IfOk result (AfterKind (length texts.now)) }
{
    if let Some(text) = text {
        if is_assignment(alloc, text)? {
            return Ok(StatementKind::Assigns);
        }
    }
    Ok(first_kind(texts))
}

/// What a statement begins with: its `;` is looked for once, and it is tested once whether it is an assignment.
#[tactic(auto, using(crate::proofs::StatementTexts::ahead, crate::proofs::StatementTexts::ahead_of_label))]
pub fn beginning_of(alloc: Global, texts: &[TokenText]) -> Result<Beginning<'_>, AllocError>
    requires { length texts.now ≤ 200000 }
    ensures { IfOk result (IsBeginning texts.now) }
{
    let after = label_at(0, texts).rest;
    let text = text_of(after);
    let kind = kind_of(alloc, text, after)?;
    Ok(Beginning {
        has_semicolon: text.is_some(),
        kind,
    })
}

/// The label, if there is one.
#[tactic(auto, unfolding(crate::specs::StatementReading::label_at))]
pub fn label_at(at: u32, texts: &[TokenText]) -> Front<'_, Option<Identifier>>
    requires { at + length texts.now ≤ 200000 }
    ensures value { front_view (λ label. label) result ≡ label_at at texts.now }
    ensures place { Continues at texts.now result }
{
    match texts {
        [
            TokenText::Word(name),
            TokenText::Sign(Sign::Colon),
            rest @ ..,
        ] => Front::new(Some(Identifier { name: *name, at }), at + 2, rest),
        _ => Front::new(None, at, texts),
    }
}

/// The place of a label that may not stand: after THEN, ELSE and ON the first, elsewhere a second.
#[tactic(auto)]
pub fn bad_label(standing: StatementStanding, at: u32, texts: &[TokenText]) -> Option<u32>
    requires { at + length texts.now ≤ 200000 }
    ensures { bad_label standing (label_at at texts.now) (label_at at texts.now).value ≡ result }
{
    let first = label_at(at, texts);
    match (first.value, standing) {
        (None, _) => None,
        (Some(label), StatementStanding::AsClause | StatementStanding::AsOnUnit) => Some(label.at),
        (Some(_), StatementStanding::InBlock | StatementStanding::InGroup) => {
            match label_at(first.next, first.rest).value {
                Some(_) => Some(first.next),
                None => None,
            }
        }
    }
}

/// Why a statement of this keyword is no ON-unit.
#[tactic(auto)]
fn on_unit_misplaced(keyword: Keyword) -> Option<Misplacement>
    ensures { option_map misplacement_view result ≡ on_unit_misplaced keyword }
{
    match keyword {
        Keyword::Allocate
        | Keyword::Begin
        | Keyword::Call
        | Keyword::Free
        | Keyword::Goto
        | Keyword::GoTo
        | Keyword::Put
        | Keyword::Revert
        | Keyword::Signal
        | Keyword::Stop => None,
        _ => Some(Misplacement::AtStatement(Code::MisplacedStatement)),
    }
}

/// Why a statement of this keyword, with a label or without, may not stand here.
#[tactic(auto)]
fn standing_misplaced(
    standing: StatementStanding,
    keyword: Keyword,
    labelled: bool,
) -> Option<Misplacement>
    ensures { option_map misplacement_view result ≡ standing_misplaced standing keyword labelled }
{
    match (standing, keyword, labelled) {
        (StatementStanding::AsOnUnit, _, _) => on_unit_misplaced(keyword),
        (StatementStanding::AsClause, Keyword::Procedure | Keyword::Declare | Keyword::End, _) => {
            Some(Misplacement::AtStatement(Code::MisplacedStatement))
        }
        (StatementStanding::InBlock, Keyword::Procedure, false) => {
            Some(Misplacement::AtStatement(Code::BadLabel))
        }
        (StatementStanding::InGroup, Keyword::Procedure, false) => {
            Some(Misplacement::AtStatement(Code::MisplacedStatement))
        }
        (StatementStanding::InGroup, Keyword::Procedure, true) => {
            Some(Misplacement::AtLabel(Code::MisplacedStatement))
        }
        (_, Keyword::Declare | Keyword::End, true) => Some(Misplacement::AtLabel(Code::BadLabel)),
        _ => None,
    }
}

/// Why a statement of this keyword may not stand here, if it may not.
#[tactic(auto)]
pub fn why_misplaced(context: Context, keyword: Keyword, labelled: bool) -> Option<Misplacement>
    ensures { option_map misplacement_view result ≡ misplacement
        (context_view context) keyword labelled context.in_on_unit }
{
    match (keyword, context.in_on_unit) {
        (Keyword::Return, true) => Some(Misplacement::AtStatement(Code::MisplacedStatement)),
        _ => standing_misplaced(context.standing, keyword, labelled),
    }
}

/// The tokens after ELSE, where it begins neither a label nor an assignment.
#[tactic(auto, unfolding(crate::specs::StatementReading::else_first))]
pub fn else_first(alloc: Global, texts: &[TokenText]) -> Result<Option<&[TokenText]>, AllocError>
    requires { length texts.now ≤ 200000 }
    ensures value { IfOk result (λ rest. else_first texts.now ≡ option_copied rest) }
    ensures place { IfOk result (λ found. IfSome found (λ rest. length rest.now + 1 ≡ length texts.now)) }
{
    let Some(after) = after_word(b"ELSE", texts) else {
        return Ok(None);
    };
    if label_at(0, texts).value.is_some() {
        return Ok(None);
    }
    if begins_assignment(alloc, texts)? {
        return Ok(None);
    }
    Ok(Some(after))
}

/// What comes next in a list of statements, by what the statement is that has no label.
#[tactic(auto)]
fn next_by(kind: StatementKind<'_>) -> NextStatement<'_>
    ensures value { next_view result ≡ next_by true None (kind_view kind.entry) }
    ensures place { (n : ℕ) → AfterKind n kind.entry → AfterNext n result }
{
    match kind {
        StatementKind::Keyed(Keyword::End, after) => NextStatement::EndsHere(after),
        _ => NextStatement::Another,
    }
}

/// What comes next in a list of statements, which begins with this.
#[tactic(auto, using(crate::proofs::StatementTexts::next_unlabelled, crate::proofs::StatementTexts::next_labelled, crate::proofs::StatementTexts::next_endless, crate::proofs::StatementTexts::after_unlabelled))]
pub fn next_of<'a>(beginning: &Beginning<'a>, texts: &[TokenText]) -> NextStatement<'a>
    requires place { length texts.now ≤ 200000 }
    requires begins { IsBeginning texts.now beginning.now }
    ensures value { next_view result ≡ next_of texts.now }
    ensures place { AfterNext (length texts.now) result }
{
    if !beginning.has_semicolon {
        return NextStatement::Another;
    }
    if label_at(0, texts).value.is_some() {
        return NextStatement::Another;
    }
    next_by(beginning.kind)
}
