//! The heading of a procedure.
ghost use Rattle.std.specs.Prelude.{◌≡◌, ℕ, ◌≤◌, ◌<◌, ◌+◌, length, map, IfOk};
ghost use Rattle.pli_base.specs.Words.{is_word, is_open, rest_after};
ghost use Rattle.pli_base.specs.declared.syntax.Identifier as identifier;
ghost use Rattle.pli_parse_declaration.specs.DeclarationReading.{list_at, identifier_at};
ghost use Rattle.pli_base.specs.views.StatementView as views;
ghost use Rattle.pli_parse_statement.specs.StatementReading.{main_at, options_from, heading_at};
ghost use Rattle.pli_parse_statement.specs.answers.StatementAnswers.{heading_view, option_view, option_of};
ghost use Rattle.pli_base.specs.Reading.{taken, mapped, or_none, if_open};
ghost use Rattle.pli_base.specs.answers.FailureAnswers.{Gives};
ghost use Rattle.pli_base.specs.answers.ReadingAnswers.{Advances, Continues, front_view};
ghost use Rattle.pli_parse_declaration.specs.declared.list.Separator.TheVariants.{Commas};

use crate::cursor::is_name;
use crate::word::{OptionWord, option_first};
use pli_base::statement::ProcedureOption;
use pli_base::syntax::Identifier;
use pli_base::{
    Code, Front, ParseError, TokenText, after_open, close_taken, misfit, open_taken,
    semicolon_taken,
};
use pli_parse_declaration::{identifiers_at, returned_at};
use std::alloc::Global;

/// What a heading has after its PROCEDURE.
#[derive(Drop)]
pub struct Heading {
    pub parameters: Vec<Identifier>,
    pub options: Vec<ProcedureOption>,
}

/// Whether the token is the word.
fn is_word(text: &TokenText, word: &[u8]) -> bool
    ensures { result ≡ is_word word.now text.now }
{
    match text {
        TokenText::Word(name) => is_name(name, word),
        _ => false,
    }
}

/// The tokens after the word, which must stand.
#[tactic(auto, unfolding(pli_base::specs::Reading::taken, pli_base::specs::Words::rest_after))]
pub fn word_taken<'a>(
    word: &[u8],
    code: Code,
    at: u32,
    texts: &'a [TokenText],
) -> Result<&'a [TokenText], ParseError>
    ensures value { Gives (λ rest. rest.now) result (taken (is_word word.now) code at texts.now) }
    ensures place { IfOk result (λ rest. length rest.now + 1 ≡ length texts.now) }
{
    match texts {
        [first, rest @ ..] if is_word(first, word) => Ok(rest),
        _ => Err(misfit(code, at, texts)),
    }
}

/// What stands after OPTIONS.
#[tactic(auto, unfolding(crate::specs::StatementReading::main_at, crate::specs::StatementReading::parenthesized))]
fn main_at(at: u32, texts: &[TokenText]) -> Result<Front<'_, ProcedureOption>, ParseError>
    requires { at + length texts.now ≤ 200000 }
    ensures value { Gives (front_view views.option_view) result (main_at at texts.now) }
    ensures place { IfOk result (Advances at texts.now) }
{
    let inside = open_taken(at, texts)?;
    let after = word_taken(b"MAIN", Code::BadOption, at + 1, inside)?;
    let rest = close_taken(at + 2, after)?;
    Ok(Front::new(ProcedureOption::Main, at + 3, rest))
}

/// An option after its word.
#[tactic(auto)]
fn option_at<'a>(
    alloc: Global,
    word: OptionWord,
    at: u32,
    texts: &'a [TokenText],
) -> Result<Front<'a, ProcedureOption>, ParseError>
    requires { at + length texts.now ≤ 200000 }
    ensures value { Gives (front_view views.option_view) result (option_of (option_view word) at texts.now) }
    ensures place { IfOk result (Continues at texts.now) }
{
    match word {
        OptionWord::Options => main_at(at, texts),
        OptionWord::Returns => {
            let read = returned_at(alloc, at, texts)?;
            Ok(Front::new(ProcedureOption::Returns(read.value), read.next, read.rest))
        }
        OptionWord::Recursive => Ok(Front::new(ProcedureOption::Recursive, at, texts)),
    }
}

/// Options as long as they come.
fn options_from<'a>(
    alloc: Global,
    at: u32,
    texts: &'a [TokenText],
) -> Result<Front<'a, Vec<ProcedureOption>>, ParseError>
    requires { at + length texts.now ≤ 200000 }
    ensures value { Gives (front_view (λ v. map views.option_view v.items)) result
        (options_from (length texts.now + 1) at texts.now) }
    ensures place { IfOk result (Continues at texts.now) }
{
    let mut options = Vec::new(alloc);
    let mut next = at;
    let mut rest = texts;
    while let Some((word, after)) = option_first(rest) {
        let read = option_at(alloc, word, next + 1, after)?;
        options.push(read.value)?;
        next = read.next;
        rest = read.rest;
    }
    Ok(Front::new(options, next, rest))
}

/// The parameters in parentheses, if there are some.
#[tactic(auto)]
fn parameters_at<'a>(
    alloc: Global,
    at: u32,
    texts: &'a [TokenText],
) -> Result<Front<'a, Vec<Identifier>>, ParseError>
    requires { at + length texts.now ≤ 200000 }
    ensures value { Gives (front_view (λ v. v.items)) result
        (mapped or_none (if_open (list_at Commas identifier_at) at texts.now (rest_after is_open texts.now))) }
    ensures place { IfOk result (Continues at texts.now) }
{
    match after_open(texts) {
        Some(inside) => {
            let names = identifiers_at(alloc, at + 1, inside)?;
            let rest = close_taken(names.next, names.rest)?;
            Ok(Front::new(names.value, names.next + 1, rest))
        }
        None => Ok(Front::new(Vec::new(alloc), at, texts)),
    }
}

/// What stands after PROCEDURE, up to its `;`.
#[tactic(auto, unfolding(crate::specs::StatementReading::heading_at, crate::specs::StatementReading::stopped))]
pub fn heading_at<'a>(
    alloc: Global,
    at: u32,
    texts: &'a [TokenText],
) -> Result<Front<'a, Heading>, ParseError>
    requires { at + length texts.now ≤ 200000 }
    ensures value { (name : identifier.Identifier) (number : ℕ) →
        Gives (front_view (heading_view name number)) result (heading_at name number at texts.now) }
    ensures place { IfOk result (Advances at texts.now) }
{
    let parameters = parameters_at(alloc, at, texts)?;
    let options = options_from(alloc, parameters.next, parameters.rest)?;
    let rest = semicolon_taken(options.next, options.rest)?;
    Ok(Front::new(
        Heading {
            parameters: parameters.value,
            options: options.value,
        },
        options.next + 1,
        rest,
    ))
}
