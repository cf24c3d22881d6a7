//! Reading tokens: what a reader gives, the fault where it cannot go on, and the signs and names that readers pass.
ghost use Rattle.std.specs.Option.{option_copied};
ghost use Rattle.std.specs.Prelude.{◌≡◌, ◌+◌, length, option_map, IfOk, IfSome};
ghost use Rattle.pli_base.specs.Words.{rest_after, name_first, is_open, is_close, is_comma, is_period, is_colon};
ghost use Rattle.pli_base.specs.Words.{is_semicolon};
ghost use Rattle.pli_base.specs.Reading.{misfit, taken};
ghost use Rattle.pli_base.specs.answers.FailureAnswers.{Gives};

use crate::code::Code;
use crate::failure::Failure;
use crate::name::Name;
use crate::token::{Fault, Sign, TokenText};

/// Why there is no tree: the one fault of the tokens, or that memory was refused.
pub type ParseError = Failure<Fault>;

/// What was read, the place after it, and the tokens from there. Tokens are counted from 0.
#[derive(Drop)]
pub struct Front<'a, T> {
    pub value: T,
    pub next: u32,
    pub rest: &'a [TokenText],
}

impl<'a, T> Front<'a, T> {
    /// A value that was read, with the place and the tokens after it.
    pub fn new(value: T, next: u32, rest: &'a [TokenText]) -> Front<'a, T>
        ensures { result ≡ record { value = value; next = next; rest = rest.entry } }
    {
        Front { value, next, rest }
    }
}

/// The fault at the token `at`.
pub fn fault(code: Code, at: u32) -> ParseError
    ensures { result ≡ Failure.Fault (record { code = code; at = at }) }
{
    ParseError::Fault(Fault { code, at })
}

/// The fault at the first token, which cannot stand there; where the text ends, at its last token.
#[tactic(auto, unfolding(crate::specs::Reading::misfit))]
pub fn misfit(code: Code, at: u32, texts: &[TokenText]) -> ParseError
    ensures { result ≡ Failure.Fault (misfit code at texts.now) }
{
    match texts {
        [] => fault(Code::EndMissing, at.saturating_sub(1)),
        _ => fault(code, at),
    }
}

/// The tokens after `(`, if they begin with it.
#[tactic(auto, unfolding(crate::specs::Words::rest_after))]
pub fn after_open(texts: &[TokenText]) -> Option<&[TokenText]>
    ensures value { rest_after is_open texts.now ≡ option_copied result }
    ensures place { IfSome result (λ rest. length rest.now + 1 ≡ length texts.now) }
{
    match texts {
        [TokenText::Sign(Sign::OpenParenthesis), rest @ ..] => Some(rest),
        _ => None,
    }
}

/// The tokens after `)`, if they begin with it.
#[tactic(auto, unfolding(crate::specs::Words::rest_after))]
pub fn after_close(texts: &[TokenText]) -> Option<&[TokenText]>
    ensures value { rest_after is_close texts.now ≡ option_copied result }
    ensures place { IfSome result (λ rest. length rest.now + 1 ≡ length texts.now) }
{
    match texts {
        [TokenText::Sign(Sign::CloseParenthesis), rest @ ..] => Some(rest),
        _ => None,
    }
}

/// The tokens after `,`, if they begin with it.
#[tactic(auto, unfolding(crate::specs::Words::rest_after))]
pub fn after_comma(texts: &[TokenText]) -> Option<&[TokenText]>
    ensures value { rest_after is_comma texts.now ≡ option_copied result }
    ensures place { IfSome result (λ rest. length rest.now + 1 ≡ length texts.now) }
{
    match texts {
        [TokenText::Sign(Sign::Comma), rest @ ..] => Some(rest),
        _ => None,
    }
}

/// The tokens after `.`, if they begin with it.
#[tactic(auto, unfolding(crate::specs::Words::rest_after))]
pub fn after_period(texts: &[TokenText]) -> Option<&[TokenText]>
    ensures value { rest_after is_period texts.now ≡ option_copied result }
    ensures place { IfSome result (λ rest. length rest.now + 1 ≡ length texts.now) }
{
    match texts {
        [TokenText::Sign(Sign::Period), rest @ ..] => Some(rest),
        _ => None,
    }
}

/// The tokens after `:`, if they begin with it.
#[tactic(auto, unfolding(crate::specs::Words::rest_after))]
pub fn after_colon(texts: &[TokenText]) -> Option<&[TokenText]>
    ensures value { rest_after is_colon texts.now ≡ option_copied result }
    ensures place { IfSome result (λ rest. length rest.now + 1 ≡ length texts.now) }
{
    match texts {
        [TokenText::Sign(Sign::Colon), rest @ ..] => Some(rest),
        _ => None,
    }
}

/// The tokens after `;`, if they begin with it.
#[tactic(auto, unfolding(crate::specs::Words::rest_after))]
fn after_semicolon(texts: &[TokenText]) -> Option<&[TokenText]>
    ensures value { rest_after is_semicolon texts.now ≡ option_copied result }
    ensures place { IfSome result (λ rest. length rest.now + 1 ≡ length texts.now) }
{
    match texts {
        [TokenText::Sign(Sign::Semicolon), rest @ ..] => Some(rest),
        _ => None,
    }
}

/// The tokens after `(`, which must stand.
#[tactic(auto, unfolding(crate::specs::Reading::taken))]
pub fn open_taken(at: u32, texts: &[TokenText]) -> Result<&[TokenText], ParseError>
    ensures value { Gives (λ rest. rest.now) result (taken is_open Code.ParenthesisExpected at texts.now) }
    ensures place { IfOk result (λ rest. length rest.now + 1 ≡ length texts.now) }
{
    after_open(texts).ok_or(misfit(Code::ParenthesisExpected, at, texts))
}

/// The tokens after `)`, which must stand.
#[tactic(auto, unfolding(crate::specs::Reading::taken))]
pub fn close_taken(at: u32, texts: &[TokenText]) -> Result<&[TokenText], ParseError>
    ensures value { Gives (λ rest. rest.now) result (taken is_close Code.ParenthesisExpected at texts.now) }
    ensures place { IfOk result (λ rest. length rest.now + 1 ≡ length texts.now) }
{
    after_close(texts).ok_or(misfit(Code::ParenthesisExpected, at, texts))
}

/// The tokens after `;`, which must stand.
#[tactic(auto, unfolding(crate::specs::Reading::taken))]
pub fn semicolon_taken(at: u32, texts: &[TokenText]) -> Result<&[TokenText], ParseError>
    ensures value { Gives (λ rest. rest.now) result (taken is_semicolon Code.SemicolonExpected at texts.now) }
    ensures place { IfOk result (λ rest. length rest.now + 1 ≡ length texts.now) }
{
    after_semicolon(texts).ok_or(misfit(Code::SemicolonExpected, at, texts))
}

/// The name that the tokens begin with, and the tokens after it.
#[tactic(auto, unfolding(crate::specs::Words::name_first))]
pub fn name_first(texts: &[TokenText]) -> Option<(Name, &[TokenText])>
    ensures value { name_first texts.now ≡ option_map (λ x. (x.0, x.1.now)) result }
    ensures place { IfSome result (λ x. length x.1.now + 1 ≡ length texts.now) }
{
    match texts {
        [TokenText::Word(name), rest @ ..] => Some((*name, rest)),
        _ => None,
    }
}
