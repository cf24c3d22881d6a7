//! The first tokens of a list: what they are, and what is after them.
ghost use Rattle.std.specs.Option.{option_copied};
ghost use Rattle.std.specs.Prelude.{◌≡◌, ℕ, option_map, ◌≤◌, ◌+◌, length, IfOk, IfSome};
ghost use Rattle.pli_base.specs.Reading.{taken};
ghost use Rattle.pli_base.specs.answers.FailureAnswers.{Gives};
ghost use Rattle.pli_base.specs.answers.ReadingAnswers.{Advances, Continues, front_view};
ghost use Rattle.pli_parse_declaration.specs.DeclarationWords.{attribute_first, with_attribute, begins_description};
ghost use Rattle.pli_parse_declaration.specs.DeclarationWords.{is_zero};
ghost use Rattle.pli_parse_declaration.specs.DeclarationReading.{number_at, level_at};
ghost use Rattle.pli_parse_declaration.specs.answers.DeclarationAnswers.{number_from, level_from};

use crate::word::{AttributeWord, attribute_word};
use pli_base::{Code, Front, ParseError, TokenText, after_open, misfit};

/// The tokens after the constant 0, which must stand.
#[tactic(auto, unfolding(pli_base::specs::Reading::taken, pli_base::specs::Words::rest_after))]
pub fn zero_taken(at: u32, texts: &[TokenText]) -> Result<&[TokenText], ParseError>
    ensures value { Gives (λ rest. rest.now) result (taken is_zero Code.ConstantExpected at texts.now) }
    ensures place { IfOk result (λ rest. length rest.now + 1 ≡ length texts.now) }
{
    match texts {
        [TokenText::Decimal { value, digits }, rest @ ..] if *value == 0 && *digits == 1 => {
            Ok(rest)
        }
        _ => Err(misfit(Code::ConstantExpected, at, texts)),
    }
}

/// The attribute whose keyword the tokens begin with, and the tokens after it.
#[tactic(auto, unfolding(crate::specs::DeclarationWords::attribute_first))]
pub fn attribute_first(texts: &[TokenText]) -> Option<(AttributeWord, &[TokenText])>
    ensures value { attribute_first texts.now ≡ option_map (λ x. (x.0, x.1.now)) result }
    ensures place { IfSome result (λ x. length x.1.now + 1 ≡ length texts.now) }
{
    match texts {
        [TokenText::Word(name), rest @ ..] => match attribute_word(name) {
            Some(word) => Some((word, rest)),
            None => None,
        },
        _ => None,
    }
}

/// The tokens, if they begin with the keyword of an attribute.
pub fn with_attribute(texts: &[TokenText]) -> Option<&[TokenText]>
    ensures value { with_attribute texts.now ≡ option_copied result }
    ensures place { IfSome result (λ rest. length rest.now ≡ length texts.now) }
{
    match attribute_first(texts) {
        Some(_) => Some(texts),
        None => None,
    }
}

/// Whether the tokens begin with what begins a description of a parameter: dimensions or an attribute.
#[tactic(auto, unfolding(crate::specs::DeclarationWords::begins_description))]
pub fn begins_description(texts: &[TokenText]) -> bool
    ensures { result ≡ begins_description texts.now }
{
    after_open(texts).is_some() || attribute_first(texts).is_some()
}

/// The value of the decimal or binary constant that the tokens begin with, and the tokens after it.
#[tactic(auto, unfolding(crate::specs::DeclarationReading::number_at, crate::specs::DeclarationReading::level_at))]
fn number_first(texts: &[TokenText]) -> Option<(u64, &[TokenText])>
    ensures number { (at : ℕ) → number_at at texts.now ≡ number_from at texts.now
        (option_map (λ x. (x.0, x.1.now)) result) }
    ensures level { (at : ℕ) → level_at at texts.now ≡ level_from at texts.now
        (option_map (λ x. (x.0, x.1.now)) result) }
    ensures place { IfSome result (λ x. length x.1.now + 1 ≡ length texts.now) }
{
    match texts {
        [TokenText::Decimal { value, .. }, rest @ ..] => Some((*value, rest)),
        [TokenText::Binary { value, .. }, rest @ ..] => Some((*value, rest)),
        _ => None,
    }
}

/// A decimal or binary constant.
pub fn number_at(at: u32, texts: &[TokenText]) -> Result<Front<'_, u64>, ParseError>
    requires { at + length texts.now ≤ 200000 }
    ensures value { Gives (front_view (λ n. n)) result (number_at at texts.now) }
    ensures place { IfOk result (Advances at texts.now) }
{
    match number_first(texts) {
        Some((value, rest)) => Ok(Front::new(value, at + 1, rest)),
        None => Err(misfit(Code::ConstantExpected, at, texts)),
    }
}

/// A level number, if there is one.
pub fn level_at(at: u32, texts: &[TokenText]) -> Front<'_, Option<u64>>
    requires { at + length texts.now ≤ 200000 }
    ensures value { front_view (λ n. n) result ≡ level_at at texts.now }
    ensures place { Continues at texts.now result }
{
    match number_first(texts) {
        Some((value, rest)) => Front::new(Some(value), at + 1, rest),
        None => Front::new(None, at, texts),
    }
}
