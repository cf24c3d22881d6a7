//! Dimensions, lengths and precisions.
ghost use Rattle.std.specs.Prelude.{◌≡◌, ◌≤◌, ◌+◌, length, IfOk};
ghost use Rattle.pli_parse_declaration.specs.DeclarationReading.{list_at, number_at, signed, integer_at, stated_at};
ghost use Rattle.pli_parse_declaration.specs.DeclarationReading.{bounds_at, dimensions_at, extent_at, length_at};
ghost use Rattle.pli_parse_declaration.specs.DeclarationReading.{scaled_at, precision_at};
ghost use Rattle.pli_base.specs.answers.FailureAnswers.{Gives};
ghost use Rattle.pli_base.specs.answers.ReadingAnswers.{Advances, Continues, front_view};
ghost use Rattle.pli_parse_declaration.specs.declared.list.Separator.TheVariants.{Commas};
ghost use Rattle.pli_base.specs.declared.declaration.WrittenBounds as bounds;
ghost use Rattle.std.proofs.Common.{sym};
ghost use Rattle.std.proofs.lemmas.List.{map-id};

use crate::front::{number_at, zero_taken};
use crate::list::{ListReader, Separator, list_at};
use pli_base::declaration::{Integer, WrittenBounds, WrittenLength};
use pli_base::{
    Front, ParseError, Sign, TokenText, after_colon, after_comma, after_open, close_taken,
};
use std::alloc::Global;

/// A constant after its sign, if it has one.
#[tactic(auto)]
fn signed_at(negative: bool, at: u32, texts: &[TokenText]) -> Result<Front<'_, Integer>, ParseError>
    requires { at + length texts.now ≤ 200000 }
    ensures value { Gives (front_view (λ n. n)) result (signed negative (number_at at texts.now)) }
    ensures place { IfOk result (Advances at texts.now) }
{
    let number = number_at(at, texts)?;
    let integer = Integer {
        negative,
        value: number.value,
    };
    Ok(Front::new(integer, number.next, number.rest))
}

/// A constant with or without a sign.
#[tactic(auto, unfolding(crate::specs::DeclarationReading::integer_at))]
pub fn integer_at(at: u32, texts: &[TokenText]) -> Result<Front<'_, Integer>, ParseError>
    requires { at + length texts.now ≤ 200000 }
    ensures value { Gives (front_view (λ n. n)) result (integer_at at texts.now) }
    ensures place { IfOk result (Advances at texts.now) }
{
    match texts {
        [TokenText::Sign(Sign::Plus), rest @ ..] => signed_at(false, at + 1, rest),
        [TokenText::Sign(Sign::Minus), rest @ ..] => signed_at(true, at + 1, rest),
        _ => signed_at(false, at, texts),
    }
}

/// Bounds that are written: one number, or two with a colon between them.
#[tactic(auto)]
fn stated_at(at: u32, texts: &[TokenText]) -> Result<Front<'_, WrittenBounds>, ParseError>
    requires { at + length texts.now ≤ 200000 }
    ensures value { Gives (front_view (λ n. n)) result (stated_at at texts.now) }
    ensures place { IfOk result (Advances at texts.now) }
{
    let first = integer_at(at, texts)?;
    match after_colon(first.rest) {
        Some(rest) => {
            let high = integer_at(first.next + 1, rest)?;
            Ok(Front::new(
                WrittenBounds::Stated {
                    low: Some(first.value),
                    high: high.value,
                },
                high.next,
                high.rest,
            ))
        }
        None => Ok(Front::new(
            WrittenBounds::Stated {
                low: None,
                high: first.value,
            },
            first.next,
            first.rest,
        )),
    }
}

/// The bounds of a dimension.
#[derive(Clone, Copy)]
struct EachBounds;

impl ListReader for EachBounds {
    type Value = WrittenBounds;

    ghost Tree = { bounds.WrittenBounds };

    ghost tree = { λ v. v };

    ghost trees = { λ vs. vs };

    ghost one = { λ _. bounds_at };

    ghost each = { λ vs. sym (map-id vs) };

    #[tactic(auto, unfolding(crate::specs::DeclarationReading::bounds_at))]
    fn read<'a>(
        &self,
        at: u32,
        texts: &'a [TokenText],
    ) -> Result<Front<'a, WrittenBounds>, ParseError> {
        match texts {
            [TokenText::Sign(Sign::Times), rest @ ..] => {
                Ok(Front::new(WrittenBounds::Any, at + 1, rest))
            }
            _ => stated_at(at, texts),
        }
    }
}

/// Dimensions in parentheses, or none.
#[tactic(auto, unfolding(crate::specs::DeclarationReading::dimensions_at))]
pub fn dimensions_at<'a>(
    alloc: Global,
    at: u32,
    texts: &'a [TokenText],
) -> Result<Front<'a, Vec<WrittenBounds>>, ParseError>
    requires { at + length texts.now ≤ 200000 }
    ensures value { Gives (front_view (λ v. v.items)) result (dimensions_at at texts.now) }
    ensures place { IfOk result (Continues at texts.now) }
{
    match after_open(texts) {
        Some(inside) => {
            let bounds = list_at(alloc, Separator::Commas, &EachBounds, at + 1, inside)?;
            let rest = close_taken(bounds.next, bounds.rest)?;
            Ok(Front::new(bounds.value, bounds.next + 1, rest))
        }
        None => Ok(Front::new(Vec::new(alloc), at, texts)),
    }
}

/// A number of digits, and a scale of 0 or none.
#[tactic(auto, unfolding(crate::specs::DeclarationReading::scaled_at))]
fn scaled_at(at: u32, texts: &[TokenText]) -> Result<Front<'_, u64>, ParseError>
    requires { at + length texts.now ≤ 200000 }
    ensures value { Gives (front_view (λ n. n)) result (scaled_at at texts.now) }
    ensures place { IfOk result (Advances at texts.now) }
{
    let number = number_at(at, texts)?;
    match after_comma(number.rest) {
        Some(scale) => {
            let rest = zero_taken(number.next + 1, scale)?;
            Ok(Front::new(number.value, number.next + 2, rest))
        }
        None => Ok(number),
    }
}

/// A length or a size: `*`, or a number.
#[tactic(auto, unfolding(crate::specs::DeclarationReading::extent_at))]
fn extent_at(at: u32, texts: &[TokenText]) -> Result<Front<'_, WrittenLength>, ParseError>
    requires { at + length texts.now ≤ 200000 }
    ensures value { Gives (front_view (λ n. n)) result (extent_at at texts.now) }
    ensures place { IfOk result (Advances at texts.now) }
{
    match texts {
        [TokenText::Sign(Sign::Times), rest @ ..] => {
            Ok(Front::new(WrittenLength::Any, at + 1, rest))
        }
        _ => {
            let number = number_at(at, texts)?;
            Ok(Front::new(
                WrittenLength::Stated(number.value),
                number.next,
                number.rest,
            ))
        }
    }
}

/// A length or a size in parentheses, or none.
#[tactic(auto, unfolding(crate::specs::DeclarationReading::length_at))]
pub fn length_at(
    at: u32,
    texts: &[TokenText],
) -> Result<Front<'_, Option<WrittenLength>>, ParseError>
    requires { at + length texts.now ≤ 200000 }
    ensures value { Gives (front_view (λ n. n)) result (length_at at texts.now) }
    ensures place { IfOk result (Continues at texts.now) }
{
    match after_open(texts) {
        Some(inside) => {
            let extent = extent_at(at + 1, inside)?;
            let rest = close_taken(extent.next, extent.rest)?;
            Ok(Front::new(Some(extent.value), extent.next + 1, rest))
        }
        None => Ok(Front::new(None, at, texts)),
    }
}

/// A number of digits in parentheses, or none.
#[tactic(auto, unfolding(crate::specs::DeclarationReading::precision_at))]
pub fn precision_at(at: u32, texts: &[TokenText]) -> Result<Front<'_, Option<u64>>, ParseError>
    requires { at + length texts.now ≤ 200000 }
    ensures value { Gives (front_view (λ n. n)) result (precision_at at texts.now) }
    ensures place { IfOk result (Continues at texts.now) }
{
    match after_open(texts) {
        Some(inside) => {
            let number = scaled_at(at + 1, inside)?;
            let rest = close_taken(number.next, number.rest)?;
            Ok(Front::new(Some(number.value), number.next + 1, rest))
        }
        None => Ok(Front::new(None, at, texts)),
    }
}
