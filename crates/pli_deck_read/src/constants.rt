//! Constants, initial values and templates at the front of bytes.
ghost use Rattle.std.specs.Prelude.{◌≡◌, ◌≤◌, ◌<◌, ℕ, slice_index, map};
ghost use Rattle.std.specs.Str.{bytes_eq};
ghost use Rattle.pli_code.specs.Fields.{Answers, made, list_of, u4};
ghost use Rattle.pli_deck_write.specs.DeckFields as deck_fields;
ghost use Rattle.pli_program.specs.Templates as templates;
ghost use Rattle.pli_type_tree.specs.views.TemplateView.{initial_view};
ghost use Rattle.pli_code.specs.CodeTables as tables;
ghost use Rattle.pli_code.specs.views.CodeView.{coded_template_view};
ghost use Rattle.pli_value.specs.Value as plain;
ghost use Rattle.pli_value.specs.Value.{value_view};
ghost use Rattle.pli_base.specs.answers.FailureAnswers.{Gives};

use crate::error::ReadError;
use crate::reading::{ReadsOne, many_of, short_within, text_of};
use pli_code::fields::{byte_of, short_of, signed_long_within, signed_within, word_of};
use pli_code::{CodedTemplate, DeckFault, Version};
use pli_type_tree::InitialScalar;
use pli_value::bit::Bits;
use pli_value::{Locator, Value};
use std::alloc::Global;

/// So many bits, with zeros after the last one.
fn bits_of(alloc: Global, count: usize, bytes: &[u8]) -> Result<(Bits, &[u8]), ReadError>
    requires { count ≤ 32767 }
    ensures { Gives (λ x. (x.0, x.1.now)) result (deck_fields.bits_at count bytes.now) }
{
    let needed = (count + 7) / 8;
    if bytes.len() < needed {
        return Err(ReadError::Fault(DeckFault::Truncated));
    }
    let (front, rest) = bytes.split_at(needed);
    let bits = Bits::unpack(alloc, front, count)?;
    if are_same(front, bits.bytes()) {
        Ok((bits, rest))
    } else {
        Err(ReadError::Fault(DeckFault::OutOfRange))
    }
}

/// Whether bytes are the same.
pub fn are_same(left: &[u8], right: &[u8]) -> bool
    ensures value { result ≡ bytes_eq left.now right.now }
    ensures bytes { (place : ℕ) → slice_index right.now place < 256 }
{
    left == right
}

/// Bits, with their count.
#[tactic(auto, unfolding(pli_deck_write::specs::DeckFields::bit_string))]
fn bit_string_of(alloc: Global, bytes: &[u8]) -> Result<(Value, &[u8]), ReadError>
    ensures { Gives (λ x. (value_view x.0, x.1.now)) result (made plain.Bits deck_fields.bit_string bytes.now) }
{
    let (count, rest) = short_within(bytes, 0, 32767)?;
    let (bits, rest) = bits_of(alloc, usize::from(count), rest)?;
    Ok((Value::Bits(bits), rest))
}

/// Characters, with their count.
#[tactic(auto, unfolding(pli_deck_write::specs::DeckFields::characters))]
fn characters_of(alloc: Global, bytes: &[u8]) -> Result<(Value, &[u8]), ReadError>
    ensures { Gives (λ x. (value_view x.0, x.1.now)) result (made plain.Characters deck_fields.characters bytes.now) }
{
    let (count, rest) = short_within(bytes, 0, 32767)?;
    let (text, rest) = text_of(rest, usize::from(count))?;
    Ok((Value::Characters(Vec::from_slice(alloc, text)?), rest))
}

/// A number as a version has it: of at most 31 binary digits in four bytes, or of at most 63 in eight.
fn number_of(version: Version, bytes: &[u8]) -> Result<(i64, &[u8]), DeckFault>
    ensures { Answers (λ x. (x.0, x.1.now)) result ((deck_fields.integer version).read bytes.now) }
{
    match version {
        Version::First => {
            let (number, rest) = signed_within(bytes, 2_147_483_647)?;
            Ok((i64::from(number), rest))
        }
        Version::Second => signed_long_within(bytes, 9_223_372_036_854_775_807),
        Version::Third => signed_long_within(bytes, 9_223_372_036_854_775_807),
    }
}

/// A constant of a version.
#[tactic(auto, unfolding(pli_deck_write::specs::DeckFields::constant))]
fn constant_of(alloc: Global, version: Version, bytes: &[u8]) -> Result<(Value, &[u8]), ReadError>
    ensures { Gives (λ x. (value_view x.0, x.1.now)) result ((deck_fields.constant version).read bytes.now) }
{
    let (tag, rest) = byte_of(bytes)?;
    match tag {
        1 => {
            let (number, rest) = number_of(version, rest)?;
            Ok((Value::Number(number), rest))
        }
        2 => characters_of(alloc, rest),
        3 => bit_string_of(alloc, rest),
        4 => Ok((Value::Locator(Locator::Null), rest)),
        5 => Ok((Value::Locator(Locator::Offset(0)), rest)),
        _ => Err(ReadError::Fault(DeckFault::OutOfRange)),
    }
}

/// Reads a constant of a version.
#[derive(Clone, Copy)]
pub struct Constants {
    pub version: Version,
}

impl ReadsOne for Constants {
    type Value = Value;

    ghost Said = { plain.Value };

    ghost say = { value_view };

    ghost field = { λ r. deck_fields.constant r.version };

    fn read<'a>(&self, alloc: Global, bytes: &'a [u8]) -> Result<(Value, &'a [u8]), ReadError> {
        constant_of(alloc, self.version, bytes)
    }
}

/// Reads an initial value of a version.
#[derive(Clone, Copy)]
struct Initials {
    version: Version,
}

impl ReadsOne for Initials {
    type Value = InitialScalar;

    ghost Said = { templates.InitialScalar };

    ghost say = { initial_view };

    ghost field = { λ r. deck_fields.initial r.version };

    #[tactic(auto, unfolding(pli_deck_write::specs::DeckFields::initial))]
    fn read<'a>(
        &self,
        alloc: Global,
        bytes: &'a [u8],
    ) -> Result<(InitialScalar, &'a [u8]), ReadError> {
        let (offset, rest) = word_of(bytes)?;
        let (value, rest) = constant_of(alloc, self.version, rest)?;
        Ok((InitialScalar { offset, value }, rest))
    }
}

/// A list of initial values of a version, with a count of four bytes.
fn initials_of(
    alloc: Global,
    version: Version,
    bytes: &[u8],
) -> Result<(Vec<InitialScalar>, &[u8]), ReadError>
    ensures { Gives (λ x. (map initial_view x.0.items, x.1.now)) result
        ((list_of u4 (deck_fields.initial version)).read bytes.now) }
{
    let (count, rest) = word_of(bytes)?;
    many_of(alloc, &Initials { version }, count, rest)
}

/// Reads a template of a version.
#[derive(Clone, Copy)]
pub struct Templates {
    pub version: Version,
}

impl ReadsOne for Templates {
    type Value = CodedTemplate;

    ghost Said = { tables.CodedTemplate };

    ghost say = { coded_template_view };

    ghost field = { λ r. deck_fields.template r.version };

    #[tactic(auto, unfolding(pli_deck_write::specs::DeckFields::template))]
    fn read<'a>(
        &self,
        alloc: Global,
        bytes: &'a [u8],
    ) -> Result<(CodedTemplate, &'a [u8]), ReadError> {
        let (description, rest) = short_of(bytes)?;
        let (initial, rest) = initials_of(alloc, self.version, rest)?;
        Ok((
            CodedTemplate {
                description,
                initial,
            },
            rest,
        ))
    }
}
