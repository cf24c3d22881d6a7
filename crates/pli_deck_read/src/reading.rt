//! Numbers, names and lists at the front of bytes.
ghost use Rattle.std.specs.Prelude.{◌≡◌, ◌≤◌, length, map, true, false, IfSome, IfNone};
ghost use Rattle.pli_code.specs.Fields.{Answers, byte_at, many, byte, list, list_of, u2, count_of_one, from_to};
ghost use Rattle.pli_code.specs.Fields as fields;
ghost use Rattle.pli_deck_write.specs.DeckFields as deck_fields;
ghost use Rattle.pli_base.specs.answers.FailureAnswers.{Gives};

use crate::error::ReadError;
use pli_base::Name;
use pli_code::DeckFault;
use pli_code::fields::{byte_within, short_of};
use std::alloc::Global;

/// A count of one byte, from `low` to `high`.
pub fn count_within(bytes: &[u8], low: u8, high: u8) -> Result<(u8, &[u8]), DeckFault>
    ensures { Answers (λ x. (x.0, x.1.now)) result ((from_to low high count_of_one).read bytes.now) }
{
    byte_within(bytes, low, high)
}

/// A number of two bytes from `low` to `high`.
pub fn short_within(bytes: &[u8], low: u16, high: u16) -> Result<(u16, &[u8]), DeckFault>
    ensures { Answers (λ x. (x.0, x.1.now)) result ((from_to low high u2).read bytes.now) }
{
    let (number, rest) = short_of(bytes)?;
    if low <= number && number <= high {
        Ok((number, rest))
    } else {
        Err(DeckFault::OutOfRange)
    }
}

/// 0 for no, 1 for yes.
pub fn flag_of(bytes: &[u8]) -> Result<(bool, &[u8]), DeckFault>
    ensures { Answers (λ x. (x.0, x.1.now)) result (deck_fields.flag.read bytes.now) }
{
    let (number, rest) = byte_within(bytes, 0, 1)?;
    Ok((number == 1, rest))
}

/// A number below 65,535, or none.
#[tactic(auto, unfolding(pli_deck_write::specs::DeckFields::optional))]
pub fn optional_of(bytes: &[u8]) -> Result<(Option<u16>, &[u8]), DeckFault>
    ensures { Answers (λ x. (x.0, x.1.now)) result (deck_fields.optional.read bytes.now) }
{
    let (number, rest) = short_of(bytes)?;
    let present = if number < 65535 { Some(number) } else { None };
    Ok((present, rest))
}

/// So many bytes.
pub fn text_of(bytes: &[u8], count: usize) -> Result<(&[u8], &[u8]), DeckFault>
    ensures { Answers (λ x. (x.0.now, x.1.now)) result (many byte_at count bytes.now) }
{
    if bytes.len() < count {
        return Err(DeckFault::Truncated);
    }
    Ok(bytes.split_at(count))
}

/// The characters of a name, which may be none.
pub fn name_text_of(bytes: &[u8]) -> Result<(&[u8], &[u8]), DeckFault>
    ensures { Answers (λ x. (x.0.now, x.1.now)) result ((list_of (from_to 1 31 count_of_one) byte).read bytes.now) }
{
    let (count, rest) = count_within(bytes, 1, 31)?;
    text_of(rest, usize::from(count))
}

/// The name that `text` is, if it is one and in upper case.
pub fn upper_name(text: &[u8]) -> Option<Name>
    ensures found { IfSome result (λ n. (n ≡ text.now) × (deck_fields.is_name text.now ≡ true)) }
    ensures none { IfNone result (deck_fields.is_name text.now ≡ false) }
{
    match Name::read(text) {
        Some(name) if name.is(text) => Some(name),
        _ => None,
    }
}

/// What reads one value from the front of bytes.
pub trait ReadsOne {
    type Value: Drop;

    /// The value as definitions speak of it.
    ghost Said: { Type 0 };

    ghost say: { Self.Value → Said };

    /// How a reader reads it.
    ghost field: { Self → fields.Field Said };

    fn read<'a>(&self, alloc: Global, bytes: &'a [u8]) -> Result<(Self::Value, &'a [u8]), ReadError>
        ensures { Gives (λ x. (say x.0, x.1.now)) result ((field self.now).read bytes.now) };
}

/// For how many values there is room at first: for all that a count promises where there are no fewer bytes, and else
/// for none.
fn room_for(count: u32, bytes: &[u8]) -> usize
    ensures { result ≤ length bytes.now }
{
    let promised = count as usize;
    if promised <= bytes.len() { promised } else { 0 }
}

/// So many values, one after another.
pub fn many_of<'a, R: ReadsOne>(
    alloc: Global,
    reader: &R,
    count: u32,
    bytes: &'a [u8],
) -> Result<(Vec<R::Value>, &'a [u8]), ReadError>
    ensures { Gives (λ x. (map R.say x.0.items, x.1.now)) result (many (R.field reader.now).read count bytes.now) }
{
    let mut values = Vec::with_capacity(alloc, room_for(count, bytes))?;
    let mut rest = bytes;
    for _ in 0..count {
        let (value, after) = reader.read(alloc, rest)?;
        values.push(value)?;
        rest = after;
    }
    Ok((values, rest))
}

/// A list, with its count of two bytes.
pub fn list_at<'a, R: ReadsOne>(
    alloc: Global,
    reader: &R,
    bytes: &'a [u8],
) -> Result<(Vec<R::Value>, &'a [u8]), ReadError>
    ensures { Gives (λ x. (map R.say x.0.items, x.1.now)) result ((list (R.field reader.now)).read bytes.now) }
{
    let (count, rest) = short_of(bytes)?;
    many_of(alloc, reader, u32::from(count), rest)
}
