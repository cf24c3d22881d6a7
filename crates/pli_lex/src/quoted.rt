//! Character and bit constants.
ghost use Rattle.std.specs.Prelude.{◌≡◌, ◌<◌, ◌≤◌, ◌^◌, ◌++◌, IsTrue, Some, None, false, IfOk, OnOk, length, take};
ghost use Rattle.std.specs.Prelude.{if◌then◌else◌};
ghost use Rattle.std.specs.Option.{option_map};
ghost use Rattle.pli_lex.specs.Characters.{is_quote, is_b, begins_with};
ghost use Rattle.pli_lex.specs.Tokens.{width_of, bits_of, are_digits, bits_in};
ghost use Rattle.pli_lex.specs.Reading.{string_from, suffix_width, string, string_at};

use crate::character::{begins_with_b, continues_name, digit_value};
use pli_base::{BitString, CharacterString, Code, TokenText};
use std::alloc::{AllocError, Global};

/// The places of the bits of a digit.
const PLACES: [u8; 4] = [8, 4, 2, 1];

/// The characters of a string after its opening quote, a doubled quote being one, and how many bytes these and the
/// closing quote take; None where no quote closes it.
fn characters_of(alloc: Global, text: &[u8]) -> Result<Option<(Vec<u8>, usize)>, AllocError>
    ensures { IfOk result (λ found. option_map (λ string. (string.0.items, string.1)) found
        ≡ string_from false text.now) }
{
    let mut characters = Vec::new(alloc);
    let mut at = 0;
    while at < text.len() {
        let byte = text[at];
        if byte != b'\'' {
            at += 1;
        } else if at + 1 < text.len() && text[at + 1] == b'\'' {
            at += 2;
        } else {
            return Ok(Some((characters, at + 1)));
        }
        characters.push(byte)?;
    }
    Ok(None)
}

/// How many bits a digit has where the closing quote is followed by a text that begins with `B` (X3.74), and how many
/// bytes say so.
fn suffix(text: &[u8]) -> (u8, usize)
    requires { IsTrue (begins_with is_b text.now) }
    ensures width { width_of (take result.1 text.now) ≡ Some result.0 }
    ensures taken { result.1 ≡ suffix_width text.now }
    ensures within { result.1 ≤ length text.now }
    ensures range { (1 ≤ result.0) × (result.0 ≤ 4) }
{
    match text {
        [_, b'1', ..] => (1, 2),
        [_, b'2', ..] => (2, 2),
        [_, b'3', ..] => (3, 2),
        [_, b'4', ..] => (4, 2),
        _ => (1, 1),
    }
}

/// Adds the bits of a digit's value, from left to right.
fn push_bits(bits: &mut Vec<bool>, width: u8, value: u8) -> Result<(), AllocError>
    requires { width ≤ 4 }
    ensures { OnOk result (bits.new.items ≡ bits.old.items ++ bits_of width value) }
{
    for place in &PLACES[4 - usize::from(width)..] {
        bits.push(value / *place % 2 == 1)?;
    }
    Ok(())
}

/// The bits of digits that have `width` bits each; None where one has more.
fn bits_in(alloc: Global, width: u8, digits: &[u8]) -> Result<Option<Vec<bool>>, AllocError>
    requires { width ≤ 4 }
    ensures { IfOk result (λ bits. option_map (λ bits. bits.items) bits
        ≡ (if are_digits width digits.now then Some (bits_in width digits.now) else None)) }
{
    let mut bits = Vec::new(alloc);
    for digit in digits {
        let value = digit_value(*digit);
        if value >= 1 << width {
            return Ok(None);
        }
        push_bits(&mut bits, width, value)?;
    }
    Ok(Some(bits))
}

/// The bit constant of these digits, where `rest`, which begins with `B`, comes directly after the closing quote; it
/// takes `taken` bytes up to there.
fn bits(
    alloc: Global,
    digits: &[u8],
    taken: usize,
    rest: &[u8],
) -> Result<Result<(TokenText, usize), Code>, AllocError>
    requires form { IsTrue (begins_with is_b rest.now) }
    requires room { taken < 2 ^ 63 }
    ensures { IfOk result (λ found. found ≡ string digits.now taken rest.now) }
{
    let (width, suffix) = suffix(rest);
    if continues_name(rest.split_at(suffix).1) {
        return Ok(Err(Code::BadBits));
    }
    Ok(match bits_in(alloc, width, digits)? {
        None => Err(Code::BadBits),
        Some(bits) => Ok((TokenText::Bits(BitString::new(bits)), taken + suffix)),
    })
}

/// The character constant or the bit constant at the front of a text that begins with a quote.
pub fn string_at(alloc: Global, text: &[u8]) -> Result<Result<(TokenText, usize), Code>, AllocError>
    requires { IsTrue (begins_with is_quote text.now) }
    ensures { IfOk result (λ found. found ≡ string_at text.now) }
{
    let Some((characters, width)) = characters_of(alloc, text.split_at(1).1)? else {
        return Ok(Err(Code::UnendedString));
    };
    let taken = width + 1;
    let rest = text.split_at(taken).1;
    if begins_with_b(rest) {
        bits(alloc, &characters, taken, rest)
    } else {
        let text = TokenText::Characters(CharacterString::new(characters));
        Ok(Ok((text, taken)))
    }
}
