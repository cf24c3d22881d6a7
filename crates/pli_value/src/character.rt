//! Strings of characters (X3.74), a byte for each character.
ghost use Rattle.std.specs.Prelude.{◌≡◌, ◌≤◌, ◌↔◌, IsTrue, length, take, slice_index_or, IfOk, MatchOption, Some, None};
ghost use Rattle.std.specs.Option.{option_copied};
ghost use Rattle.std.specs.Ordering.{nat_cmp};
ghost use Rattle.std.specs.Fmt.{signed_decimal};
ghost use Rattle.pli_value.specs.Strings.{order_of, concatenation, substring, substring_from, fitted, index_of};
ghost use Rattle.pli_value.specs.Conversions.{NumberAppended, number_characters, bit_characters};

use crate::part::{part_of, rest_of};
use itoa::Buffer;
use memchr::memmem;
use std::alloc::{AllocError, Global};
use std::cmp::Ordering;

/// The most characters, or bits, of a string (own).
pub const STRING_LIMIT: usize = 32_767;

/// How many characters more a copy has room for (own).
const ROOM: usize = 64;

/// The order of two strings by their codes, the shorter one extended with blanks (X3.74). Where their first characters
/// differ, no others are looked at.
#[inline(always)]
pub fn compare(left: &[u8], right: &[u8]) -> Ordering
    ensures { result ≡ order_of 32 nat_cmp left.now right.now }
{
    if left.is_empty() {
        return compare_all(left, right);
    }
    match at(left, 0).cmp(&at(right, 0)) {
        Ordering::Equal => compare_all(left, right),
        unequal => unequal,
    }
}

/// The same, found place by place.
fn compare_all(left: &[u8], right: &[u8]) -> Ordering
    ensures { result ≡ order_of 32 nat_cmp left.now right.now }
{
    for place in 0..left.len().max(right.len()) {
        match at(left, place).cmp(&at(right, place)) {
            Ordering::Equal => {}
            unequal => return unequal,
        }
    }
    Ordering::Equal
}

/// The character at a place, a blank past the end.
#[inline(always)]
fn at(characters: &[u8], place: usize) -> u8
    ensures { result ≡ slice_index_or characters.now place 32 }
{
    characters.get(place).copied().unwrap_or(b' ')
}

/// INDEX (X3.74): the first place, from 1 on, at which the sought string stands; 0 where it is nowhere, or where one of
/// the two is empty.
pub fn index(characters: &[u8], sought: &[u8]) -> usize
    ensures { result ≡ index_of characters.now sought.now }
{
    if sought.is_empty() {
        return 0;
    }
    match memmem::find(characters, sought) {
        Some(place) => place + 1,
        None => 0,
    }
}

/// `||` (X3.74): one string after the other; none where the result has more than [`STRING_LIMIT`] characters.
pub fn concat(alloc: Global, left: &[u8], right: &[u8]) -> Result<Option<Vec<u8>>, AllocError>
    ensures { IfOk result (λ given. MatchOption given (concatenation left.now right.now ≡ None)
        (λ both. concatenation left.now right.now ≡ Some both.items)) }
{
    if left.len() + right.len() > STRING_LIMIT {
        return Ok(None);
    }
    let mut both = Vec::with_capacity(alloc, left.len() + right.len())?;
    both.extend_from_slice(left)?;
    both.extend_from_slice(right)?;
    Ok(Some(both))
}

/// An equal string with room for some more characters, which are joined to it without other memory.
pub fn roomy_copy(alloc: Global, characters: &[u8]) -> Result<Vec<u8>, AllocError>
    ensures { IfOk result (λ copy. copy.items ≡ characters.now) }
{
    let mut copy = Vec::with_capacity(alloc, characters.len() + ROOM)?;
    copy.extend_from_slice(characters)?;
    Ok(copy)
}

/// SUBSTR (X3.74) with a length; none where the part does not lie within the string.
pub fn substr(characters: &[u8], first: i64, count: i64) -> Option<&[u8]>
    ensures { option_copied result ≡ substring characters.now first count }
{
    let (before, count) = part_of(characters.len(), first, count)?;
    Some(&characters[before..before + count])
}

/// SUBSTR (X3.74) without a length: all from a place on.
pub fn rest(characters: &[u8], first: i64) -> Option<&[u8]>
    ensures { option_copied result ≡ substring_from characters.now first }
{
    let (before, count) = rest_of(characters.len(), first)?;
    Some(&characters[before..before + count])
}

/// A string assigned to CHARACTER of so many characters: cut on the right, or extended there with blanks (X3.74).
pub fn fit(alloc: Global, characters: &[u8], size: usize) -> Result<Vec<u8>, AllocError>
    ensures { IfOk result (λ new. new.items ≡ fitted 32 size characters.now) }
{
    let mut new = Vec::with_capacity(alloc, size)?;
    new.extend_from_slice(fit_varying(characters, size))?;
    new.resize(size, b' ')?;
    Ok(new)
}

/// A string assigned to CHARACTER VARYING of at most so many characters: cut on the right (X3.74).
#[inline(always)]
pub fn fit_varying(characters: &[u8], size: usize) -> &[u8]
    ensures { result.now ≡ take size characters.now }
{
    &characters[..characters.len().min(size)]
}

/// Whether the characters of a number, its minus sign among them, are no more than so many.
pub fn is_held(number: i64, width: usize) -> bool
    ensures { IsTrue result ↔ (length (signed_decimal number) ≤ width) }
{
    Buffer::new().format(number).len() <= width
}

/// A number as characters, at the right of so many (X3.74), which hold it.
pub fn to_char(alloc: Global, number: i64, width: usize) -> Result<Vec<u8>, AllocError>
    requires { length (signed_decimal number) ≤ width }
    ensures { IfOk result (λ text. text.items ≡ number_characters width number) }
{
    let mut buffer = Buffer::new();
    let digits = buffer.format(number).as_bytes();
    let mut text = Vec::with_capacity(alloc, width)?;
    text.resize(width - digits.len(), b' ')?;
    text.extend_from_slice(digits)?;
    Ok(text)
}

/// The same after other characters, where so many hold it; `false` where they don't, and nothing has changed then.
pub fn append_number(text: &mut Vec<u8>, number: i64, width: u8) -> Result<bool, AllocError>
    ensures { IfOk result (λ held. NumberAppended held width number text.old.items text.new.items) }
{
    let mut buffer = Buffer::new();
    let digits = buffer.format(number).as_bytes();
    let width = usize::from(width);
    if digits.len() > width {
        return Ok(false);
    }
    text.resize(text.len() + (width - digits.len()), b' ')?;
    text.extend_from_slice(digits)?;
    Ok(true)
}
