//! Strings of few bits (X3.74), as numbers, which take no memory.
ghost use Rattle.std.specs.Prelude.{◌≡◌, ◌≢◌, ℕ, ◌+◌, ◌-◌, ◌^◌, ◌<◌, ◌≤◌, ◌∷◌, [], false, length, take, drop, nat_eq};
ghost use Rattle.std.specs.Prelude.{◌++◌, slice_index_or, Some, None, IfOk, MatchOption};
ghost use Rattle.std.specs.Int.{bit_at};
ghost use Rattle.pli_value.specs.Conversions.{bit_character, bit_characters};
ghost use Rattle.pli_value.specs.Short.{bits_of, short_view};
ghost use Rattle.pli_value.specs.Strings.{concatenation, conjunction, disjunction, fitted, negation, substring};
ghost use Rattle.pli_value.specs.Strings.{substring_from};

use crate::part::{part_of, rest_of};
use crate::short_bits::ShortBits;
use std::alloc::AllocError;

/// How many bits a string has at most that is kept as a number (own).
pub const SHORT_LIMIT: usize = 63;

/// The number that has so many binary digits, all ones.
#[inline(always)]
fn ones(count: usize) -> u64
    requires { count ≤ 63 }
    ensures { result ≡ 2 ^ count - 1 }
{
    (1 << count) - 1
}

impl ShortBits {
    /// The string of no bits.
    #[inline(always)]
    pub fn empty() -> ShortBits
        ensures { short_view result ≡ [] }
    {
        ShortBits {
            number: 0,
            count: 0,
        }
    }

    /// The string of so many bits that are the binary digits of a number.
    #[inline(always)]
    pub fn new(number: u64, count: usize) -> ShortBits
        requires few { count ≤ 63 }
        requires small { number < 2 ^ count }
        ensures { short_view result ≡ bits_of count number }
    {
        ShortBits { number, count }
    }

    /// The number of which the first so many binary digits are these bits, and the others zeros.
    #[inline(always)]
    fn widened(self, count: usize) -> u64
        requires long { self.count ≤ count }
        requires few { count ≤ 63 }
        ensures small { result < 2 ^ count }
        ensures bits { (k : ℕ) → k < count → nat_eq (bit_at result (count - 1 - k)) 1
            ≡ slice_index_or (short_view self) k false }
    {
        self.number << (count - self.count)
    }

    /// The same bits with zeros after them, so many in all.
    #[inline(always)]
    fn lengthened(self, count: usize) -> ShortBits
        requires long { self.count ≤ count }
        requires few { count ≤ 63 }
        ensures { short_view result ≡ fitted false count (short_view self) }
    {
        ShortBits::new(self.widened(count), count)
    }

    /// So many of these bits, after so many.
    #[inline(always)]
    fn part(self, before: usize, count: usize) -> ShortBits
        requires { before + count ≤ self.count }
        ensures { short_view result ≡ take count (drop before (short_view self)) }
    {
        let after = self.count - before - count;
        ShortBits::new(self.number >> after & ones(count), count)
    }

    /// The bit that the string has alone, if it has one.
    #[inline(always)]
    pub fn lone(self) -> Option<bool>
        ensures { MatchOption result (length (short_view self) ≢ 1) (λ b. short_view self ≡ b ∷ []) }
    {
        if self.count != 1 {
            return None;
        }
        Some(self.number == 1)
    }
}

/// `&` (X3.74): the shorter string is extended with zeros.
#[inline]
pub fn and(left: ShortBits, right: ShortBits) -> ShortBits
    ensures { short_view result ≡ conjunction (short_view left) (short_view right) }
{
    let count = left.count.max(right.count);
    ShortBits::new(left.widened(count) & right.widened(count), count)
}

/// `|` (X3.74): the shorter string is extended with zeros.
#[inline]
pub fn or(left: ShortBits, right: ShortBits) -> ShortBits
    ensures { short_view result ≡ disjunction (short_view left) (short_view right) }
{
    let count = left.count.max(right.count);
    ShortBits::new(left.widened(count) | right.widened(count), count)
}

/// `^` (X3.74).
#[inline]
pub fn not(bits: ShortBits) -> ShortBits
    ensures { short_view result ≡ negation (short_view bits) }
{
    ShortBits::new(bits.number ^ ones(bits.count), bits.count)
}

/// `||` (X3.74): one string after the other; none where the result has more than [`SHORT_LIMIT`] bits.
#[inline]
pub fn concat(left: ShortBits, right: ShortBits) -> Option<ShortBits>
    ensures { MatchOption result (63 < length (short_view left) + length (short_view right))
        (λ both. concatenation (short_view left) (short_view right) ≡ Some (short_view both)) }
{
    let count = left.count + right.count;
    if count > SHORT_LIMIT {
        return None;
    }
    Some(ShortBits::new(left.number << right.count | right.number, count))
}

/// SUBSTR (X3.74) with a length; none where the part does not lie within the string.
#[inline]
pub fn substr(bits: ShortBits, first: i64, count: i64) -> Option<ShortBits>
    ensures { MatchOption result (substring (short_view bits) first count ≡ None)
        (λ part. substring (short_view bits) first count ≡ Some (short_view part)) }
{
    match part_of(bits.count, first, count) {
        Some(found) => Some(bits.part(found.0, found.1)),
        None => None,
    }
}

/// SUBSTR (X3.74) without a length: all from a place on.
#[inline]
pub fn rest(bits: ShortBits, first: i64) -> Option<ShortBits>
    ensures { MatchOption result (substring_from (short_view bits) first ≡ None)
        (λ part. substring_from (short_view bits) first ≡ Some (short_view part)) }
{
    match rest_of(bits.count, first) {
        Some(found) => Some(bits.part(found.0, found.1)),
        None => None,
    }
}

/// A string assigned to BIT of so many bits: cut on the right, or extended there with zeros (X3.74).
#[inline]
pub fn fit(bits: ShortBits, size: usize) -> ShortBits
    requires { size ≤ 63 }
    ensures { short_view result ≡ fitted false size (short_view bits) }
{
    if bits.count < size {
        return bits.lengthened(size);
    }
    bits.part(0, size)
}

/// The character of the binary digit of a number that is worth so many times two.
#[inline(always)]
fn digit_character(number: u64, worth: usize) -> u8
    requires { worth ≤ 63 }
    ensures { result ≡ bit_character (nat_eq (bit_at number worth) 1) }
{
    if number >> worth & 1 == 1 { b'1' } else { b'0' }
}

/// A character for each bit (X3.74), put after others.
pub fn append_characters(text: &mut Vec<u8>, bits: ShortBits) -> Result<(), AllocError>
    ensures { IfOk result (λ _. text.new.items ≡ text.old.items ++ bit_characters (short_view bits)) }
{
    for place in 0..bits.count {
        text.push(digit_character(bits.number, bits.count - 1 - place))?;
    }
    Ok(())
}
