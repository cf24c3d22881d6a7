//! Strings of bits (X3.74), packed eight to a byte.
ghost use Rattle.std.specs.Prelude.{◌≡◌, ℕ, ◌≤◌, ◌<◌, ◌+◌, ◌-◌, ◌*◌, ◌++◌, ◌∷◌, [], length, map, nat_eq};
ghost use Rattle.std.specs.Prelude.{slice_index_or, take, drop, false, IfOk, OnErr, MatchOption, Some, None};
ghost use Rattle.std.specs.Int.{bit_at};
ghost use Rattle.std.specs.List.{range_with_len};
ghost use Rattle.std.specs.Ordering.{bool_cmp};
ghost use Rattle.pli_value.specs.Strings.{order_of, concatenation, substring, substring_from, fitted, conjunction};
ghost use Rattle.pli_value.specs.Strings.{disjunction, negation, index_of, is_true};
ghost use Rattle.pli_value.specs.Conversions.{bit_character, bit_characters};
ghost use Rattle.pli_value.specs.Packing.{packed_bit};

use crate::character::{self, STRING_LIMIT};
use crate::packing::{across, byte_at, bytes_of, first_of, turned, window};
use crate::part::{part_of, rest_of};
use std::alloc::{AllocError, Global};
use std::cmp::Ordering;
use std::marker::Model;

/// How many bits a string has at most that is searched in little room.
const SHORT: usize = 256;

/// A bit string of at most 32,767 bits: eight to a byte, the first bit highest, and nothing after the last one (own).
/// Contracts see the list of its bits.
#[derive(Drop)]
pub struct Bits {
    bytes: Vec<u8>,
    count: usize,
}

impl Model for Bits {
    ghost use Rattle.std.specs.Prelude.{List, Bool};
    ghost use Rattle.pli_value.specs.Packing.{IsPacked, unpacked};

    ghost Value = { List Bool };

    ghost view = { λ s. unpacked s.count s.bytes.items };

    ghost invariant = { λ s. IsPacked s.count s.bytes.items };
}

impl Bits {
    ghost use Rattle.pli_value.specs.Packing.{IsPacked, unpacked};

    /// The string of no bits.
    pub fn new(alloc: Global) -> Bits
        ensures { result ≡ [] }
    {
        Bits {
            bytes: Vec::new(alloc),
            count: 0,
        }
    }

    /// How many bits there are, at most 32,767.
    #[inline]
    pub fn length(&self) -> usize
        ensures value { result ≡ length self.now }
        ensures bound { result ≤ 32767 }
    {
        self.count
    }

    /// The bytes, of which each has eight bits, the first bit highest. After the last bit stands nothing.
    pub fn bytes(&self) -> &[u8]
        ensures value { unpacked (length self.now) result.now ≡ self.now }
        ensures packed { IsPacked (length self.now) result.now }
    {
        self.bytes.as_slice()
    }

    /// The bit at a place, counted from 0; 0 past the end.
    #[inline]
    pub fn at(&self, place: usize) -> bool
        ensures { result ≡ slice_index_or self.now place false }
    {
        if place >= self.count {
            return false;
        }
        self.bytes[place / 8] >> (7 - place % 8) & 1 == 1
    }

    /// One bit more at the end. Where there is no memory the string stays as it is.
    pub fn push(&mut self, bit: bool) -> Result<(), AllocError>
        requires { length self.old < 32767 }
        ensures pushed { IfOk result (λ _. self.new ≡ self.old ++ bit ∷ []) }
        ensures same { OnErr result (self.new ≡ self.old) }
    {
        let shift = 7 - self.count % 8;
        if shift == 7 {
            self.bytes.push(0)?;
        }
        if bit {
            self.bytes[self.count / 8] |= 1 << shift;
        }
        self.count += 1;
        Ok(())
    }

    /// The first so many of the bits that stand in bytes, of each byte the highest first.
    pub fn unpack(alloc: Global, bytes: &[u8], count: usize) -> Result<Bits, AllocError>
        requires limit { count ≤ 32767 }
        requires within { count ≤ 8 * length bytes.now }
        ensures { IfOk result (λ bits. bits ≡ unpacked count bytes.now) }
    {
        let bits = cut(alloc, bytes, 0, count)?;
        Ok(bits)
    }

    /// The bits that stand in bytes, of which there are as many as they need, with nothing after the last one.
    #[inline]
    fn of_bytes(bytes: Vec<u8>, count: usize) -> Bits
        requires { IsPacked count bytes.items }
        ensures { result ≡ unpacked count bytes.items }
    {
        Bits { bytes, count }
    }

    /// Eight bits from 8 times a number on, the first one highest; zeros after the end.
    #[inline(always)]
    fn octet(&self, number: usize) -> u8
        ensures { (i : ℕ) → i < 8 → nat_eq (bit_at result (7 - i)) 1 ≡ slice_index_or self.now (8 * number + i) false }
    {
        byte_at(self.bytes.as_slice(), number)
    }

    /// Eight bits from 8 times a number on, where these begin so many bits further on; zeros before them and after
    /// them.
    #[inline]
    fn octet_after(&self, before: usize, number: usize) -> u8
        requires { number ≤ 4096 }
        ensures none { (i : ℕ) → i < 8 → 8 * number + i < before → nat_eq (bit_at result (7 - i)) 1 ≡ false }
        ensures some { (i : ℕ) → i < 8 → before ≤ 8 * number + i
            → nat_eq (bit_at result (7 - i)) 1 ≡ slice_index_or self.now (8 * number + i - before) false }
    {
        let bytes = self.bytes.as_slice();
        let place = 8 * number;
        if before <= place {
            return window(bytes, place - before);
        }
        let shift = before - place;
        if shift > 7 {
            return 0;
        }
        across(0, byte_at(bytes, 0), 8 - shift)
    }

    /// An equal string.
    pub fn copy(&self, alloc: Global) -> Result<Bits, AllocError>
        ensures { IfOk result (λ copied. copied ≡ self.now) }
    {
        Ok(Bits {
            bytes: Vec::from_slice(alloc, self.bytes.as_slice())?,
            count: self.count,
        })
    }
}

/// The order of two strings, bit by bit from the left, the shorter one extended with zeros (X3.74).
pub fn compare(left: &Bits, right: &Bits) -> Ordering
    ensures { result ≡ order_of false bool_cmp left.now right.now }
{
    for place in 0..left.length().max(right.length()) {
        match left.at(place).cmp(&right.at(place)) {
            Ordering::Equal => {}
            unequal => return unequal,
        }
    }
    Ordering::Equal
}

/// `&` (X3.74): the shorter string is extended with zeros.
pub fn and(alloc: Global, left: &Bits, right: &Bits) -> Result<Bits, AllocError>
    ensures { IfOk result (λ both. both ≡ conjunction left.now right.now) }
{
    let count = left.length().max(right.length());
    let size = bytes_of(count);
    let mut both = Vec::with_capacity(alloc, size)?;
    for number in 0..size {
        both.push(left.octet(number) & right.octet(number))?;
    }
    Ok(Bits::of_bytes(both, count))
}

/// `|` (X3.74): the shorter string is extended with zeros.
pub fn or(alloc: Global, left: &Bits, right: &Bits) -> Result<Bits, AllocError>
    ensures { IfOk result (λ joined. joined ≡ disjunction left.now right.now) }
{
    let count = left.length().max(right.length());
    let size = bytes_of(count);
    let mut joined = Vec::with_capacity(alloc, size)?;
    for number in 0..size {
        joined.push(left.octet(number) | right.octet(number))?;
    }
    Ok(Bits::of_bytes(joined, count))
}

/// Whether a condition holds (X3.74): a bit of the string is one.
pub fn is_true(bits: &Bits) -> bool
    ensures { result ≡ is_true bits.now }
{
    for place in 0..bits.length() {
        if bits.at(place) {
            return true;
        }
    }
    false
}

/// `^` (X3.74).
pub fn not(alloc: Global, bits: &Bits) -> Result<Bits, AllocError>
    ensures { IfOk result (λ new. new ≡ negation bits.now) }
{
    let count = bits.length();
    let size = bytes_of(count);
    let mut new = Vec::with_capacity(alloc, size)?;
    for number in 0..size {
        let byte = turned(bits.octet(number));
        new.push(first_of(byte, count - 8 * number))?;
    }
    Ok(Bits::of_bytes(new, count))
}

/// So many of the bits that stand in bytes, after so many of them; zeros after the bytes.
fn cut(alloc: Global, bytes: &[u8], before: usize, count: usize) -> Result<Bits, AllocError>
    requires place { before ≤ 32767 }
    requires limit { count ≤ 32767 }
    ensures { IfOk result (λ bits. bits ≡ map (λ k. packed_bit bytes.now (before + k)) (range_with_len 0 count)) }
{
    let size = bytes_of(count);
    let mut packed = Vec::with_capacity(alloc, size)?;
    for number in 0..size {
        let byte = window(bytes, before + 8 * number);
        packed.push(first_of(byte, count - 8 * number))?;
    }
    Ok(Bits::of_bytes(packed, count))
}

/// So many bits of a string, after so many of it.
fn piece(alloc: Global, bits: &Bits, before: usize, count: usize) -> Result<Bits, AllocError>
    requires within { before + count ≤ length bits.now }
    requires bound { length bits.now ≤ 32767 }
    ensures { IfOk result (λ part. part ≡ take count (drop before bits.now)) }
{
    let part = cut(alloc, bits.bytes(), before, count)?;
    Ok(part)
}

/// One string after the other, which are short enough together.
fn join(alloc: Global, left: &Bits, right: &Bits) -> Result<Bits, AllocError>
    requires { length left.now + length right.now ≤ 32767 }
    ensures { IfOk result (λ both. both ≡ left.now ++ right.now) }
{
    let before = left.length();
    let more = right.length();
    let size = bytes_of(before + more);
    let mut both = Vec::with_capacity(alloc, size)?;
    for number in 0..size {
        both.push(left.octet(number) | right.octet_after(before, number))?;
    }
    Ok(Bits::of_bytes(both, before + more))
}

/// `||` (X3.74): one string after the other; none where the result has more than [`STRING_LIMIT`] bits.
pub fn concat(alloc: Global, left: &Bits, right: &Bits) -> Result<Option<Bits>, AllocError>
    ensures { IfOk result (λ given. MatchOption given (concatenation left.now right.now ≡ None)
        (λ both. concatenation left.now right.now ≡ Some both)) }
{
    if left.length() + right.length() > STRING_LIMIT {
        return Ok(None);
    }
    let both = join(alloc, left, right)?;
    Ok(Some(both))
}

/// SUBSTR (X3.74) with a length; none where the part does not lie within the string.
pub fn substr(
    alloc: Global,
    bits: &Bits,
    first: i64,
    count: i64,
) -> Result<Option<Bits>, AllocError>
    ensures { IfOk result (λ part. part ≡ substring bits.now first count) }
{
    match part_of(bits.length(), first, count) {
        Some((before, count)) => {
            let part = piece(alloc, bits, before, count)?;
            Ok(Some(part))
        }
        None => Ok(None),
    }
}

/// SUBSTR (X3.74) without a length: all from a place on.
pub fn rest(alloc: Global, bits: &Bits, first: i64) -> Result<Option<Bits>, AllocError>
    ensures { IfOk result (λ part. part ≡ substring_from bits.now first) }
{
    match rest_of(bits.length(), first) {
        Some((before, count)) => {
            let part = piece(alloc, bits, before, count)?;
            Ok(Some(part))
        }
        None => Ok(None),
    }
}

/// A string assigned to BIT of so many bits: cut on the right, or extended there with zeros (X3.74).
pub fn fit(alloc: Global, bits: &Bits, size: usize) -> Result<Bits, AllocError>
    requires { size ≤ 32767 }
    ensures { IfOk result (λ new. new ≡ fitted false size bits.now) }
{
    let new = cut(alloc, bits.bytes(), 0, size)?;
    Ok(new)
}

/// The same of a string that is handed over. It takes no memory where the string has so many bits already.
pub fn fit_whole(alloc: Global, bits: Bits, size: usize) -> Result<Bits, AllocError>
    requires { size ≤ 32767 }
    ensures { IfOk result (λ new. new ≡ fitted false size bits) }
{
    let count = bits.length();
    if count == size {
        return Ok(bits);
    }
    let new = fit(alloc, &bits, size)?;
    Ok(new)
}

/// Bits read as characters (X3.74): `1` and `0`.
pub fn bits_to_char(alloc: Global, bits: &Bits) -> Result<Vec<u8>, AllocError>
    ensures { IfOk result (λ characters. characters.items ≡ bit_characters bits.now) }
{
    let mut characters = Vec::with_capacity(alloc, bits.length())?;
    for place in 0..bits.length() {
        characters.push(character_of(bits.at(place)))?;
    }
    Ok(characters)
}

/// The character of a bit.
#[inline]
fn character_of(bit: bool) -> u8
    ensures { result ≡ bit_character bit }
{
    if bit { b'1' } else { b'0' }
}

/// INDEX (X3.74): the first place, from 1 on, at which the sought string stands; 0 where it is nowhere, or where one of
/// the two is empty.
pub fn index(bits: &Bits, sought: &Bits) -> usize
    ensures { result ≡ index_of (bit_characters bits.now) (bit_characters sought.now) }
{
    if bits.length().max(sought.length()) <= SHORT {
        index_in_short(bits, sought)
    } else {
        index_in_long(bits, sought)
    }
}

/// INDEX with room for the characters of short strings, so that it takes no more time than they are long.
#[inline(never)]
fn index_in_short(bits: &Bits, sought: &Bits) -> usize
    requires bits { length bits.now ≤ 256 }
    requires sought { length sought.now ≤ 256 }
    ensures { result ≡ index_of (bit_characters bits.now) (bit_characters sought.now) }
{
    index_by(bits, sought, &mut [0; SHORT], &mut [0; SHORT])
}

/// INDEX with room for the characters of any strings.
#[inline(never)]
fn index_in_long(bits: &Bits, sought: &Bits) -> usize
    requires bits { length bits.now ≤ 32767 }
    requires sought { length sought.now ≤ 32767 }
    ensures { result ≡ index_of (bit_characters bits.now) (bit_characters sought.now) }
{
    index_by(bits, sought, &mut [0; STRING_LIMIT], &mut [0; STRING_LIMIT])
}

/// INDEX, with buffers for the characters of both strings.
fn index_by(bits: &Bits, sought: &Bits, whole: &mut [u8], part: &mut [u8]) -> usize
    requires bits { length bits.now ≤ length whole.old }
    requires sought { length sought.now ≤ length part.old }
    ensures { result ≡ index_of (bit_characters bits.now) (bit_characters sought.now) }
{
    let (length, sought_length) = (bits.length(), sought.length());
    spell(bits, whole);
    spell(sought, part);
    character::index(&whole[..length], &part[..sought_length])
}

/// Writes the characters of bits into the first bytes of a buffer.
fn spell(bits: &Bits, buffer: &mut [u8])
    requires { length bits.now ≤ length buffer.old }
    ensures { take (length bits.now) buffer.new ≡ bit_characters bits.now }
{
    for place in 0..bits.length() {
        buffer[place] = character_of(bits.at(place));
    }
}
