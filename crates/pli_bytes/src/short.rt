//! Strings of few bits in bytes, where a scalar lies.
ghost use Rattle.std.specs.Prelude.{◌≡◌, ◌↔◌, ◌≤◌, ◌<◌, ◌+◌, ◌^◌, ◌++◌, length, drop, IsTrue, MatchOption};
ghost use Rattle.byteorder.specs.Endian.{big_bytes, big_number};
ghost use Rattle.std.specs.Int.{div_ceil};
ghost use Rattle.pli_bytes.specs.Changes.{IsPut, PutOrSame};
ghost use Rattle.pli_bytes.specs.Contents.{value_in};
ghost use Rattle.pli_map.specs.Description as tree;
ghost use Rattle.pli_value.specs.Packing.{unpacked};
ghost use Rattle.pli_value.specs.Short.{short_view};
ghost use Rattle.pli_value.specs.Value as plain;

use byteorder::{BigEndian, ByteOrder};
use pli_value::ShortBits;
use pli_value::bit::Bits;
use pli_value::short::SHORT_LIMIT;

/// The number that so many bytes say, the highest first: one, two or four of them take the short way.
#[inline(always)]
fn number_of(bytes: &[u8], size: usize) -> u64
    requires low { 1 ≤ size }
    requires high { size ≤ 8 }
    requires room { size ≤ length bytes.now }
    ensures { result ≡ big_number size bytes.now }
{
    match size {
        1 => u64::from(bytes[0]),
        2 => u64::from(BigEndian::read_u16(bytes)),
        4 => u64::from(BigEndian::read_u32(bytes)),
        _ => BigEndian::read_uint(bytes, size),
    }
}

/// So many bits with which bytes begin, of each byte the highest first.
#[inline(always)]
fn short_of(bytes: &[u8], count: usize) -> ShortBits
    requires few { count ≤ 63 }
    requires within { div_ceil count 8 ≤ length bytes.now }
    ensures { short_view result ≡ unpacked count bytes.now }
{
    let size = count.div_ceil(8);
    if size == 0 {
        return ShortBits::empty();
    }
    ShortBits::new(number_of(bytes, size) >> (8 * size - count), count)
}

/// A string of bits as one of few; `None` where it has more.
#[inline]
pub fn short_bits(bits: &Bits) -> Option<ShortBits>
    ensures { MatchOption result (63 < length bits.now) (λ s. bits.now ≡ short_view s) }
{
    let count = bits.length();
    if count > SHORT_LIMIT {
        return None;
    }
    Some(short_of(bits.bytes(), count))
}

/// The bits that a scalar of BIT of so many bits holds, which lies at an offset of the bytes; `None` where they end
/// before it does.
#[inline(always)]
pub fn short_at(bytes: &[u8], offset: usize, count: usize) -> Option<ShortBits>
    requires { count ≤ 63 }
    ensures { MatchOption result (length bytes.now < offset + div_ceil count 8) (λ s. value_in bytes.now
        (record { offset = offset; description = tree.Bit count }) ≡ plain.Bits (short_view s)) }
{
    if offset > bytes.len() {
        return None;
    }
    let rest = &bytes[offset..];
    let size = count.div_ceil(8);
    if rest.len() < size {
        return None;
    }
    Some(short_of(&rest[..size], count))
}

/// Bits put where a scalar of BIT of as many bits lies; where the bytes end before it does, nothing changes.
#[inline(always)]
pub fn put_short_at(bytes: &mut [u8], offset: usize, bits: ShortBits) -> bool
    ensures put { PutOrSame result (tree.Bit bits.count) (plain.Bits (short_view bits)) offset bytes.old bytes.new }
    ensures room { IsTrue result ↔ (offset + div_ceil bits.count 8 ≤ length bytes.old) }
{
    if offset > bytes.len() {
        return false;
    }
    put_first_short(&mut bytes[offset..], bits)
}

/// The same of the scalar with which the bytes begin.
#[inline(always)]
fn put_first_short(bytes: &mut [u8], bits: ShortBits) -> bool
    ensures put { PutOrSame result (tree.Bit bits.count) (plain.Bits (short_view bits)) 0 bytes.old bytes.new }
    ensures room { IsTrue result ↔ (div_ceil bits.count 8 ≤ length bytes.old) }
{
    if bytes.len() < bits.count.div_ceil(8) {
        return false;
    }
    put_short(bytes, bits);
    true
}

/// A number that has room in so many bytes put there with which bytes begin, the highest first: in one, two or four of
/// them it is put at once.
#[inline(always)]
fn put_number(bytes: &mut [u8], number: u64, size: usize)
    requires low { 1 ≤ size }
    requires high { size ≤ 8 }
    requires room { size ≤ length bytes.old }
    requires fits { number < 256 ^ size }
    ensures { bytes.new ≡ big_bytes size number ++ drop size bytes.old }
{
    match size {
        1 => bytes[0] = number as u8,
        2 => BigEndian::write_u16(bytes, number as u16),
        4 => BigEndian::write_u32(bytes, number as u32),
        _ => BigEndian::write_uint(bytes, number, size),
    }
}

/// Bits put where a scalar of BIT of as many lies with which the bytes begin, of which there are so many.
#[inline(always)]
fn put_short(bytes: &mut [u8], bits: ShortBits)
    requires { div_ceil bits.count 8 ≤ length bytes.old }
    ensures { IsPut (tree.Bit bits.count) (plain.Bits (short_view bits)) 0 bytes.old bytes.new }
{
    let size = bits.count.div_ceil(8);
    if size == 0 {
        return;
    }
    put_number(bytes, bits.number << (8 * size - bits.count), size);
}
