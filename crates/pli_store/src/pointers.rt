//! Pointers, in bytes where they lie.
ghost use Rattle.std.specs.Prelude.{◌≡◌, ◌↔◌, ◌+◌, ◌≤◌, ◌<◌, drop, length, true, false, IsTrue, IfSome, MatchOption};
ghost use Rattle.byteorder.specs.Endian.{big_number};
ghost use Rattle.pli_bytes.specs.Changes.{IsPut, PutOrSame};
ghost use Rattle.pli_bytes.specs.Contents.{value_in};
ghost use Rattle.pli_map.specs.Description as tree;
ghost use Rattle.pli_map.specs.StoredValues as stored;
ghost use Rattle.pli_map.specs.Values.{holds};
ghost use Rattle.pli_value.specs.Value.{Located};

use byteorder::{BigEndian, ByteOrder};
use pli_value::Locator;

/// How many bytes a pointer takes.
const POINTER_SIZE: usize = 8;

/// The pointer that eight bytes are: one more than the number of its generation, then its position; null where the
/// first number is zero.
#[inline(always)]
fn pointer_of(bytes: &[u8]) -> Locator
    requires { length bytes.now ≡ 8 }
    ensures { result ≡ stored.pointer_of (big_number 4 bytes.now) (big_number 4 (drop 4 bytes.now)) }
{
    match BigEndian::read_u32(bytes).checked_sub(1) {
        Some(generation) => Locator::Pointer {
            generation,
            position: BigEndian::read_u32(&bytes[4..]),
        },
        None => Locator::Null,
    }
}

/// The pointer that a scalar of POINTER holds, which lies at an offset of the bytes; `None` where they end before it
/// does.
#[inline]
pub fn pointer_at(bytes: &[u8], offset: usize) -> Option<Locator>
    ensures { MatchOption result (length bytes.now < offset + 8)
        (λ l. value_in bytes.now (record { offset = offset; description = tree.Pointer }) ≡ Located l) }
{
    if offset > bytes.len() {
        return None;
    }
    let rest = &bytes[offset..];
    if rest.len() < POINTER_SIZE {
        return None;
    }
    Some(pointer_of(&rest[..POINTER_SIZE]))
}

/// The same of bytes in which it ends.
#[inline(always)]
pub fn known_pointer(bytes: &[u8], offset: usize) -> Locator
    requires { offset + 8 ≤ length bytes.now }
    ensures { value_in bytes.now (record { offset = offset; description = tree.Pointer }) ≡ Located result }
{
    let rest = &bytes[offset..];
    pointer_of(&rest[..POINTER_SIZE])
}

/// The two numbers that a pointer is in its bytes; `None` for an offset, and where four bytes do not hold a number.
#[inline(always)]
fn numbers_of(locator: Locator) -> Option<(u32, u32)>
    ensures numbers { IfSome result (λ n. stored.pointer_of n.0 n.1 ≡ locator) }
    ensures held { MatchOption result (holds tree.Pointer (Located locator) ≡ false)
        (λ n. holds tree.Pointer (Located locator) ≡ true) }
{
    match locator {
        Locator::Null => Some((0, 0)),
        Locator::Pointer {
            generation,
            position,
        } => Some((generation.checked_add(1)?, position)),
        Locator::Offset(_) => None,
    }
}

/// The two numbers of a pointer put into the first eight bytes.
#[inline(always)]
fn put_numbers(bytes: &mut [u8], first: u32, second: u32)
    requires { 8 ≤ length bytes.old }
    ensures { IsPut tree.Pointer (Located (stored.pointer_of first second)) 0 bytes.old bytes.new }
{
    BigEndian::write_u32(bytes, first);
    BigEndian::write_u32(&mut bytes[4..], second);
}

/// A pointer put where a scalar of POINTER lies; for what no such scalar holds, as an offset, nothing changes.
#[inline(always)]
pub fn put_pointer_at(bytes: &mut [u8], offset: usize, locator: Locator) -> bool
    requires { offset + 8 ≤ length bytes.old }
    ensures put { PutOrSame result tree.Pointer (Located locator) offset bytes.old bytes.new }
    ensures held { IsTrue result ↔ (holds tree.Pointer (Located locator) ≡ true) }
{
    put_first_pointer(&mut bytes[offset..], locator)
}

/// The same of the scalar with which the bytes begin.
#[inline(always)]
fn put_first_pointer(bytes: &mut [u8], locator: Locator) -> bool
    requires { 8 ≤ length bytes.old }
    ensures put { PutOrSame result tree.Pointer (Located locator) 0 bytes.old bytes.new }
    ensures held { IsTrue result ↔ (holds tree.Pointer (Located locator) ≡ true) }
{
    let Some((first, second)) = numbers_of(locator) else {
        return false;
    };
    put_numbers(bytes, first, second);
    true
}
