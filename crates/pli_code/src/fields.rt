//! Numbers of one, two, four and eight bytes, the highest byte first: at the end of bytes, and at their front.
ghost use Rattle.std.specs.Prelude.{◌≡◌, ◌≤◌, ◌++◌, ◌∷◌, [], OnOk, IfOk, unsigned_abs};
ghost use Rattle.std.specs.Int.{w32, w64, cast_unsigned};
ghost use Rattle.byteorder.specs.Endian.{big_bytes};
ghost use Rattle.pli_code.specs.Fields.{Answers, byte_at, number_at, u1, from_to, signed};

use crate::fault::DeckFault;
use byteorder::{BigEndian, ByteOrder};
use std::alloc::AllocError;

/// Puts one byte at the end.
pub fn put_byte(out: &mut Vec<u8>, number: u8) -> Result<(), AllocError>
    ensures { OnOk result (out.new.items ≡ out.old.items ++ (number ∷ [])) }
{
    out.push(number)?;
    Ok(())
}

/// Puts a number of two bytes at the end.
pub fn put_short(out: &mut Vec<u8>, number: u16) -> Result<(), AllocError>
    ensures { OnOk result (out.new.items ≡ out.old.items ++ big_bytes 2 number) }
{
    let mut bytes = [0u8; 2];
    BigEndian::write_u16(&mut bytes, number);
    out.extend_from_slice(&bytes)
}

/// Puts a number of four bytes at the end.
pub fn put_word(out: &mut Vec<u8>, number: u32) -> Result<(), AllocError>
    ensures { OnOk result (out.new.items ≡ out.old.items ++ big_bytes 4 number) }
{
    let mut bytes = [0u8; 4];
    BigEndian::write_u32(&mut bytes, number);
    out.extend_from_slice(&bytes)
}

/// Puts a number of eight bytes at the end.
fn put_long(out: &mut Vec<u8>, number: u64) -> Result<(), AllocError>
    ensures { OnOk result (out.new.items ≡ out.old.items ++ big_bytes 8 number) }
{
    let mut bytes = [0u8; 8];
    BigEndian::write_u64(&mut bytes, number);
    out.extend_from_slice(&bytes)
}

/// Puts a signed number of four bytes at the end, in two's complement.
pub fn put_signed(out: &mut Vec<u8>, number: i32) -> Result<(), AllocError>
    ensures { OnOk result (out.new.items ≡ out.old.items ++ big_bytes 4 (cast_unsigned w32 number)) }
{
    put_word(out, number.cast_unsigned())
}

/// Puts a signed number of eight bytes at the end, in two's complement.
pub fn put_signed_long(out: &mut Vec<u8>, number: i64) -> Result<(), AllocError>
    ensures { OnOk result (out.new.items ≡ out.old.items ++ big_bytes 8 (cast_unsigned w64 number)) }
{
    put_long(out, number.cast_unsigned())
}

/// Puts the byte that says which form stands there, and one more.
pub fn put_with_byte(out: &mut Vec<u8>, tag: u8, number: u8) -> Result<(), AllocError>
    ensures { OnOk result (out.new.items ≡ out.old.items ++ (tag ∷ number ∷ [])) }
{
    put_byte(out, tag)?;
    put_byte(out, number)
}

/// Puts the byte that says which form stands there, and a number of two bytes.
pub fn put_with_short(out: &mut Vec<u8>, tag: u8, number: u16) -> Result<(), AllocError>
    ensures { OnOk result (out.new.items ≡ out.old.items ++ (tag ∷ big_bytes 2 number)) }
{
    put_byte(out, tag)?;
    put_short(out, number)
}

/// One byte from the front, and the bytes after it. The fault is that there is none.
#[tactic(auto, unfolding(crate::specs::Fields::byte_at))]
pub fn byte_of(bytes: &[u8]) -> Result<(u8, &[u8]), DeckFault>
    ensures { Answers (λ x. (x.0, x.1.now)) result (byte_at bytes.now) }
{
    match bytes {
        [] => Err(DeckFault::Truncated),
        [first, rest @ ..] => Ok((*first, rest)),
    }
}

/// A number of two bytes from the front, and the bytes after it. The fault is that there are too few.
#[tactic(auto, unfolding(crate::specs::Fields::number_at))]
pub fn short_of(bytes: &[u8]) -> Result<(u16, &[u8]), DeckFault>
    ensures { Answers (λ x. (x.0, x.1.now)) result (number_at 2 bytes.now) }
{
    if bytes.len() < 2 {
        return Err(DeckFault::Truncated);
    }
    Ok((BigEndian::read_u16(bytes), &bytes[2..]))
}

/// A number of four bytes from the front, and the bytes after it. The fault is that there are too few.
#[tactic(auto, unfolding(crate::specs::Fields::number_at))]
pub fn word_of(bytes: &[u8]) -> Result<(u32, &[u8]), DeckFault>
    ensures { Answers (λ x. (x.0, x.1.now)) result (number_at 4 bytes.now) }
{
    if bytes.len() < 4 {
        return Err(DeckFault::Truncated);
    }
    Ok((BigEndian::read_u32(bytes), &bytes[4..]))
}

/// A number of eight bytes from the front, and the bytes after it. The fault is that there are too few.
#[tactic(auto, unfolding(crate::specs::Fields::number_at))]
fn long_of(bytes: &[u8]) -> Result<(u64, &[u8]), DeckFault>
    ensures { Answers (λ x. (x.0, x.1.now)) result (number_at 8 bytes.now) }
{
    if bytes.len() < 8 {
        return Err(DeckFault::Truncated);
    }
    Ok((BigEndian::read_u64(bytes), &bytes[8..]))
}

/// One byte from `low` to `high`, and the bytes after it. The fault is that there is none, or another.
pub fn byte_within(bytes: &[u8], low: u8, high: u8) -> Result<(u8, &[u8]), DeckFault>
    ensures { Answers (λ x. (x.0, x.1.now)) result ((from_to low high u1).read bytes.now) }
{
    let (number, rest) = byte_of(bytes)?;
    if low <= number && number <= high {
        Ok((number, rest))
    } else {
        Err(DeckFault::OutOfRange)
    }
}

/// A signed number of four bytes that is at most `bound` from 0, and the bytes after it. The fault is that there are
/// too few, or that the number is further from 0.
pub fn signed_within(bytes: &[u8], bound: u32) -> Result<(i32, &[u8]), DeckFault>
    ensures read { Answers (λ x. (x.0, x.1.now)) result ((signed 4 w32 bound).read bytes.now) }
    ensures near { IfOk result (λ x. unsigned_abs x.0 ≤ bound) }
{
    let (bits, rest) = word_of(bytes)?;
    let number = bits.cast_signed();
    if number.unsigned_abs() <= bound {
        Ok((number, rest))
    } else {
        Err(DeckFault::OutOfRange)
    }
}

/// A signed number of eight bytes that is at most `bound` from 0, and the bytes after it. The fault is that there are
/// too few, or that the number is further from 0.
pub fn signed_long_within(bytes: &[u8], bound: u64) -> Result<(i64, &[u8]), DeckFault>
    ensures { Answers (λ x. (x.0, x.1.now)) result ((signed 8 w64 bound).read bytes.now) }
{
    let (bits, rest) = long_of(bytes)?;
    let number = bits.cast_signed();
    if number.unsigned_abs() <= bound {
        Ok((number, rest))
    } else {
        Err(DeckFault::OutOfRange)
    }
}
