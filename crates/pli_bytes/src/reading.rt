//! What bytes hold where a scalar lies.
ghost use Rattle.std.specs.Prelude.{◌≡◌, ◌≢◌, ℕ, ◌≤◌, ◌<◌, ◌+◌, ◌*◌, List, length, take, drop, true, IfOk, MatchOption};
ghost use Rattle.byteorder.specs.Endian.{big_number};
ghost use Rattle.pli_bytes.specs.Contents.{value_in, value_of};
ghost use Rattle.pli_map.specs.Description as tree;
ghost use Rattle.pli_map.specs.Sizes.{number_bytes, size_of};
ghost use Rattle.pli_map.specs.StoredValues.{is_storable};
ghost use Rattle.pli_map.specs.views.DescriptionView.{description_view};
ghost use Rattle.pli_value.specs.Packing.{unpacked};
ghost use Rattle.pli_value.specs.Value as plain;
ghost use Rattle.pli_value.specs.Value.{value_view, Number, Characters};

use crate::stored::load_value;
use byteorder::{BigEndian, ByteOrder};
use pli_map::Description;
use pli_value::Value;
use pli_value::bit::Bits;
use pli_value::character::{STRING_LIMIT, fit_varying, roomy_copy};
use std::alloc::{AllocError, Global};

/// The value that a scalar of this description holds, which lies at an offset of the bytes; zero where the description
/// is no scalar's. Only strings take memory. Bits of more than 32,767, which are not of the language, have no room.
pub fn value_at(
    alloc: Global,
    bytes: &[u8],
    offset: usize,
    description: &Description,
) -> Result<Value, AllocError>
    requires { offset + size_of (description_view description.now) ≤ length bytes.now }
    ensures { IfOk result (λ v. value_view v
        ≡ value_in bytes.now (record { offset = offset; description = description_view description.now })) }
{
    let rest = &bytes[offset..];
    match description {
        Description::FixedBinary(precision) => Ok(Value::Number(known_number(rest, *precision))),
        Description::Character(length) => characters(alloc, &rest[..usize::from(*length)]),
        Description::Varying(greatest) => {
            characters(alloc, text_of(&rest[..2 + usize::from(*greatest)]))
        }
        Description::Bit(length) => bits(alloc, &rest[..usize::from(length.div_ceil(8))], *length),
        Description::Pointer => load_first(alloc, rest, 8, description),
        Description::Offset => load_first(alloc, rest, 4, description),
        _ => Ok(Value::Number(0)),
    }
}

/// The value of the scalar with which the bytes begin, which takes so many of them.
fn load_first(
    alloc: Global,
    bytes: &[u8],
    size: usize,
    description: &Description,
) -> Result<Value, AllocError>
    requires storable { is_storable (description_view description.now) ≡ true }
    requires size { size ≡ size_of (description_view description.now) }
    requires within { size ≤ length bytes.now }
    ensures { IfOk result (λ v. value_view v ≡ value_of (description_view description.now) (take size bytes.now)) }
{
    load_value(alloc, description, &bytes[..size])
}

/// Characters as a value, with room for some more.
fn characters(alloc: Global, text: &[u8]) -> Result<Value, AllocError>
    ensures { IfOk result (λ v. value_view v ≡ Characters text.now) }
{
    Ok(Value::Characters(roomy_copy(alloc, text)?))
}

/// Bits as a value, of which there are no more than 32,767.
fn bits(alloc: Global, packed: &[u8], count: u16) -> Result<Value, AllocError>
    requires { count ≤ 8 * length packed.now }
    ensures { IfOk result (λ v. value_view v ≡ plain.Bits (unpacked count packed.now)) }
{
    let count = usize::from(count);
    if count > STRING_LIMIT {
        return Err(AllocError);
    }
    Ok(Value::Bits(Bits::unpack(alloc, packed, count)?))
}

/// The number that a scalar of FIXED BINARY of this precision holds, which lies at an offset of the bytes; `None` where
/// they end before it does.
#[inline(always)]
pub fn number_at(bytes: &[u8], offset: usize, precision: u8) -> Option<i64>
    ensures { MatchOption result (length bytes.now < offset + number_bytes precision)
        (λ x. value_in bytes.now
        (record { offset = offset; description = tree.FixedBinary precision }) ≡ Number x) }
{
    if offset > bytes.len() {
        return None;
    }
    first_number(&bytes[offset..], precision)
}

/// The number that a scalar of FIXED BINARY of this precision holds, with which the bytes begin; `None` where there are
/// not so many.
#[inline(always)]
fn first_number(bytes: &[u8], precision: u8) -> Option<i64>
    ensures { MatchOption result (length bytes.now < number_bytes precision)
        (λ x. value_of (tree.FixedBinary precision) (take (number_bytes precision) bytes.now) ≡ Number x) }
{
    match precision {
        0..=15 if bytes.len() >= 2 => Some(i64::from(BigEndian::read_i16(bytes))),
        16..=31 if bytes.len() >= 4 => Some(i64::from(BigEndian::read_i32(bytes))),
        32..=255 if bytes.len() >= 8 => Some(BigEndian::read_i64(bytes)),
        _ => None,
    }
}

/// The same of bytes of which there are as many as it takes.
#[inline(always)]
pub fn known_number(bytes: &[u8], precision: u8) -> i64
    requires { number_bytes precision ≤ length bytes.now }
    ensures { value_of (tree.FixedBinary precision) (take (number_bytes precision) bytes.now) ≡ Number result }
{
    match precision {
        16..=31 => i64::from(BigEndian::read_i32(bytes)),
        0..=15 => i64::from(BigEndian::read_i16(bytes)),
        _ => BigEndian::read_i64(bytes),
    }
}

/// The characters that a scalar of CHARACTER or CHARACTER VARYING holds, which lies at an offset of the bytes; `None`
/// for any other description, and where the bytes end before it does.
#[inline(always)]
pub fn text_at<'b>(bytes: &'b [u8], offset: usize, description: &Description) -> Option<&'b [u8]>
    ensures { MatchOption result (offset + size_of (description_view description.now) ≤ length bytes.now
        → (text : List ℕ) → value_in bytes.now
        (record { offset = offset; description = description_view description.now }) ≢ Characters text)
        (λ text. value_in bytes.now
        (record { offset = offset; description = description_view description.now }) ≡ Characters text.now) }
{
    if offset > bytes.len() {
        return None;
    }
    let rest = &bytes[offset..];
    match description {
        Description::Character(length) if rest.len() >= usize::from(*length) => {
            Some(&rest[..usize::from(*length)])
        }
        Description::Varying(greatest) if rest.len() >= 2 + usize::from(*greatest) => {
            Some(text_of(&rest[..2 + usize::from(*greatest)]))
        }
        _ => None,
    }
}

/// The characters that the bytes of a scalar of CHARACTER VARYING hold: after a length, as many as it says.
#[inline(always)]
fn text_of(bytes: &[u8]) -> &[u8]
    requires { 2 ≤ length bytes.now }
    ensures { result.now ≡ take (big_number 2 bytes.now) (drop 2 bytes.now) }
{
    fit_varying(&bytes[2..], usize::from(BigEndian::read_u16(bytes)))
}
