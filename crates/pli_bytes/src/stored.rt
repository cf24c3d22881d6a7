//! Values in bytes (own): as many bytes as the description of a scalar takes.
ghost use Rattle.std.specs.Prelude.{◌≡◌, ◌≤◌, ◌+◌, ◌-◌, ◌/◌, ◌^◌, ◌<◌, ◌++◌, unsigned_abs, length, take, drop};
ghost use Rattle.std.specs.Prelude.{replicate, IfOk, IsTrue, Some};
ghost use Rattle.std.specs.Int.{cast_signed, cast_unsigned};
ghost use Rattle.byteorder.specs.Endian.{big_bytes, big_number};
ghost use Rattle.pli_map.specs.Sizes.{number_bytes, size_of};
ghost use Rattle.pli_map.specs.Description as tree;
ghost use Rattle.pli_map.specs.StoredValues.{is_storable, stored_bytes, loaded_value, pointer_of, width_of};
ghost use Rattle.pli_map.specs.Values.{holds};
ghost use Rattle.pli_map.specs.views.DescriptionView.{description_view};
ghost use Rattle.pli_value.specs.Packing.{packed};
ghost use Rattle.pli_value.specs.Value as plain;
ghost use Rattle.pli_value.specs.Value.{value_view};

use byteorder::{BigEndian, ByteOrder};
use pli_map::Description;
use pli_value::bit::Bits;
use pli_value::character::fit_varying;
use pli_value::{Locator, Value};
use std::alloc::{AllocError, Global};

/// Writes a value into as many bytes as its description takes. The description holds the value.
pub fn store_value(description: &Description, value: &Value, bytes: &mut [u8])
    requires held { IsTrue (holds (description_view description.now) (value_view value.now)) }
    requires size { length bytes.old ≡ size_of (description_view description.now) }
    ensures { bytes.new ≡ stored_bytes (description_view description.now) (value_view value.now) }
{
    match (description, value) {
        (Description::FixedBinary(precision), Value::Number(number)) => {
            store_number(*precision, *number, bytes)
        }
        (Description::Character(_), Value::Characters(text)) => bytes.copy_from_slice(text),
        (Description::Varying(greatest), Value::Characters(text)) => {
            store_varying(text, *greatest, bytes)
        }
        (Description::Bit(_), Value::Bits(bits)) => store_bits(bits, bytes),
        (Description::Pointer, Value::Locator(locator)) => store_pointer(*locator, bytes),
        (Description::Offset, Value::Locator(Locator::Offset(position))) => {
            BigEndian::write_u32(bytes, *position);
        }
        _ => unreachable!(),
    }
}

/// A number in two's complement, the highest byte first.
fn store_number(precision: u8, number: i64, bytes: &mut [u8])
    requires held { unsigned_abs number < 2 ^ precision }
    requires size { length bytes.old ≡ number_bytes precision }
    ensures { bytes.new ≡ big_bytes (number_bytes precision) (cast_unsigned (width_of precision) number) }
{
    match precision {
        0..=15 => BigEndian::write_i16(bytes, number as i16),
        16..=31 => BigEndian::write_i32(bytes, number as i32),
        _ => BigEndian::write_i64(bytes, number),
    }
}

/// The length in two bytes, the characters, and zeros up to as many characters as there may be.
fn store_varying(text: &[u8], greatest: u16, bytes: &mut [u8])
    requires room { length text.now ≤ greatest }
    requires size { length bytes.old ≡ 2 + greatest }
    ensures { bytes.new ≡ big_bytes 2 (length text.now) ++ (text.now ++ replicate (greatest - length text.now) 0) }
{
    BigEndian::write_u16(bytes, text.len() as u16);
    store_extended(text, &mut bytes[2..]);
}

/// The characters, and zeros to the end.
fn store_extended(text: &[u8], bytes: &mut [u8])
    requires { length text.now ≤ length bytes.old }
    ensures { bytes.new ≡ text.now ++ replicate (length bytes.old - length text.now) 0 }
{
    bytes[..text.len()].copy_from_slice(text);
    bytes[text.len()..].fill(0);
}

/// The bits, eight to a byte.
fn store_bits(bits: &Bits, bytes: &mut [u8])
    requires { length bytes.old ≡ (length bits.now + 7) / 8 }
    ensures { bytes.new ≡ packed bits.now }
{
    let from = bits.bytes();
    bytes.copy_from_slice(from);
}

/// A pointer: one more than the number of its generation, then its position; zeros where it is null.
fn store_pointer(locator: Locator, bytes: &mut [u8])
    requires held { IsTrue (holds tree.Pointer (plain.Located locator)) }
    requires size { length bytes.old ≡ 8 }
    ensures { bytes.new ≡ stored_bytes tree.Pointer (plain.Located locator) }
{
    let (generation, position) = match locator {
        Locator::Pointer {
            generation,
            position,
        } => (generation + 1, position),
        Locator::Null | Locator::Offset(_) => (0, 0),
    };
    BigEndian::write_u32(bytes, generation);
    BigEndian::write_u32(&mut bytes[4..], position);
}

/// The value that bytes hold, as many as the description takes.
pub fn load_value(
    alloc: Global,
    description: &Description,
    bytes: &[u8],
) -> Result<Value, AllocError>
    requires storable { IsTrue (is_storable (description_view description.now)) }
    requires size { length bytes.now ≡ size_of (description_view description.now) }
    ensures { IfOk result (λ value. loaded_value (description_view description.now) bytes.now
        ≡ Some (value_view value)) }
{
    match description {
        Description::FixedBinary(precision) => Ok(Value::Number(load_number(*precision, bytes))),
        Description::Character(_) => Ok(Value::Characters(Vec::from_slice(alloc, bytes)?)),
        Description::Varying(_) => Ok(Value::Characters(Vec::from_slice(
            alloc,
            load_varying(bytes),
        )?)),
        Description::Bit(length) => Ok(Value::Bits(Bits::unpack(
            alloc,
            bytes,
            usize::from(*length),
        )?)),
        Description::Pointer => Ok(Value::Locator(load_pointer(bytes))),
        Description::Offset => Ok(Value::Locator(Locator::Offset(BigEndian::read_u32(bytes)))),
        _ => unreachable!(),
    }
}

/// A number in two's complement, the highest byte first.
fn load_number(precision: u8, bytes: &[u8]) -> i64
    requires { length bytes.now ≡ number_bytes precision }
    ensures { result ≡ cast_signed (width_of precision) (big_number (number_bytes precision) bytes.now) }
{
    match precision {
        0..=15 => i64::from(BigEndian::read_i16(bytes)),
        16..=31 => i64::from(BigEndian::read_i32(bytes)),
        _ => BigEndian::read_i64(bytes),
    }
}

/// The pointer that bytes hold.
fn load_pointer(bytes: &[u8]) -> Locator
    requires { length bytes.now ≡ 8 }
    ensures { result ≡ pointer_of (big_number 4 bytes.now) (big_number 4 (drop 4 bytes.now)) }
{
    match BigEndian::read_u32(bytes).checked_sub(1) {
        Some(generation) => Locator::Pointer {
            generation,
            position: BigEndian::read_u32(&bytes[4..]),
        },
        None => Locator::Null,
    }
}

/// As many characters after a length as it says.
fn load_varying(bytes: &[u8]) -> &[u8]
    requires { 2 ≤ length bytes.now }
    ensures { result.now ≡ take (big_number 2 bytes.now) (drop 2 bytes.now) }
{
    fit_varying(&bytes[2..], usize::from(BigEndian::read_u16(bytes)))
}
