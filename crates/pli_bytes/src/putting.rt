//! Values put into bytes, where a scalar lies.
ghost use Rattle.std.specs.Prelude.{◌≡◌, ◌≤◌, ◌+◌, ◌++◌, length, drop, take, true, IsTrue, IsFalse};
ghost use Rattle.pli_bytes.specs.Changes.{IsPut, PutOrSame, AppendedOrSame, IsTooLong, text_fitted};
ghost use Rattle.pli_map.specs.Description as tree;
ghost use Rattle.pli_map.specs.Sizes.{number_bytes, size_of};
ghost use Rattle.pli_map.specs.StoredValues.{is_storable};
ghost use Rattle.pli_map.specs.Values.{holds};
ghost use Rattle.pli_map.specs.views.DescriptionView.{description_view};
ghost use Rattle.pli_value.specs.Numbers.{has_digits};
ghost use Rattle.pli_value.specs.Strings.{fitted};
ghost use Rattle.pli_value.specs.Value.{value_view, Number, Characters};

use crate::beginning::fill;
use crate::stored::store_value;
use byteorder::{BigEndian, ByteOrder};
use pli_map::Description;
use pli_value::Value;
use pli_value::character::fit_varying;

/// A value put where a scalar of this description lies, which holds it. Of CHARACTER VARYING only the length and the
/// characters are written.
#[inline(always)]
pub fn put_value_at(bytes: &mut [u8], offset: usize, description: &Description, value: &Value)
    requires held { holds (description_view description.now) (value_view value.now) ≡ true }
    requires within { offset + size_of (description_view description.now) ≤ length bytes.old }
    ensures { IsPut (description_view description.now) (value_view value.now) offset bytes.old bytes.new }
{
    put_first(&mut bytes[offset..], description, value);
}

/// The same of the scalar with which the bytes begin.
#[inline(always)]
fn put_first(bytes: &mut [u8], description: &Description, value: &Value)
    requires held { holds (description_view description.now) (value_view value.now) ≡ true }
    requires within { size_of (description_view description.now) ≤ length bytes.old }
    ensures { IsPut (description_view description.now) (value_view value.now) 0 bytes.old bytes.new }
{
    match (description, value) {
        (Description::FixedBinary(precision), Value::Number(number)) => {
            put_first_number(bytes, *precision, *number);
        }
        (Description::Character(_), Value::Characters(text)) => write_front(bytes, text),
        (Description::Varying(greatest), Value::Characters(text)) => {
            write_text(bytes, *greatest, text)
        }
        (Description::Bit(_), Value::Bits(bits)) => write_front(bytes, bits.bytes()),
        (Description::Pointer, Value::Locator(_)) => store_first(bytes, 8, description, value),
        (Description::Offset, Value::Locator(_)) => store_first(bytes, 4, description, value),
        _ => unreachable!(),
    }
}

/// The same where the value is stored in all bytes of the scalar, so many.
#[inline(never)]
fn store_first(bytes: &mut [u8], size: usize, description: &Description, value: &Value)
    requires storable { is_storable (description_view description.now) ≡ true }
    requires held { holds (description_view description.now) (value_view value.now) ≡ true }
    requires size { size ≡ size_of (description_view description.now) }
    requires within { size ≤ length bytes.old }
    ensures { IsPut (description_view description.now) (value_view value.now) 0 bytes.old bytes.new }
{
    store_value(description, value, &mut bytes[..size]);
}

/// A number put where a scalar of FIXED BINARY of this precision lies; where the bytes end before it does, or it has no
/// room for the number, nothing changes. There is room for each number of as many digits as the precision, and for some
/// of more.
#[inline(always)]
pub fn put_number_at(bytes: &mut [u8], offset: usize, precision: u8, number: i64) -> bool
    ensures put { PutOrSame result (tree.FixedBinary precision) (Number number) offset bytes.old bytes.new }
    ensures room { IsTrue (has_digits precision number) → offset + number_bytes precision ≤ length bytes.old
        → IsTrue result }
{
    if offset > bytes.len() {
        return false;
    }
    put_first_number(&mut bytes[offset..], precision, number)
}

/// The same of the scalar with which the bytes begin.
#[inline(always)]
fn put_first_number(bytes: &mut [u8], precision: u8, number: i64) -> bool
    ensures put { PutOrSame result (tree.FixedBinary precision) (Number number) 0 bytes.old bytes.new }
    ensures room { IsTrue (has_digits precision number) → number_bytes precision ≤ length bytes.old → result ≡ true }
{
    match precision {
        0..=15 => match i16::try_from(number) {
            Ok(number) if bytes.len() >= 2 => BigEndian::write_i16(bytes, number),
            _ => return false,
        },
        16..=31 => match i32::try_from(number) {
            Ok(number) if bytes.len() >= 4 => BigEndian::write_i32(bytes, number),
            _ => return false,
        },
        32..=255 if bytes.len() >= 8 => BigEndian::write_i64(bytes, number),
        _ => return false,
    }
    true
}

/// The same of a number of no more digits than the precision, where there are as many bytes as it takes.
#[inline(always)]
pub fn put_known_number(bytes: &mut [u8], precision: u8, number: i64)
    requires few { precision ≤ 63 }
    requires digits { has_digits precision number ≡ true }
    requires within { number_bytes precision ≤ length bytes.old }
    ensures { IsPut (tree.FixedBinary precision) (Number number) 0 bytes.old bytes.new }
{
    match precision {
        16..=31 => BigEndian::write_i32(bytes, number as i32),
        0..=15 => BigEndian::write_i16(bytes, number as i16),
        _ => BigEndian::write_i64(bytes, number),
    }
}

/// The characters of a scalar of CHARACTER VARYING put with which the bytes begin: the length in two bytes, and they.
#[inline(never)]
fn write_text(bytes: &mut [u8], greatest: u16, text: &[u8])
    requires fits { length text.now ≤ greatest }
    requires within { 2 + greatest ≤ length bytes.old }
    ensures { IsPut (tree.Varying greatest) (Characters text.now) 0 bytes.old bytes.new }
{
    BigEndian::write_u16(bytes, text.len() as u16);
    write_front(&mut bytes[2..], text);
}

/// These in the place of as many bytes. One alone is put at once.
#[inline(always)]
fn write_front(bytes: &mut [u8], front: &[u8])
    requires { length front.now ≤ length bytes.old }
    ensures { bytes.new ≡ front.now ++ drop (length front.now) bytes.old }
{
    if front.len() == 1 {
        bytes[0] = front[0];
        return;
    }
    write_all(bytes, front);
}

/// The same of any number of them.
#[inline(never)]
fn write_all(bytes: &mut [u8], front: &[u8])
    requires { length front.now ≤ length bytes.old }
    ensures { bytes.new ≡ front.now ++ drop (length front.now) bytes.old }
{
    bytes[..front.len()].copy_from_slice(front);
}

/// Characters put where a scalar of CHARACTER of so many lies with which the bytes begin, cut on the right or extended
/// there with blanks to as many.
#[inline(always)]
fn write_fitted(bytes: &mut [u8], size: usize, text: &[u8])
    requires { size ≤ length bytes.old }
    ensures { IsPut (tree.Character size) (Characters (fitted 32 size text.now)) 0 bytes.old bytes.new }
{
    let front = fit_varying(text, size);
    write_front(bytes, front);
    fill(bytes, front.len(), size - front.len(), b' ');
}

/// The same where the bytes may end before the scalar does: then nothing changes.
#[inline(always)]
fn put_characters(bytes: &mut [u8], count: u16, text: &[u8]) -> bool
    ensures put { PutOrSame result (tree.Character count) (Characters (fitted 32 count text.now)) 0 bytes.old
        bytes.new }
    ensures held { IsTrue result → holds (tree.Character count) (Characters (fitted 32 count text.now)) ≡ true }
{
    let size = usize::from(count);
    if bytes.len() < size {
        return false;
    }
    write_fitted(bytes, size, text);
    true
}

/// The same of a scalar of CHARACTER VARYING of so many at most.
#[inline(always)]
fn put_varying(bytes: &mut [u8], greatest: u16, text: &[u8]) -> bool
    ensures put { PutOrSame result (tree.Varying greatest) (Characters (take greatest text.now)) 0 bytes.old bytes.new }
    ensures held { IsTrue result → holds (tree.Varying greatest) (Characters (take greatest text.now)) ≡ true }
{
    let size = usize::from(greatest);
    if bytes.len() < 2 + size {
        return false;
    }
    write_text(bytes, greatest, fit_varying(text, size));
    true
}

/// The same of any scalar of characters; `false` under any other description, and nothing changes then.
#[inline(always)]
fn put_first_text(bytes: &mut [u8], description: &Description, text: &[u8]) -> bool
    ensures put { PutOrSame result (description_view description.now)
        (Characters (text_fitted (description_view description.now) text.now)) 0 bytes.old bytes.new }
    ensures held { IsTrue result → holds (description_view description.now)
        (Characters (text_fitted (description_view description.now) text.now)) ≡ true }
{
    match description {
        Description::Character(size) => put_characters(bytes, *size, text),
        Description::Varying(greatest) => put_varying(bytes, *greatest, text),
        _ => false,
    }
}

/// Characters put where a scalar of CHARACTER or CHARACTER VARYING lies, cut on the right or extended there with blanks
/// to what it holds; under any other description, and where the bytes end before it does, nothing changes.
#[inline(always)]
pub fn put_text_at(bytes: &mut [u8], offset: usize, description: &Description, text: &[u8]) -> bool
    ensures put { PutOrSame result (description_view description.now)
        (Characters (text_fitted (description_view description.now) text.now)) offset bytes.old bytes.new }
    ensures held { IsTrue result → holds (description_view description.now)
        (Characters (text_fitted (description_view description.now) text.now)) ≡ true }
{
    if offset > bytes.len() {
        return false;
    }
    put_first_text(&mut bytes[offset..], description, text)
}

/// Characters put after those that a scalar of CHARACTER VARYING holds, which lies at an offset of the bytes; where
/// both are more than its greatest length or than so many, or the bytes end before it does, nothing changes. Only the
/// length and the new characters are written.
#[inline]
pub fn append_at(bytes: &mut [u8], offset: usize, greatest: u16, more: &[u8], room: usize) -> bool
    ensures put { AppendedOrSame result greatest offset more.now room bytes.old bytes.new }
    ensures refused { IsFalse result → offset + (2 + greatest) ≤ length bytes.old
        → IsTooLong greatest offset more.now room bytes.old }
{
    if offset > bytes.len() {
        return false;
    }
    append_first(&mut bytes[offset..], greatest, more, room)
}

/// The same of the scalar with which the bytes begin.
#[inline]
fn append_first(bytes: &mut [u8], greatest: u16, more: &[u8], room: usize) -> bool
    ensures put { AppendedOrSame result greatest 0 more.now room bytes.old bytes.new }
    ensures refused { IsFalse result → 2 + greatest ≤ length bytes.old
        → IsTooLong greatest 0 more.now room bytes.old }
{
    let greatest = usize::from(greatest);
    if bytes.len() < 2 + greatest {
        return false;
    }
    let before = usize::from(BigEndian::read_u16(bytes)).min(greatest);
    let both = before + more.len();
    if both > room.min(greatest) {
        return false;
    }
    BigEndian::write_u16(bytes, both as u16);
    write_front(&mut bytes[2 + before..], more);
    true
}
