//! Which values a description may hold, and with which ones its scalars begin.
ghost use Rattle.std.specs.Prelude.{◌≡◌, ◌++◌, ◌∷◌, [], map, replicate, false, IfOk, OnOk};
ghost use Rattle.std.specs.List.{flat_map};
ghost use Rattle.pli_map.specs.Description as tree;
ghost use Rattle.pli_map.specs.Sizes.{count_of};
ghost use Rattle.pli_map.specs.Values.{holds, first_values, first_values_of};
ghost use Rattle.pli_map.specs.views.DescriptionView.{description_view, members_view};
ghost use Rattle.pli_value.specs.Numbers.{has_digits};
ghost use Rattle.pli_value.specs.Value as plain;
ghost use Rattle.pli_value.specs.Value.{value_view};

use pli_map::{Bounds, Description, every_element};
use pli_value::bit::{self, Bits};
use pli_value::{Locator, Value};
use std::alloc::{AllocError, Global};

/// Whether a value is of the description's type, within its range or of its length.
pub fn holds(description: &Description, value: &Value) -> bool
    ensures { result ≡ holds (description_view description.now) (value_view value.now) }
{
    match (description, value) {
        (Description::FixedBinary(precision), Value::Number(number)) => {
            has_digits(*number, *precision)
        }
        (Description::Character(length), Value::Characters(text)) => {
            text.len() == usize::from(*length)
        }
        (Description::Varying(length), Value::Characters(text)) => {
            text.len() <= usize::from(*length)
        }
        (Description::Bit(length), Value::Bits(bits)) => bits.length() == usize::from(*length),
        (Description::Pointer, Value::Locator(locator)) => is_stored_pointer(*locator),
        (Description::Offset, Value::Locator(locator)) => is_stored_offset(*locator),
        _ => false,
    }
}

/// Whether a locator is a pointer, null or to a generation that there may be.
fn is_stored_pointer(locator: Locator) -> bool
    ensures { result ≡ holds tree.Pointer (plain.Located locator) }
{
    match locator {
        Locator::Null => true,
        Locator::Pointer { generation, .. } => generation < u32::MAX,
        Locator::Offset(_) => false,
    }
}

/// Whether a locator is an offset.
fn is_stored_offset(locator: Locator) -> bool
    ensures { result ≡ holds tree.Offset (plain.Located locator) }
{
    match locator {
        Locator::Offset(_) => true,
        Locator::Null | Locator::Pointer { .. } => false,
    }
}

/// Whether a number has at most so many binary digits.
#[inline]
fn has_digits(number: i64, precision: u8) -> bool
    ensures { result ≡ has_digits precision number }
{
    precision >= 64 || number.unsigned_abs() < 1 << precision
}

/// The values with which the scalars of a variable begin that has no initial values (own): zero, blanks, the empty
/// string, zero bits, or null. Bits of more than 32,767, which are not of the language, have no room.
pub fn first_values(alloc: Global, description: &Description) -> Result<Vec<Value>, AllocError>
    ensures { IfOk result (λ values. map value_view values.items ≡ first_values (description_view description.now)) }
{
    let mut values = Vec::new(alloc);
    put_first_values(alloc, description, &mut values)?;
    Ok(values)
}

#[cycle(first_values)]
fn put_first_values(
    alloc: Global,
    description: &Description,
    values: &mut Vec<Value>,
) -> Result<(), AllocError>
    ensures { OnOk result (map value_view values.new.items
        ≡ map value_view values.old.items ++ first_values (description_view description.now)) }
{
    match description {
        Description::FixedBinary(_) => put(Value::Number(0), values),
        Description::Character(length) => put(blanks(alloc, usize::from(*length))?, values),
        Description::Varying(_) => put(Value::Characters(Vec::new(alloc)), values),
        Description::Bit(length) => put(zeros(alloc, usize::from(*length))?, values),
        Description::Array { bounds, element } => put_elements(alloc, bounds, element, values),
        Description::Structure(members) => put_members(alloc, members, values),
        Description::Pointer => put(Value::Locator(Locator::Null), values),
        Description::Offset => put(Value::Locator(Locator::Offset(0)), values),
        Description::Area(_) => Ok(()),
    }
}

#[cycle(first_values)]
fn put_elements(
    alloc: Global,
    bounds: &[Bounds],
    element: &Description,
    values: &mut Vec<Value>,
) -> Result<(), AllocError>
    ensures { OnOk result (map value_view values.new.items ≡ map value_view values.old.items
        ++ flat_map (λ vs. vs) (replicate (count_of bounds.now) (first_values (description_view element.now)))) }
{
    let count = every_element(bounds);
    if count == 0 {
        return Ok(());
    }
    if count == u64::MAX {
        return Err(AllocError);
    }
    let before = values.len();
    put_first_values(alloc, element, values)?;
    if values.len() == before {
        return Ok(());
    }
    for _made in 1..count {
        put_first_values(alloc, element, values)?;
    }
    Ok(())
}

#[cycle(first_values)]
fn put_members(
    alloc: Global,
    members: &[Description],
    values: &mut Vec<Value>,
) -> Result<(), AllocError>
    ensures { OnOk result (map value_view values.new.items
        ≡ map value_view values.old.items ++ first_values_of (members_view members.now)) }
{
    for member in members {
        put_first_values(alloc, member, values)?;
    }
    Ok(())
}

/// So many blanks.
fn blanks(alloc: Global, length: usize) -> Result<Value, AllocError>
    ensures { IfOk result (λ value. value_view value ≡ plain.Characters (replicate length 32)) }
{
    Ok(Value::Characters(vec![in alloc; b' '; length]?))
}

/// So many bits, none of them one.
fn zeros(alloc: Global, length: usize) -> Result<Value, AllocError>
    ensures { IfOk result (λ value. value_view value ≡ plain.Bits (replicate length false)) }
{
    if length > 32767 {
        return Err(AllocError);
    }
    Ok(Value::Bits(bit::fit(alloc, &Bits::new(alloc), length)?))
}

/// One value more.
fn put(value: Value, values: &mut Vec<Value>) -> Result<(), AllocError>
    ensures { OnOk result (map value_view values.new.items ≡ map value_view values.old.items ++ value_view value ∷ []) }
{
    values.push(value)?;
    Ok(())
}
