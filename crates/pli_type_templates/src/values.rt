//! Values in INITIAL, as scalars hold them.
ghost use Rattle.std.specs.Prelude.{◌≡◌, ◌≤◌, ◌++◌, IfOk, get_or, length, nat_le, option_map, unsigned_abs, false};
ghost use Rattle.std.specs.Prelude.{true};
ghost use Rattle.std.specs.Option.{unwrap_or};
ghost use Rattle.pli_map.specs.Values.{first_value};
ghost use Rattle.pli_map.specs.views.DescriptionView.{description_view};
ghost use Rattle.pli_type_rules.specs.InitialScalars.{as_held, values_written};
ghost use Rattle.pli_type_templates.specs.Items.{elements_of, value_of};
ghost use Rattle.pli_type_templates.specs.Plans.{is_compiled_scalar};
ghost use Rattle.pli_value.specs.Strings.{fitted};
ghost use Rattle.pli_value.specs.declared.locator.Locator.TheVariants.{Null};
ghost use Rattle.pli_value.specs.Value as plain;
ghost use Rattle.pli_value.specs.Value.{value_view};

use pli_base::declaration::InitialValue;
use pli_bytes::holds;
use pli_map::Description;
use pli_value::bit::Bits;
use pli_value::{Locator, Value, character};
use std::alloc::{AllocError, Global};

/// For how many elements a value in INITIAL stands.
pub(crate) fn elements(written: &InitialValue) -> u64
    ensures { result ≡ elements_of written.now }
{
    match written {
        InitialValue::Integer { factor, .. } => factor.unwrap_or(1),
        InitialValue::Characters(_) | InitialValue::Bits(_) | InitialValue::Null => 1,
    }
}

/// For how many elements the values in INITIAL stand.
pub(crate) fn elements_written(values: &[InitialValue]) -> u128
    ensures { result ≡ length (values_written values.now) }
{
    let mut count: u128 = 0;
    for written in values {
        count += u128::from(elements(written));
    }
    count
}

/// The bit at a place, counted from 0; 0 past the end.
fn bit_at(bits: &[bool], place: usize) -> bool
    ensures { result ≡ get_or bits.now place false }
{
    bits.get(place).copied().unwrap_or(false)
}

/// A string of bits assigned to BIT of so many: cut on the right, or extended there with zeros (X3.74).
fn fit_bits(alloc: Global, bits: &[bool], size: usize) -> Result<Bits, AllocError>
    requires { size ≤ 32767 }
    ensures { IfOk result (λ new. new ≡ fitted false size bits.now) }
{
    let mut new = Bits::new(alloc);
    for place in 0..size {
        new.push(bit_at(bits, place))?;
    }
    Ok(new)
}

/// The value with which a scalar begins that has no initial value: zero, blanks, the empty string, zero bits, or null
/// (own).
#[tactic(auto, using(crate::proofs::StoredPlans::few_bits))]
fn first_value(alloc: Global, description: &Description) -> Result<Option<Value>, AllocError>
    requires { is_compiled_scalar (description_view description.now) ≡ true }
    ensures { IfOk result (λ value. option_map value_view value ≡ first_value (description_view description.now)) }
{
    match description {
        Description::FixedBinary(_) => Ok(Some(Value::Number(0))),
        Description::Character(length) => {
            let blanks = vec![in alloc; b' '; usize::from(*length)]?;
            Ok(Some(Value::Characters(blanks)))
        }
        Description::Varying(_) => Ok(Some(Value::Characters(Vec::new(alloc)))),
        Description::Bit(length) => {
            let zeros = fit_bits(alloc, &[], usize::from(*length))?;
            Ok(Some(Value::Bits(zeros)))
        }
        Description::Pointer => Ok(Some(Value::Locator(Locator::Null))),
        Description::Offset => Ok(Some(Value::Locator(Locator::Offset(0)))),
        _ => Ok(None),
    }
}

/// What stands in a scalar that a value does not suit: the value with which it begins.
fn unsuited(alloc: Global, description: &Description, value: Value) -> Result<Value, AllocError>
    requires { is_compiled_scalar (description_view description.now) ≡ true }
    ensures { IfOk result (λ held. value_view held ≡ unwrap_or (first_value (description_view description.now))
        (value_view value)) }
{
    match first_value(alloc, description)? {
        Some(first) => Ok(first),
        None => Ok(value),
    }
}

/// A number as a scalar holds it: itself, where it is within the precision (X3.74).
fn held_number(alloc: Global, description: &Description, number: i64) -> Result<Value, AllocError>
    requires { is_compiled_scalar (description_view description.now) ≡ true }
    ensures { IfOk result (λ held. value_view held ≡ as_held (description_view description.now) (plain.Number number)) }
{
    let value = Value::Number(number);
    if holds(description, &value) {
        Ok(value)
    } else {
        unsuited(alloc, description, value)
    }
}

/// Whether a number has at most 63 binary digits.
fn is_near(number: i128) -> bool
    ensures { result ≡ nat_le (unsigned_abs number) 9223372036854775807 }
{
    number.unsigned_abs() <= 9_223_372_036_854_775_807
}

/// An integer as a scalar holds it: itself, where it is within the precision (X3.74).
#[tactic(auto, using(crate::proofs::ValuesWritten::far_is_first))]
fn held_integer(alloc: Global, description: &Description, number: i128) -> Result<Value, AllocError>
    requires { is_compiled_scalar (description_view description.now) ≡ true }
    ensures { IfOk result (λ held. value_view held ≡ as_held (description_view description.now) (plain.Number number)) }
{
    if is_near(number) {
        held_number(alloc, description, number as i64)
    } else {
        unsuited(alloc, description, Value::Number(0))
    }
}

/// Characters as a scalar holds them: cut on the right, or extended there with blanks (X3.74).
fn held_characters(
    alloc: Global,
    description: &Description,
    text: &[u8],
) -> Result<Value, AllocError>
    requires { is_compiled_scalar (description_view description.now) ≡ true }
    ensures { IfOk result (λ held. value_view held ≡ as_held (description_view description.now)
        (plain.Characters text.now)) }
{
    match description {
        Description::Character(length) => {
            let fitted = character::fit(alloc, text, usize::from(*length))?;
            Ok(Value::Characters(fitted))
        }
        Description::Varying(length) => {
            let fitted = character::fit_varying(text, usize::from(*length));
            Ok(Value::Characters(Vec::from_slice(alloc, fitted)?))
        }
        _ => {
            let value = Value::Characters(Vec::from_slice(alloc, text)?);
            unsuited(alloc, description, value)
        }
    }
}

/// Bits as a scalar holds them: cut on the right, or extended there with zeros (X3.74). A scalar of another
/// type has the value with which it begins, whatever bits are written.
#[tactic(auto, using(crate::proofs::ValuesWritten::first_in_any_case, crate::proofs::StoredPlans::few_bits))]
fn held_bits(alloc: Global, description: &Description, bits: &[bool]) -> Result<Value, AllocError>
    requires { is_compiled_scalar (description_view description.now) ≡ true }
    ensures { IfOk result (λ held. value_view held ≡ as_held (description_view description.now) (plain.Bits bits.now)) }
{
    match description {
        Description::Bit(length) => {
            let fitted = fit_bits(alloc, bits, usize::from(*length))?;
            Ok(Value::Bits(fitted))
        }
        _ => unsuited(alloc, description, Value::Bits(Bits::new(alloc))),
    }
}

/// Null as a scalar holds it: the value with which it begins.
#[tactic(auto, using(crate::proofs::ValuesWritten::null_is_first))]
fn held_null(alloc: Global, description: &Description) -> Result<Value, AllocError>
    requires { is_compiled_scalar (description_view description.now) ≡ true }
    ensures { IfOk result (λ held. value_view held ≡ as_held (description_view description.now) (plain.Located Null)) }
{
    unsuited(alloc, description, Value::Locator(Locator::Null))
}

/// A value in INITIAL as a scalar of this description holds it. A value that does not suit the scalar leaves the one
/// with which it begins.
pub(crate) fn held(
    alloc: Global,
    description: &Description,
    written: &InitialValue,
) -> Result<Value, AllocError>
    requires { is_compiled_scalar (description_view description.now) ≡ true }
    ensures { IfOk result (λ held. value_view held ≡ as_held (description_view description.now)
        (value_of written.now)) }
{
    match written {
        InitialValue::Integer { value, .. } => held_integer(alloc, description, value.number()),
        InitialValue::Characters(text) => held_characters(alloc, description, text.bytes()),
        InitialValue::Bits(bits) => held_bits(alloc, description, bits.bits()),
        InitialValue::Null => held_null(alloc, description),
    }
}
