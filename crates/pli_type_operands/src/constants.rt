//! Constants with their types.
ghost use Rattle.std.specs.Prelude.{◌≡◌, ◌≤◌, length, take, IfOk};
ghost use Rattle.pli_type_rules.specs.ExpressionTypes as spec;
ghost use Rattle.pli_type.specs.views.ValueView.{value_view as typed_view};
ghost use Rattle.pli_type_tree.specs.ValueTypes.{longest};
ghost use Rattle.pli_value.specs.Value.{value_view};

use pli_base::syntax::ConstantValue;
use pli_type::TypedValue;
use pli_type_rules::{ExpressionType, binary_digits};
use pli_type_tree::TypedExpression;
use pli_value::Value;
use pli_value::bit::Bits;
use std::alloc::{AllocError, Global};

/// How many elements a string has at most (own).
const STRING_LIMIT: usize = 32_767;

/// A number, as far as so many binary digits have room for it.
#[tactic(auto, using(crate::proofs::Rooms::few_digits))]
fn within(precision: u8, value: u64) -> u64
    requires { precision ≤ 63 }
    ensures value { result ≡ spec.within precision value }
    ensures few { result ≤ 9223372036854775807 }
{
    value.min(2u64.pow(u32::from(precision)) - 1)
}

/// The front of a string, which is no longer than a string may be; of a string of a text that is all of it.
#[tactic(auto, using(crate::proofs::Rooms::front_taken, crate::proofs::Rooms::front_short))]
fn front<T>(elements: &[T]) -> &[T]
    ensures front { result.now ≡ take longest elements.now }
    ensures short { length result.now ≤ 32767 }
{
    &elements[..STRING_LIMIT.min(elements.len())]
}

/// These bits.
fn bits_of(alloc: Global, written: &[bool]) -> Result<Bits, AllocError>
    requires { length written.now ≤ 32767 }
    ensures { IfOk result (λ bits. bits ≡ written.now) }
{
    let mut bits = Bits::new(alloc);
    for bit in written {
        bits.push(*bit)?;
    }
    Ok(bits)
}

/// The value of a constant, as far as its type has room for it; of a constant of a text this is what is written.
fn literal(alloc: Global, greatest: u8, value: &ConstantValue) -> Result<Value, AllocError>
    requires { greatest ≤ 63 }
    ensures { IfOk result (λ made. value_view made ≡ spec.literal_value greatest value.now) }
{
    Ok(match value {
        ConstantValue::Decimal { value, digits } => {
            let precision = binary_digits(greatest, *digits);
            Value::Number(within(precision, *value) as i64)
        }
        ConstantValue::Binary { value, digits } => {
            let precision = (*digits).min(greatest);
            Value::Number(within(precision, *value) as i64)
        }
        ConstantValue::Characters(text) => Value::Characters(Vec::from_slice(
            alloc,
            front(text.bytes()),
        )?),
        ConstantValue::Bits(string) => Value::Bits(bits_of(alloc, front(string.bits()))?),
    })
}

/// The type of a constant: a number has as many digits as are written, leading zeros too (X3.74).
fn constant_type(greatest: u8, value: &ConstantValue) -> ExpressionType
    ensures { result ≡ spec.constant_type greatest value.now }
{
    match value {
        ConstantValue::Decimal { digits, .. } => ExpressionType::FixedDecimal { digits: *digits },
        ConstantValue::Binary { digits, .. } => ExpressionType::FixedBinary {
            precision: (*digits).min(greatest),
        },
        ConstantValue::Characters(_) => ExpressionType::Characters,
        ConstantValue::Bits(_) => ExpressionType::Bits,
    }
}

/// A constant with its type.
pub fn constant(
    alloc: Global,
    greatest: u8,
    value: &ConstantValue,
) -> Result<TypedValue, AllocError>
    requires { greatest ≤ 63 }
    ensures { IfOk result (λ made. typed_view made ≡ spec.constant greatest value.now) }
{
    let expression = TypedExpression::Literal(literal(alloc, greatest, value)?);
    Ok(TypedValue {
        expression,
        kind: constant_type(greatest, value),
    })
}
