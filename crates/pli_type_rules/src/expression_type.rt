//! The types of expressions.
ghost use Rattle.std.specs.Prelude.{◌≡◌};
ghost use Rattle.pli_map.specs.views.DescriptionView.{description_view};
ghost use Rattle.pli_map.specs.views.ParameterView.{type_seen, type_view};
ghost use Rattle.pli_type_rules.specs.ExpressionTypes as spec;

use crate::beginning::Beginning;
use pli_map::{Description, ParameterType, StringForm, TypeRef};

/// The type of an expression (X3.74). How long a string is belongs to no type: it shows when the program runs.
#[derive(Clone, Copy, Debug, PartialEq, Eq)]
pub enum ExpressionType {
    /// A decimal constant of so many digits, with any prefix signs and parentheses.
    FixedDecimal { digits: u8 },
    /// A number of so many binary digits.
    FixedBinary { precision: u8 },
    Characters,
    Bits,
    Pointer,
    /// NULL, which is an OFFSET beside one and where one is wanted, else a POINTER.
    Null,
    /// An OFFSET, with the area that its declaration or its RETURNS names, seen from where the expression stands.
    Offset { area: Option<Beginning> },
    Area,
}

/// The precision of a FIXED BINARY operand that a decimal constant of so many digits is; none is greater than
/// `greatest` (own).
pub fn binary_digits(greatest: u8, digits: u8) -> u8
    ensures { result ≡ spec.binary_digits greatest digits }
{
    let precision = 1 + (332 * u32::from(digits)).div_ceil(100);
    match u8::try_from(precision) {
        Ok(precision) => precision.min(greatest),
        Err(_) => greatest,
    }
}

/// How many decimal digits a number of so many binary digits has (own).
fn decimal_digits(precision: u8) -> u8
    ensures { result ≡ spec.decimal_digits precision }
{
    1 + (100 * u16::from(precision)).div_ceil(332) as u8
}

/// As many characters as a number of so many decimal digits takes (own).
fn columns(digits: u8) -> u8
    ensures { result ≡ spec.columns digits }
{
    digits.saturating_add(3)
}

/// The precision of `+` and `-`, by those of the operands: no number has more than `greatest` binary digits (own).
pub fn sum_precision(greatest: u8, left: u8, right: u8) -> u8
    ensures { result ≡ spec.sum_precision greatest left right }
{
    left.max(right).saturating_add(1).min(greatest)
}

/// The precision of `*` (own).
pub fn product_precision(greatest: u8, left: u8, right: u8) -> u8
    ensures { result ≡ spec.product_precision greatest left right }
{
    left.saturating_add(right).saturating_add(1).min(greatest)
}

impl ExpressionType {
    /// The precision of a number, none of anything else: a decimal constant is FIXED BINARY where it is an operand
    /// (own).
    pub fn precision(self, greatest: u8) -> Option<u8>
        ensures { result ≡ spec.precision_of greatest self }
    {
        match self {
            ExpressionType::FixedDecimal { digits } => Some(binary_digits(greatest, digits)),
            ExpressionType::FixedBinary { precision } => Some(precision),
            _ => None,
        }
    }

    /// How many characters a number becomes, none of anything else (own).
    pub fn width(self) -> Option<u8>
        ensures { result ≡ spec.width_of self }
    {
        match self {
            ExpressionType::FixedDecimal { digits } => Some(columns(digits)),
            ExpressionType::FixedBinary { precision } => {
                Some(columns(decimal_digits(precision)))
            }
            _ => None,
        }
    }

    /// The type of what a variable of a description holds, whose declaration names this area if it is an OFFSET; an
    /// aggregate has none.
    pub fn of(description: &Description, area: Option<Beginning>) -> Option<ExpressionType>
        ensures { result ≡ spec.type_of area (description_view description.now) }
    {
        match description {
            Description::FixedBinary(precision) => Some(ExpressionType::FixedBinary {
                precision: *precision,
            }),
            Description::Character(_) | Description::Varying(_) => Some(ExpressionType::Characters),
            Description::Bit(_) => Some(ExpressionType::Bits),
            Description::Pointer => Some(ExpressionType::Pointer),
            Description::Offset => Some(ExpressionType::Offset { area }),
            Description::Area(_) => Some(ExpressionType::Area),
            Description::Array { .. } | Description::Structure(_) => None,
        }
    }

    /// The type of strings of a form.
    pub fn of_strings(form: StringForm) -> ExpressionType
        ensures { result ≡ spec.form_type form }
    {
        match form {
            StringForm::Character | StringForm::Varying => ExpressionType::Characters,
            StringForm::Bit => ExpressionType::Bits,
        }
    }

    /// The type of what a variable of this type holds.
    fn of_type(taken: &ParameterType, area: Option<Beginning>) -> Option<ExpressionType>
        ensures { result ≡ spec.held_type area (type_view taken.now) }
    {
        match taken {
            ParameterType::Stated(description) => ExpressionType::of(description, area),
            ParameterType::AnyString(form) => Some(ExpressionType::of_strings(*form)),
            _ => None,
        }
    }

    /// The type of what a variable of a type holds, whatever the lengths are that are the argument's, and whose
    /// declaration names this area if it is an OFFSET; an aggregate has none.
    pub fn held(taken: TypeRef<'_>, area: Option<Beginning>) -> Option<ExpressionType>
        ensures { result ≡ spec.held_type area (type_seen taken.entry) }
    {
        match taken {
            TypeRef::Stated(description) => ExpressionType::of(description, area),
            TypeRef::Open(taken) => ExpressionType::of_type(taken, area),
        }
    }

    /// Whether it is a POINTER, an OFFSET or NULL.
    pub fn is_locator(self) -> bool
        ensures { result ≡ spec.is_locator self }
    {
        matches!(
            self,
            ExpressionType::Pointer | ExpressionType::Null | ExpressionType::Offset { .. }
        )
    }

    /// The type in which two strings stand beside one another: bits are read as characters beside characters (own).
    pub fn beside(self, other: ExpressionType) -> Option<ExpressionType>
        ensures { result ≡ spec.string_type self other }
    {
        match (self, other) {
            (ExpressionType::Bits, ExpressionType::Bits) => Some(ExpressionType::Bits),
            (
                ExpressionType::Characters | ExpressionType::Bits,
                ExpressionType::Characters | ExpressionType::Bits,
            ) => Some(ExpressionType::Characters),
            _ => None,
        }
    }
}

/// The precisions of two operands, where both are numbers.
pub fn precisions(greatest: u8, left: ExpressionType, right: ExpressionType) -> Option<(u8, u8)>
    ensures { result ≡ spec.precisions greatest left right }
{
    match (left.precision(greatest), right.precision(greatest)) {
        (Some(left), Some(right)) => Some((left, right)),
        _ => None,
    }
}
