//! The type that data attributes say.
ghost use Rattle.std.specs.Prelude.{◌≡◌, true, false};
ghost use Rattle.pli_map.specs.views.DescriptionView.{description_view};
ghost use Rattle.pli_map.specs.views.ParameterView.{type_view};
ghost use Rattle.pli_declare.specs.Types.{is_up_to, number_or, is_bad_precision, is_bad_length, is_bad_star};
ghost use Rattle.pli_declare.specs.Types.{scalar_of, form_of, element_of};

use crate::set::AttributeSet;
use crate::summary::Summary;
use pli_map::{Description, ParameterType, StringForm};

/// Digits of FIXED BINARY where no precision is written (own).
const DEFAULT_PRECISION: u8 = 15;

/// The length of a string where none is written (X3.74).
const DEFAULT_LENGTH: u16 = 1;

/// Bytes of an AREA where no size is written (own).
const DEFAULT_SIZE: u32 = 1_000;

/// Whether a number is from 1 to a limit, where it is written.
fn up_to(limit: u64, number: Option<u64>) -> bool
    ensures { result ≡ is_up_to limit number }
{
    match number {
        Some(number) => 1 <= number && number <= limit,
        None => true,
    }
}

/// Whether there is a precision that is not from 1 to 63.
#[tactic(auto, unfolding(pli_declare::specs::Types::is_bad_precision))]
pub(crate) fn bad_precision(summary: Summary) -> bool
    ensures { result ≡ is_bad_precision summary.set.0 summary.number }
{
    summary.set.has(AttributeSet::FIXED) && !up_to(63, summary.number)
}

/// Whether there is a length that is not from 1 to 32,767, or an area's size that is not from 1 to 1,000,000.
#[tactic(auto, unfolding(pli_declare::specs::Types::is_bad_length))]
pub(crate) fn bad_length(summary: Summary) -> bool
    ensures { result ≡ is_bad_length summary.set.0 summary.number }
{
    let set = summary.set;
    let is_string = set.has(AttributeSet::CHARACTER)
        || set.has(AttributeSet::VARYING)
        || set.has(AttributeSet::BIT);
    is_string && !up_to(32_767, summary.number)
        || set.has(AttributeSet::AREA) && !up_to(1_000_000, summary.number)
}

/// Whether `*` is the length of what is no parameter's, or an area's size.
pub(crate) fn bad_star(is_parameter: bool, summary: Summary) -> bool
    ensures { result ≡ is_bad_star is_parameter summary.star summary.set.0 }
{
    summary.star && (!is_parameter || summary.set.has(AttributeSet::AREA))
}

/// A precision, or else the default.
fn precision(number: Option<u64>) -> u8
    requires { is_up_to 63 number ≡ true }
    ensures { result ≡ number_or 15 number }
{
    match number {
        Some(number) => number as u8,
        None => DEFAULT_PRECISION,
    }
}

/// A length, or else the default.
fn length(number: Option<u64>) -> u16
    requires { is_up_to 32767 number ≡ true }
    ensures { result ≡ number_or 1 number }
{
    match number {
        Some(number) => number as u16,
        None => DEFAULT_LENGTH,
    }
}

/// An area's size, or else the default.
fn area_size(number: Option<u64>) -> u32
    requires { is_up_to 1000000 number ≡ true }
    ensures { result ≡ number_or 1000 number }
{
    match number {
        Some(number) => number as u32,
        None => DEFAULT_SIZE,
    }
}

/// The type that data attributes say, with its defaults.
#[tactic(auto, unfolding(pli_declare::specs::Types::is_bad_precision, pli_declare::specs::Types::is_bad_length, pli_declare::specs::Types::scalar_of))]
pub(crate) fn scalar(summary: Summary) -> Description
    requires precision { is_bad_precision summary.set.0 summary.number ≡ false }
    requires length { is_bad_length summary.set.0 summary.number ≡ false }
    ensures { description_view result ≡ scalar_of summary.set.0 summary.number }
{
    let set = summary.set;
    let number = summary.number;
    if set.has(AttributeSet::FIXED) {
        Description::FixedBinary(precision(number))
    } else if set.has(AttributeSet::VARYING) {
        Description::Varying(length(number))
    } else if set.has(AttributeSet::CHARACTER) {
        Description::Character(length(number))
    } else if set.has(AttributeSet::BIT) {
        Description::Bit(length(number))
    } else if set.has(AttributeSet::POINTER) {
        Description::Pointer
    } else if set.has(AttributeSet::OFFSET) {
        Description::Offset
    } else if set.has(AttributeSet::AREA) {
        Description::Area(area_size(number))
    } else {
        Description::Area(DEFAULT_SIZE)
    }
}

/// The form of the strings that data attributes say.
fn form(set: AttributeSet) -> StringForm
    ensures { result ≡ form_of set.0 }
{
    if set.has(AttributeSet::VARYING) {
        StringForm::Varying
    } else if set.has(AttributeSet::CHARACTER) {
        StringForm::Character
    } else {
        StringForm::Bit
    }
}

/// The type of an element that data attributes say: a string of any length, where its length is `*`.
pub(crate) fn element(summary: Summary) -> ParameterType
    requires precision { is_bad_precision summary.set.0 summary.number ≡ false }
    requires length { is_bad_length summary.set.0 summary.number ≡ false }
    ensures { type_view result ≡ element_of summary.star summary.set.0 summary.number }
{
    if summary.star {
        ParameterType::of_strings(form(summary.set))
    } else {
        ParameterType::of(scalar(summary))
    }
}
