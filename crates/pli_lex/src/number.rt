//! Decimal and binary constants.
ghost use Rattle.std.specs.Prelude.{◌≡◌, ◌<◌, ◌≤◌, ◌^◌, IsTrue, Ok, Err, length, drop};
ghost use Rattle.std.specs.List.{list_all, prefix_len};
ghost use Rattle.pli_base.specs.Digits.{value_in};
ghost use Rattle.pli_base.specs.Name.{is_digit};
ghost use Rattle.pli_lex.specs.Characters.{is_binary_digit, begins_with};
ghost use Rattle.pli_lex.specs.Reading.{number_at, decimal, binary};

use crate::character::{begins_with_b, continues_number, is_binary_digit};
use pli_base::{Code, TokenText, decimal_value, is_digit};

/// The greatest number of digits in a decimal constant (own).
const DECIMAL_LIMIT: usize = 19;

/// The greatest value of a decimal constant (own).
const VALUE_LIMIT: u64 = 9_223_372_036_854_775_807;

/// The greatest number of digits in a binary constant (own).
const BINARY_LIMIT: usize = 63;

/// How many digits a text begins with.
fn number_width(text: &[u8]) -> usize
    ensures { result ≡ prefix_len is_digit text.now }
{
    text.iter().take_while(|byte| is_digit(**byte)).count()
}

/// Whether each byte is a binary digit.
fn are_binary(digits: &[u8]) -> bool
    ensures { result ≡ list_all is_binary_digit digits.now }
{
    digits.iter().all(|digit| is_binary_digit(*digit))
}

/// The value of at most 63 binary digits.
fn binary_value(digits: &[u8]) -> u64
    requires count { length digits.now ≤ 63 }
    requires form { IsTrue (list_all is_binary_digit digits.now) }
    ensures { result ≡ value_in 2 digits.now }
{
    let mut value = 0;
    for digit in digits {
        value = value * 2 + u64::from(*digit - b'0');
    }
    value
}

/// The decimal constant of these digits, where `rest` comes directly after them.
fn decimal(digits: &[u8], rest: &[u8]) -> Result<(TokenText, usize), Code>
    requires some { 1 ≤ length digits.now }
    requires form { IsTrue (list_all is_digit digits.now) }
    ensures { result ≡ decimal digits.now rest.now }
{
    let width = digits.len();
    if width > DECIMAL_LIMIT || continues_number(rest) {
        return Err(Code::BadNumber);
    }
    let value = decimal_value(digits);
    if value > VALUE_LIMIT {
        return Err(Code::BadNumber);
    }
    let text = TokenText::Decimal {
        value,
        digits: width as u8,
    };
    Ok((text, width))
}

/// The binary constant of these digits and a `B`, where `rest` comes directly after them.
fn binary(digits: &[u8], rest: &[u8]) -> Result<(TokenText, usize), Code>
    requires { 1 ≤ length digits.now }
    ensures { result ≡ binary digits.now rest.now }
{
    let width = digits.len();
    if width > BINARY_LIMIT || !are_binary(digits) || continues_number(rest) {
        return Err(Code::BadNumber);
    }
    let text = TokenText::Binary {
        value: binary_value(digits),
        digits: width as u8,
    };
    Ok((text, width + 1))
}

/// The number at the front of a text that begins with a digit.
pub fn number_at(text: &[u8]) -> Result<(TokenText, usize), Code>
    requires { IsTrue (begins_with is_digit text.now) }
    ensures { result ≡ number_at text.now }
{
    let width = number_width(text);
    let (digits, rest) = text.split_at(width);
    if begins_with_b(rest) {
        binary(digits, rest.split_at(1).1)
    } else {
        decimal(digits, rest)
    }
}
