//! Numbers of FIXED BINARY (X3.74, X3.53): 64 bits each, of a precision that is a parameter.
ghost use Rattle.std.specs.Prelude.{◌≡◌, ◌≤◌, ◌+ℤ◌, ◌-ℤ◌, ◌*ℤ◌, neg_ℤ, pos, unsigned_abs, IsTrue};
ghost use Rattle.std.specs.Ordering.{int_cmp};
ghost use Rattle.pli_value.specs.Numbers.{has_digits, within, quotient, remainder, sign_of, greatest_of, least_of};

use std::cmp::Ordering;

/// A condition that an operation on numbers raises in place of a result.
#[derive(Clone, Copy, Debug, PartialEq, Eq)]
pub enum Raised {
    /// FIXEDOVERFLOW: a result of more binary digits than there may be.
    Overflow,
    /// ZERODIVIDE: a divisor of zero.
    ZeroDivide,
}

/// A sum of at most so many binary digits as the greatest precision has.
#[inline]
pub fn add(left: i64, right: i64, greatest: u8) -> Result<i64, Raised>
    requires { greatest ≤ 63 }
    ensures { result ≡ within greatest (left +ℤ right) }
{
    match left.checked_add(right) {
        Some(sum) => fit(sum, greatest),
        None => Err(Raised::Overflow),
    }
}

/// A difference of at most so many binary digits as the greatest precision has.
#[inline]
pub fn subtract(left: i64, right: i64, greatest: u8) -> Result<i64, Raised>
    requires { greatest ≤ 63 }
    ensures { result ≡ within greatest (left -ℤ right) }
{
    match left.checked_sub(right) {
        Some(difference) => fit(difference, greatest),
        None => Err(Raised::Overflow),
    }
}

/// A product of at most so many binary digits as the greatest precision has.
#[inline]
pub fn multiply(left: i64, right: i64, greatest: u8) -> Result<i64, Raised>
    requires { greatest ≤ 63 }
    ensures { result ≡ within greatest (left *ℤ right) }
{
    match left.checked_mul(right) {
        Some(product) => fit(product, greatest),
        None => Err(Raised::Overflow),
    }
}

/// DIVIDE (X3.74): the quotient rounded toward zero, of at most so many binary digits as its third argument says.
#[inline]
pub fn divide(left: i64, right: i64, precision: u8) -> Result<i64, Raised>
    requires { precision ≤ 63 }
    ensures { result ≡ quotient precision left right }
{
    if right == 0 {
        return Err(Raised::ZeroDivide);
    }
    match left.checked_div(right) {
        Some(rounded) => fit(rounded, precision),
        None => Err(Raised::Overflow),
    }
}

/// MOD (own): the least number from 0 on from which the first operand differs by a multiple of the second. It has no
/// more digits than the second.
#[inline]
pub fn modulo(left: i64, right: i64) -> Result<i64, Raised>
    ensures { result ≡ remainder left right }
{
    if right == 0 {
        Err(Raised::ZeroDivide)
    } else {
        Ok(left.wrapping_rem_euclid(right))
    }
}

/// A number assigned to FIXED BINARY of a precision.
#[inline]
pub fn fit(number: i64, precision: u8) -> Result<i64, Raised>
    requires { precision ≤ 63 }
    ensures { result ≡ within precision number }
{
    if number.unsigned_abs() < 1 << precision {
        Ok(number)
    } else {
        Err(Raised::Overflow)
    }
}

/// Prefix `-` (X3.74): a number of no more digits than its operand has.
#[inline]
pub fn negate(number: i64) -> i64
    requires { IsTrue (has_digits 63 number) }
    ensures { result ≡ neg_ℤ number }
{
    -number
}

/// ABS (X3.74): a number of no more digits than its operand has.
#[inline]
pub fn absolute(number: i64) -> i64
    requires { IsTrue (has_digits 63 number) }
    ensures { result ≡ pos (unsigned_abs number) }
{
    number.abs()
}

/// SIGN (X3.74): -1, 0 or 1.
#[inline]
pub fn sign(number: i64) -> i64
    ensures { result ≡ sign_of number }
{
    if number < 0 {
        -1
    } else if number > 0 {
        1
    } else {
        0
    }
}

/// MAX (X3.74) of two numbers.
#[inline]
pub fn greatest(left: i64, right: i64) -> i64
    ensures { result ≡ greatest_of left right }
{
    if left <= right { right } else { left }
}

/// MIN (X3.74) of two numbers.
#[inline]
pub fn least(left: i64, right: i64) -> i64
    ensures { result ≡ least_of left right }
{
    if left <= right { left } else { right }
}

/// The order of two numbers (X3.74).
#[inline]
pub fn compare(left: i64, right: i64) -> Ordering
    ensures { result ≡ int_cmp left right }
{
    left.cmp(&right)
}
