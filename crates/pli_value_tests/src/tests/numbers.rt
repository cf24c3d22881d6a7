use pli_value::number::{
    Raised, absolute, add, compare, divide, fit, greatest, least, modulo, multiply, negate, sign,
    subtract,
};
use std::test::*;

/// The greatest number of 63 binary digits.
const WIDE: i64 = i64::MAX;

/// Whether sums, differences and products are right beyond 31 digits.
fn are_wide() -> bool {
    add(2_147_483_647, 1, 63) == Ok(2_147_483_648)
        && add(WIDE, 1, 63) == Err(Raised::Overflow)
        && subtract(-WIDE, 2, 63) == Err(Raised::Overflow)
        && multiply(WIDE, 2, 63) == Err(Raised::Overflow)
        && multiply(-WIDE, -1, 63) == Ok(WIDE)
}

/// Whether quotients, remainders and assignments are.
fn are_divided() -> bool {
    divide(2_147_483_648, -1, 31) == Err(Raised::Overflow)
        && divide(1, 0, 63) == Err(Raised::ZeroDivide)
        && modulo(-1, WIDE) == Ok(9_223_372_036_854_775_806)
        && fit(-2_147_483_648, 31) == Err(Raised::Overflow)
}

/// Whether signs and orders are.
fn are_ordered() -> bool {
    sign(-WIDE) == -1
        && negate(-WIDE) == WIDE
        && absolute(-WIDE) == WIDE
        && compare(WIDE, -WIDE).is_gt()
        && greatest(WIDE, -WIDE) == WIDE
        && least(WIDE, -WIDE) == -WIDE
}

#[test]
fn wide_numbers(rt: HostRuntime) {
    assert!(rt; are_wide() && are_divided() && are_ordered());
}
