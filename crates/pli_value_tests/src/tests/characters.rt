use pli_value::character::{
    STRING_LIMIT, compare, concat, fit, fit_varying, index, is_held, rest, substr, to_char,
};
use std::alloc::Global;
use std::process::Abort;
use std::test::*;

/// Whether parts and places are right, and parts that begin or end far off are none.
fn are_parts() -> bool {
    substr(b"ABC", 2, 1) == Some(b"B".as_slice())
        && substr(b"ABC", i64::MAX, i64::MAX).is_none()
        && substr(b"ABC", 2, 4_294_967_297).is_none()
        && rest(b"ABC", 3) == Some(b"C".as_slice())
        && rest(b"ABC", -i64::MAX).is_none()
        && index(b"AABAB", b"AB") == 2
        && compare(b"AB ", b"AB").is_eq()
        && fit_varying(b"ABC", 2) == b"AB".as_slice()
}

/// Whether a number is written as it should be.
fn is_written(rt: &impl Abort, alloc: Global) -> bool {
    if !is_held(-i64::MAX, 20) || is_held(-1, 1) {
        return false;
    }
    let least = to_char(alloc, -i64::MAX, 20).expect(rt, "memory");
    least.as_slice() == b"-9223372036854775807".as_slice()
}

/// Whether no character comes after the longest string.
fn is_longest(rt: &impl Abort, alloc: Global) -> bool {
    let longest = fit(alloc, b"A", STRING_LIMIT).expect(rt, "memory");
    concat(alloc, &longest, b"A").expect(rt, "memory").is_none()
}

#[test]
fn strings(rt: HostRuntime) {
    assert!(rt; are_parts() && is_written(&rt, rt.alloc()));
    assert!(rt; is_longest(&rt, rt.alloc()));
}
