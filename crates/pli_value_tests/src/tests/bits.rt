use pli_bytes::{put_short_at, short_bits};
use pli_value::bit::{
    Bits, and, bits_to_char, compare, concat, fit, index, is_true, not, or, rest, substr,
};
use pli_value::{Locator, Value, short};
use std::alloc::Global;
use std::process::Abort;
use std::test::*;

/// Seventeen bits.
fn string(rt: &impl Abort, alloc: Global) -> Bits {
    Bits::unpack(alloc, &[0b0101_1001, 0b1100_0101, 0b1000_0000], 17).expect(rt, "memory")
}

/// Whether bits are those that a text shows.
fn are(rt: &impl Abort, alloc: Global, bits: &Bits, text: &[u8]) -> bool {
    let shown = bits_to_char(alloc, bits).expect(rt, "memory");
    shown.as_slice() == text
}

/// Whether there are bits, and they are those that a text shows.
fn is_part(rt: &impl Abort, alloc: Global, bits: Option<Bits>, text: &[u8]) -> bool {
    match bits {
        Some(bits) => are(rt, alloc, &bits, text),
        None => false,
    }
}

/// Whether the operators give of seventeen bits what they should.
fn are_operated(rt: &impl Abort, alloc: Global, bits: &Bits) -> bool {
    let turned = not(alloc, bits).expect(rt, "memory");
    let nothing = and(alloc, bits, &turned).expect(rt, "memory");
    let all = or(alloc, bits, &turned).expect(rt, "memory");
    are(rt, alloc, &turned, b"10100110001110100")
        && !is_true(&nothing)
        && are(rt, alloc, &all, b"11111111111111111")
        && compare(bits, &turned).is_lt()
}

#[test]
fn operators(rt: HostRuntime) {
    assert!(rt; are_operated(&rt, rt.alloc(), &string(&rt, rt.alloc())));
}

/// Whether parts of seventeen bits are right.
fn are_parts(rt: &impl Abort, alloc: Global, bits: &Bits) -> bool {
    let part = substr(alloc, bits, 4, 12).expect(rt, "memory");
    is_part(rt, alloc, part, b"110011100010")
        && is_part(
            rt,
            alloc,
            rest(alloc, bits, 8).expect(rt, "memory"),
            b"1110001011",
        )
        && substr(alloc, bits, i64::MAX, 1)
            .expect(rt, "memory")
            .is_none()
        && substr(alloc, bits, 1, 4_294_967_296)
            .expect(rt, "memory")
            .is_none()
}

/// Whether nine of them are found at their front, and put after them again.
fn are_nine(rt: &impl Abort, alloc: Global, bits: &Bits) -> bool {
    let nine = fit(alloc, bits, 9).expect(rt, "memory");
    index(bits, &nine) == 1
        && is_part(
            rt,
            alloc,
            concat(alloc, bits, &nine).expect(rt, "memory"),
            b"01011001110001011010110011",
        )
}

/// Whether seventeen bits are what they were where they are cut at any place and joined again.
fn are_joined_again(rt: &impl Abort, alloc: Global, bits: &Bits) -> bool {
    for count in 0..18 {
        let front = substr(alloc, bits, 1, count).expect(rt, "memory");
        let back = rest(alloc, bits, count + 1).expect(rt, "memory");
        let (Some(front), Some(back)) = (front, back) else {
            return false;
        };
        let both = concat(alloc, &front, &back).expect(rt, "memory");
        if !is_part(rt, alloc, both, b"01011001110001011") {
            return false;
        }
    }
    true
}

/// Whether seventeen bits are so where they are kept as numbers.
fn are_short_joined(rt: &impl Abort, alloc: Global, bits: &Bits) -> bool {
    for count in 0..18 {
        let front = substr(alloc, bits, 1, count).expect(rt, "memory");
        let back = rest(alloc, bits, count + 1).expect(rt, "memory");
        let (Some(front), Some(back)) = (front, back) else {
            return false;
        };
        let (Some(front), Some(back)) = (short_bits(&front), short_bits(&back)) else {
            return false;
        };
        let Some(both) = short::concat(front, back) else {
            return false;
        };
        let mut bytes = [0; 3];
        if !put_short_at(&mut bytes, 0, both) || bytes.as_slice() != [89, 197, 128].as_slice() {
            return false;
        }
    }
    true
}

#[test]
fn parts(rt: HostRuntime) {
    let bits = string(&rt, rt.alloc());
    let are_right = are_parts(&rt, rt.alloc(), &bits)
        && are_nine(&rt, rt.alloc(), &bits)
        && are_joined_again(&rt, rt.alloc(), &bits)
        && are_short_joined(&rt, rt.alloc(), &bits);
    drop(bits);
    assert!(rt; are_right);
}

/// Whether a copy of seventeen bits has one more, and these bytes.
fn is_pushed(rt: &impl Abort, alloc: Global, bits: &Bits) -> bool {
    let mut copy = bits.copy(alloc).expect(rt, "memory");
    if copy.length() < 32_767 {
        copy.push(true).expect(rt, "memory");
    }
    copy.length() == 18 && copy.at(17) && !copy.at(0) && copy.bytes() == [89, 197, 192].as_slice()
}

/// Whether a copy of a number is that number.
fn is_copied(rt: &impl Abort, alloc: Global, number: i64) -> bool {
    let copy = Value::Number(number).copy(alloc).expect(rt, "memory");
    matches!(copy, Value::Number(copied) if copied == number)
}

#[test]
fn copies(rt: HostRuntime) {
    assert!(rt; is_pushed(&rt, rt.alloc(), &string(&rt, rt.alloc())));
    assert!(rt; is_copied(&rt, rt.alloc(), -5));
}

/// A pointer into generation 3.
fn at(position: u32) -> Locator {
    Locator::Pointer {
        generation: 3,
        position,
    }
}

/// Whether locators are null and equal where they should be.
fn are_told() -> bool {
    at(0).equals(at(0))
        && !at(0).equals(at(8))
        && !at(0).is_null()
        && Locator::Null.is_null()
        && Locator::Offset(0).is_null()
        && !Locator::Null.equals(Locator::Offset(0))
}

#[test]
fn locators(rt: HostRuntime) {
    assert!(rt; are_told());
}
