use crate::tests::stored::{is_number, is_text};
use pli_bytes::{
    append_at, lay, number_at, put_number_at, put_on, put_value_at, text_at, value_at,
};
use pli_map::{Description, size};
use pli_value::Value;
use std::alloc::Global;
use std::process::Abort;
use std::test::*;

/// Whether a wide number is put where it lies, and only there, and is read again; and nothing where the bytes end
/// before.
fn numbers_lie(rt: &impl Abort, alloc: Global) -> bool {
    let mut bytes = [9; 10];
    let put = put_number_at(&mut bytes, 1, 63, -3) && !put_number_at(&mut bytes, 8, 31, 1);
    let read = value_at(alloc, &bytes, 1, &Description::FixedBinary(63)).expect(rt, "memory");
    put && bytes == [9, 255, 255, 255, 255, 255, 255, 255, 253, 9]
        && is_number(read, -3)
        && number_at(&bytes, 1, 63) == Some(-3)
        && number_at(&bytes, 9, 15).is_none()
}

/// Whether characters are put at an offset, are lent from there, and read as a value.
fn characters_lie(rt: &impl Abort, alloc: Global) -> bool {
    let fixed = Description::Character(2);
    let text = Value::Characters(vec![in alloc; b'A', b'B'].expect(rt, "memory"));
    let mut bytes = [b'.'; 4];
    put_value_at(&mut bytes, 1, &fixed, &text);
    let read = value_at(alloc, &bytes, 1, &fixed).expect(rt, "memory");
    bytes == *b".AB." && is_text(read, b"AB")
}

/// Whether characters are put after others up to the greatest length, and no further.
fn characters_follow() -> bool {
    let mut bytes = [0; 7];
    append_at(&mut bytes, 1, 4, b"ABCD", 100)
        && !append_at(&mut bytes, 1, 4, b"E", 100)
        && bytes == [0, 0, 4, 65, 66, 67, 68]
        && text_at(&bytes, 1, &Description::Varying(4)) == Some(b"ABCD".as_slice())
}

#[test]
fn numbers_and_characters(rt: HostRuntime) {
    assert!(rt; numbers_lie(&rt, rt.alloc()) && characters_lie(&rt, rt.alloc()));
    assert!(rt; characters_follow());
}

/// A structure of two numbers, of which the second stands at a byte of four.
fn pair(rt: &impl Abort, alloc: Global) -> Description {
    let short = Description::FixedBinary(15);
    let long = Description::FixedBinary(31);
    Description::Structure(vec![in alloc; short, long].expect(rt, "memory"))
}

/// The bytes of such a pair with these values, a 7 where the second begins; none, if they do not take these.
fn laid(rt: &impl Abort, alloc: Global, description: &Description, values: &[Value]) -> Vec<u8> {
    let Some(size) = size(description) else {
        return Vec::new(alloc);
    };
    let mut bytes = vec![in alloc; 0; size as usize].expect(rt, "memory");
    if !lay(description, values, &mut bytes) {
        return Vec::new(alloc);
    }
    put_on(&mut bytes, description, 4, &Value::Number(7));
    put_on(&mut bytes, description, 2, &Value::Number(8));
    bytes
}

/// Whether two values are laid down where they lie, and one is refused.
fn are_laid(rt: &impl Abort, alloc: Global, description: &Description) -> bool {
    let values = [Value::Number(65), Value::Number(66)];
    laid(rt, alloc, description, &values).as_slice() == [0, 65, 0, 0, 0, 0, 0, 7].as_slice()
        && laid(rt, alloc, description, &values[..1]).is_empty()
}

#[test]
fn pairs(rt: HostRuntime) {
    assert!(rt; are_laid(&rt, rt.alloc(), &pair(&rt, rt.alloc())));
}
