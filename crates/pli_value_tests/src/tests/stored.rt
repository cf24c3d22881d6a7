use pli_bytes::{first_values, holds, load_value, store_value};
use pli_map::Description;
use pli_value::bit::Bits;
use pli_value::{Locator, Value};
use std::alloc::Global;
use std::process::Abort;
use std::test::*;

/// Whether a value is this number.
pub(crate) fn is_number(value: Value, wanted: i64) -> bool {
    matches!(value, Value::Number(number) if number == wanted)
}

/// Whether a value is these characters.
pub(crate) fn is_text(value: Value, wanted: &[u8]) -> bool {
    match value {
        Value::Characters(text) => text.as_slice() == wanted,
        Value::Number(_) | Value::Bits(_) | Value::Locator(_) => false,
    }
}

/// Whether the greatest number of 63 digits and one below zero stand so, and are read again.
fn wide_numbers(rt: &impl Abort, alloc: Global) -> bool {
    let wide = Description::FixedBinary(63);
    let (mut most, mut less) = ([1; 8], [1; 8]);
    store_value(&wide, &Value::Number(9_223_372_036_854_775_807), &mut most);
    store_value(&wide, &Value::Number(-2), &mut less);
    let read = is_number(
        load_value(alloc, &wide, &most).expect(rt, "memory"),
        9_223_372_036_854_775_807,
    ) && is_number(load_value(alloc, &wide, &less).expect(rt, "memory"), -2);
    read && most == [127, 255, 255, 255, 255, 255, 255, 255]
        && less == [255, 255, 255, 255, 255, 255, 255, 254]
}

#[test]
fn numbers(rt: HostRuntime) {
    assert!(rt; wide_numbers(&rt, rt.alloc()));
}

/// Whether two characters stand so in CHARACTER(4) VARYING, and are read again.
fn varying_characters(rt: &impl Abort, alloc: Global) -> bool {
    let varying = Description::Varying(4);
    let text = Value::Characters(vec![in alloc; b'A', b'B'].expect(rt, "memory"));
    let mut six = [1; 6];
    store_value(&varying, &text, &mut six);
    let read = is_text(
        load_value(alloc, &varying, &six).expect(rt, "memory"),
        b"AB",
    );
    read && six == [0, 2, 65, 66, 0, 0]
}

/// Whether a length over the greatest leads to no more characters than there are.
fn is_cut(rt: &impl Abort, alloc: Global) -> bool {
    let varying = Description::Varying(4);
    let full = load_value(alloc, &varying, &[255, 255, 65, 66, 67, 68]).expect(rt, "memory");
    is_text(full, b"ABCD")
}

#[test]
fn characters(rt: HostRuntime) {
    assert!(rt; varying_characters(&rt, rt.alloc()) && is_cut(&rt, rt.alloc()));
}

/// Whether bits over the end of a byte are read; what stands after the last one does not count.
fn bits_are_read(rt: &impl Abort, alloc: Global) -> bool {
    match load_value(alloc, &Description::Bit(9), &[0b1010_0000, 0b1111_1111]).expect(
        rt, "memory",
    ) {
        Value::Bits(loaded) => loaded.bytes() == [0b1010_0000, 0b1000_0000].as_slice(),
        Value::Number(_) | Value::Characters(_) | Value::Locator(_) => false,
    }
}

/// Whether one bit stands so. What stood in the byte before does not count.
fn one_bit(rt: &impl Abort, alloc: Global) -> bool {
    let mut single = Bits::new(alloc);
    single.push(true).expect(rt, "memory");
    let mut one = [255; 1];
    store_value(&Description::Bit(1), &Value::Bits(single), &mut one);
    one == [128]
}

#[test]
fn bits(rt: HostRuntime) {
    assert!(rt; bits_are_read(&rt, rt.alloc()) && one_bit(&rt, rt.alloc()));
}

/// Whether a locator stands in eight bytes of POINTER so, and is read again.
fn is_stored_pointer(rt: &impl Abort, alloc: Global, locator: Locator, wanted: [u8; 8]) -> bool {
    let mut bytes = [1; 8];
    if !holds(&Description::Pointer, &Value::Locator(locator)) {
        return false;
    }
    store_value(&Description::Pointer, &Value::Locator(locator), &mut bytes);
    let read = load_value(alloc, &Description::Pointer, &bytes).expect(rt, "memory");
    bytes == wanted && matches!(read, Value::Locator(loaded) if loaded == locator)
}

/// Whether an offset stands in four bytes so, and is read again.
fn is_stored_offset(rt: &impl Abort, alloc: Global, position: u32, wanted: [u8; 4]) -> bool {
    let offset = Value::Locator(Locator::Offset(position));
    let mut bytes = [1; 4];
    if !holds(&Description::Offset, &offset) {
        return false;
    }
    store_value(&Description::Offset, &offset, &mut bytes);
    let read = load_value(alloc, &Description::Offset, &bytes).expect(rt, "memory");
    bytes == wanted && matches!(read, Value::Locator(loaded) if loaded == Locator::Offset(position))
}

#[test]
fn locators(rt: HostRuntime) {
    let alloc = rt.alloc();
    let first = Locator::Pointer {
        generation: 0,
        position: 0,
    };
    let pointer = Locator::Pointer {
        generation: 258,
        position: 16,
    };
    assert!(rt; is_stored_pointer(&rt, alloc, Locator::Null, [0; 8]));
    assert!(rt; is_stored_pointer(&rt, alloc, first, [0, 0, 0, 1, 0, 0, 0, 0]));
    assert!(rt; is_stored_pointer(&rt, alloc, pointer, [0, 0, 1, 3, 0, 0, 0, 16]));
    assert!(rt; is_stored_offset(&rt, alloc, 0, [0; 4]));
    assert!(rt; is_stored_offset(&rt, alloc, 40, [0, 0, 0, 40]));
}

/// The values with which the scalars of a structure begin, of POINTER, AREA and OFFSET: two, as an area has none.
#[test]
fn first_locators(rt: HostRuntime) {
    let alloc = rt.alloc();
    let members = vec![in alloc;
        Description::Pointer,
        Description::Area(8),
        Description::Offset,
    ]
    .expect(&rt, "memory");
    let values = first_values(alloc, &Description::Structure(members)).expect(&rt, "memory");
    assert!(rt; values.len() == 2);
    assert!(rt; matches!(values[0], Value::Locator(Locator::Null)));
    assert!(rt; matches!(values[1], Value::Locator(Locator::Offset(0))));
}
