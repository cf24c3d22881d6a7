//! Marks of descriptions.

use pli_map::{Bounds, Description, mark_of};
use std::alloc::Global;
use std::process::Abort;
use std::test::*;

/// A number and a string of this length, in a structure.
fn row(rt: &impl Abort, alloc: Global, length: u16) -> Description {
    let members = vec![in alloc;
        Description::FixedBinary(31),
        Description::Character(length),
    ]
    .expect(rt, "memory");
    Description::Structure(members)
}

/// An array of such from a low bound to a high one.
fn rows(rt: &impl Abort, alloc: Global, low: i16, high: i16, length: u16) -> Description {
    Description::Array {
        bounds: vec![in alloc; Bounds { low, high }].expect(rt, "memory"),
        element: Box::new(alloc, row(rt, alloc, length)).expect(rt, "memory"),
    }
}

/// Whether two arrays have marks that tell whether they are equal.
fn are_told(left: &Description, right: &Description) -> bool {
    mark_of(left) != 0
        && mark_of(right) != 0
        && (mark_of(left) == mark_of(right)) == left.equals(right)
        && left.is_same(right) == left.equals(right)
}

#[test]
fn marks(rt: HostRuntime) {
    let alloc = rt.alloc();
    let some = rows(&rt, alloc, 1, 100, 8);
    assert!(rt; are_told(&some, &rows(&rt, alloc, 1, 100, 8)));
    assert!(rt; are_told(&some, &rows(&rt, alloc, 1, 101, 8)));
    assert!(rt; are_told(&some, &rows(&rt, alloc, 1, -100, 8)));
    assert!(rt; are_told(&some, &rows(&rt, alloc, 1, 100, 9)));
    assert!(rt; mark_of(&rows(&rt, alloc, -5, 100, 32767)) == 0);
    assert!(rt; mark_of(&Description::Pointer) != mark_of(&Description::Offset));
}
