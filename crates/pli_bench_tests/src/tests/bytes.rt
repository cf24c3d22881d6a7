//! Bytes whole, cut and changed: of modules that are written by hand from their format.
use crate::tests::exact::{Tries, first_inexact, first_inexact_deck};
use crate::tests::outcome::Kind;
use crate::tests::written::{MODULES, bytes_of};
use std::alloc::Global;
use std::process::Abort;
use std::test::*;

/// `M: PROC OPTIONS(MAIN); END;` as a deck.
pub(crate) static SMALLEST: [u8; 39] = [
    80, 76, 73, 68, 3, 1, 77, 1, 0, 255, 255, 0, 0, 0, 0, 0, 0, 0, 0, 0, 1, 0, 255, 255, 0, 0, 0,
    0, 0, 0, 0, 0, 0, 0, 1, 0, 1, 9, 0,
];

/// The masks that are tried of each byte: one bit, some bits and all.
static MASKS: [u8; 6] = [1, 2, 7, 64, 128, 255];

/// Whether the bytes of a module and of its decks are read exactly, with some bits of each byte turned and random
/// changes.
pub(crate) fn is_exact(rt: &impl Abort, alloc: Global, module: &[u8]) -> bool {
    let tries = Tries {
        masks: &MASKS,
        random: 1000,
    };
    let whole = first_inexact(alloc, Kind::Module, module, tries).expect(rt, "memory");
    let decks = first_inexact_deck(alloc, module, tries).expect(rt, "memory");
    whole.is_none() && decks.is_none()
}

/// The masks that make every other byte of a byte.
fn all_masks(rt: &impl Abort, alloc: Global) -> Vec<u8> {
    let mut masks = Vec::new(alloc);
    for mask in 1..=255 {
        masks.push(mask).expect(rt, "memory");
    }
    masks
}

/// Whether the bytes of a module are read exactly, with every other byte in each place.
fn is_exact_with_all(rt: &impl Abort, alloc: Global, module: &[u8]) -> bool {
    let masks = all_masks(rt, alloc);
    let tries = Tries {
        masks: &masks,
        random: 0,
    };
    first_inexact(alloc, Kind::Module, module, tries)
        .expect(rt, "memory")
        .is_none()
}

/// Whether each of the modules is read exactly, a short one with every other byte in each place.
fn are_exact(rt: &impl Abort, alloc: Global) -> bool {
    for text in MODULES.lines() {
        let module = bytes_of(rt, alloc, text);
        if !is_exact(rt, alloc, &module)
            || module.len() < 200 && !is_exact_with_all(rt, alloc, &module)
        {
            return false;
        }
    }
    true
}

#[test]
fn modules(rt: HostRuntime) {
    assert!(rt; are_exact(&rt, rt.alloc()));
}
