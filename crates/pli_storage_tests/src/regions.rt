//! Regions of memory.

use pli_region::Region;
use std::process::Abort;
use std::test::*;

#[test]
fn words_are_zero_at_first(rt: HostRuntime) {
    let region = Region::new(rt.alloc(), 16).expect(&rt, "memory");
    assert!(&rt; region.word(8) == 0);
}
