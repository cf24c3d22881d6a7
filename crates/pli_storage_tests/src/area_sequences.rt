//! Worked sequences of calls on areas.

use crate::area_calls::{Answer, Call};
use crate::area_pairs::AreaPair;
use crate::area_steps::run;
use pli_area::Area;
use std::alloc::Global;
use std::process::Abort;
use std::test::*;

/// Sequences of calls with every answer, in the form that `run` reads. `allocate 16 of 2 => 8` places a block of 16
/// bytes of description 2, or 1 where none is written, at 8; `find 8 => 16 of 2` finds it; `write 8 4 WXYZ` and `read
/// 8 4 2 => WX` begin at its fifth byte. `dead` says that nothing is live at a position. The calls are on area A
/// unless another letter stands before them; `new 32` makes one of 32 bytes.
static SEQUENCES: &str = "\
// two blocks fill 32 bytes; the second alone; one larger block
new 32; allocate 8 => 8; allocate 8 => 24; allocate 1 => full; count => 2; extent => 32; release 8 => done
count => 1; extent => 32; B new 24; B assign A => full; release 24 => done; release 24 => dead
allocate 16 of 2 => 8; extent => 24; B assign A => done; B find 24 => dead; B find 8 => 16 of 2
// four blocks fill 64 bytes; an area of 32 takes two of them only once none stands after them
new 64; allocate 8 => 8; allocate 8 => 24; allocate 8 => 40; allocate 8 => 56; allocate 8 => full
release 8 => done; release 24 => done; B new 32; B assign A => full; release 40 => done; release 56 => done
count => 0; extent => 0; allocate 8 => 8; allocate 8 => 24; B assign A => done; B count => 2; B extent => 32
B allocate 0 => full
// an allocation tells how many holes it looked at, where no hole is long enough all of them
new 64; visited => 0; allocate 8 => 8; allocate 8 => 24; allocate 8 => 40; allocate 8 => 56; visited => 1
release 8 => done; release 40 => done; visited => 1; allocate 16 => full; visited => 2; release 24 => done
visited => 2; allocate 40 of 2 => 8; visited => 1; allocate 0 => full; visited => 0; B new 64; B visited => 0
B allocate 48 => 8; B assign A => done; B visited => 1; empty; visited => 0; allocate 57 => full; visited => 1
// of two holes that are long enough the first is taken, although the second fits exactly
new 80; allocate 24 => 8; allocate 8 => 40; allocate 8 => 56; allocate 8 => 72; release 8 => done
release 56 => done; allocate 8 of 2 => 8; allocate 8 => 24; allocate 8 => 56; allocate 0 => full
// of four holes the first that is long enough is taken
new 136; allocate 8 => 8; allocate 0 => 24; allocate 16 => 32; allocate 0 => 56; allocate 24 => 64
allocate 0 => 96; release 8 => done; release 32 => done; release 64 => done; allocate 24 => 64
allocate 32 => 104; allocate 16 => 32; allocate 16 => full; allocate 8 => 8; allocate 0 => full
// what is after the last block is the last hole
new 64; allocate 8 => 8; allocate 8 => 24; release 8 => done; allocate 9 => 40; allocate 8 => 8
allocate 1 => full; allocate 0 => 64; extent => 64; allocate 0 => full
// holes are taken by their places, not in the order in which they came
new 64; allocate 8 => 8; allocate 8 => 24; allocate 8 => 40; allocate 8 => 56; release 56 => done
release 24 => done; allocate 8 => 24; allocate 8 => 56; allocate 8 => full
// a block stands at the beginning of a hole, and leaves the rest of it
new 64; allocate 40 => 8; allocate 8 => 56; release 8 => done; allocate 8 => 8; allocate 0 => 24
allocate 16 => 32; allocate 0 => full; count => 4
// a hole is joined with the one before it
new 48; allocate 8 => 8; allocate 8 => 24; allocate 8 => 40; release 8 => done; release 24 => done
allocate 25 => full; allocate 24 of 2 => 8; allocate 0 => full; count => 2; find 8 => 24 of 2
find 24 => dead
// a hole is joined with the one after it
new 48; allocate 8 => 8; allocate 8 => 24; allocate 8 => 40; release 24 => done; release 8 => done
allocate 25 => full; allocate 24 of 2 => 8; allocate 0 => full; count => 2; find 8 => 24 of 2
find 24 => dead
// a hole is joined with both beside it
new 48; allocate 8 => 8; allocate 8 => 24; allocate 8 => 40; release 8 => done; release 40 => done
allocate 40 => full; count => 1; extent => 32; release 24 => done; allocate 41 => full; allocate 40 => 8
extent => 48
// the last block's hole is joined with what is after it
new 64; allocate 8 => 8; allocate 8 => 24; release 24 => done; extent => 16; allocate 41 => full
allocate 40 => 24; extent => 64; allocate 0 => full
// blocks are released in mixed order, and one hole is left
new 80; allocate 8 => 8; allocate 8 => 24; allocate 8 => 40; allocate 8 => 56; allocate 8 => 72
release 40 => done; release 8 => done; release 72 => done; extent => 64; release 24 => done
allocate 41 => full; release 56 => done; count => 0; extent => 0; allocate 73 => full; allocate 72 => 8
// holes are joined, filled and joined again
new 48; allocate 8 => 8; allocate 8 => 24; allocate 8 => 40; release 8 => done; release 24 => done
allocate 8 of 2 => 8; allocate 8 of 3 => 24; release 24 => done; release 8 => done; allocate 24 of 4 => 8
release 40 => done; release 8 => done; allocate 40 of 5 => 8; count => 1; extent => 48; find 8 => 40 of 5
// a hole between blocks is filled to its end, and is none then
new 64; allocate 8 => 8; allocate 8 => 24; allocate 8 => 40; release 24 => done; allocate 7 of 2 => 24
allocate 8 of 3 => 56; allocate 0 => full; count => 4; extent => 64
// the last hole is filled to its end
new 56; allocate 8 => 8; allocate 33 => full; allocate 32 => 24; extent => 56; allocate 0 => full
// one block fills an area
new 40; allocate 33 => full; allocate 32 => 8; extent => 40; allocate 0 => full; release 8 => done
allocate 25 of 2 => 8; extent => 40; find 8 => 25 of 2; allocate 0 => full
// a hole is one byte too short, between blocks and after them
new 80; allocate 8 => 8; allocate 8 => 24; allocate 8 => 40; release 8 => done; allocate 9 of 2 => 56
allocate 1 of 3 => 8; allocate 1 => full; allocate 0 => 80; find 56 => 9 of 2; find 8 => 1 of 3; count => 5
extent => 80
// a hole of 8 bytes has room for a header alone
new 40; allocate 8 => 8; allocate 0 => 24; allocate 8 => 32; release 24 => done; allocate 1 => full
allocate 0 of 2 => 24; allocate 0 => full; find 24 => 0 of 2
// holes that are long enough only together are too short
new 72; allocate 8 => 8; allocate 0 => 24; allocate 8 => 32; allocate 0 => 48; allocate 16 => 56
release 8 => done; release 32 => done; release 56 => done; allocate 17 => full; allocate 16 => 56
allocate 9 => full; allocate 8 => 8; allocate 8 => 32; allocate 0 => full
// an area of 0 bytes has no room for a header
new 0; allocate 0 => full; count => 0; extent => 0; find 0 => dead; find 8 => dead; release 0 => dead
release 8 => dead; empty; capacity => 0; B new 0; B assign A => done; B count => 0; B capacity => 0
// an area of 8 bytes has room for a header alone
new 8; allocate 1 => full; allocate 0 => 8; extent => 8; allocate 0 => full; find 8 => 0 of 1
release 8 => done; allocate 1 => full; allocate 0 of 2 => 8; find 8 => 0 of 2
// where an area is full, nothing changes
new 48; allocate 8 of 2 => 8; write 8 0 abcdefgh; allocate 25 of 3 => full; count => 1; extent => 16
find 8 => 8 of 2; find 24 => dead; read 8 0 8 => abcdefgh; allocate 24 of 4 => 24; extent => 48
// sizes that no area has room for
new 40; allocate 4294967295 => full; allocate 4294967289 => full; allocate 4294967288 => full
allocate 2147483648 => full; allocate 33 => full; count => 0; extent => 0; allocate 32 => 8
// only the position of a block is live; every description and every size is found
new 40; allocate 3 of 4294967295 => 8; allocate 5 of 0 => 24; find 8 => 3 of 4294967295; find 24 => 5 of 0
find 0 => dead; find 7 => dead; find 9 => dead; find 16 => dead; find 32 => dead; find 40 => dead
find 4294967288 => dead; release 0 => dead; release 7 => dead; release 9 => dead; release 16 => dead
release 32 => dead; release 40 => dead; release 4294967288 => dead; count => 2; extent => 32
// a block is released once
new 32; release 8 => dead; allocate 8 => 8; release 8 => done; release 8 => dead; find 8 => dead; count => 0
extent => 0; allocate 8 of 2 => 8; find 8 => 8 of 2; release 8 => done; release 8 => dead
// a position of another area is dead
new 32; B new 32; allocate 8 => 8; allocate 8 => 24; B allocate 16 of 2 => 8; B find 24 => dead
B release 24 => dead; B count => 1; release 24 => done; find 8 => 8 of 1; B find 8 => 16 of 2
release 8 => done; B find 8 => 16 of 2
// where a block was, a larger one stands
new 64; allocate 8 => 8; allocate 8 => 24; release 8 => done; release 24 => done; allocate 40 of 2 => 8
find 24 => dead; release 24 => dead; count => 1; find 8 => 40 of 2; extent => 48
// sizes are rounded up to multiples of 8, and found as they were
new 72; allocate 1 => 8; allocate 7 of 2 => 24; allocate 9 of 3 => 40; allocate 3 of 4 => 64; extent => 72
find 8 => 1 of 1; find 24 => 7 of 2; find 40 => 9 of 3; find 64 => 3 of 4; allocate 0 => full
release 64 => done; extent => 56; release 40 => done; extent => 32; allocate 17 of 5 => 40; extent => 64
// a smaller block in the place of a larger one
new 40; allocate 16 => 8; allocate 8 => 32; release 8 => done; allocate 3 of 2 => 8; allocate 1 => full
allocate 0 of 3 => 24; allocate 0 => full; find 8 => 3 of 2; find 24 => 0 of 3; find 32 => 8 of 1
// a size of 0 takes a header, every other a multiple of 8 after it
new 24; allocate 0 => 8; allocate 0 => 16; allocate 1 => full; allocate 0 => 24; allocate 0 => full
count => 3; extent => 24; find 16 => 0 of 1; release 16 => done; release 8 => done; allocate 1 of 2 => 8
count => 2; find 8 => 1 of 2
// two headers that are joined have room for 8 bytes
new 32; allocate 0 => 8; allocate 0 => 16; allocate 0 => 24; allocate 0 => 32; release 24 => done
allocate 1 => full; release 16 => done; allocate 9 => full; allocate 8 of 2 => 16; find 24 => dead
extent => 32; count => 3; allocate 0 => full
// assigned blocks keep their positions, and what is after them is one hole
new 40; allocate 8 => 8; allocate 8 of 2 => 24; release 8 => done; B new 80; B assign A => done
B find 8 => dead; B find 24 => 8 of 2; B extent => 32; B count => 1; B capacity => 80; B allocate 41 => full
B allocate 40 of 3 => 40; B allocate 8 of 4 => 8; B allocate 0 => full; B count => 3; count => 1
// the extent of what is assigned fits exactly, whatever its capacity
new 80; allocate 8 => 8; B new 16; B assign A => done; B capacity => 16; B extent => 16; B find 8 => 8 of 1
B allocate 0 => full; capacity => 80; allocate 56 => 24
// an area that is 8 bytes too small stays as it was
new 32; allocate 8 => 8; allocate 8 => 24; B new 24; B allocate 3 of 2 => 8; B write 8 0 abc
B assign A => full; B count => 1; B find 8 => 3 of 2; B find 24 => dead; B read 8 0 3 => abc; B extent => 16
B capacity => 24; B allocate 0 of 3 => 24; B allocate 0 => full; count => 2; extent => 32
// the blocks that stood in the target go
new 64; allocate 8 => 8; B new 64; B allocate 8 of 2 => 8; B allocate 8 of 3 => 24; B allocate 16 of 4 => 40
B assign A => done; B count => 1; B find 8 => 8 of 1; B find 24 => dead; B release 40 => dead
B extent => 16; B allocate 40 => 24; B allocate 0 => full
// an area without blocks is assigned to one that is filled
new 64; B new 16; B allocate 8 => 8; B assign A => done; B count => 0; B extent => 0; B find 8 => dead
B capacity => 16; B allocate 9 => full; B allocate 8 => 8
// neither of two areas changes with the other once they are assigned
new 48; allocate 8 => 8; write 8 0 abcdefgh; B new 48; B assign A => done; C new 16; C assign B => done
release 8 => done; B write 8 2 WXYZ; B read 8 0 8 => abWXYZgh; C read 8 0 8 => abcdefgh; count => 0; B empty
B count => 0; C count => 1; assign C => done; read 8 0 8 => abcdefgh; allocate 24 => 24
// the bytes of a block stay when the blocks beside it change
new 64; allocate 8 => 8; allocate 12 => 24; allocate 8 => 48; write 24 0 abcd; write 24 8 efgh
write 8 4 ijkl; write 48 0 mnop; release 8 => done; allocate 4 of 2 => 8; write 8 0 qrst
read 24 0 4 => abcd; read 24 8 4 => efgh; read 48 0 4 => mnop; read 8 0 4 => qrst
// an area that is emptied is one hole
new 40; allocate 8 => 8; allocate 8 of 2 => 24; empty; count => 0; extent => 0; find 8 => dead
release 24 => dead; capacity => 40; allocate 33 => full; allocate 32 of 3 => 8; empty; empty
allocate 8 => 8; allocate 8 => 24; count => 2
// the greatest area
new 1000000; allocate 999993 => full; allocate 999992 => 8; extent => 1000000; allocate 0 => full
write 8 999988 WXYZ; B new 1000000; B assign A => done; B read 8 999988 4 => WXYZ; release 8 => done
allocate 32767 => 8; allocate 32767 => 32784; allocate 934441 => full; allocate 934440 => 65560
extent => 1000000; allocate 0 => full; release 32784 => done; allocate 32761 => 32784; allocate 0 => full
B count => 1";

#[test]
fn sequences(rt: HostRuntime) {
    run(&rt, rt.alloc(), SEQUENCES);
}

/// Whether position 24 is dead once these bytes are written 8 bytes after position 8.
fn is_dead_below(rt: &impl Abort, alloc: Global, area: &mut AreaPair, bytes: &[u8]) -> bool {
    let call = Call::Write(8, 8, bytes);
    area.answer(rt, alloc, call) == Answer::Done
        && area.answer(rt, alloc, Call::Find(24)) == Answer::Dead
        && area.answer(rt, alloc, Call::Release(24)) == Answer::Dead
}

/// Where a block was, another's bytes may look like its header, in either order: it is dead whatever they are.
#[test]
fn bytes_like_a_header(rt: HostRuntime) {
    let alloc = rt.alloc();
    let mut area = AreaPair::new(&rt, alloc, 64);
    for call in [
        Call::Allocate(1, 8),
        Call::Allocate(1, 8),
        Call::Release(8),
        Call::Release(24),
        Call::Allocate(2, 40),
    ] {
        assert!(&rt; area.answer(&rt, alloc, call) != Answer::Dead);
    }
    for description in 0..65_u8 {
        for size in 0..65_u8 {
            let lowest_first = [description, 0, 0, 0, size, 0, 0, 0];
            let highest_first = [0, 0, 0, description, 0, 0, 0, size];
            assert!(&rt; is_dead_below(&rt, alloc, &mut area, &lowest_first));
            assert!(&rt; is_dead_below(&rt, alloc, &mut area, &highest_first));
        }
    }
}

#[test]
fn laws(rt: HostRuntime) {
    pli_area::first_hole_is_least();
    pli_area::worked_examples();
    Area::new(rt.alloc(), 8).expect(&rt, "memory").stands();
}
