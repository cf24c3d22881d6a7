//! Worked sequences of calls on storage in areas.

use crate::words::run;
use std::test::*;

/// `in 0 n15 3 => ^0+8` is ALLOCATE of a BASED variable in the area that is generation 0, `based n15 ^0+8` keeps a
/// reference: what it has met is `#0`, and so on. `empty` and `assign` are of areas; `offset 0 ^0+8` is a pointer as
/// an offset of an area, `pointer 0 @8` an offset as a pointer into it.
static SEQUENCES: &str = "\
// a block begins as it should, at the least position
make a60 => 0; in 0 n15 3 => ^0+8; based n15 ^0+8 => ^0+8; held #0+0:n15 => 3; in 0 two 5 0 => ^0+24
based two ^0+24 => ^0+24; held #1+0:n15 => 5; held #1+2:n15 => 0; store #1+2:n15 6; held #1+2:n15 => 6
held #1+0:n15 => 5; held #0+0:n15 => 3
// 32 bytes hold two blocks of up to 8 bytes, and no third; a hole is taken again
make a32 => 0; in 0 n15 1 => ^0+8; in 0 n31 => ^0+24; in 0 n15 => E11; free n15 ^0+8; in 0 two 2 0 => ^0+8
in 0 n15 => E11; free n31 ^0+24; free two ^0+8; in 0 c9 => ^0+8; in 0 n15 => E11
// an area takes a multiple of 8 bytes, and a block of 9 bytes 24
make a16 => 0; in 0 c9 => E11; in 0 n15 4 => ^0+8; in 0 n15 => E11; make a60 => 1; in 1 c9 => ^1+8; in 1 c9 => ^1+32
in 1 n15 => ^1+56; in 1 n15 => E11
// null, then what has ended, then another description
make a60 => 0; in 0 n15 1 => ^0+8; based n15 null => E3; based n14 null => E3; based n15 ^0+16 => E4
based n14 ^0+16 => E4; based n14 ^0+8 => E5; based two ^0+8 => E5; based n15 ^1+8 => E4; based n15 @8 => wrong
free n15 null => E3; free n14 ^0+8 => E5; free n15 ^0+24 => E4; based n15 ^0+8 => ^0+8; held #0+0:n15 => 1
// what was freed is dead, and is not freed again
make a60 => 0; in 0 n15 1 => ^0+8; based n15 ^0+8 => ^0+8; free n15 ^0+8; free n15 ^0+8 => E4; based n15 ^0+8 => E4
based n14 ^0+8 => E4; held #0+0:n15 => E4; store #0+0:n15 2 => E4; address #0 => E4
// a place keeps the whole description that was met: an equal block at its position serves it, another does not
make a60 => 0; in 0 n15 1 => ^0+8; based n15 ^0+8 => ^0+8; free n15 ^0+8; in 0 n15 7 => ^0+8; held #0+0:n15 => 7
store #0+0:n15 8; based n15 ^0+8 => ^0+8; held #1+0:n15 => 8; free n15 ^0+8; in 0 n14 3 => ^0+8; held #0+0:n15 => E5
store #0+0:n15 2 => E5; address #0 => E5; based n14 ^0+8 => ^0+8; address #2 => ^0+8
// header bytes that a block has are no block
make a60 => 0; in 0 n15 1 => ^0+8; in 0 n15 2 => ^0+24; based n15 ^0+24 => ^0+24; free n15 ^0+8; free n15 ^0+24
in 0 c9 => ^0+8; held #0+0:n15 => E4; based n15 ^0+24 => E4; based c9 ^0+8 => ^0+8; address #1 => ^0+8
// with its generation an area's blocks end
make a60 => 0; make a60 => 1; in 0 n15 1 => ^0+8; in 1 n15 2 => ^1+8; based n15 ^0+8 => ^0+8; based n15 ^1+8 => ^1+8
end 0; held #0+0:n15 => E4; based n15 ^0+8 => E4; free n15 ^0+8 => E4; held #1+0:n15 => 2; in 0 n15 1 => E4
empty 0 => E4; assign 0 1 => E4; assign 1 0 => E4; offset 0 null => E4; pointer 0 @8 => E4
// EMPTY takes all blocks
make a32 => 0; in 0 n15 1 => ^0+8; in 0 n15 2 => ^0+24; based n15 ^0+24 => ^0+24; empty 0; held #0+0:n15 => E4
based n15 ^0+8 => E4; in 0 n15 3 => ^0+8; in 0 n15 4 => ^0+24; held #0+0:n15 => 4
// an assignment takes over the blocks at the same positions, where the target has room for where they end
make a60 => 0; make a32 => 1; in 0 n15 1 => ^0+8; in 0 n15 2 => ^0+24; in 0 n15 3 => ^0+40; in 1 n15 9 => ^1+8
assign 0 1 => E11; based n15 ^1+8 => ^1+8; held #0+0:n15 => 9; free n15 ^0+40; assign 0 1; held #0+0:n15 => 1
based n15 ^1+24 => ^1+24; held #1+0:n15 => 2; free n15 ^0+8; assign 0 1; held #0+0:n15 => E4; held #1+0:n15 => 2
in 1 n15 4 => ^1+8; held #0+0:n15 => 4; store #1+0:n15 5; based n15 ^0+24 => ^0+24; held #2+0:n15 => 2
// the extent counts, not the capacity, and holes before it too
make a60 => 0; make a16 => 1; in 0 n15 1 => ^0+8; assign 0 1; in 0 n15 2 => ^0+24; free n15 ^0+8; assign 0 1 => E11
free n15 ^0+24; assign 0 1; based n15 ^1+8 => E4
// an area assigned to itself stays as it is
make a32 => 0; in 0 n15 1 => ^0+8; based n15 ^0+8 => ^0+8; assign 0 0; held #0+0:n15 => 1; in 0 n15 2 => ^0+24
// pointers as offsets: null as null, a position of the area, and no other
make a60 => 0; make a60 => 1; in 0 n15 1 => ^0+8; offset 0 ^0+8 => @8; offset 0 null => @0; pointer 0 @0 => null
pointer 0 @8 => ^0+8; pointer 1 @8 => ^1+8; offset 1 ^0+8 => E7; offset 0 ^0 => E7; offset 0 ^1+8 => E7
offset 0 ^0+32 => @32; offset 0 @8 => wrong; pointer 0 null => wrong; pointer 0 ^0+8 => wrong; free n15 ^0+8
offset 0 ^0+8 => @8
// an offset leads to the same block in both areas after an assignment
make a60 => 0; make a32 => 1; in 0 n15 7 => ^0+8; offset 0 ^0+8 => @8; assign 0 1; pointer 1 @8 => ^1+8
based n15 ^1+8 => ^1+8; held #0+0:n15 => 7
// what is no whole area is none
make n15 => 0; make a60 => 1; in 0 n15 1 => wrong; empty 0 => wrong; assign 0 1 => wrong; assign 1 0 => wrong
offset 0 null => wrong; pointer 0 @0 => wrong; based n15 ^0 => ^0+0; held #0+0:n15 => 0; store #0+0:n15 5
held #0+0:n15 => 5; address #0 => ^0+0; free n15 ^0 => E5; based a60 ^1 => ^1+0; address #1 => ^1+0; based n15 ^1 => E5
// parts of blocks
make a60 => 0; in 0 few 4 0 => ^0+8; based few ^0+8 => ^0+8; held #0+0:n15 => 4; held #0+2:n15 => 0
held #0+4:n15 => wrong; held #0+1:n15 => wrong; store #0+2:n15 9; held #0+2:n15 => 9; store #0+4:n15 1 => wrong
held #0+0:n15 => 4
// aggregates are copied out of a block, into one, and from one to another; the source is looked at whole first
make a60 => 0; make two => 1; in 0 two 4 5 => ^0+8; in 0 two 6 0 => ^0+24; based two ^0+8 => ^0+8; copy #0 1
held 1+0:n15 => 4; held 1+2:n15 => 5; based two ^0+24 => ^0+24; copy 1 #1; held #1+0:n15 => 4; held #1+2:n15 => 5
store #1+0:n15 8; copy #1 #0; held #0+0:n15 => 8; held #0+2:n15 => 5; in 0 few 1 0 => ^0+40; based few ^0+40 => ^0+40
copy #0 #2 => wrong; free two ^0+8; copy #0 1 => E4; copy 1 #0 => E4; copy #0 #2 => E4; copy #2 #0 => E4
copy 0 #0 => wrong; in 0 n15 7 => ^0+8; copy #0 1 => E5; copy #2 #0 => E5; held 1+0:n15 => 4
// a place in a block is that of no area: dead where the block is, or another variable's
make a60 => 0; in 0 n15 1 => ^0+8; based n15 ^0+8 => ^0+8; empty #0 => wrong; in #0 n15 2 => wrong; assign #0 0 => wrong
offset #0 null => wrong; free n15 ^0+8; empty #0 => E4; in #0 n15 2 => E4; assign #0 0 => E4; assign 0 #0 => E4
offset #0 null => E4; pointer #0 @8 => E4; offset #0 @8 => wrong; in 0 n14 2 => ^0+8; empty #0 => E5
in #0 n15 2 => E5; assign #0 0 => E5; assign 0 #0 => E5; offset #0 ^0+8 => E5; pointer #0 @0 => E5; end 0
empty #0 => E4";

#[test]
fn worked(rt: HostRuntime) {
    run(&rt, rt.alloc(), SEQUENCES);
}
