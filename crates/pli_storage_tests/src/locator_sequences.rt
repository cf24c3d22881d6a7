//! Worked sequences of calls on storage by locators.

use crate::calls::{Answer, Call};
use crate::pairs::Pair;
use crate::shapes::{all_shapes, shape_number, twins_of};
use crate::words::run;
use pli_run::RunError;
use std::test::*;

/// `make n15 => 0` makes generation 0 for a variable of an activation, `static` one before the program begins,
/// `dummy` one for an argument. `allocate n15 => ^0+0` is ALLOCATE of a BASED variable and gives a pointer. `based
/// n15 ^0 => ^0+0` finds what a reference leads to, `free n15 ^0` is FREE, `address 0:n15 => ^0+0` ADDR. `stack` adds
/// a stack, `push 0` is ALLOCATE of a CONTROLLED variable, `newest 0` finds the generation of a reference, `count
/// 0` is ALLOCATION, `pop 0` FREE. `end` ends a generation as an activation's end does.
static SEQUENCES: &str = "\
// what is allocated is found by its pointer
allocate n15 => ^0+0; allocate two => ^1+0; based n15 ^0 => ^0+0; based two ^1 => ^1+0; held 0+0:n15 => 0
store 0+0:n15 7; held 0+0:n15 => 7; store 1+0:n15 8; held 1+0:n15 => 8; held 0+0:n15 => 7; allocate c1 => ^2+0
based c1 ^2 => ^2+0; held 2+0:n15 => wrong; allocate p => ^3+0
// freed and allocated again: another number, and the old pointer stays dead
allocate n15 => ^0+0; store 0+0:n15 5; free n15 ^0; held 0+0:n15 => E4; based n15 ^0 => E4; allocate n15 => ^1+0
held 1+0:n15 => 0; based n15 ^0 => E4; based n15 ^1 => ^1+0; free n15 ^1; allocate n15 => ^2+0; based n15 ^1 => E4
based n15 ^2 => ^2+0
// what was freed is not freed again
allocate n15 => ^0+0; allocate n15 => ^1+0; free n15 ^0; free n15 ^0 => E4; based n15 ^1 => ^1+0; free n15 ^1
free n15 ^1 => E4; free n15 ^0 => E4
// null leads nowhere, whatever is asked for
based n15 null => E3; free n15 null => E3; allocate n15 => ^0+0; based n15 null => E3; free hall null => E3
based p null => E3; held 0+0:n15 => 0
// a number that was never given out is dead
based n15 ^0 => E4; free n15 ^0 => E4; based n15 ^4294967294 => E4; allocate n15 => ^0+0; based n15 ^1 => E4
free n15 ^4294967295 => E4; based n15 ^0 => ^0+0
// one whole description is asked for: not one of the same size, not a part, not a whole of which it is one
allocate n15 => ^0+0; based n14 ^0 => E5; based one ^0 => E5; based n31 ^0 => E5; allocate two => ^1+0
based few ^1 => E5; based n31 ^1 => E5; based n15 ^1 => E5; based o ^1 => E5; based two ^1 => ^1+0; allocate few => ^2+0
based late ^2 => E5; based two ^2 => E5; based n15 ^2 => E5; based few ^2 => ^2+0; allocate one => ^3+0
based n15 ^3 => E5; based one ^3 => ^3+0; free n14 ^0 => E5; free one ^0 => E5; free late ^2 => E5; based n15 ^0 => ^0+0
based few ^2 => ^2+0
// what has ended is dead before its description is asked for
allocate n15 => ^0+0; free n14 ^0 => E5; free n15 ^0; free n14 ^0 => E4; based two ^0 => E4
// a position above 0 is inside an area: nothing lives there
allocate n15 => ^0+0; based n15 ^0+8 => E4; based n15 ^0+1 => E4; free n15 ^0+8 => E4; based two ^0+16 => E4
based n15 ^0 => ^0+0; based n15 ^1+8 => E4
// an offset leads nowhere without its area
based n15 @0 => wrong; based n15 @8 => wrong; free n15 @0 => wrong; free n15 @8 => wrong; allocate o => ^0+0
based o @8 => wrong; based o ^0 => ^0+0
// ADDR gives a pointer to the whole of a variable, by which a BASED variable of its description is found
make two => 0; static n15 => 1; dummy n31 0 => 2; address 0:two => ^0+0; address 1:n15 => ^1+0; address 2:n31 => ^2+0
based two ^0 => ^0+0; store 0+0:n15 4; held 0+0:n15 => 4; based n15 ^1 => ^1+0; based n31 ^2 => ^2+0; based n14 ^1 => E5
// ADDR of a BASED variable gives its pointer
allocate n15 => ^0+0; allocate n15 => ^1+0; address 1:n15 => ^1+0; address 0:n15 => ^0+0; free n15 ^0
address 0:n15 => E4; address 1:n15 => ^1+0
// of a part there is no ADDR; what has ended is dead, also for a part
make two => 0; address 0+0:n15 => wrong; address 0+2:n15 => wrong; address 0+4:two => wrong; address 0:few => wrong
make one => 1; address 1:n15 => wrong; address 1:one => ^1+0; end 1; address 1:n15 => E4; address 1:one => E4
address 1+2:one => E4; make few => 2; address 2:late => wrong; address 2:few => ^2+0
// what ADDR gave is not freed, with an equal description neither
make n15 => 0; static n15 => 1; dummy n15 0 => 2; stack n15 => 0; push 0; address 0:n15 => ^0+0; free n15 ^0 => E5
free n15 ^1 => E5; free n15 ^2 => E5; address 3:n15 => ^3+0; free n15 ^3 => E5; free n14 ^0 => E5; held 0+0:n15 => 0
held 1+0:n15 => 0; held 2+0:n15 => 0; held 3+0:n15 => 0; newest 0 => 3; count 0 => 1; allocate n15 => ^4+0
address 4:n15 => ^4+0; free n15 ^4; free n15 ^4 => E4
// what ADDR gave is dead when its variable ends
make n15 => 0; address 0:n15 => ^0+0; end 0; based n15 ^0 => E4; free n15 ^0 => E4; make n15 => 1; based n15 ^0 => E4
based n15 ^1 => ^1+0
// a CONTROLLED variable means its newest generation, and FREE ends that one
stack n31 => 0; newest 0 => E6; count 0 => 0; pop 0 => E6; push 0; newest 0 => 0; store 0+0:n31 1; push 0
newest 0 => 1; store 1+0:n31 2; count 0 => 2; held 0+0:n31 => 1; pop 0; held 1+0:n31 => E4; held 0+0:n31 => 1
newest 0 => 0; count 0 => 1; push 0; newest 0 => 2; held 2+0:n31 => 0; pop 0; pop 0; held 0+0:n31 => E4
held 2+0:n31 => E4; newest 0 => E6; count 0 => 0; pop 0 => E6
// a CONTROLLED variable may be an aggregate
stack two => 0; push 0; push 0; count 0 => 2; newest 0 => 1; address 1:two => ^1+0; based two ^1 => ^1+0
store 1+0:n15 3; held 1+0:n15 => 3; held 0+0:n15 => 0; pop 0; based two ^1 => E4; held 0+0:n15 => 0; newest 0 => 0
// stacks are apart
stack n15 => 0; stack n15 => 1; push 0; push 1; push 0; newest 0 => 2; newest 1 => 1; count 0 => 2; count 1 => 1
pop 1; newest 1 => E6; newest 0 => 2; pop 0; newest 0 => 0; stack n15 => 2; count 2 => 0; pop 2 => E6; push 2
newest 2 => 3; newest 0 => 0
// a stack that is not there is wrong to ask for, before all else
newest 0 => wrong; count 0 => wrong; pop 0 => wrong; push 0 => wrong; stack n15 => 0; newest 1 => wrong
push 1 => wrong; count 1 => wrong; pop 1 => wrong; push 0; newest 0 => 0
// a place that was found before keeps its generation
stack n15 => 0; push 0; store 0+0:n15 3; push 0; held 0+0:n15 => 3; store 1+0:n15 4; pop 0; held 1+0:n15 => E4
store 1+0:n15 5 => E4; held 0+0:n15 => 3
// nothing to begin with is wrong, and changes nothing
allocate n15 'ABC' => wrong; allocate n15 => ^0+0; allocate two 'ABC' => wrong; allocate two => ^1+0
// 16,777,216 bytes may live, and no byte more; where there is no room, nothing changes
stack hall => 0; stack c32767 => 1; stack c1 => 2; allocate hall => ^0+0; push 0; allocate hall => ^2+0; push 0
allocate hall => ^4+0; push 0; allocate hall => ^6+0; push 0; allocate hall => ^8+0; push 0; allocate hall => ^10+0
push 0; allocate hall => ^12+0; push 0; allocate hall => ^14+0; push 0; allocate hall => ^16+0; push 0 => E12
count 0 => 8; newest 0 => 15; allocate hall => E12; push 1; allocate c32767 => ^18+0; push 1 => E12
allocate c512 => ^19+0; allocate c1 => E12; push 2 => E12; allocate c1 'ABC' => E12; make c1 => E12; count 1 => 1
newest 1 => 17; free c1 ^19 => E5; allocate c1 => E12; free c512 ^19; push 2; newest 2 => 20; count 2 => 1; pop 2
allocate c512 => ^21+0; push 2 => E12; pop 1; newest 1 => E6; allocate c32767 => ^22+0; push 2 => E12; free hall ^0
push 0; newest 0 => 23; free hall ^0 => E4; free hall ^23 => E5";

#[test]
fn worked(rt: HostRuntime) {
    run(&rt, rt.alloc(), SEQUENCES);
}

/// ALLOCATION is a number of FIXED BINARY(15): 32,767 generations are told, and not one more.
#[test]
fn many_on_one_stack(rt: HostRuntime) {
    let alloc = rt.alloc();
    let shapes = all_shapes(&rt, alloc);
    let twins = twins_of(&rt, alloc, &shapes);
    let mut pair = Pair::new(alloc, &shapes, &twins);
    let push = Call::Push(0);
    pair.answer(&rt, alloc, Call::Stack(shape_number(&rt, &shapes, "c1")));
    for _ in 0..32_767 {
        pair.answer(&rt, alloc, push);
    }
    assert!(&rt; pair.answer(&rt, alloc, Call::Count(0)) == Answer::number(32_767));
    pair.answer(&rt, alloc, push);
    let raised = Answer::Raised(RunError::FixedOverflow);
    assert!(&rt; pair.answer(&rt, alloc, Call::Count(0)) == raised);
    assert!(&rt; pair.answer(&rt, alloc, Call::Newest(0)) == Answer::number(32_767));
    pair.answer(&rt, alloc, Call::Pop(0));
    assert!(&rt; pair.answer(&rt, alloc, Call::Count(0)) == Answer::number(32_767));
}
