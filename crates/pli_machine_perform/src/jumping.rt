//! Jumps within a block.
ghost use Rattle.pli_machine_step.specs.Machine.{counted_jump, jumped, jumped_unless};
ghost use Rattle.pli_machine_perform.specs.answers.Jumps.{Jumps};

use pli_machine_activations::{Activation, Stop};
use pli_machine_operate::pop_truth;

/// How many backward jumps an activation makes at most between two steps (own).
const JUMP_LIMIT: u32 = 64;

/// A jump that counts, after so many steps of the run.
#[inline]
pub fn count_jump(here: &mut Activation, steps: u64, target: usize) -> Option<Stop>
    ensures { Jumps (counted_jump target) steps here.old here.new result }
{
    let jumps = if here.stamp == steps { here.jumps } else { 0 };
    if jumps >= JUMP_LIMIT {
        return Some(Stop::Fault);
    }
    here.jumps = jumps + 1;
    here.stamp = steps;
    here.next = target;
    None
}

/// A jump, which counts where it leads to its own instruction or to one before; the next one is known.
#[inline]
pub fn jump(here: &mut Activation, steps: u64, target: usize) -> Option<Stop>
    ensures { Jumps (jumped target) steps here.old here.new result }
{
    if target < here.next {
        return count_jump(here, steps, target);
    }
    here.next = target;
    None
}

/// A jump unless a bit of the newest operand is one.
#[inline]
pub fn jump_unless(here: &mut Activation, steps: u64, target: usize) -> Option<Stop>
    ensures { Jumps (jumped_unless target) steps here.old here.new result }
{
    let Some(condition) = pop_truth(&mut here.operands) else {
        return Some(Stop::Fault);
    };
    if condition {
        return None;
    }
    jump(here, steps, target)
}
