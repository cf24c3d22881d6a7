//! GOTO.
ghost use Rattle.std.specs.Prelude.{[], ◌∷◌};
ghost use Rattle.pli_machine_activations.specs.views.Image.{Image};
ghost use Rattle.pli_world.specs.World.{cleared};
ghost use Rattle.pli_machine_step.specs.Machine.{counted_jump, lands};
ghost use Rattle.pli_program.specs.declared.instruction.Instruction.TheVariants.{Goto};
ghost use Rattle.pli_machine_activations.specs.views.MachineView.{Does, Moves};

use crate::jumping::count_jump;
use pli_machine_activations::{Machine, Stop, leave, outer_place};

/// Gives up the calls that the newest activation prepares, clears its operands and jumps there.
fn arrive(machine: &mut Machine, target: usize) -> Option<Stop>
    ensures { (image : Image) →
        Moves image (λ here frames w. counted_jump target [] here frames (cleared w)) machine.old machine.new result }
{
    let room = &mut *machine.here.room;
    machine.storage.end(&room.pending);
    room.pending.clear();
    machine.here.operands.clear();
    count_jump(&mut machine.here, machine.steps, target)
}

/// Ends the activations inside the one of a height, and jumps there.
fn land(machine: &mut Machine, height: usize, target: usize) -> Option<Stop>
    ensures { (image : Image) →
        Moves image (λ here frames w. lands height target (here ∷ frames) w) machine.old machine.new result }
{
    while machine.waiting.len() + 1 != height {
        if !leave(machine) {
            return Some(Stop::Fault);
        }
    }
    arrive(machine, target)
}

/// Ends the activations inside the one so many static links outward, and jumps there.
pub fn go_to(machine: &mut Machine, outward: u8, target: usize) -> Option<Stop>
    ensures { Does (Goto outward target) machine.old machine.new result }
{
    if outward == 0 {
        let height = machine.waiting.len() + 1;
        return land(machine, height, target);
    }
    match outer_place(machine, outward - 1) {
        Some(place) => land(machine, place + 1, target),
        None => Some(Stop::Fault),
    }
}
