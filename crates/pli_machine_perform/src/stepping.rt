//! Steps, and the statement that is being executed.
ghost use Rattle.pli_program.specs.declared.instruction.Instruction.TheVariants.{Step, Line};
ghost use Rattle.pli_machine_activations.specs.views.MachineView.{Does};

use pli_machine_activations::{Machine, Stop};

/// Begins a statement, if a step is left.
#[tactic(auto, unfolding(pli_world::specs::World::stepped, pli_world::specs::World::at_statement))]
#[inline]
pub fn step(machine: &mut Machine, statement: u32) -> Option<Stop>
    ensures { Does (Step statement) machine.old machine.new result }
{
    if machine.steps >= machine.limit {
        return Some(Stop::OutOfSteps);
    }
    machine.steps += 1;
    machine.here.statement = statement;
    machine.here.jumps = 0;
    None
}

/// Changes the statement, with no step.
#[tactic(auto, unfolding(pli_world::specs::World::at_statement))]
#[inline]
pub fn line(machine: &mut Machine, statement: u32) -> Option<Stop>
    ensures { Does (Line statement) machine.old machine.new result }
{
    machine.here.statement = statement;
    None
}
