//! ON, REVERT and SIGNAL.
ghost use Rattle.std.specs.Prelude.{◌≡◌, IfOk};
ghost use Rattle.pli_program.specs.declared.instruction.Instruction.TheVariants as op;
ghost use Rattle.pli_code.specs.views.CodeView.{member_view};
ghost use Rattle.pli_program.specs.declared.instruction.Instruction.TheVariants.{Revert, Signal};
ghost use Rattle.pli_machine_activations.specs.views.ImageView.{image_of};
ghost use Rattle.pli_machine_activations.specs.views.MachineView.{Does, Performs};
ghost use Rattle.pli_machine_perform.specs.views.HaltView.{DoesIn};

use pli_base::statement::Condition;
use pli_machine_activations::{ActiveUnit, Machine, Stop, raise};
use std::alloc::{AllocError, Global};

/// The newest activation has the ON-unit of a block for a condition from then on.
pub fn establish<'m>(
    unit: &ActiveUnit<'_, 'm>,
    machine: &mut Machine<'m>,
    condition: Condition,
    block: u16,
) -> Option<Stop>
    ensures { Performs (image_of unit.now.loaded.now) (member_view unit.now.linked.now)
        (op.On condition block) machine.old machine.new result }
{
    pli_machine_activations::establish(unit, machine, condition, block)
}

/// The newest activation has none for a condition from then on.
pub fn revert(machine: &mut Machine, condition: Condition) -> Option<Stop>
    ensures { Does (Revert condition) machine.old machine.new result }
{
    pli_machine_activations::revert(machine, condition)
}

/// Raises a condition.
pub fn signal<'m>(
    alloc: Global,
    unit: &ActiveUnit<'_, 'm>,
    machine: &mut Machine<'m>,
    condition: Condition,
) -> Result<Option<Stop>, AllocError>
    ensures { IfOk result (DoesIn (image_of unit.now.loaded.now) (Signal condition) machine.old machine.new) }
{
    raise(alloc, unit.loaded, machine, condition, false)
}
