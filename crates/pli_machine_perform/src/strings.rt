//! Instructions on arrays and strings whose extents are those of the argument.
ghost use Rattle.std.specs.Prelude.{IfOk};
ghost use Rattle.pli_program.specs.declared.instruction.Instruction.TheVariants.{BoundOf, FitToPlace};
ghost use Rattle.pli_program.specs.declared.instruction.Instruction.TheVariants.{SubscriptIn};
ghost use Rattle.pli_machine_activations.specs.views.ImageView.{image_of};
ghost use Rattle.pli_machine_activations.specs.views.MachineView.{Does};
ghost use Rattle.pli_machine_perform.specs.views.HaltView.{DoesIn};

use crate::halting::settle;
use crate::operate::operate_fit_to_place;
use crate::places;
use pli_machine_activations::{ActiveUnit, Machine, Stop, use_up};
use pli_machine_operate::{pop_number, take_place};
use pli_map::WhichBound;
use std::alloc::{AllocError, Global};

/// Leads the newest place on by a subscript of a dimension of the array that it is, which is no use of the place.
pub fn subscript_in(machine: &mut Machine, dimension: u8) -> Result<Option<Stop>, AllocError>
    ensures { IfOk result (Does (SubscriptIn dimension) machine.old machine.new) }
{
    let Some(number) = pop_number(&mut machine.here.operands) else {
        return Ok(Some(Stop::Fault));
    };
    let Some(taken) = take_place(&mut machine.here.operands) else {
        return Ok(Some(Stop::Fault));
    };
    let stop = places::subscript_by(&mut machine.here.operands, taken.place(), dimension, number)?;
    use_up(machine, taken);
    Ok(stop)
}

/// A bound of a dimension of the array that the newest place is, which is no use of the place.
pub fn bound_of(
    machine: &mut Machine,
    which: WhichBound,
    dimension: u8,
) -> Result<Option<Stop>, AllocError>
    ensures { IfOk result (Does (BoundOf which dimension) machine.old machine.new) }
{
    let Some(taken) = take_place(&mut machine.here.operands) else {
        return Ok(Some(Stop::Fault));
    };
    let stop = places::bound(&mut machine.here.operands, taken.place(), which, dimension)?;
    use_up(machine, taken);
    Ok(stop)
}

/// Fits the newest string to the place of a string below it, which stays.
pub fn fit_to_place<'m>(
    alloc: Global,
    unit: &ActiveUnit<'_, 'm>,
    machine: &mut Machine<'m>,
) -> Result<Option<Stop>, AllocError>
    ensures { IfOk result (DoesIn (image_of unit.now.loaded.now) FitToPlace machine.old machine.new) }
{
    let halt = operate_fit_to_place(alloc, &mut machine.here.operands)?;
    settle(alloc, unit.loaded, machine, halt)
}
