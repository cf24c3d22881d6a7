//! Calls of other units.
ghost use Rattle.std.specs.Prelude.{slice_get, IfOk};
ghost use Rattle.pli_machine_step.specs.Machine.{called_entry, called_unit};
ghost use Rattle.pli_code.specs.Modules.{unit_of, program_of};
ghost use Rattle.pli_code.specs.views.CodeView.{module_view, member_view};
ghost use Rattle.pli_machine_activations.specs.views.Image.{Image};
ghost use Rattle.pli_machine_activations.specs.views.ImageView.{image_of};
ghost use Rattle.pli_machine_activations.specs.views.MachineView.{Moves};

use crate::calling::call_external;
use crate::globals::entry_at;
use crate::loaded::Loaded;
use crate::machine::{Machine, Stop};
use crate::numbered::{laid_at, linked_at};
use crate::ready::ReadyCode;
use crate::unit::ActiveUnit;
use std::alloc::{AllocError, Global};

/// Takes so many places and activates the external procedure of the unit of a number with them.
fn call_unit<'m>(
    alloc: Global,
    loaded: &Loaded<'m>,
    machine: &mut Machine<'m>,
    number: u16,
    arguments: u8,
) -> Result<Option<Stop>, AllocError>
    ensures { IfOk result (λ stop. (image : Image) → Moves image
        (called_unit number (slice_get (program_of (module_view loaded.now.«module».now)).units number) arguments)
        machine.old machine.new stop) }
{
    match linked_at(loaded.module, number as usize) {
        Some(linked) => {
            let ready = ReadyCode {
                code: &linked.deck.code,
                laid: laid_at(loaded, number as usize),
            };
            call_external(alloc, &ready, machine, number as usize, arguments)
        }
        None => Ok(Some(Stop::Fault)),
    }
}

/// Takes so many places and activates the procedure of an entry among the globals of a unit with them.
pub fn call_entry<'m>(
    alloc: Global,
    unit: &ActiveUnit<'_, 'm>,
    machine: &mut Machine<'m>,
    global: usize,
    arguments: u8,
) -> Result<Option<Stop>, AllocError>
    ensures { IfOk result (Moves (image_of unit.now.loaded.now)
        (called_entry (program_of (image_of unit.now.loaded.now).linked).units arguments
        (slice_get (unit_of (member_view unit.now.linked.now)).globals global)) machine.old machine.new) }
{
    match entry_at(unit, global) {
        Some(number) => call_unit(alloc, unit.loaded, machine, number, arguments),
        None => Ok(Some(Stop::Fault)),
    }
}
