//! Instructions that may raise a condition: why they do not go on, and what comes of that.
ghost use Rattle.std.specs.Prelude.{◌≡◌, IfOk};
ghost use Rattle.pli_machine_activations.specs.views.ImageView.{image_of};
ghost use Rattle.pli_machine_perform.specs.views.HaltView.{HaltsAs, Settles, as_it_is, to_do_again};

use pli_base::statement::Condition;
use pli_machine_activations::{Loaded, Machine, Stop, condition_of, raise};
use pli_run::RunError;
use pli_store::StoreFault;
use std::alloc::{AllocError, Global};

/// Why an instruction does not go on: the run stops, or a condition is raised, for which the activation is ready to
/// wait.
#[derive(Clone, Copy)]
pub enum Halt {
    Stops(Stop),
    Raises(Condition),
}

/// Why an instruction does not go on that an error ends: an ON-unit may take it, or it stops the run.
fn halt_by(error: RunError) -> Halt
    ensures { HaltsAs (StoreFault.Raised error) result }
{
    match condition_of(error) {
        Some(condition) => Halt::Raises(condition),
        None => Halt::Stops(Stop::Raised(error)),
    }
}

/// Why an instruction does not go on where storage gives nothing.
pub fn halt_at(fault: StoreFault) -> Result<Halt, AllocError>
    ensures { IfOk result (λ halt. HaltsAs fault halt) }
{
    match fault {
        StoreFault::Raised(error) => Ok(halt_by(error)),
        StoreFault::NoRule => Ok(Halt::Stops(Stop::Fault)),
        StoreFault::OutOfMemory => Err(AllocError),
    }
}

/// What comes of an instruction: the newest activation goes on, the run stops, or a condition is raised, while the
/// activation waits as it is.
#[inline]
pub fn settle<'m>(
    alloc: Global,
    loaded: &Loaded<'m>,
    machine: &mut Machine<'m>,
    halt: Option<Halt>,
) -> Result<Option<Stop>, AllocError>
    ensures { IfOk result (Settles (image_of loaded.now) as_it_is halt machine.old machine.new) }
{
    let Some(halt) = halt else {
        return Ok(None);
    };
    match halt {
        Halt::Stops(stop) => Ok(Some(stop)),
        Halt::Raises(condition) => raise(alloc, loaded, machine, condition, false),
    }
}

/// The same, where the activation executes an instruction again after an ON-unit.
pub fn settle_again<'m>(
    alloc: Global,
    loaded: &Loaded<'m>,
    machine: &mut Machine<'m>,
    halt: Option<Halt>,
    instruction: usize,
) -> Result<Option<Stop>, AllocError>
    ensures { IfOk result (Settles (image_of loaded.now) (to_do_again instruction) halt machine.old machine.new) }
{
    let Some(halt) = halt else {
        return Ok(None);
    };
    match halt {
        Halt::Stops(stop) => Ok(Some(stop)),
        Halt::Raises(condition) => {
            machine.here.next = instruction;
            raise(alloc, loaded, machine, condition, true)
        }
    }
}
