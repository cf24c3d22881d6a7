//! Runs that storage stops.
ghost use Rattle.std.specs.Prelude.{IfOk};
ghost use Rattle.pli_machine_activations.specs.views.MachineView.{StopsAs};

use crate::machine::Stop;
use pli_store::StoreFault;
use std::alloc::AllocError;

/// Why a run stops where storage gives nothing.
#[inline]
pub fn stop_at(fault: StoreFault) -> Result<Stop, AllocError>
    ensures { IfOk result (λ stop. StopsAs fault stop) }
{
    match fault {
        StoreFault::Raised(error) => Ok(Stop::Raised(error)),
        StoreFault::NoRule => Ok(Stop::Fault),
        StoreFault::OutOfMemory => Err(AllocError),
    }
}
