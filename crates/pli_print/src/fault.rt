//! Why a run gives no ending.
ghost use Rattle.std.specs.Prelude.{◌≡◌};
ghost use Rattle.pli_print.specs.declared.fault.RunFault.TheVariants.{OutOfMemory, WriteFailed};

use pli_base::Failed;
use std::alloc::AllocError;
use thiserror::Error;

/// Why a run gives no ending.
#[derive(Clone, Copy, Debug, PartialEq, Eq, Error)]
pub enum RunFault {
    /// Memory was refused.
    #[error("out of memory")]
    OutOfMemory,
    /// The sink failed.
    #[error("a write failed")]
    WriteFailed,
}

impl From<AllocError> for RunFault {
    ghost from_gives = { λ _ fault. fault ≡ OutOfMemory };

    fn from(_error: AllocError) -> RunFault {
        RunFault::OutOfMemory
    }
}

impl From<Failed> for RunFault {
    ghost from_gives = { λ _ fault. fault ≡ WriteFailed };

    fn from(_error: Failed) -> RunFault {
        RunFault::WriteFailed
    }
}
