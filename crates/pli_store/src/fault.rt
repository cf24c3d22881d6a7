//! Why an operation on storage gives nothing.
ghost use Rattle.std.specs.Prelude.{◌≡◌};
ghost use Rattle.pli_store.specs.declared.fault.StoreFault.TheVariants.{OutOfMemory};

use pli_run::RunError;
use std::alloc::AllocError;

/// Why an operation on storage gives nothing.
#[derive(Clone, Copy)]
pub enum StoreFault {
    /// An error of the run.
    Raised(RunError),
    /// What no well-typed program asks for: no rule gives an answer.
    NoRule,
    /// Memory was refused.
    OutOfMemory,
}

impl From<AllocError> for StoreFault {
    ghost from_gives = { λ _ fault. fault ≡ OutOfMemory };

    fn from(_error: AllocError) -> StoreFault {
        StoreFault::OutOfMemory
    }
}
