//! Failures: what is wrong, or that memory was refused.
ghost use Rattle.std.specs.Prelude.{◌≡◌};
ghost use Rattle.pli_base.specs.declared.failure.Failure.TheVariants.{OutOfMemory};

use std::alloc::{AllocError, AllocFailed};

/// Why there is no result: what is wrong, a fault or all faults, or that memory was refused.
#[derive(Clone, Copy, Debug, PartialEq, Eq, Drop)]
pub enum Failure<F> {
    /// What is wrong.
    Fault(F),
    /// Memory ran out.
    OutOfMemory,
}

impl<F> From<AllocError> for Failure<F> {
    ghost from_gives = { λ _ e. e ≡ OutOfMemory };

    fn from(_error: AllocError) -> Failure<F> {
        Failure::OutOfMemory
    }
}

impl<F, T: Drop> From<AllocFailed<T>> for Failure<F> {
    ghost from_gives = { λ _ e. e ≡ OutOfMemory };

    fn from(_error: AllocFailed<T>) -> Failure<F> {
        Failure::OutOfMemory
    }
}
