//! What typing answers where it gives nothing.

use pli_base::{Failure, Fault};

/// Why an expression has no type: its first fault of types in the order of evaluation, or that memory was refused.
pub type TypeError = Failure<Fault>;
