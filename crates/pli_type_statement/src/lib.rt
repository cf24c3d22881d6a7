//! Types of statements and units: the typed tree of a resolved unit, or its faults of types.
#![tactic(auto)]

mod checking;
mod simple;
mod statement;

pub use checking::{CheckError, check};
