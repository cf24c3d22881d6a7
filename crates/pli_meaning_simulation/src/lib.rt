//! The machine's run of a program's code gives what its typed units mean.
#![tactic(auto)]

mod laws;

pub use laws::{goes_on, simulates};
