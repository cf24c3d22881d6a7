//! Storage, activations and output: what the meaning of a program and the machine share.
#![tactic(auto)]

mod laws;

pub use laws::{operations_keep, worked_examples};
