//! What typed units mean.
#![tactic(auto)]

mod laws;

pub use laws::worked_examples;
