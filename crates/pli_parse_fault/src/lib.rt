//! The first fault of tokens: where they stop being the beginning of what is spelled.
#![tactic(auto)]

mod laws;

pub use laws::worked_examples;
