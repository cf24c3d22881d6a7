//! How a run ends, and how items are printed.
#![tactic(auto)]

mod ending;
mod examples;

pub use ending::{Ending, Ran, RunError};
pub use examples::worked_examples;
