//! Laws of typed programs: what a well-typed program does has a meaning.
#![tactic(auto)]

mod laws;

pub use laws::{every_run_is_meant, worked_examples};
