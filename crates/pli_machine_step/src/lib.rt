//! What each instruction of the machine does, and what a run is.
#![tactic(auto)]

mod laws;

pub use laws::{every_run_ends, one_frame_each, one_outcome, runs_go_on, worked_examples};
