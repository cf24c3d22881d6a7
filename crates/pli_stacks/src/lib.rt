//! CONTROLLED variables: the stacks of their generations, and how a generation of any variable begins.
//!
//! `initial` makes generations that begin as a template says; `stack` and `stacking` are a CONTROLLED variable with its
//! generations, `stacks` all of a program. Both are layers over the storage of `pli_store`.
#![tactic(auto)]

mod initial;
mod laws;
mod stack;
mod stacking;
mod stacks;

pub use initial::{first_bytes, initial_bytes, make_initial, make_initial_of};
pub use laws::{numbers_stay_given, others_stay, storage_alone_changes, worked_examples};
pub use stacks::Stacks;
