//! The pass from a tree to the resolved unit: which regions are blocks, and what is found by tokens.
#![tactic(auto)]

mod block_numbers;
mod look_ups;
mod resolving;
mod tables;
mod ways;

pub use resolving::resolve_unit;
