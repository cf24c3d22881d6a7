//! The regions of a unit: which block each stands in, and which labels a GOTO reaches.
#![tactic(auto)]

mod kind;
mod nesting;

pub use nesting::Nesting;
