//! The operations of expressions, and what they come to.
#![tactic(auto)]

mod operation;

pub use operation::{Operation, Relation};
