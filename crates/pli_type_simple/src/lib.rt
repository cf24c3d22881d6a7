//! Statements without statements in them: assignments, CALL, GOTO, RETURN and PUT.
#![tactic(auto)]

mod assignments;
mod calls;
mod items;
mod jumps;

pub use assignments::assignment;
pub use calls::call;
pub use items::put;
pub use jumps::{jump, returned};
