//! Printing: items in the columns of lines; and why a run that prints gives no ending.
#![tactic(auto)]

mod fault;
mod printing;

pub use fault::RunFault;
pub use printing::{put_item, put_number};
