//! What is looked for in a deck or a module once its bytes are read.
#![tactic(auto)]

mod extent;
mod faults;
mod limits;
mod links;
mod places;
mod standing;

pub use faults::{deck_fault, module_fault};
pub use links::is_external;
