//! The generator: the code of a typed unit, with its tables.
#![tactic(auto)]

mod entries;
mod examples;
mod generating;
mod globals;
mod gotos;
mod laws;
mod limits;
mod numbers;
mod unit;

pub use examples::worked_examples;
pub use generating::{GenerateError, generate};
pub use laws::{code_is_looked_up, numbers_are_found};
