//! Laws of units whose declarations have no faults: what their symbols say is within the limits of the language.
#![tactic(auto)]

mod laws;

pub use laws::{parameters_are_few, statements_are_few, symbols_are_limited};
