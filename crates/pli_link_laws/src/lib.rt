//! Laws of the modules that linking gives.
#![tactic(auto)]

mod laws;

pub use laws::{linked_modules_are_spelled, linking_keeps_decks};
