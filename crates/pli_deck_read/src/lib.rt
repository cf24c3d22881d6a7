//! Decks and modules from bytes.
#![tactic(auto)]

mod constants;
mod described;
mod error;
mod module;
mod modules;
mod read;
mod reading;
mod structures;
mod tables;
mod whole;

pub use error::ReadError;
pub use module::read_module;
pub use read::read_deck;
