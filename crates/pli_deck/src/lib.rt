//! The compiler: what the tokens of a unit are compiled to, its deck or its faults; and decks as bytes.
#![tactic(auto)]

mod compiled;
mod compiler;
mod passes;
mod spelled;

pub use compiled::Compiled;
pub use compiler::Compiler;
pub use pli_deck_read::read_deck;
pub use pli_deck_write::write_deck;
