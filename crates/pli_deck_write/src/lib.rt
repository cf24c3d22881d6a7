//! Decks and modules as bytes: what spells them, the laws of that, and what writes them.
#![tactic(auto)]

mod describing;
mod laws;
mod modules;
mod putting;
mod spelled;
mod write;
mod writing;

pub use describing::LEVELS;
pub use laws::{
    decks_both_ways, descriptions_both_ways, modules_both_ways, worked_decks, worked_modules,
    worked_types,
};
pub use modules::write_module;
pub use spelled::write_spelled_module;
pub use write::write_deck;
