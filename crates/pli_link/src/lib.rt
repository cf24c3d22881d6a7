//! The linker: the module of units, whose decks are lent, or the faults of linking.
#![tactic(auto)]

mod alike;
mod classes;
mod global_fault;
mod laws;
mod linked;
mod linking;
mod links;
mod mismatches;
mod names;
mod order;
mod sizes;
mod units;

pub use laws::{links_are_found, names_are_sorted, worked_examples};
pub use linked::Linked;
pub use linking::{LinkError, LinkFault, link};
pub use units::{LinkedName, NamedUnit};
