//! What each block of a unit declares: how its table is made.
#![tactic(auto)]

mod entries;
mod entry;
mod laws;
mod table;

pub use entry::{Entity, Entry};
pub use laws::owners_stand_before;
pub use table::{Table, Tables};
