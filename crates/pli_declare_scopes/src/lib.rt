//! Which item a reference means: levels and members, blocks and qualification.
#![tactic(auto)]

mod block;
mod found;
mod laws;
mod leap;
mod level;
mod path;
mod reach;
mod remembered;
mod repeat;
mod room;
mod scope;

pub use block::{BlockItems, Declared};
pub use found::{Found, ReferenceMeaning};
pub use laws::{
    bad_levels_are_found, chains_are_names, examples_of_levels, examples_of_references,
    examples_of_repeats, later_is_fault, levels_fall, meant_is_means, owners_are_nearest,
};
pub use level::{ItemStanding, Numbered, standings};
pub use repeat::{Verdict, Written};
pub use scope::Scope;
