//! The pass from a unit to what its names are and mean, or to the faults of its declarations.
#![tactic(auto)]

mod heading;
mod item_codes;
mod jumps;
mod known;
mod least;
mod lists;
mod look_up;
mod marks;
mod meanings;
mod met;
mod names_in_attributes;
mod parameters;
mod resolving;
mod scopes;
mod told;
mod unit;
mod uses;

pub use resolving::{ResolveError, resolve};
