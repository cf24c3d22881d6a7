//! Holes of a region, kept as a chain inside it.
#![tactic(auto)]

mod chain;
mod hole;
mod walk;
mod write;

pub use chain::{Chain, Taken};
pub use hole::Hole;
