//! Areas: storage of a fixed capacity in which blocks are placed and taken away.
#![tactic(auto)]

mod area;
mod header;
mod laws;
mod marks;

pub use area::{Area, Block, Full, NotLive};
pub use laws::{first_hole_is_least, worked_examples};
