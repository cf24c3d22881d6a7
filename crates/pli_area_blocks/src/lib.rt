//! The blocks of an area, with what they hold: each has a whole description, whose scalars lie in its bytes.
#![tactic(auto)]

mod area_blocks;
mod descriptions;
mod placing;

pub use area_blocks::AreaBlocks;
