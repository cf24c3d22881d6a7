//! The resolved unit, as the later passes see it: its blocks, the symbols of its names, and what each name means.
#![tactic(auto)]

mod laws;
mod tables;
mod unit;
mod unit_tables;
mod ways;

pub use laws::{
    blocks_are_of_the_tree, jumps_mean_labels, locators_and_areas_are_named, members_are_parts,
    uses_have_meanings,
};
pub use tables::BlockTable;
pub use unit::{ResolvedBlock, ResolvedUnit};
pub use unit_tables::{Callables, RegionNumbers, StatementMaps, UnitMaps, UnitTables};
pub use ways::Way;
