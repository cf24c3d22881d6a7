//! The outline of a unit: its regions, what is declared and used in each, and its statements, in the order of the text.
#![tactic(auto)]

mod expressions;
mod laws;
mod region;
mod statement_places;
mod statements;
mod used_names;
mod walk;

pub use laws::worked_examples;
pub use region::{Mark, Outline, PlacedMark, Region, RegionKind};
pub use statement_places::StatementPlace;
pub use used_names::UsedNames;
pub use walk::outline;
