//! Laws of the decks of typed units.
#![tactic(auto)]

mod laws;
mod typed;

pub use laws::{numbers_fit, scalars_are_found, units_are_said, worked_unit};
pub use typed::units_are_typed;
