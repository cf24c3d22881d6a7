//! Laws of typed units: what they say is within the limits of the language.
#![tactic(auto)]

mod laws;

pub use laws::typed_units_are_well_formed;
