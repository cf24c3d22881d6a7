//! Laws of initial values: a variable has at most one for each of its scalars.
#![tactic(auto)]

mod laws;

pub use laws::initial_values_are_few;
