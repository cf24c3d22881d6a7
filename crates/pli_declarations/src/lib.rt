//! What the declarations of a unit say and what its names mean, by one walk over its statements, and the laws that this
//! is what the passes find.
#![tactic(auto)]

mod laws;

pub use laws::declarations_are_found;
