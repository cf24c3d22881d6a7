//! Laws of what a build from scratch gives.
#![tactic(auto)]

mod laws;

pub use laws::built_modules_are_spelled;
