//! Items in the order of a key: what a stable sort gives, by putting them in one after another.
#![tactic(auto)]

mod laws;

pub use laws::numbers_are_sorted;
