//! The items of a block as variables: where each stands, its least fault, its size, and what it is declared as.
#![tactic(auto)]

mod codes;
mod declared;
mod descriptions;
mod items;
mod judged;
mod laws;
mod locators;
mod places;
mod returned;
mod sizes;

pub use declared::declare;
pub use judged::{Judged, judge};
pub use laws::descriptions_are_of_members;
pub use returned::options_of;
