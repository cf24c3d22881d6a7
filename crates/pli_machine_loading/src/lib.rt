//! Modules made ready to be run: the static variables.
#![tactic(auto)]

mod asking;
mod laying;
mod linking;
mod loading;
mod shared;
mod standing;

pub use asking::strings_for;
pub use loading::{Loading, load};
