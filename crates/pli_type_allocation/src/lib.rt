//! Types of ALLOCATE and FREE.
#![tactic(auto)]

mod allocating;
mod freeing;
mod variables;

pub use allocating::allocate;
pub use freeing::free;
