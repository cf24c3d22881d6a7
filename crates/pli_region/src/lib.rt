//! Regions: bytes of memory, read and written as parts and as words.
#![tactic(auto)]

mod memory;
mod region;

// Contracts see a region by its fields.
#[doc(hidden)]
pub use memory::{Lease, Memory};
pub use region::Region;
