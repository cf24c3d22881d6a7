//! Storage by locators: BASED variables, pointers of ADDR, and pointers as offsets.
//!
//! `locating` finds, makes and ends what pointers lead to; `offsets` is what they are as offsets of an area. Both are
//! layers over the storage of `pli_store`.
#![tactic(auto)]

mod laws;
mod locating;
mod offsets;

pub use laws::{
    areas_alone_change, blocks_stand_apart, ends_are_final, numbers_stay_given, other_blocks_stay,
    others_stay, storage_alone_changes, worked_areas, worked_examples,
};
pub use locating::{address, allocate_based, allocate_based_of, allocate_in, based, free_based};
pub use offsets::{offset_in, pointer_in};
