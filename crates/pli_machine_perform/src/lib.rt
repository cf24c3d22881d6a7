//! What each instruction does to the machine.
#![tactic(auto)]

mod areas;
mod conditions;
mod generations;
mod halting;
mod inhabiting;
mod instructions;
mod jumping;
mod keeping;
mod landing;
mod operate;
mod performing;
mod places;
mod pointers;
mod pointing;
mod printing;
mod slots;
mod stepping;
mod storing;
mod strings;

pub use generations::{allocate_at_once, allocate_near, free_at_once, free_near};
pub use performing::perform;
pub use slots::global_place;
