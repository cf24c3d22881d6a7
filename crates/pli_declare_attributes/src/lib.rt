//! What the attributes of one declared name say, apart from other names: whether they agree, what they are completed
//! to, and their least fault.
#![tactic(auto)]

mod agreement;
mod complete;
mod described;
mod extents;
mod facts;
mod faults;
mod initials;
mod laws;
mod layout;
mod named;
mod parts;
mod set;
mod summary;
mod types;

pub use complete::{completed_item, completed_result};
pub use described::{array_description, scalar_description};
pub use facts::ItemFacts;
pub use faults::{item_fault, lesser, result_fault};
pub use initials::elements_within;
pub use laws::{sets_are_of_what_stands, types_are_within_limits, worked_examples};
pub use layout::{array_layout, scalar_layout};
pub use named::Named;
