//! Parts of statements: lists with their labels, where a statement stands, and statements put together.
#![tactic(auto)]

mod answer;
mod forms;
mod labels;
mod surroundings;

pub use answer::noted;
pub use forms::{begin_form, boxed, if_form, keep, numbered, otherwise};
pub use labels::{ListLabels, labels_of, leaves_nothing, outward_to};
pub use surroundings::{Surroundings, innermost};
