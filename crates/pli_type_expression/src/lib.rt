//! Typed expressions and references: what each expression of a resolved unit is, or its first fault of types.
#![tactic(auto)]

mod expression;
mod locator;
mod names;
mod procedure;
mod segment;
mod variable;

pub use expression::{arguments, denoted, meant, referred, value_of};
pub use locator::{LocatorVariable, locator_at};
pub use procedure::pass;
