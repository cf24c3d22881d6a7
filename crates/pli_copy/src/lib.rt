//! Copies of trees: of expressions, declarations, statements and units.
#![tactic(auto)]

mod copied;
mod declaration;
mod expression;
mod statement;

pub use copied::Copied;
