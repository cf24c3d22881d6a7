//! Expressions and references: which tokens spell which tree, the laws that make spelling and reading one, and the
//! parser of references, expressions and of the test for an assignment.
#![tactic(auto)]

mod assignment;
mod counted;
mod expression;
mod laws;

pub use assignment::is_assignment;
pub use counted::Counted;
pub use expression::{outermost_arguments_at, outermost_expression_at, reference_at};
pub use laws::{
    assignments_are_recognized, expressions_read_are_spelled, expressions_spelled_are_read,
    faults_stand_at_tokens, first_faults, longest_expressions, longest_references, one_expression,
    one_reference, references_read_are_spelled, references_spelled_are_read, tokens_of_trees_rise,
    worked_examples,
};
