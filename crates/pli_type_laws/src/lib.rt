//! Laws of types: what names of typed units mean, that what the rules give is well typed and numbered well, which
//! faults it has; and worked examples of the rules.
#![tactic(auto)]

mod laws;
mod names;
mod rules;

pub use laws::{
    checked_is_typed, constants_are_as_written, converted_is_held, printed_is_string,
    typed_units_are_numbered, typed_units_are_typed,
};
pub use names::{
    blocks_are_of_tree, names_mean_variables, statements_are_numbered, statements_nest,
};
pub use rules::{
    allocation_examples, area_examples, control_examples, fault_examples, faults_are_of_types,
    name_examples, open_examples, pointer_examples, tokens_are_sorted, type_examples,
    typed_examples, unit_examples,
};
