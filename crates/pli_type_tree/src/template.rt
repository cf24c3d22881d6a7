//! Templates: what a variable is made from.

use pli_map::Description;
use pli_value::Value;

/// An initial value, fitted to the scalar that has it, and the byte of the variable on which that scalar begins.
#[derive(Drop)]
pub struct InitialScalar {
    pub offset: u32,
    pub value: Value,
}

/// What a variable is made from: its description, and its initial values in the order of the text, also where they
/// equal the value with which their scalar would begin without them (own).
#[derive(Drop)]
pub struct Template {
    pub description: Description,
    pub initial: Vec<InitialScalar>,
}

/// So many variables in a row that are made from one template, as those of one item of DECLARE are.
#[derive(Drop)]
pub struct VariableGroup {
    pub count: usize,
    pub template: Template,
}
