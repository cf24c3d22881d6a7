//! What stands after DECLARE: items with dimensions and attributes, from their trees to their parser.
#![tactic(auto)]

mod described;
mod extent;
mod front;
mod item;
mod laws;
mod list;
mod nest;
mod simple;
mod word;

pub use described::returned_at;
pub use item::{declaration_at, identifiers_at, items_at};
pub use laws::{
    declarations_read_are_spelled, declarations_spelled_are_read, faults_stand_at_tokens,
    longest_items, one_declaration, tokens_of_items_rise, worked_examples,
};
pub use list::{ListReader, Separator, list_at};
