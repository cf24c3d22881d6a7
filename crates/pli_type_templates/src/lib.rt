//! What the variables of a resolved unit are made from: their descriptions, and their initial values.
#![tactic(auto)]

mod block_names;
mod global_groups;
mod globals;
mod groups;
mod item_number;
mod item_numbers;
mod items;
mod lifetime;
mod made_variable;
mod members;
mod offsets;
mod placed_globals;
mod plan;
mod unit_templates;
mod values;

pub use unit_templates::{UnitTemplates, templates};
