//! Statements inside one another, and the unit: their parser, and the laws of their grammar.
#![tactic(auto)]

mod faults;
mod laws;
mod reader;
mod reading;
mod spelling;
mod unit;

pub use faults::{
    no_procedure_begins, statements_have_codes_of_parts, text_stands_after, texts_end_too_early,
};
pub use laws::{faults_stand_at_tokens, tokens_of_units_rise, worked_examples};
pub use pli_base::ParseError;
pub use reading::units_read_are_spelled;
pub use spelling::{one_unit, units_spelled_are_read};
pub use unit::parse;
