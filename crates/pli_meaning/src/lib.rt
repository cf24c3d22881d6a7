//! What programs mean, and the laws that bind the machine to it; and the laws of where the faults of a unit stand.
#![tactic(auto)]

mod faults;
mod laws;

pub use faults::{
    declaration_faults_rise, faults_have_places, marks_rise, statements_begin,
    type_faults_stand_at_tokens,
};
pub use laws::{grows, one_meaning, simulates, worked_examples};
