//! Inclusion: the tokens of a member with its directives replaced by the members that they name.
#![tactic(auto)]

mod directive;
mod expander;
mod expansion;
mod laws;
mod library;
mod origins;
mod progress;
mod reading;
mod walk;

pub use expander::Expander;
pub use expansion::{Expansion, ExpansionFault, TraceEntry};
pub use laws::{level_is_never_met, texts_have_origins, trace_decides, worked_examples};
pub use origins::Origins;
