//! Programs as the machine runs them: definitions, the instructions, and how the generations of variables come.
#![tactic(auto)]

mod instruction;
mod kind;
mod laws;

pub use instruction::Instruction;
pub use kind::VariableKind;
pub use laws::named_by_itself;
