//! The emitter: the blocks of a typed unit, and their code with its tables.
#![tactic(auto)]

mod block;
mod conversion;
mod emitter;
mod emitting;
mod expression;
mod fields;
mod iteration;
mod laws;
mod layout;
mod one;
mod simple;
mod statement;
mod table;

pub use block::BlockSource;
pub use emitter::{Emitter, LabelJump};
pub use emitting::{Emitted, emit_unit};
pub use fields::short;
pub use laws::codes_alike;
pub use one::One;
pub use table::{NumberedTables, template_key};
