//! The walk over the statements of a unit: where it begins, blocks, procedures that end, and the typed unit at its end.
#![tactic(auto)]

mod ending;
mod outer;
mod temporaries;
mod unit;
mod walk;

pub use ending::{finish, finish_on_unit};
pub use outer::outer_signature;
pub use temporaries::kept_in;
pub use unit::{in_unit, typed_unit};
pub use walk::{Next, OpenBlock, TypingWalk, enter_block, leave_block};
