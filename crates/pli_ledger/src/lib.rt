//! The ledger: what is kept of units from one build to the next, and builds that expand what is due and compile what is
//! stale.
#![tactic(auto)]

mod align;
mod kept;
mod laws;
mod ledger;
mod outcome;
mod passes;
mod stored;
mod texts;
mod told;

pub use laws::{builds_keep_fits, edits_keep_fits, what_holds_is_fresh};
pub use ledger::Ledger;
pub use outcome::Outcome;
pub use stored::StoredModule;
