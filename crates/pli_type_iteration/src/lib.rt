//! What controls groups: WHILE, and control variables with their limits.
#![tactic(auto)]

mod conditions;
mod headers;
mod iteration;

pub use conditions::condition;
pub use headers::{Header, group_form, kept_by, specified};
