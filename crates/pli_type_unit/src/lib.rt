//! Units as types see them: where their variables begin, what their names mean, and how their expressions and
//! statements are typed; and the law that this is what the type checker finds.
#![tactic(auto)]

mod laws;

pub use laws::{name_examples, units_are_checked};
