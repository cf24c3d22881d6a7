//! The grammar of units as readers, each of which takes what it reads from the front of tokens, and the law
//! that the parser reads the same.
#![tactic(auto)]

mod laws;

pub use laws::units_are_parsed;
