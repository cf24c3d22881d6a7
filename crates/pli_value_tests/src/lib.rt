//! Tests of values and operations, of how values are laid out and stored, and of scopes and regions.
#![tactic(auto)]

#[cfg(test)]
mod tests;
