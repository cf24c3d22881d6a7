//! Tests of the compiler, the linker and the machine, and of the workbench. Nothing stands on them, so that they are a
//! program, which does nothing itself: for a library `rt` would sum up all that it stands on.
#![tactic(auto)]

#[cfg(test)]
mod tests;

fn main() {}
