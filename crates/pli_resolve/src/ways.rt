//! How members stand in their variables.

/// How a name stands in its variable.
#[derive(Drop)]
pub struct Way {
    /// The number of the variable among the names of its block.
    pub root: usize,
    /// The members on the way from it, each counted from 0 among the members of the one before.
    pub path: Vec<usize>,
}
