//! Which variables are made together.

/// For how long variables are there.
#[derive(Clone, Copy)]
pub(crate) enum Lifetime {
    /// For an activation of their block: AUTOMATIC ones.
    Activation,
    /// For the whole program: STATIC and CONTROLLED ones.
    Program,
    /// From ALLOCATE to FREE by a locator: BASED ones.
    Allocation,
}
