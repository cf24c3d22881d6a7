//! How the generations of variables come.

/// How generations come of a variable that is there for the whole program (X3.74).
#[derive(Clone, Copy, Debug, PartialEq, Eq)]
pub enum VariableKind {
    /// It is static.
    Static,
    /// ALLOCATE stacks them, and FREE removes the newest.
    Controlled,
}
