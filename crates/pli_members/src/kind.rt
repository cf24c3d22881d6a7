//! Kinds of members.

/// What a member is for (own).
#[derive(Clone, Copy, PartialEq, Eq)]
pub enum MemberKind {
    /// A unit of its own, which a build compiles.
    Source,
    /// A text that others include.
    Include,
}
