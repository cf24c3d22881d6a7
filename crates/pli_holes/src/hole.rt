//! Holes.

/// A hole: bytes of a region that nothing uses (own).
#[derive(Clone, Copy, Debug, PartialEq, Eq)]
pub struct Hole {
    /// Where it begins.
    pub start: u32,
    /// How many bytes it has.
    pub room: u32,
}
