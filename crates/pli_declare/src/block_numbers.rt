//! Which regions are blocks.

/// What a block is (X3.74).
#[derive(Clone, Copy)]
pub enum ResolvedBlockKind {
    Procedure,
    /// A BEGIN block.
    Begin,
    /// The statement of ON.
    OnUnit,
}

/// A region that is a block.
#[derive(Clone, Copy)]
pub struct BlockRegion {
    /// Its number among the regions.
    pub region: usize,
    pub kind: ResolvedBlockKind,
    /// The region that it stands in.
    pub outer: Option<usize>,
}
