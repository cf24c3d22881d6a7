//! Where a statement of a unit stands.

use pli_base::syntax::Identifier;

/// A statement of a unit.
#[derive(Clone, Copy)]
pub struct StatementPlace {
    pub number: u32,
    /// The region that it stands in.
    pub region: usize,
    pub label: Option<Identifier>,
}
