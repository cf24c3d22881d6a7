//! What a list of statements is read to.

use pli_base::statement::Statement;

/// The statements of a block or group, and the number of its END.
#[derive(Drop)]
pub struct Listing {
    pub statements: Vec<Statement>,
    pub end: u32,
}
