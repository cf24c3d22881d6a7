//! What lives, found by the number of its generation and its position there.

use crate::generation::Made;
use crate::place::Place;

/// A generation or a block that lives.
#[derive(Clone, Copy)]
pub struct Target<'m> {
    /// The place of the whole of it.
    pub place: Place<'m>,
    /// How it was made; a block of an area by ALLOCATE of a BASED variable.
    pub made: Made,
}
