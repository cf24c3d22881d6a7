//! Static variables.

use pli_store::Place;

/// Where a variable stands that is there before the program begins.
#[derive(Clone, Copy)]
pub enum Standing<'m> {
    /// It lies at a place.
    Lies(Place<'m>),
    /// ALLOCATE makes its generations, which are in the stack of this number.
    Stacked(usize),
}
