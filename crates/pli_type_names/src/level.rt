//! Structures on the way to members.

use crate::part::StridedPart;
use crate::passed_members::PassedMembers;

/// A structure that is a variable or a part of one, or an element of an array of such, with its members.
#[derive(Drop)]
pub(crate) struct StructureLevel<'a> {
    /// The number of the variable among the symbols of its block.
    pub root: usize,
    /// The members on the way to the structure, each counted from 0.
    pub way: &'a [usize],
    /// One element of it, if it is an array, and else itself.
    pub element: StridedPart<'a>,
    pub passed: PassedMembers<'a>,
}
