//! What the names of a block are declared as.

use crate::completed::Completed;
use pli_base::syntax::Identifier;
use pli_map::Description;

/// What a name is declared as.
#[derive(Drop)]
pub enum DeclaredKind<'a> {
    /// An item. A variable of its own has its description; a member's is a part of it.
    Item {
        completed: Completed<'a>,
        description: Option<Description>,
    },
    /// A label of a statement in the region of this number.
    Label {
        region: usize,
    },
    /// A procedure, what it returns, if it does, and the number of its own region.
    Procedure {
        returned: Option<Description>,
        region: usize,
    },
}

/// A declared name.
#[derive(Drop)]
pub struct Declaration<'a> {
    pub identifier: Identifier,
    /// The number in its block of the item that it is a member of.
    pub owner: Option<usize>,
    pub kind: DeclaredKind<'a>,
}
