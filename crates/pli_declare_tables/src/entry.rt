//! What a name is declared as.

use pli_base::statement::Procedure;
use pli_base::syntax::Identifier;
use pli_declare_attributes::ItemFacts;

/// What a name is declared as.
#[derive(Clone, Copy)]
pub enum Entity<'a> {
    /// An item of a DECLARE, with what is known of it for all its names, and whether its level is a fault, A8 BAD
    /// LEVEL.
    Item {
        facts: ItemFacts<'a>,
        is_bad_level: bool,
    },
    /// A label of a statement in the region of this number.
    Label {
        region: usize,
    },
    /// A procedure, and the number of its own region.
    Procedure {
        procedure: &'a Procedure,
        region: usize,
    },
}

/// A declared name.
#[derive(Clone, Copy)]
pub struct Entry<'a> {
    pub identifier: Identifier,
    /// The number in its block of the item that it is a member of.
    pub owner: Option<usize>,
    pub entity: Entity<'a>,
}
