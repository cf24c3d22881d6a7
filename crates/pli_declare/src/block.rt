//! What blocks declare, and what names mean.

use crate::declaration::Declaration;
use pli_base::Name;

/// What a name means.
#[derive(Clone, Copy)]
pub enum Target {
    /// The name of this number in a block, by its region; or the unit's own name, which the outermost block declares.
    Name { block: Option<usize>, number: usize },
    /// A built-in function.
    Function,
}

/// What the name at a token means. Tokens are counted from 0.
#[derive(Clone, Copy)]
pub struct Use {
    pub at: u32,
    pub target: Target,
}

/// What a block declares.
#[derive(Drop)]
pub struct BlockDeclarations<'a> {
    /// The names of its parameters, if it is a procedure.
    pub parameters: Vec<Name>,
    pub declarations: Vec<Declaration<'a>>,
}
