//! What units share while they are linked.

use crate::standing::Standing;
use pli_stacks::Stacks;
use pli_store::Storage;

/// The storage and the stacks, and where the external variables stand that were made already, by their numbers.
#[derive(Drop)]
pub struct Shared<'m> {
    pub storage: Storage<'m>,
    pub stacks: Stacks<'m>,
    pub externals: Vec<Option<Standing<'m>>>,
}
