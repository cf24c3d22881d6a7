//! The blocks round a place.
ghost use Rattle.std.specs.Prelude.{◌≡◌, ◌<◌, ◌↔◌, ◌++◌, [], ◌∷◌, length, IsSome, OnOk, OnErr};
ghost use Rattle.std.specs.Option.{option_to_list};
ghost use Rattle.pli_declare_scopes.specs.Scopes.{meant};

use crate::block::BlockItems;
use crate::found::ReferenceMeaning;
use pli_base::Name;
use std::alloc::{AllocError, Global};
use std::marker::Model;

/// The blocks round a place. Contracts see the list of them, the innermost first.
#[derive(Drop)]
pub struct Scope {
    blocks: Vec<BlockItems>,
}

impl Model for Scope {
    ghost use Rattle.std.specs.Prelude.{List, reverse};
    ghost use Rattle.pli_declare_scopes.specs.declared.block.Declared.{Declared as Item};

    ghost Value = { List (List Item) };

    ghost view = { λ s. reverse s.blocks.items };
}

impl Scope {
    /// No block.
    pub fn new(alloc: Global) -> Scope
        ensures { result ≡ [] }
    {
        Scope {
            blocks: Vec::new(alloc),
        }
    }

    /// A block inside those that are open. Without memory for it the scope stays as it was, and can be used on.
    pub fn open_block(&mut self, block: BlockItems) -> Result<(), AllocError>
        ensures ok { OnOk result (self.new ≡ block ∷ self.old) }
        ensures err { OnErr result (self.new ≡ self.old) }
    {
        self.blocks.push(block)?;
        Ok(())
    }

    /// Takes the innermost block out, if there is one.
    pub fn close_block(&mut self) -> Option<BlockItems>
        ensures taken { self.old ≡ option_to_list result ++ self.new }
        ensures some { IsSome result ↔ (0 < length self.old) }
    {
        self.blocks.pop()
    }

    /// What the names of a reference mean, from the first to the last (X3.74): the innermost block that declares an
    /// item of the first name decides. There the one item that they qualify fully is meant, or where there is none the
    /// one that they qualify in part (own: no search goes further outwards).
    pub fn look_up(&self, names: &[Name]) -> ReferenceMeaning
        ensures { result ≡ meant self.now names.now }
    {
        let blocks = self.blocks.as_slice();
        let Some(first) = names.first() else {
            return ReferenceMeaning::NotDeclared;
        };
        for out in 0..blocks.len() {
            let block = &blocks[blocks.len() - 1 - out];
            if block.declares(*first) {
                return block.find(names).meant(out);
            }
        }
        ReferenceMeaning::NotDeclared
    }
}
