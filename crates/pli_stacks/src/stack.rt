//! CONTROLLED variables.
ghost use Rattle.std.specs.Prelude.{◌≡◌, ℕ, map, IfSome};
ghost use Rattle.std.specs.Global.{Vec};
ghost use Rattle.std.proofs.Props.{props};
ghost use Rattle.pli_map.specs.views.DescriptionView.{description_view};
ghost use Rattle.pli_type_tree.specs.views.TemplateView.{initial_view};
ghost use Rattle.pli_stacks.specs.answers.LaidBytes.{IsLaid};

use pli_store::{Handle, Kind};
use pli_type_tree::InitialScalar;

/// What the generations of a CONTROLLED variable are made from, and those that it has.
#[derive(Drop)]
pub struct Stack<'m> {
    /// What its generations have in common.
    pub kind: Kind<'m>,
    /// The initial values, in the order of the text.
    pub initial: &'m [InitialScalar],
    /// The bytes with which each generation begins, where they are few.
    pub laid: Option<Vec<u8>>,
    /// The newest is the last.
    pub generations: Vec<Handle>,
    ghost begins: { IfSome laid (λ (bytes : Vec ℕ). IsLaid (record {
      description = description_view kind.description.now;
      initial = map initial_view initial.now;
    }) bytes.items) } by { Prim.hlevel props },
}

impl<'m> Stack<'m> {
    /// The bytes with which each generation begins, where they are few.
    #[inline(always)]
    pub fn laid_bytes(&self) -> Option<&[u8]>
        ensures { IfSome result (λ bytes. IsLaid (record {
          description = description_view self.now.kind.description.now;
          initial = map initial_view self.now.initial.now;
        }) bytes.now) }
    {
        match &self.laid {
            Some(bytes) => Some(bytes.as_slice()),
            None => None,
        }
    }
}
