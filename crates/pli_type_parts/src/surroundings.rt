//! Where a statement stands.
ghost use Rattle.std.specs.Prelude.{◌≡◌, ◌++◌, ◌-◌, ◌∷◌, [], length, take, OnOk};
ghost use Rattle.pli_type_parts.specs.Around.{blocks_of, number_of};
ghost use Rattle.pli_type_parts.specs.views.AroundView.{lists_view};

use crate::labels::ListLabels;
use pli_map::Description;
use std::alloc::AllocError;

/// Where a statement stands: the lists round it, the outermost first; how many BEGIN blocks of its procedure are round
/// it; and what its procedure gives, if it is a function.
#[derive(Drop)]
pub struct Surroundings<'a> {
    pub lists: Vec<ListLabels>,
    pub begins: usize,
    pub value: Option<&'a Description>,
}

impl<'a> Surroundings<'a> {
    /// Goes into a list with these labels, which is that of a block of this number, of an ON-unit or not, or of a
    /// group.
    pub fn enter(
        &mut self,
        block: Option<usize>,
        is_on_unit: bool,
        labels: Vec<u32>,
    ) -> Result<(), AllocError>
        ensures lists { OnOk result (lists_view self.new.lists.items
            ≡ lists_view self.old.lists.items ++ record {
              block = block;
              is_on_unit = is_on_unit;
              labels = labels.items;
            } ∷ []) }
        ensures begins { self.new.begins ≡ self.old.begins }
        ensures value { self.new.value ≡ self.old.value }
    {
        self.lists.push(ListLabels {
            block,
            is_on_unit,
            labels,
        })?;
        Ok(())
    }

    /// Goes out of the innermost list.
    pub fn leave(&mut self)
        ensures lists { lists_view self.new.lists.items
            ≡ take (length (lists_view self.old.lists.items) - 1) (lists_view self.old.lists.items) }
        ensures begins { self.new.begins ≡ self.old.begins }
        ensures value { self.new.value ≡ self.old.value }
    {
        self.lists.pop();
    }
}

/// The number of the block here; the lists stand in one another, the outermost first.
pub fn innermost(lists: &[ListLabels]) -> usize
    ensures { result ≡ number_of (blocks_of (lists_view lists.now)) }
{
    let mut number = 0;
    for list in lists {
        if let Some(block) = list.block {
            number = block;
        }
    }
    number
}
