//! How regions nest.
ghost use Rattle.std.specs.Prelude.{◌≡◌, ◌<◌, ◌∷◌, Some, length, IfOk, IfSome};
ghost use Rattle.pli_declare_outline.specs.views.OutlineView.{regions_view};
ghost use Rattle.pli_declare_constructs.specs.answers.Kept.{HasInnermost};
ghost use Rattle.pli_declare_constructs.specs.Regions.{innermost, blocks_round, blocks_from};
ghost use Rattle.pli_declare_constructs.specs.Reach.{reaches};

use crate::kind::{is_block, is_group, left_on_unit};
use pli_declare_outline::Region;
use std::alloc::{AllocError, Global};
use std::marker::Model;

/// How the regions of a unit nest. Contracts see the list of regions.
#[derive(Drop)]
pub struct Nesting {
    regions: Vec<Region>,
    innermost: Vec<Option<usize>>,
}

impl Model for Nesting {
    ghost use Rattle.std.specs.Prelude.{List};
    ghost use Rattle.pli_declare_outline.specs.Outlines.{Region as Plain};
    ghost use Rattle.pli_declare_outline.specs.views.OutlineView.{regions_view};
    ghost use Rattle.pli_declare_constructs.specs.answers.Kept.{HasInnermost};

    ghost Value = { List Plain };

    ghost view = { λ n. regions_view n.regions.items };

    ghost invariant = { λ n. HasInnermost (regions_view n.regions.items) n.innermost.items };
}

/// The innermost block round each region.
fn blocks_of(alloc: Global, regions: &[Region]) -> Result<Vec<Option<usize>>, AllocError>
    ensures { IfOk result (λ blocks. HasInnermost (regions_view regions.now) blocks.items) }
{
    let mut blocks: Vec<Option<usize>> = Vec::new(alloc);
    for region in regions {
        let number = blocks.len();
        let block = if is_block(region.kind) {
            Some(number)
        } else {
            match region.outer {
                Some(outer) if outer < number => blocks[outer],
                _ => None,
            }
        };
        blocks.push(block)?;
    }
    Ok(blocks)
}

impl Nesting {
    /// The nesting of regions.
    pub fn new(alloc: Global, regions: &[Region]) -> Result<Nesting, AllocError>
        ensures { IfOk result (λ nesting. nesting ≡ regions_view regions.now) }
    {
        let innermost = blocks_of(alloc, regions)?;
        let mut kept = Vec::new(alloc);
        kept.extend_from_slice(regions)?;
        Ok(Nesting {
            regions: kept,
            innermost,
        })
    }

    /// The innermost block round a region (X3.74), if it stands in one: the region itself, if it is a block.
    pub fn innermost(&self, region: usize) -> Option<usize>
        ensures value { result ≡ innermost self.now region }
        ensures blocks { blocks_round self.now region ≡ blocks_from self.now result }
        ensures itself { IfSome result (λ b. innermost self.now b ≡ Some b) }
        ensures within { IfSome result (λ b. b < length self.now) }
    {
        if region < self.innermost.len() {
            self.innermost[region]
        } else {
            None
        }
    }

    /// The next block outwards.
    pub fn outward(&self, block: usize) -> Option<usize>
        requires { innermost self.now block ≡ Some block }
        ensures blocks { blocks_round self.now block ≡ block ∷ blocks_from self.now result }
        ensures itself { IfSome result (λ b. innermost self.now b ≡ Some b) }
        ensures before { IfSome result (λ b. b < block) }
    {
        match self.regions[block].outer {
            Some(outer) if outer < block => self.innermost[outer],
            _ => None,
        }
    }

    /// Whether a GOTO in a region reaches a label in the list of another: one that encloses it (X3.74), but out of an
    /// ON-unit none in a group of the block in which the ON stands (own).
    pub fn reaches(&self, from: usize, label: usize) -> bool
        ensures { result ≡ reaches self.now from label }
    {
        let mut left = false;
        let mut here = from;
        while here < self.regions.len() {
            let region = self.regions[here];
            if here == label {
                return !(left && is_group(region.kind));
            }
            left = left_on_unit(left, region.kind);
            match region.outer {
                Some(outer) if outer < here => here = outer,
                _ => return false,
            }
        }
        false
    }
}
