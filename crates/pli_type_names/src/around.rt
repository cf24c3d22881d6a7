//! The blocks around, the innermost last.
ghost use Rattle.std.specs.Prelude.{◌≡◌, option_map, reverse, slice_get};
ghost use Rattle.pli_type_rules.specs.Beginnings.{root_at};
ghost use Rattle.pli_type_rules.specs.NamedUnits.{outward_to, stands_around};
ghost use Rattle.pli_type_names.specs.Seen.{root_from};

use crate::place::Location;
use pli_type_rules::Beginning;

/// How many static links outward a block is, if it stands around.
fn outward_to(around: &[usize], block: usize) -> Option<usize>
    ensures { result ≡ outward_to (reverse around.now) block }
{
    for outward in 0..around.len() {
        if around[around.len() - 1 - outward] == block {
            return Some(outward);
        }
    }
    None
}

/// The number of the block so many static links outward, if one stands there.
#[tactic(auto, using(crate::proofs::OutwardLemmas::block_there, crate::proofs::OutwardLemmas::no_block_there))]
pub(crate) fn block_outward(around: &[usize], links: usize) -> Option<usize>
    ensures { result ≡ slice_get (reverse around.now) links }
{
    if links < around.len() {
        Some(around[around.len() - 1 - links])
    } else {
        None
    }
}

/// Whether a block's outer block stands around, or it has none.
pub(crate) fn stands_around(around: &[usize], outer: Option<usize>) -> bool
    ensures { result ≡ stands_around (reverse around.now) outer }
{
    match outer {
        None => true,
        Some(outer) => outward_to(around, outer).is_some(),
    }
}

/// Where a variable of a block begins, if the block stands around or it is one that is there for the whole program; a
/// BASED variable begins nowhere.
pub(crate) fn root_from(around: &[usize], block: usize, begins: Location) -> Option<Beginning>
    ensures { option_map root_at result ≡ root_from (reverse around.now) block begins }
{
    match begins {
        Location::InBlock { slot } | Location::Passed { slot } => {
            let outward = outward_to(around, block)?;
            Some(Beginning::InSlot { outward, slot })
        }
        Location::BeforeProgram { number } => Some(Beginning::OfProgram { number }),
        Location::NewestOf { number } => Some(Beginning::NewestOf { number }),
        Location::Based { .. } => None,
    }
}
