//! The meanings of names by their tokens.
ghost use Rattle.std.specs.Prelude.{◌≡◌, ℕ, nat_eq, Some, if◌then◌else◌, IfOk, OnOk};
ghost use Rattle.indexmap.specs.IndexMap.{get};
ghost use Rattle.pli_declare.specs.views.BlockView.{AreMeanings};

use indexmap::IndexMap;
use pli_declare::{Target, Use};
use std::alloc::{AllocError, Global};

/// Notes what the name at a token means.
fn note(meanings: &mut IndexMap<u32, Target>, one: Use) -> Result<(), AllocError>
    ensures { OnOk result ((at : ℕ) → get nat_eq meanings.new at
        ≡ (if nat_eq one.at at then Some one.target else get nat_eq meanings.old at)) }
{
    meanings.insert(one.at, one.target)?;
    Ok(())
}

/// What names mean, by their tokens.
pub(crate) fn meanings(alloc: Global, uses: &[Use]) -> Result<IndexMap<u32, Target>, AllocError>
    ensures { IfOk result (λ meanings. AreMeanings meanings uses.now) }
{
    let mut meanings = IndexMap::with_capacity(alloc, uses.len())?;
    for one in uses {
        note(&mut meanings, *one)?;
    }
    Ok(meanings)
}
