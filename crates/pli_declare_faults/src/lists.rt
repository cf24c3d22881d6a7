//! A list for each block.
ghost use Rattle.std.specs.Prelude.{◌≡◌, [], map, replicate, IfOk};

use std::alloc::{AllocError, AllocFailed, Global};

/// Lists with nothing in them, so many.
pub(crate) fn no_lists<T: Drop>(alloc: Global, count: usize) -> Result<Vec<Vec<T>>, AllocError>
    ensures { IfOk result (λ lists. map (λ list. list.items) lists.items ≡ replicate count []) }
{
    let mut lists = Vec::new(alloc);
    for _list in 0..count {
        lists.push(Vec::new(alloc))?;
    }
    Ok(lists)
}
