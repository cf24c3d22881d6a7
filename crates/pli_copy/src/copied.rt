//! What a copy is.
ghost use Rattle.std.specs.Prelude.{◌≡◌, map, option_map, IfOk};

use std::alloc::{AllocError, Global};

/// A tree that can be copied.
pub trait Copied: Sized + Drop {
    /// What contracts see of a tree: what it says, apart from where it lies in memory.
    ghost View: { Type 0 };

    ghost view: { Self → View };

    /// A tree that says the same. Copying goes as deep as the tree does, and takes time in proportion to it.
    fn copy(&self, alloc: Global) -> Result<Self, AllocError>
        ensures { IfOk result (λ copied. view copied ≡ view self.now) };
}

/// Copies a list.
pub(crate) fn copied_list<T: Copied>(alloc: Global, list: &[T]) -> Result<Vec<T>, AllocError>
    ensures { IfOk result (λ copied. map T.view copied.items ≡ map T.view list.now) }
{
    let mut copied = Vec::new(alloc);
    for item in list {
        copied.push(item.copy(alloc)?)?;
    }
    Ok(copied)
}

/// Copies what may be absent.
pub(crate) fn copied_option<T: Copied>(
    alloc: Global,
    option: &Option<T>,
) -> Result<Option<T>, AllocError>
    ensures { IfOk result (λ copied. option_map T.view copied ≡ option_map T.view option.now) }
{
    match option {
        None => Ok(None),
        Some(value) => Ok(Some(value.copy(alloc)?)),
    }
}
