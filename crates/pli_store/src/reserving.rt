//! Memory for one element more.
ghost use Rattle.std.specs.Prelude.{◌≡◌, ◌<◌, vec_len, vec_capacity, IfOk};

use std::alloc::AllocError;

/// Sees that there is memory for one element more; no call is made where there is.
#[inline(always)]
pub fn reserve_one<T>(list: &mut Vec<T>) -> Result<(), AllocError>
    ensures items { list.new.items ≡ list.old.items }
    ensures room { IfOk result (λ _. vec_len list.new < vec_capacity list.new) }
{
    if list.len() < list.capacity() {
        return Ok(());
    }
    list.reserve(1)
}
