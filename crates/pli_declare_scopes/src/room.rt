//! Room for one more item, made before anything is changed.
ghost use Rattle.std.specs.Prelude.{◌≡◌, ◌<◌, ◌++◌, [], ◌∷◌, vec_len, vec_capacity, OnOk};

use crate::block::Declared;
use crate::leap::Leap;
use std::alloc::{AllocError, Global};

/// Makes room for one more in each of the lists that a block keeps, which stay as they are.
pub(crate) fn make_room(
    items: &mut Vec<Declared>,
    earlier: &mut Vec<Option<usize>>,
    paths: &mut Vec<usize>,
    leaps: &mut Vec<Leap>,
    lasts: &mut Vec<Option<usize>>,
    tops: &mut Vec<usize>,
) -> Result<(), AllocError>
    ensures items { items.new.items ≡ items.old.items }
    ensures items_room { OnOk result (vec_len items.new < vec_capacity items.new) }
    ensures earlier { earlier.new.items ≡ earlier.old.items }
    ensures earlier_room { OnOk result (vec_len earlier.new < vec_capacity earlier.new) }
    ensures paths { paths.new.items ≡ paths.old.items }
    ensures paths_room { OnOk result (vec_len paths.new < vec_capacity paths.new) }
    ensures leaps { leaps.new.items ≡ leaps.old.items }
    ensures leaps_room { OnOk result (vec_len leaps.new < vec_capacity leaps.new) }
    ensures lasts { lasts.new.items ≡ lasts.old.items }
    ensures lasts_room { OnOk result (vec_len lasts.new < vec_capacity lasts.new) }
    ensures tops { tops.new.items ≡ tops.old.items }
    ensures tops_room { OnOk result (vec_len tops.new < vec_capacity tops.new) }
{
    items.reserve(1)?;
    earlier.reserve(1)?;
    paths.reserve(1)?;
    leaps.reserve(1)?;
    lasts.reserve(1)?;
    tops.reserve(1)
}

/// Asks for room for so many in each of these lists, which stay as they are.
pub(crate) fn make_room_for(
    count: usize,
    items: &mut Vec<Declared>,
    earlier: &mut Vec<Option<usize>>,
    paths: &mut Vec<usize>,
    leaps: &mut Vec<Leap>,
    lasts: &mut Vec<Option<usize>>,
    tops: &mut Vec<usize>,
) -> Result<(), AllocError>
    ensures items { items.new.items ≡ items.old.items }
    ensures earlier { earlier.new.items ≡ earlier.old.items }
    ensures paths { paths.new.items ≡ paths.old.items }
    ensures leaps { leaps.new.items ≡ leaps.old.items }
    ensures lasts { lasts.new.items ≡ lasts.old.items }
    ensures tops { tops.new.items ≡ tops.old.items }
{
    items.reserve(count)?;
    earlier.reserve(count)?;
    paths.reserve(count)?;
    leaps.reserve(count)?;
    lasts.reserve(count)?;
    tops.reserve(count)
}

/// One more in a list that has room for it.
pub(crate) fn push_within<T: Copy>(list: &mut Vec<T>, value: T)
    requires room { vec_len list.old < vec_capacity list.old }
    ensures { list.new.items ≡ list.old.items ++ value ∷ [] }
{
    let _ = list.push(value);
}
