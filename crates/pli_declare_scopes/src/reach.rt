//! How far items reach: the last number within an item, and the outermost item of its name that an item is within.
ghost use Rattle.std.specs.Prelude.{◌≡◌, ◌<◌, ◌≤◌, ◌++◌, [], ◌∷◌, ℕ, true, false, get_or, length, None, Some, IfSome};
ghost use Rattle.std.specs.Vec.{vec_len, vec_capacity};
ghost use Rattle.pli_base.specs.Name.{Name as Characters};
ghost use Rattle.pli_declare_scopes.specs.Scopes.{BlockItems as Items, item_at, is_named, is_part, chain_over};
ghost use Rattle.pli_declare_scopes.specs.answers.Indexes.{last_below, OwnersBefore};
ghost use Rattle.pli_declare_scopes.specs.answers.Leaps.{rank, IsLastUpTo};
ghost use Rattle.pli_declare_scopes.specs.answers.Reaches.{AreClosed, AreReaching, IsNearest, outermost_of};

use crate::block::Declared;
use crate::room::push_within;

/// Whether a number is no greater than that of an owner, if there is one.
fn is_up_to(number: usize, owner: Option<usize>) -> bool
    ensures after { result ≡ false → IfSome owner (λ o. o < number) }
    ensures up_to { result ≡ true → number < rank owner }
{
    match owner {
        Some(owner) => number <= owner,
        None => false,
    }
}

/// Closes the items that the last one is within, up to the owner of a new one: their last number is that of the last
/// item. Tells whether the last item is within that owner, as items that stand in order are.
fn close(items: &[Declared], lasts: &mut Vec<Option<usize>>, owner: Option<usize>) -> bool
    requires all { length lasts.old.items ≡ length items.now }
    requires owners { OwnersBefore items.now }
    ensures closed { AreClosed items.now lasts.old.items owner lasts.new.items result }
    ensures room { vec_capacity lasts.new ≡ vec_capacity lasts.old }
{
    let mut at = items.len().checked_sub(1);
    while let Some(number) = at {
        if is_up_to(number, owner) {
            return at == owner;
        }
        lasts[number] = Some(items.len() - 1);
        at = items[number].owner;
    }
    owner.is_none()
}

/// Whether items still stand in order with one more: they did so far, it stands after what its owner has so far, and
/// where it counts its owner does.
fn is_in_order(items: &[Declared], item: &Declared, is_ordered: bool, is_after: bool) -> bool
    requires { IfSome item.now.owner (λ o. o < length items.now) }
    ensures so_far { result ≡ true → is_ordered ≡ true }
    ensures after { result ≡ true → is_after ≡ true }
    ensures counted { result ≡ true → item.now.counts ≡ true →
        IfSome item.now.owner (λ o. (item_at items.now o).counts ≡ true) }
{
    let counts = match item.owner {
        Some(owner) => !item.counts || items[owner].counts,
        None => true,
    };
    is_ordered && is_after && counts
}

/// The outermost item of its name that one is within, which has the item of its name before it.
fn outermost(lasts: &[Option<usize>], tops: &[usize], before: Option<usize>, number: usize) -> usize
    requires within { IfSome before (λ b. b < length tops.now) }
    requires tops { (n : ℕ) → n < length tops.now → get_or tops.now n 0 ≤ n }
    requires all { length lasts.now ≡ length tops.now }
    ensures { result ≡ outermost_of lasts.now tops.now before number }
{
    match before {
        Some(before) if lasts[tops[before]].is_none() => tops[before],
        _ => number,
    }
}

/// Notes how far items reach with one more. Tells whether they still stand in order.
pub(crate) fn reach_on(
    items: &[Declared],
    lasts: &mut Vec<Option<usize>>,
    tops: &mut Vec<usize>,
    item: &Declared,
    before: Option<usize>,
    is_ordered: bool,
) -> bool
    requires owners { OwnersBefore items.now }
    requires owned { IfSome item.now.owner (λ o. o < length items.now) }
    requires before { item.now.counts ≡ true → before ≡ last_below (is_named items.now item.now.name)
        (length items.now) }
    requires none { item.now.counts ≡ false → before ≡ None }
    requires reaching { AreReaching items.now lasts.old.items tops.old.items is_ordered }
    requires lasts_room { vec_len lasts.old < vec_capacity lasts.old }
    requires tops_room { vec_len tops.old < vec_capacity tops.old }
    ensures { AreReaching (items.now ++ item.now ∷ []) lasts.new.items tops.new.items result }
{
    let is_after = close(items, lasts, item.owner);
    let top = outermost(lasts, tops, before, items.len());
    push_within(lasts, None);
    push_within(tops, top);
    is_in_order(items, item, is_ordered, is_after)
}

/// Whether an item of some name stands above a place, or there, where this is the last item of that name up to the
/// place. So it does if the outermost item of that name, which that one is within, reaches to the place.
pub(crate) fn stands_above(
    lasts: &[Option<usize>],
    tops: &[usize],
    last: Option<usize>,
    place: usize,
) -> bool
    requires within { IfSome last (λ l. l < length tops.now) }
    requires tops { (n : ℕ) → n < length tops.now → get_or tops.now n 0 ≤ n }
    requires all { length lasts.now ≡ length tops.now }
    ensures { (items : Items) (name : Characters) → OwnersBefore items → AreReaching items lasts.now tops.now true
        → place < length items → (item_at items place).counts ≡ true → IsLastUpTo items name place last
        → result ≡ is_part (name ∷ []) (chain_over items (Some place)) }
{
    let Some(last) = last else {
        return false;
    };
    match lasts[tops[last]] {
        Some(end) => place <= end,
        None => true,
    }
}

/// Whether an item of which this is the last number, if it has one, reaches to a place after it.
pub(crate) fn reaches(last: Option<usize>, place: usize) -> bool
    ensures { result ≡ true → IfSome last (λ l. place ≤ l) }
{
    match last {
        Some(last) => place <= last,
        None => true,
    }
}

/// Where a search from a place upwards for an item of some name begins, where this is the last item of that name up to
/// the place: at that item, if the place is within it, and else at the place. None if no item of that name stands
/// above.
pub(crate) fn nearest_above(
    lasts: &[Option<usize>],
    tops: &[usize],
    last: Option<usize>,
    place: usize,
) -> Option<usize>
    requires within { IfSome last (λ l. l < length tops.now) }
    requires tops { (n : ℕ) → n < length tops.now → get_or tops.now n 0 ≤ n }
    requires all { length lasts.now ≡ length tops.now }
    ensures { (items : Items) (name : Characters) → OwnersBefore items → AreReaching items lasts.now tops.now true
        → place < length items → (item_at items place).counts ≡ true → IsLastUpTo items name place last
        → IsNearest items name place result }
{
    if !stands_above(lasts, tops, last, place) {
        return None;
    }
    match last {
        Some(last) if reaches(lasts[last], place) => Some(last),
        _ => Some(place),
    }
}
