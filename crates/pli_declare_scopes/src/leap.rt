//! Leaps back along the items of one name.
ghost use Rattle.std.specs.Prelude.{◌≡◌, ℕ, ◌<◌, ◌≤◌, ◌++◌, [], ◌∷◌, true, length, vec_len, vec_capacity, Option, None};
ghost use Rattle.std.specs.Prelude.{Some, IfSome};
ghost use Rattle.pli_base.specs.Name.{Name as Characters};
ghost use Rattle.pli_base.specs.Words.{same_name};
ghost use Rattle.pli_declare_scopes.specs.declared.block.Declared.{Declared as Item};
ghost use Rattle.pli_declare_scopes.specs.Scopes.{BlockItems as Items, is_named};
ghost use Rattle.pli_declare_scopes.specs.answers.Indexes.{last_below};
ghost use Rattle.pli_declare_scopes.specs.answers.Leaps.{AreLeaps, leap_at};

use crate::room::push_within;

/// A leap back from an item to one of its name, or to itself, and the item's place among those of its name.
#[derive(Clone, Copy)]
pub(crate) struct Leap {
    pub to: usize,
    pub place: usize,
}

/// The leap from an item of this number, where this is the item of its name before it: twice as far as that one's,
/// where that one's leap and the next are equally far. So as many leaps lead to an item as its distance has binary
/// digits, or twice as many.
fn leap_from(leaps: &[Leap], before: Option<usize>, number: usize) -> Leap
    requires back { (n : ℕ) → n < length leaps.now → leap_at leaps.now n ≤ n }
    requires within { IfSome before (λ b. b < length leaps.now) }
    ensures none { before ≡ None → result.to ≡ number }
    ensures some { (items : Items) (name : Characters) (b : ℕ) → AreLeaps items leaps.now → before ≡ Some b
        → is_named items name b ≡ true → is_named items name result.to ≡ true }
    ensures back { IfSome before (λ b. result.to ≤ b) }
{
    let Some(before) = before else {
        return Leap {
            to: number,
            place: 0,
        };
    };
    let near = leaps[before];
    let middle = leaps[near.to];
    let far = leaps[middle.to];
    let is_even = near.place.saturating_sub(middle.place) == middle.place.saturating_sub(far.place);
    Leap {
        to: if is_even { middle.to } else { before },
        place: near.place.saturating_add(1),
    }
}

/// One more leap, that of the item of this number, where this is the item of its name before it.
pub(crate) fn leap_on(leaps: &mut Vec<Leap>, before: Option<usize>, number: usize)
    requires back { (n : ℕ) → n < length leaps.old.items → leap_at leaps.old.items n ≤ n }
    requires within { IfSome before (λ b. b < length leaps.old.items) }
    requires all { number ≡ length leaps.old.items }
    requires room { vec_len leaps.old < vec_capacity leaps.old }
    ensures { (items : Items) (item : Item) → AreLeaps items leaps.old.items
        → (item.counts ≡ true → (name : Characters) → same_name item.name name ≡ true →
        before ≡ last_below (is_named items name) (length items))
        → AreLeaps (items ++ item ∷ []) leaps.new.items }
{
    let leap = leap_from(leaps, before, number);
    push_within(leaps, leap);
}
