//! Names that are declared twice.
ghost use Rattle.std.specs.Prelude.{◌≡◌, ◌<◌, length, IfSome};
ghost use Rattle.pli_declare_scopes.specs.Repeats.{judged};
ghost use Rattle.pli_declare_scopes.specs.answers.Judged.{is_found, counts_over, declared_as};

use crate::block::Declared;
use crate::found::Found;
use pli_base::Name;

/// An item as it is written: its name, and the number of the item that it is a member of.
#[derive(Clone, Copy)]
pub struct Written {
    pub name: Name,
    pub owner: Option<usize>,
}

/// What becomes of an item of a block.
#[derive(Clone, Copy, PartialEq, Eq)]
pub enum Verdict {
    /// References may mean it.
    Counts,
    /// A2 DECLARED TWICE: the same structure, or the block at level 1, has an item of its name before it.
    Twice,
    /// It is a member of one that does not count, and no fault itself.
    Beneath,
}

/// Whether the item to which one belongs counts, if there is one.
fn counts_over(items: &[Declared], owner: Option<usize>) -> bool
    requires { IfSome owner (λ o. o < length items.now) }
    ensures { result ≡ counts_over items.now owner }
{
    match owner {
        None => true,
        Some(number) => items[number].counts,
    }
}

/// What becomes of an item after others, where this is what counts of its path so far.
pub(crate) fn judge(items: &[Declared], owner: Option<usize>, found: Found) -> Verdict
    requires { IfSome owner (λ o. o < length items.now) }
    ensures { result ≡ judged (counts_over items.now owner) (is_found found) }
{
    if !counts_over(items, owner) {
        return Verdict::Beneath;
    }
    match found {
        Found::Nothing => Verdict::Counts,
        Found::One(_) | Found::Several => Verdict::Twice,
    }
}

/// An item that is judged.
pub(crate) fn declared_as(item: Written, verdict: Verdict) -> Declared
    ensures { result ≡ declared_as item verdict }
{
    Declared {
        name: item.name,
        owner: item.owner,
        counts: matches!(verdict, Verdict::Counts),
    }
}
