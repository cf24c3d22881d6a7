//! Paths of names: that of an item is its name below the path of the item that it belongs to.
ghost use Rattle.std.specs.Prelude.{◌≡◌, ◌<◌, ℕ, List, Bool, true, get_or, set, if◌then◌else◌, length, option_map};
ghost use Rattle.std.specs.Prelude.{IfSome, IfOk};
ghost use Rattle.pli_declare_scopes.specs.Scopes.{BlockItems as Items, with_number};
ghost use Rattle.pli_declare_scopes.specs.declared.found.Found.TheVariants as variants;
ghost use Rattle.pli_declare_scopes.specs.answers.Paths.{step_at, ArePaths};

use crate::found::Found;
use indexmap::IndexSet;
use pli_base::Name;
use std::alloc::{AllocError, AllocFailed, Global};

/// A name, and the number of the path that it stands below, if below any.
#[derive(Clone, Copy, PartialEq, Eq, Hash)]
pub(crate) struct Step {
    pub name: Name,
    pub above: Option<usize>,
}

/// The path of an item to which another belongs, if there is one.
pub(crate) fn path_above(paths: &[usize], owner: Option<usize>) -> Option<usize>
    requires { IfSome owner (λ o. o < length paths.now) }
    ensures { result ≡ option_map (λ o. get_or paths.now o 0) owner }
{
    match owner {
        Some(owner) => Some(paths[owner]),
        None => None,
    }
}

/// The number of a path, which is a new one where no path is such.
pub(crate) fn path_of(
    steps: &mut IndexSet<Step>,
    ended: &mut Vec<Found>,
    step: Step,
) -> Result<usize, AllocError>
    ensures there { IfOk result (λ p. (p < length steps.new.keys) × (step_at steps.new.keys p ≡ step)) }
    ensures kept { (items : Items) (paths : List ℕ) → ArePaths items steps.old.keys paths ended.old.items →
        ArePaths items steps.new.keys paths ended.new.items }
{
    ended.reserve(1)?;
    let (path, is_new) = steps.insert_full(step)?;
    if is_new {
        ended.push(Found::Nothing)?;
    }
    Ok(path)
}

/// Notes an item that ends a path, if it counts.
pub(crate) fn note_end(ended: &mut Vec<Found>, path: usize, counts: bool, number: usize)
    requires { path < length ended.old.items }
    ensures { ended.new.items ≡ (if counts then set ended.old.items path
        (with_number number (get_or ended.old.items path variants.Nothing)) else ended.old.items) }
{
    if counts {
        ended[path] = ended[path].with_number(number);
    }
}
