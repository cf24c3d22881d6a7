//! Levels: which item each declared item belongs to.
ghost use Rattle.std.specs.Prelude.{◌≡◌, ℕ, ◌≤◌, IfOk};
ghost use Rattle.pli_declare_scopes.specs.Levels.{level_of, owner_of, is_bad, nearest, standing, standings_of};

use std::alloc::{AllocError, Global};

/// An item of a list, by its number, with its level.
#[derive(Clone, Copy)]
pub struct Numbered {
    pub number: usize,
    pub level: u64,
}

/// How an item stands in its list.
#[derive(Clone, Copy)]
pub struct ItemStanding {
    /// The number of the item that it is a member of; none where it is a variable of its own.
    pub owner: Option<usize>,
    /// Whether its level is a fault, A8 BAD LEVEL: 0, over 255, or over 1 with no lesser level before it (own).
    pub is_bad: bool,
}

/// How an item of this level stands, where this is the nearest before it with a lesser level.
fn standing_after(level: u64, nearest: Option<usize>) -> ItemStanding
    ensures { result ≡ standing level nearest }
{
    ItemStanding {
        owner: if level > 1 { nearest } else { None },
        is_bad: level == 0 || level > 255 || level > 1 && nearest.is_none(),
    }
}

/// The nearest item with a lesser level. Items that no later one can belong to are taken out.
fn nearest_among(before: &mut Vec<Numbered>, level: u64) -> Option<usize>
    ensures found { result ≡ nearest level before.old.items }
    ensures kept { (l : ℕ) → l ≤ level → nearest l before.new.items ≡ nearest l before.old.items }
{
    while let Some(item) = before.last() {
        if item.level < level {
            return Some(item.number);
        }
        before.pop();
    }
    None
}

/// How the items of a list stand, from their levels: one of a level over 1 belongs to the nearest item before it with a
/// lesser level (X3.74). An item without a level has level 1; one of level 0 is a variable of its own, to which later
/// items of levels over 1 may belong (own).
pub fn standings(alloc: Global, levels: &[Option<u64>]) -> Result<Vec<ItemStanding>, AllocError>
    ensures { IfOk result (λ standings. standings.items ≡ standings_of levels.now) }
{
    let mut before = Vec::new(alloc);
    let mut standings = Vec::with_capacity(alloc, levels.len())?;
    for (number, written) in levels.iter().enumerate() {
        let level = written.unwrap_or(1);
        let nearest = nearest_among(&mut before, level);
        standings.push(standing_after(level, nearest))?;
        before.push(Numbered { number, level })?;
    }
    Ok(standings)
}
