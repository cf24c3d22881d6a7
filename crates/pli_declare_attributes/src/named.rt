//! What an item is to BASED and OFFSET, which name others.
ghost use Rattle.std.specs.Prelude.{◌≡◌, ◌+◌, ◌||◌, map};
ghost use Rattle.pli_base.specs.views.DeclarationView.{item_view};
ghost use Rattle.pli_declare.specs.Sets.{has, none_of, set_of, outermost, entry, built_in, based, pointer};
ghost use Rattle.pli_declare.specs.Sets.{offset, area};

use crate::facts::ItemFacts;
use crate::set::AttributeSet;

/// What attributes make of an item that BASED or OFFSET may name.
#[derive(Clone, Copy)]
pub struct Named {
    /// Neither an entry nor a built-in function.
    pub is_variable: bool,
    /// With POINTER or OFFSET.
    pub is_locator: bool,
    pub is_area: bool,
    pub is_not_based: bool,
}

impl Named {
    /// Of an item.
    pub fn of_item(facts: &ItemFacts) -> Named
        ensures variable { result.is_variable ≡ none_of (set_of
            (map outermost (item_view facts.now.item.now).attributes)) (entry + built_in) }
        ensures locator { result.is_locator ≡ (has (set_of (map outermost (item_view facts.now.item.now).attributes))
            pointer || has (set_of (map outermost (item_view facts.now.item.now).attributes)) offset) }
        ensures area { result.is_area ≡ has (set_of (map outermost (item_view facts.now.item.now).attributes)) area }
        ensures not_based { result.is_not_based ≡ none_of (set_of
            (map outermost (item_view facts.now.item.now).attributes)) based }
    {
        let set = facts.summary.set;
        let other = AttributeSet::ENTRY.and(AttributeSet::BUILTIN);
        Named {
            is_variable: set.has_none_of(other),
            is_locator: set.has(AttributeSet::POINTER) || set.has(AttributeSet::OFFSET),
            is_area: set.has(AttributeSet::AREA),
            is_not_based: set.has_none_of(AttributeSet::BASED),
        }
    }
}
