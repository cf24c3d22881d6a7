//! Which items BASED and OFFSET may name.
ghost use Rattle.std.specs.Prelude.{◌≡◌, ◌<◌, ◌&&◌, ◌||◌, not, map, length, IfOk, IfSome};
ghost use Rattle.pli_declare.specs.Extents.{is_array};
ghost use Rattle.pli_declare.specs.Sets.{set_of, has, none_of, outermost, area, based, pointer, offset};
ghost use Rattle.pli_declare.specs.Tables.{numbers_from};
ghost use Rattle.pli_declare_tables.specs.views.TableView.{entry_view, entries_view};
ghost use Rattle.pli_declare.specs.answers.Owners.{AreAfterOwners};
ghost use Rattle.pli_declare.specs.Places.{item_in, is_variable};
ghost use Rattle.pli_declare_variables.specs.answers.Walks as walk;

use crate::items::dimensions;
use pli_declare_attributes::Named;
use pli_declare_tables::{Entity, Entry};
use std::alloc::{AllocError, Global};

/// What an item and those that it is a member of are.
#[derive(Clone, Copy)]
pub(crate) struct Chain {
    is_unsubscripted: bool,
    is_not_based: bool,
}

/// Whether BASED and OFFSET may name an item.
#[derive(Clone, Copy)]
pub(crate) struct Nameable {
    pub is_locator: bool,
    pub is_area: bool,
}

/// What the attributes of an entry make of it.
fn named(entry: &Entry) -> Named
    ensures variable { result.is_variable ≡ is_variable (entry_view entry.now).entity }
    ensures locator { result.is_locator
        ≡ (has (set_of (map outermost (item_in (entry_view entry.now).entity).attributes)) pointer
        || has (set_of (map outermost (item_in (entry_view entry.now).entity).attributes)) offset) }
    ensures area { result.is_area ≡ has (set_of (map outermost (item_in (entry_view entry.now).entity).attributes))
        area }
    ensures not_based { result.is_not_based ≡ none_of (set_of
        (map outermost (item_in (entry_view entry.now).entity).attributes)) based }
{
    match &entry.entity {
        Entity::Item {
            facts,
            is_bad_level: _,
        } => Named::of_item(facts),
        Entity::Label { .. } | Entity::Procedure { .. } => Named {
            is_variable: false,
            is_locator: false,
            is_area: false,
            is_not_based: true,
        },
    }
}

/// What those are to which a member of this owner belongs, where it is known of each item before.
fn chain_above(chains: &[Chain], owner: Option<usize>) -> Chain
    requires { IfSome owner (λ o. o < length chains.now) }
    ensures { result ≡ walk.chain_above chains.now owner }
{
    match owner {
        None => Chain {
            is_unsubscripted: true,
            is_not_based: true,
        },
        Some(owner) => chains[owner],
    }
}

/// The same with the item itself.
fn chained(entry: &Entry, named: Named, above: Chain) -> Chain
    requires { named.is_not_based ≡ none_of (set_of (map outermost (item_in (entry_view entry.now).entity).attributes))
        based }
    ensures { result ≡ walk.chain_with (item_in (entry_view entry.now).entity) above }
{
    Chain {
        is_unsubscripted: dimensions(entry).is_empty() && above.is_unsubscripted,
        is_not_based: named.is_not_based && above.is_not_based,
    }
}

/// A variable with POINTER or OFFSET, unsubscripted and not BASED, and one with AREA, unsubscripted.
fn use_of(named: Named, chain: Chain) -> Nameable
    ensures locator { result.is_locator ≡ (named.is_variable && named.is_locator && chain.is_unsubscripted
        && chain.is_not_based) }
    ensures area { result.is_area ≡ (named.is_variable && named.is_area && chain.is_unsubscripted) }
{
    Nameable {
        is_locator: named.is_variable
            && named.is_locator
            && chain.is_unsubscripted
            && chain.is_not_based,
        is_area: named.is_variable && named.is_area && chain.is_unsubscripted,
    }
}

/// Which items BASED and OFFSET may name.
pub(crate) fn nameables(alloc: Global, entries: &[Entry]) -> Result<Vec<Nameable>, AllocError>
    requires { AreAfterOwners (entries_view entries.now) }
    ensures { IfOk result (λ all. all.items ≡ map (walk.nameable_at (entries_view entries.now))
        (numbers_from 0 (length entries.now))) }
{
    let mut chains = Vec::with_capacity(alloc, entries.len())?;
    let mut all = Vec::with_capacity(alloc, entries.len())?;
    for entry in entries {
        let named = named(entry);
        let chain = chained(entry, named, chain_above(&chains, entry.owner));
        chains.push(chain)?;
        all.push(use_of(named, chain))?;
    }
    Ok(all)
}
