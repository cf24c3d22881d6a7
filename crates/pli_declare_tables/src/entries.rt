//! What marks declare.
ghost use Rattle.std.specs.Prelude.{◌≡◌, ◌++◌, [], ◌∷◌, map, length, OnOk, IfOk};
ghost use Rattle.std.specs.List.{flat_map};
ghost use Rattle.pli_base.specs.views.DeclarationView.{item_view};
ghost use Rattle.pli_declare_outline.specs.views.OutlineView.{mark_view};
ghost use Rattle.pli_declare.specs.Tables.{named, item_entries, declared_entries, entries_of};
ghost use Rattle.pli_declare_tables.specs.views.TableView.{named_view, entity_view, entries_view};
ghost use Rattle.pli_declare.specs.answers.Owners.{StandAfterOwners};

use crate::entry::{Entity, Entry};
use pli_base::declaration::Item;
use pli_base::syntax::Identifier;
use pli_declare_attributes::ItemFacts;
use pli_declare_outline::Mark;
use pli_declare_scopes::{ItemStanding, standings};
use std::alloc::{AllocError, AllocFailed, Global};

/// A name of an item.
#[derive(Clone, Copy)]
struct NamedItem<'a> {
    identifier: Identifier,
    facts: ItemFacts<'a>,
}

/// The names of an item, after those of others.
fn add_names<'a>(names: &mut Vec<NamedItem<'a>>, facts: ItemFacts<'a>) -> Result<(), AllocError>
    ensures { OnOk result (map named_view names.new.items ≡ map named_view names.old.items
        ++ named (item_view facts.entry.item.now)) }
{
    names.reserve(facts.item.names.len())?;
    for identifier in facts.item.names.iter() {
        let named = NamedItem {
            identifier: *identifier,
            facts,
        };
        if names.push(named).is_err() {
            return Err(AllocError);
        }
    }
    Ok(())
}

/// The names of items.
fn names_of<'a>(alloc: Global, items: &'a [Item]) -> Result<Vec<NamedItem<'a>>, AllocError>
    ensures { IfOk result (λ names. map named_view names.items ≡ flat_map named (map item_view items.now)) }
{
    let mut names = Vec::with_capacity(alloc, items.len())?;
    for item in items {
        add_names(&mut names, ItemFacts::of(alloc, item)?)?;
    }
    Ok(names)
}

/// The level of each name, if one is written.
fn levels_of(alloc: Global, names: &[NamedItem<'_>]) -> Result<Vec<Option<u64>>, AllocError>
    ensures { IfOk result (λ levels. levels.items ≡ map (λ x. x.1.level) (map named_view names.now)) }
{
    let mut levels = Vec::with_capacity(alloc, names.len())?;
    for named in names {
        levels.push(named.facts.item.level)?;
    }
    Ok(levels)
}

/// One more name.
pub fn add_entry<'a>(
    entries: &mut Vec<Entry<'a>>,
    identifier: Identifier,
    owner: Option<usize>,
    entity: Entity<'a>,
) -> Result<(), AllocError>
    ensures { OnOk result (entries_view entries.new.items
        ≡ entries_view entries.old.items ++ record {
          identifier = identifier;
          owner = owner;
          entity = entity_view entity.entry;
        } ∷ []) }
{
    let entry = Entry {
        identifier,
        owner,
        entity,
    };
    if entries.push(entry).is_err() {
        return Err(AllocError);
    }
    Ok(())
}

/// The names of a DECLARE, from how they stand in it.
fn add_items<'a>(
    entries: &mut Vec<Entry<'a>>,
    names: &[NamedItem<'a>],
    standings: &[ItemStanding],
) -> Result<(), AllocError>
    requires { StandAfterOwners standings.now }
    ensures { OnOk result (entries_view entries.new.items
        ≡ entries_view entries.old.items ++ item_entries (length entries.old.items)
        (map named_view names.now) standings.now) }
{
    let base = entries.len();
    for (named, standing) in names.iter().zip(standings) {
        let owner = match standing.owner {
            None => None,
            Some(owner) => Some(base + owner),
        };
        let entity = Entity::Item {
            facts: named.facts,
            is_bad_level: standing.is_bad,
        };
        add_entry(entries, named.identifier, owner, entity)?;
    }
    Ok(())
}

/// What a DECLARE of these items declares.
fn declare_items<'a>(
    alloc: Global,
    entries: &mut Vec<Entry<'a>>,
    items: &'a [Item],
) -> Result<(), AllocError>
    ensures { OnOk result (entries_view entries.new.items
        ≡ entries_view entries.old.items ++ declared_entries (length entries.old.items)
        (flat_map named (map item_view items.now))) }
{
    let names = names_of(alloc, items)?;
    let levels = levels_of(alloc, &names)?;
    let standings = standings(alloc, &levels)?;
    entries.reserve(names.len())?;
    add_items(entries, &names, &standings)
}

/// What a mark of a region declares, after what its block declares before it.
pub fn declare<'a>(
    alloc: Global,
    entries: &mut Vec<Entry<'a>>,
    region: usize,
    mark: &Mark<'a>,
) -> Result<(), AllocError>
    ensures { OnOk result (entries_view entries.new.items
        ≡ entries_view entries.old.items ++ entries_of (length entries.old.items) region (mark_view mark.now)) }
{
    match mark {
        Mark::Declared(items) => declare_items(alloc, entries, items),
        Mark::Labelled(label) => add_entry(entries, *label, None, Entity::Label { region }),
        Mark::Entered { procedure, region } => {
            let entity = Entity::Procedure {
                procedure,
                region: *region,
            };
            add_entry(entries, procedure.name, None, entity)
        }
        Mark::Used(_) | Mark::Jumped(_) => Ok(()),
    }
}
