//! The least fault of each item of a block, apart from names.
ghost use Rattle.std.specs.Prelude.{◌≡◌, map, length, List, IfOk};
ghost use Rattle.pli_base.specs.Name.{Name as Characters};
ghost use Rattle.pli_base.specs.views.DeclarationView.{item_view};
ghost use Rattle.pli_declare.specs.Faults as fault;
ghost use Rattle.pli_declare_attributes.specs.answers.Cuts.{cut_place};
ghost use Rattle.pli_declare.specs.declared.place.ItemPlace.{ItemPlace as SpecPlace};
ghost use Rattle.pli_declare.specs.Tables.{numbers_from};
ghost use Rattle.pli_declare_tables.specs.views.TableView.{entry_view, entries_view};
ghost use Rattle.pli_declare.specs.Places.{no_item, item_in};
ghost use Rattle.pli_declare.specs.Places as place;
ghost use Rattle.pli_declare_variables.specs.answers.Walks.{cut_place_in};

use pli_base::Code;
use pli_base::declaration::Item;
use pli_declare::ItemPlace;
use pli_declare_attributes::{ItemFacts, item_fault};
use pli_declare_tables::{Entity, Entry};
use std::alloc::{AllocError, Global};

/// The fault of an entry at its place, whose number of elements above may be cut at the limit, where a label and a
/// procedure are as an item without anything.
fn own_code(place: ItemPlace, entry: &Entry, nothing: &ItemFacts) -> Option<Code>
    requires { item_view nothing.now.item.now ≡ no_item }
    ensures { (p : SpecPlace) → place ≡ cut_place p
        → result ≡ fault.item_fault p (item_in (entry_view entry.now).entity) }
{
    match &entry.entity {
        Entity::Item {
            facts,
            is_bad_level: _,
        } => item_fault(place, facts),
        Entity::Label { .. } | Entity::Procedure { .. } => item_fault(place, nothing),
    }
}

/// An item without anything.
fn no_item(alloc: Global) -> Item
    ensures { item_view result ≡ no_item }
{
    Item {
        level: None,
        names: Vec::new(alloc),
        dimensions: Vec::new(alloc),
        attributes: Vec::new(alloc),
    }
}

/// The least of A3 to A7, A9 and A13 to A15 of entries, each at its place, but for the sizes of whole variables.
pub(crate) fn own_codes(
    alloc: Global,
    entries: &[Entry],
    places: &[ItemPlace],
) -> Result<Vec<Option<Code>>, AllocError>
    requires { length places.now ≡ length entries.now }
    ensures { IfOk result (λ codes. (parameters : List Characters) →
        places.now ≡ map (cut_place_in (entries_view entries.now) parameters) (numbers_from 0 (length entries.now))
        → codes.items ≡ map (place.own_code (entries_view entries.now) parameters)
        (numbers_from 0 (length entries.now))) }
{
    let nothing = no_item(alloc);
    let nothing = ItemFacts::of(alloc, &nothing)?;
    let mut codes = Vec::with_capacity(alloc, entries.len())?;
    for number in 0..entries.len() {
        codes.push(own_code(places[number], &entries[number], &nothing))?;
    }
    Ok(codes)
}
