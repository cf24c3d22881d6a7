//! Where the items of a block stand.
ghost use Rattle.std.specs.Prelude.{◌≡◌, ◌<◌, ◌≤◌, ◌||◌, ◌&&◌, ◌==◌, Bool, false, map, length, get_or, IfOk, IfSome};
ghost use Rattle.std.specs.List.{list_any};
ghost use Rattle.pli_base.specs.Name.{Name};
ghost use Rattle.pli_base.specs.Words.{same_name};
ghost use Rattle.pli_declare.specs.Extents.{is_array};
ghost use Rattle.pli_declare.specs.Initials.{elements_inside};
ghost use Rattle.pli_declare_attributes.specs.answers.Cuts.{cut};
ghost use Rattle.pli_declare.specs.Tables.{no_entry, numbers_from};
ghost use Rattle.pli_declare_tables.specs.views.TableView.{entry_view, entries_view};
ghost use Rattle.pli_declare.specs.answers.Owners.{AreAfterOwners};
ghost use Rattle.pli_declare.specs.Places.{item_in, is_bad_level, stands_alone, is_built_in, position_of};
ghost use Rattle.pli_declare_variables.specs.answers.Walks.{has_members_at, above_at, above_owner, placed};
ghost use Rattle.pli_declare_variables.specs.answers.Walks.{cut_place_in};

use crate::items::{self, dimensions};
use indexmap::IndexSet;
use pli_base::Name;
use pli_base::declaration::WrittenBounds;
use pli_declare::{ItemPlace, Position, is_built_in};
use pli_declare_attributes::elements_within;
use pli_declare_tables::Entry;
use std::alloc::{AllocError, AllocFailed, Global};

/// What the levels above an item make.
#[derive(Clone, Copy)]
pub(crate) struct LevelsAbove {
    /// Whether one of them has dimensions.
    in_array: bool,
    /// How many elements they make, up to a limit, where none of them has bad bounds.
    elements: Option<u128>,
}

impl LevelsAbove {
    /// With a level more, which is the next one below.
    fn and(self, dimensions: &[WrittenBounds]) -> LevelsAbove
        ensures in_array { result.in_array ≡ (is_array dimensions.now || self.in_array) }
        ensures elements { result.elements ≡ cut (elements_inside self.elements dimensions.now) }
    {
        LevelsAbove {
            in_array: !dimensions.is_empty() || self.in_array,
            elements: elements_within(self.elements, dimensions),
        }
    }
}

/// What the levels above a member of this owner make, where it is known of each item before.
fn above(aboves: &[LevelsAbove], entries: &[Entry], owner: Option<usize>) -> LevelsAbove
    requires before { IfSome owner (λ o. o < length aboves.now) }
    requires within { length aboves.now ≤ length entries.now }
    ensures { result ≡ above_owner aboves.now (entries_view entries.now) owner }
{
    match owner {
        None => LevelsAbove {
            in_array: false,
            elements: Some(1),
        },
        Some(owner) => aboves[owner].and(dimensions(&entries[owner])),
    }
}

/// What the levels above each item make.
fn aboves(alloc: Global, entries: &[Entry]) -> Result<Vec<LevelsAbove>, AllocError>
    requires { AreAfterOwners (entries_view entries.now) }
    ensures { IfOk result (λ aboves. aboves.items ≡ map (above_at (entries_view entries.now))
        (numbers_from 0 (length entries.now))) }
{
    let mut aboves = Vec::with_capacity(alloc, entries.len())?;
    for entry in entries {
        let above = above(&aboves, entries, entry.owner);
        aboves.push(above)?;
    }
    Ok(aboves)
}

/// Which items have members.
fn with_members(alloc: Global, entries: &[Entry]) -> Result<Vec<bool>, AllocError>
    requires { AreAfterOwners (entries_view entries.now) }
    ensures { IfOk result (λ marks. marks.items ≡ map (has_members_at (entries_view entries.now))
        (numbers_from 0 (length entries.now))) }
{
    let mut marks = vec![in alloc; false; entries.len()]?;
    for entry in entries {
        if let Some(owner) = entry.owner {
            marks[owner] = true;
        }
    }
    Ok(marks)
}

/// Names, to be looked up.
fn set_of(alloc: Global, names: &[Name]) -> Result<IndexSet<Name>, AllocError>
    ensures { IfOk result (λ set. (name : Name) → list_any (same_name name) set.keys
        ≡ list_any (same_name name) names.now) }
{
    let mut set = IndexSet::new(alloc);
    for name in names {
        set.insert(*name)?;
    }
    Ok(set)
}

/// Which rules hold for an entry, whose name is a parameter's or not.
fn position(entry: &Entry, is_named: bool) -> Position
    ensures { result ≡ position_of (stands_alone (entry_view entry.now)) is_named
        (is_bad_level (entry_view entry.now).entity) }
{
    let stands_alone = entry.owner.is_none();
    if stands_alone && is_named {
        Position::Parameter
    } else if stands_alone && !items::is_bad_level(entry) {
        Position::AtLevelOne
    } else {
        Position::Member
    }
}

/// Where an item stands.
fn place(
    entry: &Entry,
    parameters: &IndexSet<Name>,
    has_members: bool,
    above: LevelsAbove,
) -> ItemPlace
    ensures { result ≡ placed (entry_view entry.now) parameters.now.keys has_members above }
{
    let name = entry.identifier.name;
    ItemPlace {
        position: position(entry, parameters.contains(&name)),
        has_members,
        in_array: above.in_array,
        elements_above: above.elements,
        built_in_name: is_built_in(name),
    }
}

/// Where each item stands, with its elements above up to a limit, where the parameters are those of the procedure that
/// is the block.
pub(crate) fn places(
    alloc: Global,
    entries: &[Entry],
    parameters: &[Name],
) -> Result<Vec<ItemPlace>, AllocError>
    requires { AreAfterOwners (entries_view entries.now) }
    ensures { IfOk result (λ places. places.items ≡ map (cut_place_in (entries_view entries.now) parameters.now)
        (numbers_from 0 (length entries.now))) }
{
    let aboves = aboves(alloc, entries)?;
    let marks = with_members(alloc, entries)?;
    let mut places = Vec::with_capacity(alloc, entries.len())?;
    let parameters = set_of(alloc, parameters)?;
    for number in 0..entries.len() {
        let place = place(&entries[number], &parameters, marks[number], aboves[number]);
        places.push(place)?;
    }
    Ok(places)
}
