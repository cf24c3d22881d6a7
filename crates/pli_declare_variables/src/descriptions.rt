//! The descriptions of variables.
ghost use Rattle.std.specs.Prelude.{◌≡◌, ◌<◌, map, option_map, length, IfOk};
ghost use Rattle.pli_map.specs.views.DescriptionView.{description_view, members_view};
ghost use Rattle.pli_declare.specs.Tables.{numbers_from};
ghost use Rattle.pli_declare_tables.specs.views.TableView.{entries_view};
ghost use Rattle.pli_declare.specs.answers.Owners.{AreAfterOwners};
ghost use Rattle.pli_declare.specs.Places.{members_of};
ghost use Rattle.pli_declare.specs.Descriptions.{described, members_made, ShapesAreSound};

use crate::items::{dimensions, scalar};
use crate::sizes::has_bad_shape;
use pli_base::Code;
use pli_declare_attributes::array_description;
use pli_declare_tables::Entry;
use pli_map::Description;
use std::alloc::{AllocError, Global};

/// The description of an item, where neither it nor an item in it has one of A3 to A7. It recurs as deep as structures
/// nest.
#[cycle(describe)]
pub(crate) fn describe(
    alloc: Global,
    entries: &[Entry],
    members: &[Vec<usize>],
    codes: &[Option<Code>],
    number: usize,
) -> Result<Option<Description>, AllocError>
    requires owners { AreAfterOwners (entries_view entries.now) }
    requires members { map (λ v. v.items) members.now ≡ map (members_of (entries_view entries.now))
        (numbers_from 0 (length entries.now)) }
    requires sound { ShapesAreSound (entries_view entries.now) codes.now }
    requires within { number < length entries.now }
    ensures { IfOk result (λ d. option_map description_view d
        ≡ described (length entries.now) (entries_view entries.now) codes.now number) }
{
    if has_bad_shape(codes, number) {
        return Ok(None);
    }
    let entry = &entries[number];
    let element = if members[number].is_empty() {
        scalar(entry)
    } else {
        match describe_members(alloc, entries, members, codes, number)? {
            Some(inside) => Description::Structure(inside),
            None => return Ok(None),
        }
    };
    Ok(Some(array_description(alloc, dimensions(entry), element)?))
}

/// The descriptions of an item's members, where each is known.
#[cycle(describe)]
fn describe_members(
    alloc: Global,
    entries: &[Entry],
    members: &[Vec<usize>],
    codes: &[Option<Code>],
    owner: usize,
) -> Result<Option<Vec<Description>>, AllocError>
    requires owners { AreAfterOwners (entries_view entries.now) }
    requires members { map (λ v. v.items) members.now ≡ map (members_of (entries_view entries.now))
        (numbers_from 0 (length entries.now)) }
    requires sound { ShapesAreSound (entries_view entries.now) codes.now }
    requires within { owner < length entries.now }
    ensures { IfOk result (λ inside. option_map (λ v. members_view v.items) inside
        ≡ members_made (described (length entries.now) (entries_view entries.now) codes.now)
        (members_of (entries_view entries.now) owner)) }
{
    let numbers = members[owner].as_slice();
    let mut inside = Vec::with_capacity(alloc, numbers.len())?;
    for number in numbers {
        match describe(alloc, entries, members, codes, *number)? {
            Some(description) => inside.push(description)?,
            None => return Ok(None),
        }
    }
    Ok(Some(inside))
}
