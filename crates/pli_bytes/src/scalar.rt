//! The scalar of a description that begins on a byte, and its value.
ghost use Rattle.std.specs.Prelude.{◌≡◌, ◌≤◌, true, length, min, option_map};
ghost use Rattle.pli_bytes.specs.Contents as contents;
ghost use Rattle.pli_bytes.specs.Contents.{scalars_at, values_of, with_value_on};
ghost use Rattle.pli_map.specs.Description as tree;
ghost use Rattle.pli_map.specs.Scalars.{is_scalar};
ghost use Rattle.pli_map.specs.Sizes.{size_of};
ghost use Rattle.pli_map.specs.views.DescriptionView.{description_view, members_view};
ghost use Rattle.pli_map.specs.views.PartView.{part_view};
ghost use Rattle.pli_value.specs.Value.{value_view};

use crate::putting::put_value_at;
use crate::values::holds;
use pli_map::{Bounds, Description, PlacedPart, alignment, far_size};
use pli_value::Value;

/// Puts a value in the place of that of the scalar which begins on a byte. Nothing changes where none does, or where it
/// may not hold the value. No more than 16,777,216 bytes. Takes no memory, and time for the descriptions that stand
/// before the scalar's.
pub fn put_on(bytes: &mut [u8], description: &Description, offset: u32, value: &Value)
    requires size { length bytes.old ≡ size_of (description_view description.now) }
    requires limit { size_of (description_view description.now) ≤ 16777216 }
    ensures put { let d = description_view description.now in
        values_of d bytes.new ≡ with_value_on offset (value_view value.now) (scalars_at d) (values_of d bytes.old) }
    ensures size { length bytes.new ≡ length bytes.old }
{
    let Some(scalar) = scalar_on(description, offset) else {
        return;
    };
    if holds(scalar.description, value) {
        put_value_at(bytes, scalar.offset as usize, scalar.description, value);
    }
}

/// The scalar that begins on a byte, if one does.
#[cycle(scalar_on)]
fn scalar_on(description: &Description, offset: u32) -> Option<PlacedPart<'_>>
    requires { size_of (description_view description.now) ≤ 16777216 }
    ensures { option_map part_view result ≡ contents.scalar_on offset (scalars_at (description_view description.now)) }
{
    match description {
        Description::Array { bounds, element } => {
            let size = far_size(description);
            scalar_of_element(bounds, element, size, offset)
        }
        Description::Structure(members) => scalar_of_member(members, offset),
        Description::Area(_) => None,
        _ => alone(description, offset),
    }
}

/// The same of a scalar, which has itself alone.
fn alone(description: &Description, offset: u32) -> Option<PlacedPart<'_>>
    requires { is_scalar (description_view description.now) ≡ true }
    ensures { option_map part_view result ≡ contents.scalar_on offset (scalars_at (description_view description.now)) }
{
    if offset == 0 && far_size(description) > 0 {
        Some(PlacedPart {
            offset: 0,
            description,
        })
    } else {
        None
    }
}

/// The same of an array that takes so many bytes.
#[cycle(scalar_on)]
fn scalar_of_element<'d>(
    bounds: &[Bounds],
    element: &'d Description,
    size: u64,
    offset: u32,
) -> Option<PlacedPart<'d>>
    requires limit { size_of (tree.Array bounds.now (description_view element.now)) ≤ 16777216 }
    requires size { size ≡ min (size_of (tree.Array bounds.now (description_view element.now))) 4294967296 }
    ensures { option_map part_view result
        ≡ contents.scalar_on offset (scalars_at (tree.Array bounds.now (description_view element.now))) }
{
    let byte = u64::from(offset);
    if byte >= size {
        return None;
    }
    let stride = far_size(element).next_multiple_of(u64::from(alignment(element)));
    let inner = scalar_on(element, (byte % stride) as u32)?;
    let before = byte / stride * stride;
    Some(PlacedPart {
        offset: before as u32 + inner.offset,
        description: inner.description,
    })
}

/// The same of a structure's members.
#[cycle(scalar_on)]
fn scalar_of_member(members: &[Description], offset: u32) -> Option<PlacedPart<'_>>
    requires { size_of (tree.Structure (members_view members.now)) ≤ 16777216 }
    ensures { option_map part_view result ≡ contents.scalar_on offset
        (scalars_at (tree.Structure (members_view members.now))) }
{
    let byte = u64::from(offset);
    let mut end: u64 = 0;
    for member in members {
        let start = end.next_multiple_of(u64::from(alignment(member)));
        if byte < start {
            return None;
        }
        end = start + far_size(member);
        if byte < end {
            let inner = scalar_on(member, (byte - start) as u32)?;
            return Some(PlacedPart {
                offset: start as u32 + inner.offset,
                description: inner.description,
            });
        }
    }
    None
}
