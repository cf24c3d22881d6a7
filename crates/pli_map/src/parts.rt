//! Where the parts of a description stand in it (own).
ghost use Rattle.std.specs.Prelude.{◌≡◌, ◌≤◌, ◌*◌, min, map, option_map};
ghost use Rattle.pli_map.specs.Sizes.{count_of, size_of, stride_of, end_after};
ghost use Rattle.pli_map.specs.views.DescriptionView.{description_view, members_view};
ghost use Rattle.pli_map.specs.Parts.{index_of, member_after, element_at, part_at, place_of};
ghost use Rattle.pli_map.specs.views.PartView.{step_view, part_view};

use crate::description::{Bounds, Description};
use crate::layout::OVER_LIMIT;
use crate::sizes::{alignment, measure, measure_members};

/// A step from a description to a part of it.
#[derive(Drop)]
pub enum PathStep {
    /// To the member of a structure of this number, counted from 0.
    Member(usize),
    /// To the element of an array at these subscripts, one for each dimension, in order.
    Element(Vec<i32>),
}

/// A part of a description: what it is, and how many bytes after the beginning of the whole it stands.
#[derive(Clone, Copy)]
pub struct PlacedPart<'a> {
    pub offset: u32,
    pub description: &'a Description,
}

/// The part that a path of steps leads to, in a description whose size is in SIZE_LIMIT. A path that does not fit is
/// answered by `None`: a step is of the wrong kind, a member is not there, or the subscripts are not one for each
/// dimension, within its bounds.
pub fn place<'a>(description: &'a Description, path: &[PathStep]) -> Option<PlacedPart<'a>>
    requires { size_of (description_view description.now) ≤ 1000000 }
    ensures { option_map part_view result ≡ place_of (description_view description.now) (map step_view path.now) }
{
    let mut part = PlacedPart {
        offset: 0,
        description,
    };
    for step in path {
        let inner = part_of(part.description, step)?;
        part = PlacedPart {
            offset: part.offset + inner.offset,
            description: inner.description,
        };
    }
    Some(part)
}

fn part_of<'a>(description: &'a Description, step: &PathStep) -> Option<PlacedPart<'a>>
    requires { size_of (description_view description.now) ≤ 1000000 }
    ensures { option_map part_view result ≡ part_at (description_view description.now) (step_view step.now) }
{
    match (description, step) {
        (Description::Structure(members), PathStep::Member(number)) => member(members, *number),
        (
            Description::Array {
                bounds,
                element: of,
            },
            PathStep::Element(subscripts),
        ) => element(bounds, of, subscripts),
        _ => None,
    }
}

fn member(members: &[Description], number: usize) -> Option<PlacedPart<'_>>
    requires { end_after 0 (members_view members.now) ≤ 1000000 }
    ensures { option_map part_view result ≡ member_after 0 (members_view members.now) number }
{
    if number >= members.len() {
        return None;
    }
    let description = &members[number];
    let before = measure_members(&members[..number])?;
    Some(PlacedPart {
        offset: before.bytes.next_multiple_of(alignment(description)),
        description,
    })
}

fn element<'a>(
    bounds: &[Bounds],
    description: &'a Description,
    subscripts: &[i32],
) -> Option<PlacedPart<'a>>
    requires { count_of bounds.now * stride_of (description_view description.now) ≤ 1000000 }
    ensures { option_map part_view result
        ≡ element_at bounds.now (description_view description.now) subscripts.now }
{
    let index = element_index(bounds, subscripts)?;
    let stride = measure(description)?.stride();
    Some(PlacedPart {
        offset: (index * u64::from(stride)) as u32,
        description,
    })
}

/// How many elements stand before the one at these subscripts; a number over the limit stands for every greater one.
fn element_index(dimensions: &[Bounds], subscripts: &[i32]) -> Option<u64>
    ensures { result ≡ option_map (λ k. min k 1000001) (index_of dimensions.now subscripts.now) }
{
    if dimensions.len() != subscripts.len() {
        return None;
    }
    let mut index = 0;
    for (bounds, subscript) in dimensions.iter().zip(subscripts) {
        let distance = bounds.distance_to(*subscript)?;
        index = (index * u64::from(bounds.extent()) + u64::from(distance)).min(OVER_LIMIT);
    }
    Some(index)
}
