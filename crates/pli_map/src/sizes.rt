//! How many bytes a description takes, and on which bytes it may stand (own).
ghost use Rattle.std.specs.Prelude.{◌≡◌, ◌<◌, ◌≤◌, ◌+◌, ◌*◌, ◌^◌, min, max, SomeIff};
ghost use Rattle.std.specs.Int.{next_multiple_of};
ghost use Rattle.pli_map.specs.Sizes.{count_of, alignment_of, greatest_alignment, size_of, end_after, stride_of};
ghost use Rattle.pli_map.specs.Sizes.{number_bytes};
ghost use Rattle.pli_map.specs.views.DescriptionView.{description_view, members_view};
ghost use Rattle.pli_map.specs.Layouts.{IsLayout};

use crate::description::{Bounds, Description};
use crate::layout::{Layout, OVER_LIMIT};

/// The size in bytes, or `None` where it is over SIZE_LIMIT.
pub fn size(description: &Description) -> Option<u32>
    ensures { SomeIff result (size_of (description_view description.now) ≤ 1000000)
        (size_of (description_view description.now)) }
{
    Some(measure(description)?.bytes)
}

/// The alignment in bytes: 1, 2, 4 or 8. A description stands on a byte whose number is a multiple of it.
#[cycle(alignment)]
#[tactic(auto, using(crate::proofs::Alignments::alignment_positive, crate::proofs::Alignments::alignment_small))]
pub fn alignment(description: &Description) -> u32
    ensures value { result ≡ alignment_of (description_view description.now) }
    ensures positive { 0 < result }
    ensures small { result ≤ 8 }
{
    match description {
        Description::FixedBinary(precision) => fixed_binary_size(u64::from(*precision)),
        Description::Character(_) | Description::Bit(_) => 1,
        Description::Varying(_) => 2,
        Description::Pointer | Description::Offset => 4,
        Description::Area(_) => 8,
        Description::Array { bounds: _, element } => alignment(element),
        Description::Structure(members) => members_alignment(members),
    }
}

#[cycle(alignment)]
fn members_alignment(members: &[Description]) -> u32
    ensures value { result ≡ greatest_alignment (members_view members.now) }
    ensures positive { 0 < result }
    ensures small { result ≤ 8 }
{
    let mut greatest = 1;
    for member in members {
        greatest = alignment(member).max(greatest);
    }
    greatest
}

/// The bytes of FIXED BINARY of so many digits, which are its alignment too: 2 up to 15, 4 up to 31, and else 8 (own).
#[inline(always)]
pub fn fixed_binary_size(precision: u64) -> u32
    ensures { result ≡ number_bytes precision }
{
    match precision {
        0..=15 => 2,
        16..=31 => 4,
        _ => 8,
    }
}

/// The next multiple of an alignment at or after a place. Those of 1, 2, 4 and 8 bytes need no division.
#[inline(always)]
pub fn aligned(place: u64, alignment: u64) -> u64
    requires nonzero { 0 < alignment }
    requires fits { next_multiple_of place alignment < 2 ^ 64 }
    ensures value { result ≡ next_multiple_of place alignment }
    ensures lower_bound { place ≤ result }
    ensures upper_bound { result < place + alignment }
{
    match alignment {
        1 => place.next_multiple_of(1),
        2 => place.next_multiple_of(2),
        4 => place.next_multiple_of(4),
        8 => place.next_multiple_of(8),
        _ => place.next_multiple_of(alignment),
    }
}

/// What a description takes, or `None` where its size is over SIZE_LIMIT.
#[cycle(measure)]
pub fn measure(description: &Description) -> Option<Layout>
    ensures { let d = description_view description.now in IsLayout result (size_of d) (alignment_of d) }
{
    match description {
        Description::FixedBinary(precision) => {
            let bytes = fixed_binary_size(u64::from(*precision));
            Layout::of(u64::from(bytes), bytes)
        }
        Description::Character(length) => Layout::of(u64::from(*length), 1),
        Description::Varying(length) => Layout::of(2 + u64::from(*length), 2),
        Description::Bit(length) => Layout::of(u64::from(length.div_ceil(8)), 1),
        Description::Pointer => Layout::of(8, 4),
        Description::Offset => Layout::of(4, 4),
        Description::Area(bytes) => Layout::of(u64::from(*bytes).next_multiple_of(8), 8),
        Description::Array { bounds, element } => measure_array(bounds, element),
        Description::Structure(members) => measure_members(members),
    }
}

#[cycle(measure)]
fn measure_array(bounds: &[Bounds], element: &Description) -> Option<Layout>
    ensures { let d = description_view element.now in
        IsLayout result (count_of bounds.now * stride_of d) (alignment_of d) }
{
    let count = element_count(bounds);
    if count == 0 {
        return Layout::of(0, alignment(element));
    }
    let one = measure(element)?;
    Layout::of(count * u64::from(one.stride()), one.alignment)
}

/// What members take one after the other.
#[cycle(measure)]
pub fn measure_members(members: &[Description]) -> Option<Layout>
    ensures { let ds = members_view members.now in IsLayout result (end_after 0 ds) (greatest_alignment ds) }
{
    let mut whole = Layout::empty();
    for member in members {
        whole = whole.and(measure(member)?)?;
    }
    Some(whole)
}

/// How many elements an array of these bounds has; a number over the limit stands for every greater one.
fn element_count(dimensions: &[Bounds]) -> u64
    ensures { result ≡ min (count_of dimensions.now) 1000001 }
{
    let mut count = 1;
    for bounds in dimensions {
        count = (count * u64::from(bounds.extent())).min(OVER_LIMIT);
    }
    count
}
