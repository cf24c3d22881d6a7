//! Where the scalars of a description stand, so that one is found in a few steps for each level.
ghost use Rattle.std.specs.Prelude.{◌≡◌, ◌≤◌, ◌<◌, ◌-◌, ◌%◌, length, get_or, option_map, IfOk};
ghost use Rattle.pli_map.specs.Description as tree;
ghost use Rattle.pli_map.specs.Sizes.{alignment_of, size_of};
ghost use Rattle.pli_map.specs.views.DescriptionView.{description_view, members_view};
ghost use Rattle.pli_deck_write.specs.DeckFaults as faults;
ghost use Rattle.pli_deck_faults.specs.Places.{places_of, placed_of, places_view, placed_view};

use pli_map::{Description, Layout, measure};
use std::alloc::{AllocError, Global};

/// Where the scalars of a description of at most 1,000,000 bytes stand.
#[derive(Drop)]
pub enum Places {
    /// An array of no bytes.
    Nothing,
    /// A scalar.
    One(Description),
    /// The elements of an array of so many bytes, from one to the next so many.
    Elements {
        bytes: u32,
        stride: u32,
        element: Box<Places>,
    },
    /// The members of a structure, and on which bytes they start and end.
    Among {
        starts: Vec<u32>,
        ends: Vec<u32>,
        members: Vec<Places>,
    },
}

/// What a description takes, in bytes, and where its scalars stand.
#[derive(Drop)]
pub struct DescriptionExtent {
    pub bytes: u32,
    pub places: Places,
}

/// The layout of a description that is not too large.
fn layout_of(description: &Description) -> Layout
    requires { size_of (description_view description.now) ≤ 1000000 }
    ensures bytes { result.bytes ≡ size_of (description_view description.now) }
    ensures alignment { result.alignment ≡ alignment_of (description_view description.now) }
{
    match measure(description) {
        Some(layout) => layout,
        None => Layout::empty(),
    }
}

/// The places of a description.
#[cycle(places)]
fn places_of(alloc: Global, description: &Description) -> Result<Places, AllocError>
    requires { size_of (description_view description.now) ≤ 1000000 }
    ensures { IfOk result (λ places. places_view places ≡ places_of (description_view description.now)) }
{
    match description {
        Description::FixedBinary(precision) => {
            Ok(Places::One(Description::FixedBinary(*precision)))
        }
        Description::Character(length) => Ok(Places::One(Description::Character(*length))),
        Description::Varying(length) => Ok(Places::One(Description::Varying(*length))),
        Description::Bit(length) => Ok(Places::One(Description::Bit(*length))),
        Description::Pointer => Ok(Places::One(Description::Pointer)),
        Description::Offset => Ok(Places::One(Description::Offset)),
        Description::Area(bytes) => Ok(Places::One(Description::Area(*bytes))),
        Description::Array { element, .. } => {
            let bytes = layout_of(description).bytes;
            if bytes == 0 {
                return Ok(Places::Nothing);
            }
            let stride = layout_of(element).stride();
            let inner = places_of(alloc, element)?;
            Ok(Places::Elements {
                bytes,
                stride,
                element: Box::new(alloc, inner)?,
            })
        }
        Description::Structure(members) => places_among(alloc, members),
    }
}

/// The places of members.
#[cycle(places)]
fn places_among(alloc: Global, members: &[Description]) -> Result<Places, AllocError>
    requires { size_of (tree.Structure (members_view members.now)) ≤ 1000000 }
    ensures { IfOk result (λ places. places_view places ≡ places_of (tree.Structure (members_view members.now))) }
{
    let mut starts = Vec::new(alloc);
    let mut ends = Vec::new(alloc);
    let mut inner = Vec::new(alloc);
    let mut at: u32 = 0;
    for member in members {
        let layout = layout_of(member);
        let start = at.next_multiple_of(layout.alignment);
        at = start + layout.bytes;
        starts.push(start)?;
        ends.push(at)?;
        inner.push(places_of(alloc, member)?)?;
    }
    Ok(Places::Among {
        starts,
        ends,
        members: inner,
    })
}

/// What a description takes, and where its scalars stand; `None` of one that is too large. An error comes where memory
/// runs out.
pub fn placed_scalars(
    alloc: Global,
    description: &Description,
) -> Result<Option<DescriptionExtent>, AllocError>
    ensures { IfOk result (λ p. option_map placed_view p ≡ placed_of (description_view description.now)) }
{
    let Some(layout) = measure(description) else {
        return Ok(None);
    };
    let places = places_of(alloc, description)?;
    Ok(Some(DescriptionExtent {
        bytes: layout.bytes,
        places,
    }))
}

/// The number of the first member that ends after an offset, where each ends no earlier than the one before; how many
/// there are, if none does.
fn first_over(ends: &[u32], offset: u32) -> usize
    ensures bound { result ≤ length ends.now }
    ensures before { 0 < result → get_or ends.now (result - 1) 0 ≤ offset }
    ensures here { result < length ends.now → offset < get_or ends.now result 0 }
{
    let mut low = 0;
    let mut high = ends.len();
    while low < high {
        let middle = low + (high - low) / 2;
        if ends[middle] <= offset {
            low = middle + 1;
        } else {
            high = middle;
        }
    }
    low
}

/// What is left of an offset after as many strides as it has; a stride of no bytes is in it no time.
fn left_over(offset: u32, stride: u32) -> u32
    ensures { result ≡ offset % stride }
{
    if stride == 0 { offset } else { offset % stride }
}

/// The scalar that stands so many bytes after the beginning. Takes a few steps for each level, and no memory.
#[cycle(scalar_at)]
pub fn scalar_at(places: &Places, offset: u32) -> Option<&Description>
    ensures { (d : tree.Description) → places_view places.now ≡ places_of d →
        option_map (λ scalar. description_view scalar.now) result ≡ faults.scalar_at d offset }
{
    match places {
        Places::Nothing => None,
        Places::One(scalar) => { if offset == 0 { Some(scalar) } else { None } }
        Places::Elements {
            bytes,
            stride,
            element,
        } => {
            if offset < *bytes {
                scalar_at(element, left_over(offset, *stride))
            } else {
                None
            }
        }
        Places::Among {
            starts,
            ends,
            members,
        } => {
            let number = first_over(ends, offset);
            if number >= starts.len() || number >= members.len() {
                return None;
            }
            let start = starts[number];
            if offset < start {
                return None;
            }
            scalar_at(&members[number], offset - start)
        }
    }
}
