//! The values laid down with which scalars begin.
ghost use Rattle.std.specs.Prelude.{◌≡◌, ◌≤◌, ◌<◌, ◌+◌, length, replicate, true, false, MatchOption};
ghost use Rattle.pli_bytes.specs.answers.Laying.{LaidAt, begins_with, all_begin_with};
ghost use Rattle.pli_bytes.specs.Contents.{values_of, with_bytes_at};
ghost use Rattle.pli_map.specs.Description as tree;
ghost use Rattle.pli_map.specs.Scalars.{scalars_in, scalars_of};
ghost use Rattle.pli_map.specs.Sizes.{size_of};
ghost use Rattle.pli_map.specs.Values.{are_held, first_values};
ghost use Rattle.pli_map.specs.views.DescriptionView.{description_view, members_view};

use pli_map::{Bounds, Description, alignment, far_size, scalars_in};

/// Lays down the values with which the scalars of a description begin, in as many bytes as it takes: zeros, blanks,
/// empty strings, null locators. What the bytes of an area are then is not said. No more than 16,777,216 bytes. Takes
/// no memory.
pub fn lay_first(description: &Description, bytes: &mut [u8])
    requires size { length bytes.old ≡ size_of (description_view description.now) }
    requires limit { size_of (description_view description.now) ≤ 16777216 }
    ensures laid { let d = description_view description.now in values_of d bytes.new ≡ first_values d }
    ensures held { let d = description_view description.now in are_held (scalars_of d) (values_of d bytes.new) ≡ true }
    ensures size { length bytes.new ≡ length bytes.old }
{
    lay_first_at(bytes, 0, description);
}

/// The same for a description that stands at a byte.
#[cycle(lay_first)]
fn lay_first_at(bytes: &mut [u8], at: usize, description: &Description)
    requires within { at + size_of (description_view description.now) ≤ length bytes.old }
    requires limit { size_of (description_view description.now) ≤ 16777216 }
    ensures { let d = description_view description.now in LaidAt at d (first_values d) bytes.old bytes.new }
{
    let size = far_size(description) as usize;
    if let Some(byte) = first_byte(description) {
        fill(bytes, at, size, byte);
        return;
    }
    match description {
        Description::Array { bounds, element } => {
            if scalars_in(description) == 0 {
                return;
            }
            lay_first_elements(bytes, at, bounds, element, size);
        }
        Description::Structure(members) => lay_first_members(bytes, at, members),
        Description::FixedBinary(_)
        | Description::Character(_)
        | Description::Varying(_)
        | Description::Bit(_)
        | Description::Pointer
        | Description::Offset
        | Description::Area(_) => unreachable!(),
    }
}

/// The byte with which each scalar of a description begins, if it is the same one.
fn first_byte(description: &Description) -> Option<u8>
    ensures { MatchOption result ((begins_with 0 (description_view description.now) ≡ false)
        × (begins_with 32 (description_view description.now) ≡ false))
        (λ byte. begins_with byte (description_view description.now) ≡ true) }
{
    if begins_with(0, description) {
        Some(0)
    } else if begins_with(b' ', description) {
        Some(b' ')
    } else {
        None
    }
}

/// Whether each scalar begins with the value that it holds where all of its bytes are this one.
#[cycle(begins_with)]
fn begins_with(byte: u8, description: &Description) -> bool
    ensures { result ≡ begins_with byte (description_view description.now) }
{
    match description {
        Description::FixedBinary(_)
        | Description::Varying(_)
        | Description::Bit(_)
        | Description::Pointer
        | Description::Offset => byte == 0,
        Description::Character(_) => byte == b' ',
        Description::Area(_) => true,
        Description::Array { bounds: _, element } => begins_with(byte, element),
        Description::Structure(members) => all_begin_with(byte, members),
    }
}

#[cycle(begins_with)]
fn all_begin_with(byte: u8, members: &[Description]) -> bool
    ensures { result ≡ all_begin_with byte (members_view members.now) }
{
    for member in members {
        if !begins_with(byte, member) {
            return false;
        }
    }
    true
}

/// So many bytes from one on become this one.
pub fn fill(bytes: &mut [u8], at: usize, size: usize, byte: u8)
    requires { at + size ≤ length bytes.old }
    ensures { bytes.new ≡ with_bytes_at at (replicate size byte) bytes.old }
{
    bytes[at..at + size].fill(byte);
}

/// The same of the elements of an array that takes so many bytes.
#[cycle(lay_first)]
fn lay_first_elements(
    bytes: &mut [u8],
    at: usize,
    bounds: &[Bounds],
    element: &Description,
    size: usize,
)
    requires within { at + size ≤ length bytes.old }
    requires limit { size ≤ 16777216 }
    requires size { size ≡ size_of (tree.Array bounds.now (description_view element.now)) }
    requires some { 0 < scalars_in (tree.Array bounds.now (description_view element.now)) }
    ensures { let d = tree.Array bounds.now (description_view element.now) in
        LaidAt at d (first_values d) bytes.old bytes.new }
{
    let stride = far_size(element).next_multiple_of(u64::from(alignment(element))) as usize;
    if stride == 0 {
        lay_first_at(bytes, at, element);
        return;
    }
    for made in 0..size / stride {
        lay_first_at(bytes, at + made * stride, element);
    }
}

/// The same of a structure's members.
#[cycle(lay_first)]
fn lay_first_members(bytes: &mut [u8], at: usize, members: &[Description])
    requires within { at + size_of (tree.Structure (members_view members.now)) ≤ length bytes.old }
    requires limit { size_of (tree.Structure (members_view members.now)) ≤ 16777216 }
    ensures { let d = tree.Structure (members_view members.now) in LaidAt at d (first_values d) bytes.old bytes.new }
{
    let mut end: u64 = 0;
    for member in members {
        let start = end.next_multiple_of(u64::from(alignment(member)));
        lay_first_at(bytes, at + start as usize, member);
        end = start + far_size(member);
    }
}
