//! Where a place leads in storage.
ghost use Rattle.std.specs.Prelude.{◌≡◌, ◌≢◌, ◌↔◌, ℕ, ◌+◌, ◌*◌, ◌≤◌, ◌<◌, ◌/◌, ◌%◌, ◌∷◌, [], ◌&&◌, true, nat_eq, nat_lt};
ghost use Rattle.std.specs.Prelude.{IsTrue, IfSome, MatchOption};
ghost use Rattle.std.specs.Option.{is_some};
ghost use Rattle.pli_map.specs.Description as tree;
ghost use Rattle.pli_map.specs.Scalars.{first_scalar};
ghost use Rattle.pli_map.specs.Sizes.{number_bytes, size_of};
ghost use Rattle.pli_map.specs.views.DescriptionView.{description_view, members_view};
ghost use Rattle.pli_store.specs.answers.Kinds.{are_numbers};

use crate::element_place::ElementPlace;
use pli_map::{
    Bounds, Description, are_same_scalars, first_scalar, stands_among, stands_in, stands_in_array,
    stands_in_structure,
};
use pli_value::short::SHORT_LIMIT;

/// Where a part stands: the index of its generation among those that live, and its offset there, in bytes.
#[derive(Clone, Copy)]
pub struct GenerationPart {
    pub at: usize,
    pub offset: usize,
}

/// How many binary digits a number has, where a description is of FIXED BINARY.
#[inline(always)]
pub fn number_precision(description: &Description) -> Option<u8>
    ensures { MatchOption result ((precision : ℕ) → description_view description.now ≢ tree.FixedBinary precision)
        (λ precision. description_view description.now ≡ tree.FixedBinary precision) }
{
    match description {
        Description::FixedBinary(precision) => Some(*precision),
        _ => None,
    }
}

/// How many characters a string has at most, where a description is of CHARACTER VARYING.
#[inline(always)]
pub fn greatest_length(description: &Description) -> Option<u16>
    ensures { MatchOption result ((greatest : ℕ) → description_view description.now ≢ tree.Varying greatest)
        (λ greatest. description_view description.now ≡ tree.Varying greatest) }
{
    match description {
        Description::Varying(greatest) => Some(*greatest),
        _ => None,
    }
}

/// Whether a description is of strings of one bit.
#[inline(always)]
pub fn is_one_bit(description: &Description) -> bool
    ensures { IsTrue result ↔ (description_view description.now ≡ tree.Bit 1) }
{
    match description {
        Description::Bit(length) => *length == 1,
        _ => false,
    }
}

/// How many bits a string has, where a description is of BIT and these are few.
#[inline(always)]
pub fn short_length(description: &Description) -> Option<usize>
    ensures length { MatchOption result ((count : ℕ) → count ≤ 63 → description_view description.now ≢ tree.Bit count)
        (λ count. description_view description.now ≡ tree.Bit count) }
    ensures few { IfSome result (λ count. count ≤ 63) }
{
    match description {
        Description::Bit(length) if usize::from(*length) <= SHORT_LIMIT => {
            Some(usize::from(*length))
        }
        _ => None,
    }
}

/// Whether a description is of strings of so many bits.
#[inline(always)]
pub fn is_of_bits(description: &Description, count: usize) -> bool
    ensures { IsTrue result ↔ (description_view description.now ≡ tree.Bit count) }
{
    match description {
        Description::Bit(length) => usize::from(*length) == count,
        _ => false,
    }
}

/// Whether a description is of pointers.
#[inline(always)]
pub fn is_pointer(description: &Description) -> bool
    ensures { IsTrue result ↔ (description_view description.now ≡ tree.Pointer) }
{
    match description {
        Description::Pointer => true,
        _ => false,
    }
}

/// Whether so many bytes are a multiple of the width of a number of so many binary digits.
#[inline(always)]
fn is_multiple(offset: usize, precision: u8) -> bool
    ensures { IsTrue result ↔ (offset % number_bytes precision ≡ 0) }
{
    match precision {
        0..=15 => offset % 2 == 0,
        16..=31 => offset % 4 == 0,
        _ => offset % 8 == 0,
    }
}

/// Whether a number of so many binary digits stands so many bytes after the beginning of a whole of so many bytes:
/// alone, or as an element of an array. Whether it stands in any other whole is not asked.
#[inline(always)]
pub fn is_number_at(whole: &Description, size: usize, offset: usize, precision: u8) -> bool
    requires { size ≡ size_of (description_view whole.now) }
    ensures { result ≡ (are_numbers (description_view whole.now)
        && is_some (first_scalar (description_view whole.now) offset (tree.FixedBinary precision))) }
{
    match whole {
        Description::FixedBinary(has) => offset == 0 && *has == precision,
        Description::Array { element, .. } => match &**element {
            Description::FixedBinary(has) => {
                *has == precision && is_multiple(offset, precision) && offset < size
            }
            _ => false,
        },
        _ => false,
    }
}

/// Whether an element that is a number of so many binary digits stands in a whole of so many bytes: that number, an array
/// of such, or an array of structures in which it stands after other scalars. `false` leaves it open.
#[inline(always)]
pub fn is_number_in_row(
    whole: &Description,
    size: usize,
    element: &ElementPlace<'_>,
    precision: u8,
) -> bool
    requires size { size ≡ size_of (description_view whole.now) }
    requires number { description_view element.now.place.description.now ≡ tree.FixedBinary precision }
    ensures { result ≡ true → is_some (first_scalar (description_view whole.now) element.now.place.offset
        (description_view element.now.place.description.now)) ≡ true }
{
    if is_number_at(whole, size, element.place.offset as usize, precision) {
        return true;
    }
    stands_in_structure(
        whole,
        size,
        element.stride,
        element.above,
        element.first,
        element.place.description,
        precision,
    )
}

/// Whether a string of one bit stands so many bytes after the beginning of a whole of so many bytes, which is an array of
/// such. `false` leaves it open.
#[inline(always)]
pub fn is_bit_at(whole: &Description, size: usize, offset: usize) -> bool
    requires { size ≡ size_of (description_view whole.now) }
    ensures { result ≡ true → is_some (first_scalar (description_view whole.now) offset (tree.Bit 1)) ≡ true }
{
    match whole {
        Description::Array { element, .. } => match &**element {
            Description::Bit(1) => offset < size,
            _ => false,
        },
        _ => false,
    }
}

/// Whether both are the same scalar: the second then stands where the first begins.
#[inline(always)]
fn is_itself(whole: &Description, part: &Description) -> bool
    ensures { result ≡ true → is_some (first_scalar (description_view whole.now) 0 (description_view part.now)) ≡ true }
{
    are_same_scalars(whole, part)
}

/// How many characters both have, where both are of CHARACTER of as many.
#[inline(always)]
fn common_length(left: &Description, right: &Description) -> Option<u16>
    ensures { IfSome result (λ count. (description_view left.now ≡ tree.Character count)
        × (description_view right.now ≡ tree.Character count)) }
{
    match (left, right) {
        (Description::Character(has), Description::Character(wanted)) if *has == *wanted => {
            Some(*has)
        }
        _ => None,
    }
}

/// Whether a string of so many characters is an element of an array of such that takes so many bytes, and stands so many
/// bytes after its beginning; `false` leaves it open.
#[inline(always)]
fn is_text_in(_bounds: &[Bounds], count: u16, size: usize, offset: u32) -> bool
    requires { size ≡ size_of (tree.Array _bounds.now (tree.Character count)) }
    ensures { result ≡ true → is_some (first_scalar (tree.Array _bounds.now (tree.Character count)) offset
        (tree.Character count)) ≡ true }
{
    if count == 0 {
        return false;
    }
    if offset as usize >= size {
        return false;
    }
    offset % u32::from(count) == 0
}

/// Whether a scalar stands so many bytes after the beginning of a whole of so many bytes: alone, or, of CHARACTER, as an
/// element of an array; `false` leaves it open.
#[inline(always)]
pub fn is_alone_or_element(
    whole: &Description,
    size: usize,
    offset: u32,
    part: &Description,
) -> bool
    requires { size ≡ size_of (description_view whole.now) }
    ensures { result ≡ true → is_some (first_scalar (description_view whole.now) offset (description_view part.now))
        ≡ true }
{
    match whole {
        Description::Array { bounds, element } => match common_length(element, part) {
            Some(count) => is_text_in(bounds, count, size, offset),
            None => false,
        },
        _ => offset == 0 && is_itself(whole, part),
    }
}

/// Whether an element begins so many bytes after the beginning of an array of so many that each take so many bytes.
#[inline(always)]
fn is_element(extent: u32, offset: u32, stride: u32) -> bool
    requires { 0 < stride }
    ensures { result ≡ (nat_lt (offset / stride) extent && nat_eq (offset % stride) 0) }
{
    offset / stride < extent && offset % stride == 0
}

/// The same of an array of one dimension of numbers of this precision.
#[inline(always)]
fn is_number_in(bounds: Bounds, precision: u8, offset: u32) -> bool
    ensures { result ≡ is_some (first_scalar (tree.Array (bounds ∷ []) (tree.FixedBinary precision)) offset
        (tree.FixedBinary precision)) }
{
    let extent = bounds.extent();
    match precision {
        0..=15 => is_element(extent, offset, 2),
        16..=31 => is_element(extent, offset, 4),
        _ => is_element(extent, offset, 8),
    }
}

/// The same of an array of one dimension of strings of one bit.
#[inline(always)]
fn is_bit_in(bounds: Bounds, offset: u32) -> bool
    ensures { result ≡ is_some (first_scalar (tree.Array (bounds ∷ []) (tree.Bit 1)) offset (tree.Bit 1)) }
{
    is_element(bounds.extent(), offset, 1)
}

/// Whether a scalar stands so many bytes after the beginning of a structure of these members; `false` leaves it open.
#[inline]
fn is_member(members: &[Description], offset: u32, part: &Description) -> bool
    ensures { result ≡ true → is_some (first_scalar (tree.Structure (members_view members.now)) offset
        (description_view part.now)) ≡ true }
{
    stands_among(members, offset, part)
}

/// Whether a part of this description stands so many bytes after the beginning of a whole. A scalar that stands alone,
/// one that is a member of a structure after other scalars, and a number and one bit in an array of one dimension, take
/// the short way.
#[inline(always)]
pub fn is_part(whole: &Description, offset: u32, part: &Description) -> bool
    ensures { result ≡ is_some (first_scalar (description_view whole.now) offset (description_view part.now)) }
{
    if offset == 0 && is_itself(whole, part) {
        return true;
    }
    match (whole, part) {
        (Description::Array { bounds, element }, Description::FixedBinary(wanted)) => {
            match &**element {
                Description::FixedBinary(has) if bounds.len() == 1 && *has == *wanted => {
                    is_number_in(bounds[0], *has, offset)
                }
                _ => stands_in(whole, offset, part),
            }
        }
        (Description::Array { bounds, element }, Description::Bit(1)) => match &**element {
            Description::Bit(1) if bounds.len() == 1 => is_bit_in(bounds[0], offset),
            _ => stands_in(whole, offset, part),
        },
        (Description::Structure(members), _) => {
            is_member(members, offset, part) || first_scalar(whole, offset, part).is_some()
        }
        _ => stands_in(whole, offset, part),
    }
}

/// The same of a whole of so many bytes. A scalar in an array of such, and one that is a member of a structure after
/// other scalars in an array of such, take a short way too.
#[inline(always)]
pub fn is_part_of(whole: &Description, size: usize, offset: u32, part: &Description) -> bool
    requires { size ≡ size_of (description_view whole.now) }
    ensures { result ≡ is_some (first_scalar (description_view whole.now) offset (description_view part.now)) }
{
    match part {
        Description::Bit(1) => is_part(whole, offset, part),
        _ => stands_in_array(whole, size, offset, part) || is_part(whole, offset, part),
    }
}
