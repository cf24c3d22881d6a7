//! The scalars of a description, and which of them are those of a part.
ghost use Rattle.std.specs.Prelude.{◌≡◌, ◌+◌, ◌*◌, ◌/◌, ◌%◌, ◌≤◌, ◌<◌, min, nat_lt, true, if◌then◌else◌, IfSome, None};
ghost use Rattle.std.specs.Prelude.{option_map};
ghost use Rattle.std.specs.Option.{is_some};
ghost use Rattle.pli_map.specs.Description.{Array, FixedBinary, Structure};
ghost use Rattle.pli_map.specs.Scalars.{is_aggregate, is_area, is_scalar, scalars_in, scalars_among, stands_here};
ghost use Rattle.pli_map.specs.Scalars.{first_scalar, scalar_after};
ghost use Rattle.pli_map.specs.Sizes.{alignment_of, count_of, number_bytes, size_of, stride_of};
ghost use Rattle.std.specs.Int.{next_multiple_of};
ghost use Rattle.pli_map.specs.views.DescriptionView.{description_view, members_view};

use crate::description::{Bounds, Description, are_same_scalars};
use crate::extents::{every_element, far_size, far_stride};
use crate::sizes::{aligned, alignment};

/// Whether a description is an array or a structure.
#[inline]
pub fn is_aggregate(description: &Description) -> bool
    ensures { result ≡ is_aggregate (description_view description.now) }
{
    match description {
        Description::Array { .. } | Description::Structure(_) => true,
        _ => false,
    }
}

/// Whether a description is an area.
#[inline]
pub fn is_area(description: &Description) -> bool
    ensures { result ≡ is_area (description_view description.now) }
{
    matches!(description, Description::Area(_))
}

/// Whether a description is no array, no structure and no area.
#[inline]
pub fn is_scalar(description: &Description) -> bool
    ensures { result ≡ is_scalar (description_view description.now) }
{
    match description {
        Description::Area(_) | Description::Array { .. } | Description::Structure(_) => false,
        _ => true,
    }
}

/// How many scalars a description has; 2^64 - 1 stands for every greater number.
#[cycle(scalars_in)]
pub fn scalars_in(description: &Description) -> usize
    ensures { result ≡ min (scalars_in (description_view description.now)) 18446744073709551615 }
{
    match description {
        Description::Array { bounds, element } => scalars_of_array(bounds, element),
        Description::Structure(members) => scalars_among(members),
        Description::Area(_) => 0,
        _ => 1,
    }
}

#[cycle(scalars_in)]
fn scalars_of_array(bounds: &[Bounds], element: &Description) -> usize
    ensures { result ≡ min (count_of bounds.now * scalars_in (description_view element.now)) 18446744073709551615 }
{
    (every_element(bounds) as usize).saturating_mul(scalars_in(element))
}

#[cycle(scalars_in)]
fn scalars_among(members: &[Description]) -> usize
    ensures { result ≡ min (scalars_among (members_view members.now)) 18446744073709551615 }
{
    let mut count: usize = 0;
    for member in members {
        count = count.saturating_add(scalars_in(member));
    }
    count
}

/// Which scalar of a description is the first of the part that stands so many bytes after its beginning and has this
/// description; `None` where no such part stands there. 2^64 - 1 stands for every greater number. Takes no memory, and
/// time for the members that stand before the part.
#[cycle(first_scalar)]
pub fn first_scalar(whole: &Description, offset: u32, part: &Description) -> Option<usize>
    ensures { result ≡ option_map (λ k. min k 18446744073709551615)
        (first_scalar (description_view whole.now) offset (description_view part.now)) }
{
    if stands_here(whole, offset, part) {
        return Some(0);
    }
    match whole {
        Description::Array { bounds, element } => scalar_of_element(bounds, element, offset, part),
        Description::Structure(members) => scalar_of_member(members, offset, part),
        _ => None,
    }
}

/// Whether a description stands here itself: at no distance, and the same.
#[inline]
fn stands_here(whole: &Description, offset: u32, part: &Description) -> bool
    ensures { result ≡ stands_here (description_view whole.now) offset (description_view part.now) }
{
    offset == 0 && whole == part
}

/// Whether a scalar stands so many bytes after the beginning of a structure of these members, after other scalars
/// alone;
/// `false` leaves it open. Takes no memory, and time for the members that stand before it.
pub fn stands_among(members: &[Description], offset: u32, part: &Description) -> bool
    ensures { result ≡ true → is_some (first_scalar (Structure (members_view members.now)) offset
        (description_view part.now)) ≡ true }
{
    let wanted = u64::from(offset);
    let mut at: u64 = 0;
    for member in members {
        let Some(room) = room_after(at, member) else {
            return false;
        };
        if wanted < room.1 {
            return wanted == room.0 && are_same_scalars(member, part);
        }
        at = room.1;
    }
    false
}

/// Whether a part of this description stands so many bytes after the beginning of a whole. Takes no memory, and time for
/// the members.
pub fn stands_in(whole: &Description, offset: u32, part: &Description) -> bool
    ensures { result ≡ is_some (first_scalar (description_view whole.now) offset (description_view part.now)) }
{
    first_scalar(whole, offset, part).is_some()
}

/// Whether a scalar stands so in a whole of so many bytes, where that is an array of such scalars, or of structures in
/// which it stands after other scalars; `false` leaves it open. No size is computed: a stride is the size over the
/// number of elements.
#[inline(always)]
pub fn stands_in_array(whole: &Description, size: usize, offset: u32, part: &Description) -> bool
    requires { size ≡ size_of (description_view whole.now) }
    ensures { result ≡ true → is_some (first_scalar (description_view whole.now) offset (description_view part.now))
        ≡ true }
{
    match whole {
        Description::Array { bounds, element } => {
            stands_in_elements(bounds, element, size as u64, offset, part)
        }
        _ => false,
    }
}

/// The same of an array of so many bytes.
#[inline(always)]
fn stands_in_elements(
    bounds: &[Bounds],
    element: &Description,
    size: u64,
    offset: u32,
    part: &Description,
) -> bool
    requires { size ≡ count_of bounds.now * stride_of (description_view element.now) }
    ensures { result ≡ true → is_some (first_scalar (Array bounds.now (description_view element.now)) offset
        (description_view part.now)) ≡ true }
{
    let count = element_count(bounds);
    if count == 0 {
        return false;
    }
    let (index, inner) = divided(offset, size / count);
    if index >= count {
        return false;
    }
    stands_in_element(element, inner, part)
}

/// Whether an array of one dimension takes so many bytes where its elements are so far from one another, and one of them
/// has this index, counted from 0.
#[inline(always)]
fn has_stride(bounds: &[Bounds], size: u64, stride: u32, index: u32) -> bool
    ensures below { result ≡ true → index < count_of bounds.now }
    ensures sized { result ≡ true → size ≡ count_of bounds.now * stride }
{
    if bounds.len() != 1 {
        return false;
    }
    let extent = bounds[0].extent();
    if index >= extent {
        return false;
    }
    u64::from(extent) * u64::from(stride) == size
}

/// Whether a number of so many binary digits, which the part is, stands so many bytes after the beginning of the element
/// of this index in a whole of so many bytes, where that is an array of one dimension of structures this far from one
/// another, in which it stands after other scalars; `false` leaves it open. Nothing is divided.
#[inline(always)]
pub fn stands_in_structure(
    whole: &Description,
    size: usize,
    stride: u32,
    index: u32,
    inner: u32,
    part: &Description,
    precision: u8,
) -> bool
    requires size { size ≡ size_of (description_view whole.now) }
    requires number { description_view part.now ≡ FixedBinary precision }
    ensures { result ≡ true → is_some (first_scalar (description_view whole.now) (index * stride + inner)
        (description_view part.now)) ≡ true }
{
    match whole {
        Description::Array { bounds, element } => stands_in_row(
            bounds,
            element,
            size as u64,
            stride,
            index,
            inner,
            part,
            precision,
        ),
        _ => false,
    }
}

/// The same of an array of so many bytes.
#[inline(always)]
fn stands_in_row(
    bounds: &[Bounds],
    element: &Description,
    size: u64,
    stride: u32,
    index: u32,
    inner: u32,
    part: &Description,
    precision: u8,
) -> bool
    requires size { size ≡ count_of bounds.now * stride_of (description_view element.now) }
    requires number { description_view part.now ≡ FixedBinary precision }
    ensures { result ≡ true → is_some (first_scalar (Array bounds.now (description_view element.now))
        (index * stride + inner) (description_view part.now)) ≡ true }
{
    if inner >= stride {
        return false;
    }
    if !has_stride(bounds, size, stride, index) {
        return false;
    }
    number_among_members(element, inner, part, precision)
}

/// Whether a number of so many binary digits, which the part is, stands so many bytes after the beginning of a structure,
/// first or after other scalars; `false` leaves it open.
#[inline(always)]
fn number_among_members(whole: &Description, offset: u32, part: &Description, precision: u8) -> bool
    requires { description_view part.now ≡ FixedBinary precision }
    ensures { result ≡ true → is_some (first_scalar (description_view whole.now) offset (description_view part.now))
        ≡ true }
{
    match whole {
        Description::Structure(members) => { number_among(members, offset, part, precision) }
        _ => false,
    }
}

/// The same among these members. The first is found at once.
#[inline(always)]
fn number_among(members: &[Description], offset: u32, part: &Description, precision: u8) -> bool
    requires { description_view part.now ≡ FixedBinary precision }
    ensures { result ≡ true → is_some (first_scalar (Structure (members_view members.now)) offset
        (description_view part.now)) ≡ true }
{
    if offset == 0 && is_first_number(members, precision) {
        return true;
    }
    stands_among(members, offset, part)
}

/// Whether a number of so many binary digits is the first of some members.
#[inline(always)]
fn is_first_number(members: &[Description], precision: u8) -> bool
    ensures { result ≡ true → is_some (first_scalar (Structure (members_view members.now)) 0 (FixedBinary precision))
        ≡ true }
{
    match members.first() {
        Some(member) => is_number_of(member, precision),
        None => false,
    }
}

/// Whether a description is of numbers of so many binary digits.
#[inline(always)]
fn is_number_of(description: &Description, precision: u8) -> bool
    ensures { result ≡ true → description_view description.now ≡ FixedBinary precision }
{
    match description {
        Description::FixedBinary(has) => *has == precision,
        _ => false,
    }
}

/// Whether a scalar stands so in one of them; `false` leaves it open.
#[inline(always)]
fn stands_in_element(element: &Description, offset: u32, part: &Description) -> bool
    ensures { result ≡ true → is_some (first_scalar (description_view element.now) offset (description_view part.now))
        ≡ true }
{
    match element {
        Description::Structure(members) => stands_among(members, offset, part),
        _ => is_itself(element, offset, part),
    }
}

/// Whether a scalar is the part, at no distance; `false` leaves it open.
#[inline(always)]
fn is_itself(whole: &Description, offset: u32, part: &Description) -> bool
    ensures { result ≡ true → is_some (first_scalar (description_view whole.now) offset (description_view part.now))
        ≡ true }
{
    if offset != 0 {
        return false;
    }
    are_same_scalars(whole, part)
}

/// Where a scalar begins that is a member after so many bytes, and where it ends; `None` for what is none.
#[inline(always)]
fn room_after(at: u64, description: &Description) -> Option<(u64, u64)>
    requires { at ≤ 4294967295 }
    ensures start { IfSome result (λ r. r.0 ≡ next_multiple_of at (alignment_of (description_view description.now))) }
    ensures end { IfSome result (λ r. r.1 ≡ r.0 + size_of (description_view description.now)) }
{
    match description {
        Description::FixedBinary(precision) => Some(number_after(at, *precision)),
        Description::Character(length) => Some(room_at(at.next_multiple_of(1), u64::from(*length))),
        Description::Varying(length) => {
            Some(room_at(at.next_multiple_of(2), 2 + u64::from(*length)))
        }
        Description::Bit(length) => Some(room_at(
            at.next_multiple_of(1),
            u64::from(length.div_ceil(8)),
        )),
        Description::Pointer => Some(room_at(at.next_multiple_of(4), 8)),
        Description::Offset => Some(room_at(at.next_multiple_of(4), 4)),
        Description::Area(_) | Description::Array { .. } | Description::Structure(_) => None,
    }
}

/// The same of a number of so many binary digits.
#[inline(always)]
fn number_after(at: u64, precision: u8) -> (u64, u64)
    requires { at ≤ 4294967295 }
    ensures start { result.0 ≡ next_multiple_of at (number_bytes precision) }
    ensures end { result.1 ≡ result.0 + number_bytes precision }
{
    match precision {
        0..=15 => room_at(at.next_multiple_of(2), 2),
        16..=31 => room_at(at.next_multiple_of(4), 4),
        _ => room_at(at.next_multiple_of(8), 8),
    }
}

/// Where so many bytes begin and end.
#[inline(always)]
fn room_at(start: u64, bytes: u64) -> (u64, u64)
    requires near { start ≤ 4294967303 }
    requires few { bytes ≤ 65537 }
    ensures start { result.0 ≡ start }
    ensures end { result.1 ≡ start + bytes }
{
    (start, start + bytes)
}

#[cycle(first_scalar)]
fn scalar_of_element(
    bounds: &[Bounds],
    element: &Description,
    offset: u32,
    part: &Description,
) -> Option<usize>
    ensures { let e = description_view element.now in
        result ≡ option_map (λ k. min k 18446744073709551615)
        (if nat_lt (offset / stride_of e) (count_of bounds.now)
        then option_map (λ k. offset / stride_of e * scalars_in e + k)
        (first_scalar e (offset % stride_of e) (description_view part.now))
        else None) }
{
    let (index, inner) = divided(offset, far_stride(element));
    if index >= every_element(bounds) {
        return None;
    }
    let before = (index as usize).saturating_mul(scalars_in(element));
    Some(before.saturating_add(first_scalar(element, inner, part)?))
}

/// How many strides an offset passes, and how far it goes on; a stride of no bytes is passed by no offset.
#[inline(always)]
fn divided(offset: u32, stride: u64) -> (u64, u32)
    ensures passed { result.0 ≡ offset / stride }
    ensures left { result.1 ≡ offset % stride }
    ensures bound { result.0 ≤ offset }
{
    if stride == 0 {
        (0, offset)
    } else {
        let offset = u64::from(offset);
        (offset / stride, (offset % stride) as u32)
    }
}

#[cycle(first_scalar)]
fn scalar_of_member(members: &[Description], offset: u32, part: &Description) -> Option<usize>
    ensures { result ≡ option_map (λ k. min k 18446744073709551615)
        (scalar_after 0 (members_view members.now) offset (description_view part.now)) }
{
    let mut at: u64 = 0;
    let mut before: usize = 0;
    for member in members {
        let start = aligned(at, u64::from(alignment(member)));
        if u64::from(offset) < start {
            return None;
        }
        let end = start + far_size(member);
        if u64::from(offset) < end {
            let inner = first_scalar(member, (u64::from(offset) - start) as u32, part)?;
            return Some(before.saturating_add(inner));
        }
        at = end;
        before = before.saturating_add(scalars_in(member));
    }
    None
}

/// How many elements an array of these bounds has, as `every_element` counts them; those of one dimension at once.
#[inline(always)]
fn element_count(bounds: &[Bounds]) -> u64
    ensures { result ≡ min (count_of bounds.now) 18446744073709551615 }
{
    if bounds.len() == 1 {
        return u64::from(bounds[0].extent());
    }
    every_element(bounds)
}
