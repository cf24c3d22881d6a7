//! Marks of descriptions: numbers by which small ones are known to be equal at once (own).
ghost use Rattle.std.specs.Prelude.{◌≡◌, ◌≢◌, ◌↔◌, ◌+◌, ◌*◌, ◌<◌, ◌≤◌, true, IsTrue};
ghost use Rattle.pli_map.specs.Description.{Array, Structure};
ghost use Rattle.pli_map.specs.Marks.{HasElements, HasMark, HaveMark, are_all_short, are_short, bound_mark};
ghost use Rattle.pli_map.specs.Marks.{elements_mark, scalar_mark, with_bounds, with_dimensions, with_member};
ghost use Rattle.pli_map.specs.views.DescriptionView.{description_view, members_view};

use crate::description::{Bounds, Description};

/// Whether both descriptions, which have these marks, are equal: those of one mark are.
#[inline(always)]
pub fn are_same_marked(
    left: &Description,
    left_mark: u64,
    right: &Description,
    right_mark: u64,
) -> bool
    requires left { HasMark (description_view left.now) left_mark }
    requires right { HasMark (description_view right.now) right_mark }
    ensures { IsTrue result ↔ (description_view left.now ≡ description_view right.now) }
{
    if left_mark != 0 && left_mark == right_mark {
        return true;
    }
    are_same_unmarked(left, right)
}

/// The same of descriptions without marks, or of other ones.
#[inline(never)]
fn are_same_unmarked(left: &Description, right: &Description) -> bool
    ensures { IsTrue result ↔ (description_view left.now ≡ description_view right.now) }
{
    left.is_same(right)
}

/// The mark of a scalar; 0 of what is none.
#[inline(always)]
pub fn scalar_mark(description: &Description) -> u32
    ensures { result ≡ scalar_mark (description_view description.now) }
{
    match description {
        Description::FixedBinary(precision) => u32::from(*precision) * 8 + 1,
        Description::Character(length) => u32::from(*length) * 8 + 2,
        Description::Varying(length) => u32::from(*length) * 8 + 3,
        Description::Bit(length) => u32::from(*length) * 8 + 4,
        Description::Pointer => 5,
        Description::Offset => 13,
        Description::Area(_) | Description::Array { .. } | Description::Structure(_) => 0,
    }
}

/// The mark of the elements of an array of scalars; 0 of what is none, and of elements whose mark takes more than 16
/// binary digits.
#[inline(always)]
pub fn mark_of_elements(description: &Description) -> u16
    ensures { HasElements (description_view description.now) result }
{
    let mark = elements_mark(description);
    if mark > 65535 {
        return 0;
    }
    mark as u16
}

/// The same of whatever mark.
#[inline(always)]
fn elements_mark(description: &Description) -> u32
    ensures { result ≡ elements_mark (description_view description.now) }
{
    match description {
        Description::Array { bounds: _, element } => scalar_mark(element),
        _ => 0,
    }
}

/// The mark of a description, that of a scalar at once.
#[inline(always)]
pub fn mark_at_once(description: &Description) -> u64
    ensures { HasMark (description_view description.now) result }
{
    let mark = scalar_mark(description);
    if mark != 0 {
        return u64::from(mark);
    }
    mark_of(description)
}

/// The mark of a description; 0 where it has none of 64 binary digits. Looks at few members and dimensions.
#[cycle(mark)]
pub fn mark_of(description: &Description) -> u64
    ensures { HasMark (description_view description.now) result }
{
    match description {
        Description::Area(bytes) => u64::from(*bytes).next_multiple_of(8) * 8,
        Description::Array { bounds, element } => mark_of_array(bounds, element),
        Description::Structure(members) => mark_of_structure(members),
        _ => u64::from(scalar_mark(description)),
    }
}

/// The mark of an array.
#[cycle(mark)]
fn mark_of_array(bounds: &[Bounds], element: &Description) -> u64
    ensures { HasMark (Array bounds.now (description_view element.now)) result }
{
    told(with_dimensions(bounds, mark_of(element)), 6)
}

/// The mark of a structure.
#[cycle(mark)]
fn mark_of_structure(members: &[Description]) -> u64
    ensures { HasMark (Structure (members_view members.now)) result }
{
    told(mark_of_members(members), 7)
}

/// The mark of the members of a structure, from the last to the first.
#[cycle(mark)]
fn mark_of_members(members: &[Description]) -> u64
    ensures { HaveMark (members_view members.now) result }
{
    let mut mark: u64 = 1;
    for at in (0..members.len()).rev() {
        mark = with_member(mark_of(&members[at]), mark);
        if mark == 0 {
            return 0;
        }
    }
    mark
}

/// A mark with what the description is; 0 where that is too great, or where there is none.
#[inline(always)]
fn told(mark: u64, what: u64) -> u64
    requires { what < 8 }
    ensures { result ≢ 0 → (mark ≢ 0) × (mark * 8 + what ≡ result) }
{
    if mark == 0 || mark >= 2_305_843_009_213_693_952 {
        return 0;
    }
    mark * 8 + what
}

/// The marks of a member and of those after it together; 0 where they are too great, or where one of them has none.
#[inline(always)]
fn with_member(member: u64, others: u64) -> u64
    ensures { result ≢ 0 → (member ≢ 0) × (member < 524288) × (others ≢ 0) × (with_member member others ≡ result) }
{
    if member == 0 || others == 0 {
        return 0;
    }
    if member < 512 {
        if others >= 18_014_398_509_481_984 {
            return 0;
        }
        return others * 1024 + member * 2;
    }
    if member >= 524_288 || others >= 17_592_186_044_416 {
        return 0;
    }
    others * 1_048_576 + member * 2 + 1
}

/// The bounds of an array before the mark of its element, from the last to the first; 0 where they are too great.
fn with_dimensions(bounds: &[Bounds], element: u64) -> u64
    ensures { result ≢ 0 → (element ≢ 0) × (are_all_short bounds.now ≡ true)
        × (with_dimensions bounds.now element ≡ result) }
{
    if element == 0 || element >= 9_223_372_036_854_775_808 {
        return 0;
    }
    let mut mark = element * 2;
    for at in (0..bounds.len()).rev() {
        mark = with_bounds(bounds[at], mark);
        if mark == 0 {
            return 0;
        }
    }
    mark
}

/// The bounds of a dimension before the mark of what comes after it; 0 where they are too great.
fn with_bounds(bounds: Bounds, after: u64) -> u64
    ensures { result ≢ 0 → (after ≢ 0) × (are_short bounds ≡ true) × (with_bounds bounds after * 2 + 1 ≡ result) }
{
    let low = bound_mark(bounds.low);
    let high = bound_mark(bounds.high);
    if after == 0 || low >= 65536 || high >= 65536 {
        return 0;
    }
    if low == 2 {
        if after >= 70_368_744_177_664 {
            return 0;
        }
        return (after * 65536 + high) * 2 * 2 + 1;
    }
    if after >= 1_073_741_824 {
        return 0;
    }
    (((after * 65536 + high) * 65536 + low) * 2 + 1) * 2 + 1
}

/// A bound as a number without a sign.
fn bound_mark(bound: i16) -> u64
    ensures value { result ≡ bound_mark bound }
    ensures limit { result ≤ 65537 }
{
    let distance = u64::from(bound.unsigned_abs());
    if bound < 0 {
        distance * 2 + 1
    } else {
        distance * 2
    }
}
