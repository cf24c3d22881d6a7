//! Values laid down in bytes, one after the other.
ghost use Rattle.std.specs.Prelude.{◌≡◌, ◌≤◌, ◌+◌, min, length, map, true, MatchOption};
ghost use Rattle.pli_bytes.specs.answers.Laying.{LaidFront, NoneTaken};
ghost use Rattle.pli_bytes.specs.Contents.{values_of};
ghost use Rattle.pli_map.specs.Description as tree;
ghost use Rattle.pli_map.specs.Scalars.{is_scalar, scalars_in, scalars_of};
ghost use Rattle.pli_map.specs.Sizes.{size_of};
ghost use Rattle.pli_map.specs.Values.{are_held};
ghost use Rattle.pli_map.specs.views.DescriptionView.{description_view, members_view};
ghost use Rattle.pli_value.specs.Value.{value_view};

use crate::putting::put_value_at;
use crate::values::holds;
use pli_map::{Bounds, Description, alignment, far_size, scalars_in};
use pli_value::Value;

/// Lays values down, one for each scalar of a description, in as many bytes as it takes; false exactly where they are
/// not as many, or a scalar may not hold its value. No more than 16,777,216 bytes. Takes no memory.
pub fn lay(description: &Description, values: &[Value], bytes: &mut [u8]) -> bool
    requires size { length bytes.old ≡ size_of (description_view description.now) }
    requires limit { size_of (description_view description.now) ≤ 16777216 }
    ensures held { result ≡ are_held (scalars_of (description_view description.now)) (map value_view values.now) }
    ensures laid { result ≡ true → values_of (description_view description.now) bytes.new ≡ map value_view values.now }
    ensures size { length bytes.new ≡ length bytes.old }
{
    match lay_at(bytes, 0, description, values) {
        Some(left) => left.is_empty(),
        None => false,
    }
}

/// Lays the first of these values down for a description that stands at a byte, and gives those that are left; `None`
/// where there are not enough, or a scalar may not hold its value.
#[cycle(lay)]
fn lay_at<'v>(
    bytes: &mut [u8],
    at: usize,
    description: &Description,
    values: &'v [Value],
) -> Option<&'v [Value]>
    requires within { at + size_of (description_view description.now) ≤ length bytes.old }
    requires limit { size_of (description_view description.now) ≤ 16777216 }
    ensures { let d = description_view description.now in
        MatchOption result (NoneTaken (scalars_of d) (map value_view values.now))
        (λ left. LaidFront at d (map value_view values.now) (map value_view left.now) bytes.old bytes.new) }
{
    match description {
        Description::Array { bounds, element } => {
            let scalars = scalars_in(description);
            lay_elements(bytes, at, bounds, element, scalars, values)
        }
        Description::Structure(members) => lay_members(bytes, at, members, values),
        Description::Area(_) => Some(values),
        _ => lay_scalar(bytes, at, description, values),
    }
}

/// The same of a scalar.
#[inline]
fn lay_scalar<'v>(
    bytes: &mut [u8],
    at: usize,
    description: &Description,
    values: &'v [Value],
) -> Option<&'v [Value]>
    requires within { at + size_of (description_view description.now) ≤ length bytes.old }
    requires scalar { is_scalar (description_view description.now) ≡ true }
    ensures { let d = description_view description.now in
        MatchOption result (NoneTaken (scalars_of d) (map value_view values.now))
        (λ left. LaidFront at d (map value_view values.now) (map value_view left.now) bytes.old bytes.new) }
{
    let (value, left) = values.split_first()?;
    if !holds(description, value) {
        return None;
    }
    put_value_at(bytes, at, description, value);
    Some(left)
}

/// The same of a structure's members.
#[cycle(lay)]
fn lay_members<'v>(
    bytes: &mut [u8],
    at: usize,
    members: &[Description],
    values: &'v [Value],
) -> Option<&'v [Value]>
    requires within { at + size_of (tree.Structure (members_view members.now)) ≤ length bytes.old }
    requires limit { size_of (tree.Structure (members_view members.now)) ≤ 16777216 }
    ensures { let d = tree.Structure (members_view members.now) in
        MatchOption result (NoneTaken (scalars_of d) (map value_view values.now))
        (λ left. LaidFront at d (map value_view values.now) (map value_view left.now) bytes.old bytes.new) }
{
    let mut left = values;
    let mut end: u64 = 0;
    for member in members {
        let start = end.next_multiple_of(u64::from(alignment(member)));
        left = lay_at(bytes, at + start as usize, member, left)?;
        end = start + far_size(member);
    }
    Some(left)
}

/// The same of the elements of an array that has so many scalars.
#[cycle(lay)]
fn lay_elements<'v>(
    bytes: &mut [u8],
    at: usize,
    bounds: &[Bounds],
    element: &Description,
    scalars: usize,
    values: &'v [Value],
) -> Option<&'v [Value]>
    requires within { at + size_of (tree.Array bounds.now (description_view element.now)) ≤ length bytes.old }
    requires limit { size_of (tree.Array bounds.now (description_view element.now)) ≤ 16777216 }
    requires scalars { scalars ≡ min (scalars_in (tree.Array bounds.now (description_view element.now)))
        18446744073709551615 }
    ensures { let d = tree.Array bounds.now (description_view element.now) in
        MatchOption result (NoneTaken (scalars_of d) (map value_view values.now))
        (λ left. LaidFront at d (map value_view values.now) (map value_view left.now) bytes.old bytes.new) }
{
    if scalars == 0 {
        return Some(values);
    }
    if scalars > values.len() {
        return None;
    }
    let stride = far_size(element).next_multiple_of(u64::from(alignment(element))) as usize;
    let mut left = values;
    for made in 0..scalars / scalars_in(element) {
        left = lay_at(bytes, at + made * stride, element, left)?;
    }
    Some(left)
}
