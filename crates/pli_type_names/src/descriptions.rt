//! Which descriptions variables have.
ghost use Rattle.std.specs.Prelude.{◌≡◌, nat_lt};
ghost use Rattle.pli_map.specs.Sizes.{count_of};
ghost use Rattle.pli_map.specs.views.DescriptionView.{description_view, members_view};
ghost use Rattle.pli_map.specs.views.ParameterView.{type_view};
ghost use Rattle.pli_type_rules.specs.NamedUnits as spec;

use pli_map::{Bounds, Description, ParameterType, is_aggregate, is_area, size};

/// How many binary digits numbers have at most (own).
pub const GREATEST: u8 = 63;

/// How many elements a string has at most (own).
const STRING_LIMIT: u16 = 32_767;

/// How many dimensions an array has at most (own).
const DIMENSION_LIMIT: usize = 8;

/// How far a bound is from zero at most.
const BOUND_LIMIT: u16 = 32_768;

/// Whether strings may have this length.
fn is_length(length: u16) -> bool
    ensures { result ≡ spec.is_length length }
{
    0 < length && length <= STRING_LIMIT
}

/// Whether an array of these bounds has elements.
#[tactic(auto, using(crate::proofs::PlainLemmas::with_subscripts, crate::proofs::PlainLemmas::without_subscripts))]
fn has_elements(bounds: &[Bounds]) -> bool
    ensures { result ≡ nat_lt 0 (count_of bounds.now) }
{
    for dimension in bounds {
        if dimension.extent() == 0 {
            return false;
        }
    }
    true
}

/// Whether bounds have at most 16 binary digits, as those of every array have.
fn are_bounds(bounds: &[Bounds]) -> bool
    ensures { result ≡ spec.are_bounds bounds.now }
{
    for dimension in bounds {
        if dimension.low.unsigned_abs() > BOUND_LIMIT
            || dimension.high.unsigned_abs() > BOUND_LIMIT
        {
            return false;
        }
    }
    true
}

/// Whether a description is of numbers, strings and locators alone, within the limits: numbers of 63 binary digits at
/// most, strings of 1 to 32,767 elements, arrays with elements, and structures with members (own).
#[cycle(is_plain)]
#[tactic(auto, using(crate::proofs::PlainLemmas::structure_plain, crate::proofs::PlainLemmas::structure_empty, crate::proofs::PlainLemmas::array_plain, crate::proofs::PlainLemmas::array_empty))]
pub fn is_plain(description: &Description) -> bool
    ensures { result ≡ spec.is_plain 63 (description_view description.now) }
{
    match description {
        Description::FixedBinary(precision) => *precision <= GREATEST,
        Description::Character(length) => is_length(*length),
        Description::Varying(length) => is_length(*length),
        Description::Bit(length) => is_length(*length),
        Description::Pointer | Description::Offset => true,
        Description::Area(_) => false,
        Description::Array { bounds, element } => {
            !bounds.is_empty() && has_elements(bounds) && are_bounds(bounds) && is_plain(element)
        }
        Description::Structure(members) => !members.is_empty() && are_plain(members),
    }
}

#[cycle(is_plain)]
fn are_plain(members: &[Description]) -> bool
    ensures { result ≡ spec.all_plain 63 (members_view members.now) }
{
    for member in members {
        if !is_plain(member) {
            return false;
        }
    }
    true
}

/// Whether a description is of numbers, strings and locators alone, and of 1,000,000 bytes at most, as what a function
/// gives is and what a BASED variable is (own).
pub fn is_valued(description: &Description) -> bool
    ensures { result ≡ spec.is_valued 63 (description_view description.now) }
{
    is_plain(description) && size(description).is_some()
}

/// Whether a variable of its own may be of this description: an area, or one of numbers, strings and locators alone, of
/// 1,000,000 bytes at most (own).
pub fn is_stored(description: &Description) -> bool
    ensures { result ≡ spec.is_stored 63 (description_view description.now) }
{
    (is_area(description) || is_plain(description)) && size(description).is_some()
}

/// Whether an array may have so many dimensions.
fn are_dimensions(count: usize) -> bool
    ensures { result ≡ spec.are_dimensions count }
{
    0 < count && count <= DIMENSION_LIMIT
}

/// Whether a type is that of strings of any length.
fn is_any_length(taken: &ParameterType) -> bool
    ensures { result ≡ spec.is_any_length (type_view taken.now) }
{
    matches!(taken, ParameterType::AnyString(_))
}

/// Whether an array whose bounds are all `*` may have such elements: scalars that are no areas, and strings of any
/// length.
fn is_open_element(element: &ParameterType) -> bool
    ensures { result ≡ spec.is_open_element 63 (type_view element.now) }
{
    match element {
        ParameterType::Stated(description) => is_plain(description) && !is_aggregate(description),
        ParameterType::AnyString(_) => true,
        _ => false,
    }
}

/// Whether a parameter may be of this type, in which a `*` stands (own).
pub(crate) fn is_open_parameter(taken: &ParameterType) -> bool
    ensures { result ≡ spec.is_open_parameter 63 (type_view taken.now) }
{
    match taken {
        ParameterType::Stated(_) | ParameterType::StructureOf(_) => false,
        ParameterType::AnyString(_) => true,
        ParameterType::AnyArray {
            dimensions,
            element,
        } => are_dimensions(usize::from(*dimensions)) && is_open_element(element),
        ParameterType::ArrayOf { bounds, element } => {
            are_dimensions(bounds.len()) && are_bounds(bounds) && is_any_length(element)
        }
    }
}
