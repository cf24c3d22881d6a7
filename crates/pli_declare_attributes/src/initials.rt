//! The values in INITIAL.
ghost use Rattle.std.specs.Prelude.{◌≡◌, ◌≤◌, ◌^◌, ◌*◌, true, min, map, nat_lt};
ghost use Rattle.std.specs.List.{list_all};
ghost use Rattle.pli_base.specs.views.DeclarationView.{attribute_view};
ghost use Rattle.pli_map.specs.Sizes.{count_of};
ghost use Rattle.pli_map.specs.views.DescriptionView.{description_view};
ghost use Rattle.pli_declare.specs.Extents.{are_good, all_bounds};
ghost use Rattle.pli_declare_attributes.specs.answers.Cuts.{cut};
ghost use Rattle.pli_declare.specs.Initials.{values_in, fits, elements_given, all_given, is_more_than};
ghost use Rattle.pli_declare.specs.Initials.{elements_of, elements_inside};

use crate::extents::{any_star, bad_bounds, described};
use pli_base::declaration::{Attribute, InitialValue, SimpleAttribute, WrittenBounds};
use pli_declare::ItemPlace;
use pli_map::Description;

/// The values of an item's INITIAL, none without one.
pub(crate) fn values_of(attributes: &[Attribute]) -> &[InitialValue]
    ensures { result.now ≡ values_in (map attribute_view attributes.now) }
{
    for attribute in attributes {
        if let Attribute::Simple(SimpleAttribute::Initial(values)) = attribute {
            return values.as_slice();
        }
    }
    &[]
}

/// Whether a number of this many binary digits can be as great.
fn within_precision(value: u64, precision: u8) -> bool
    ensures { result ≡ nat_lt value (2 ^ precision) }
{
    precision >= 64 || value < 1_u64 << precision
}

/// Whether a value is of a type: an integer within the precision, a string of any length, NULL for a locator.
fn value_fits(description: &Description, value: &InitialValue) -> bool
    ensures { result ≡ fits (description_view description.now) value.now }
{
    match (description, value) {
        (Description::FixedBinary(precision), InitialValue::Integer { factor: _, value }) => {
            within_precision(value.value, *precision)
        }
        (Description::Character(_), InitialValue::Characters(_)) => true,
        (Description::Varying(_), InitialValue::Characters(_)) => true,
        (Description::Bit(_), InitialValue::Bits(_)) => true,
        (Description::Pointer, InitialValue::Null) => true,
        (Description::Offset, InitialValue::Null) => true,
        _ => false,
    }
}

/// Whether each value is of a type.
pub(crate) fn all_fit(description: &Description, values: &[InitialValue]) -> bool
    ensures { result ≡ list_all (fits (description_view description.now)) values.now }
{
    for value in values {
        if !value_fits(description, value) {
            return false;
        }
    }
    true
}

/// How many elements have a value.
fn factor_of(value: &InitialValue) -> u64
    ensures { result ≡ elements_given value.now }
{
    match value {
        InitialValue::Integer {
            factor: Some(factor),
            value: _,
        } => *factor,
        _ => 1,
    }
}

/// How many elements have one of these values.
pub(crate) fn given(values: &[InitialValue]) -> u128
    ensures value { result ≡ all_given values.now }
    ensures limit { result ≤ 340282366920938463463374607431768211455 }
{
    let count = values.len();
    let mut given = 0;
    for value in values {
        given += u128::from(factor_of(value));
    }
    given
}

/// How many elements there are; the greatest number stands for every greater one.
pub(crate) fn elements(above: u128, dimensions: &[WrittenBounds]) -> u128
    requires { list_all are_good dimensions.now ≡ true }
    ensures { result ≡ min (above * count_of (all_bounds dimensions.now)) 340282366920938463463374607431768211455 }
{
    let mut count = above;
    for bounds in dimensions {
        count = count.saturating_mul(u128::from(described(*bounds).extent()));
    }
    count
}

/// Whether values are for more elements than there are, where the number of elements is known.
pub(crate) fn too_many(place: ItemPlace, dimensions: &[WrittenBounds], given: u128) -> bool
    requires bounds { list_all are_good dimensions.now ≡ true }
    requires few { given ≤ 340282366920938463463374607431768211455 }
    ensures { result ≡ is_more_than (elements_of place dimensions.now) given }
{
    match place.elements_above {
        Some(above) => elements(above, dimensions) < given,
        None => false,
    }
}

/// How many elements the levels above and these dimensions make together, less than 2 to the 128th, the greatest number
/// there standing for every greater one; `None` where one of them has bad bounds or a `*`. What the levels above make
/// may be cut there too, which changes nothing.
#[tactic(auto, using(pli_declare::proofs::ShapeLemmas::bounds_good))]
pub fn elements_within(above: Option<u128>, dimensions: &[WrittenBounds]) -> Option<u128>
    ensures { result ≡ cut (elements_inside above dimensions.now) }
{
    if bad_bounds(dimensions) || any_star(dimensions) {
        return None;
    }
    match above {
        Some(above) => Some(elements(above, dimensions)),
        None => None,
    }
}
