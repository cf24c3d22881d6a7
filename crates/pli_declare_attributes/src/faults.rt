//! The least fault of attributes.
ghost use Rattle.std.specs.Prelude.{◌≡◌, [], false, None, map};
ghost use Rattle.pli_base.specs.views.DeclarationView.{described_view, parameter_view, item_view};
ghost use Rattle.pli_declare.specs.Agreement.{may_be_open};
ghost use Rattle.pli_declare.specs.Types.{is_bad_precision, is_bad_length};
ghost use Rattle.pli_declare.specs.Extents.{are_bad_bounds};
ghost use Rattle.pli_declare.specs.Initials.{is_bad_initial, values_in};
ghost use Rattle.pli_declare.specs.Faults as spec;
ghost use Rattle.pli_declare_attributes.specs.answers.Cuts.{cut_place};
ghost use Rattle.pli_declare.specs.declared.place.ItemPlace.{ItemPlace as SpecPlace};

use crate::agreement::{agree, missing};
use crate::extents::{bad_bounds, bad_stars};
use crate::facts::ItemFacts;
use crate::initials::too_many;
use crate::set::AttributeSet;
use crate::summary::Summary;
use crate::types::{bad_length, bad_precision, bad_star};
use pli_base::declaration::{DescribedAttribute, ParameterDescription, WrittenBounds};
use pli_base::{Code, code_order};
use pli_declare::{ItemPlace, Position};
use std::cmp::Ordering;

/// The fault of the lower number.
pub fn lesser(first: Option<Code>, second: Option<Code>) -> Option<Code>
    ensures { result ≡ spec.lesser first second }
{
    code_order();
    match (first, second) {
        (None, fault) => fault,
        (Some(code), None) => Some(code),
        (Some(code), Some(other)) => match code.cmp(&other) {
            Ordering::Greater => Some(other),
            _ => Some(code),
        },
    }
}

/// Whether a `*` may stand at a place: that of a parameter without members.
pub(crate) fn may_be_open(place: ItemPlace) -> bool
    ensures { result ≡ may_be_open place }
{
    match place.position {
        Position::Parameter => !place.has_members,
        Position::AtLevelOne | Position::Member | Position::Result => false,
    }
}

/// The first fault of agreement, of what is missing, of numbers and of bounds: A3 to A7.
#[tactic(auto, unfolding(pli_declare::specs::Faults::shape_fault))]
fn shape_fault(place: ItemPlace, dimensions: &[WrittenBounds], summary: Summary) -> Option<Code>
    ensures { result ≡ spec.shape_fault place dimensions.now summary.once summary.set.0 summary.number summary.star }
{
    let array = !dimensions.is_empty();
    let parameter = may_be_open(place);
    if !(summary.once && agree(place, array, summary.set)) {
        Some(Code::AttributesConflict)
    } else if missing(place, summary.set) {
        Some(Code::AttributesMissing)
    } else if bad_precision(summary) {
        Some(Code::BadPrecision)
    } else if bad_length(summary) || bad_star(parameter, summary) {
        Some(Code::BadLength)
    } else if bad_bounds(dimensions) || bad_stars(parameter, dimensions) {
        Some(Code::BadBounds)
    } else {
        None
    }
}

/// Whether an AREA is a member, in an array or BASED.
#[tactic(auto, unfolding(pli_declare::specs::Faults::is_bad_area))]
fn bad_area(place: ItemPlace, dimensions: &[WrittenBounds], set: AttributeSet) -> bool
    ensures { result ≡ spec.is_bad_area place dimensions.now set.0 }
{
    let is_member = matches!(place.position, Position::Member);
    let in_array = !dimensions.is_empty() || place.in_array;
    set.has(AttributeSet::AREA) && (is_member || in_array || set.has(AttributeSet::BASED))
}

/// The fault of an AREA: A13.
fn area_fault(place: ItemPlace, dimensions: &[WrittenBounds], set: AttributeSet) -> Option<Code>
    ensures { result ≡ spec.area_fault place dimensions.now set.0 }
{
    if bad_area(place, dimensions, set) {
        Some(Code::AreaNotAllowedHere)
    } else {
        None
    }
}

/// The fault of the description of a parameter or of a result.
#[tactic(auto, unfolding(pli_declare::specs::Faults::description_fault))]
fn description_fault(
    place: ItemPlace,
    dimensions: &[WrittenBounds],
    attributes: &[DescribedAttribute],
) -> Option<Code>
    ensures { result ≡ spec.description_fault place dimensions.now (map described_view attributes.now) }
{
    let summary = Summary::of_description(attributes);
    match shape_fault(place, dimensions, summary) {
        Some(code) => Some(code),
        None => area_fault(place, dimensions, summary.set),
    }
}

/// Whether INITIAL stands beside members or AREA, has a value that does not fit, or too many.
#[tactic(auto, using(pli_declare::proofs::ShapeLemmas::bounds_good), unfolding(pli_declare::specs::Initials::is_bad_initial))]
fn bad_initial(place: ItemPlace, facts: &ItemFacts) -> bool
    requires precision { is_bad_precision facts.now.summary.set.0 facts.now.summary.number ≡ false }
    requires length { is_bad_length facts.now.summary.set.0 facts.now.summary.number ≡ false }
    requires bounds { are_bad_bounds facts.now.item.now.dimensions.items ≡ false }
    ensures { let item = item_view facts.now.item.now in
        result ≡ is_bad_initial place item.dimensions facts.now.summary.set.0 facts.now.summary.number
        (values_in item.attributes) }
{
    let set = facts.summary.set;
    set.has(AttributeSet::INITIAL)
        && (place.has_members
            || set.has(AttributeSet::AREA)
            || !facts.values_fit
            || too_many(place, facts.item.dimensions.as_slice(), facts.values_given))
}

/// What stands around the description of a parameter in ENTRY: nothing.
const PARAMETER: ItemPlace = ItemPlace {
    position: Position::Parameter,
    has_members: false,
    in_array: false,
    elements_above: Some(1),
    built_in_name: false,
};

/// What stands around the description in RETURNS: nothing.
const RESULT: ItemPlace = ItemPlace {
    position: Position::Result,
    has_members: false,
    in_array: false,
    elements_above: Some(1),
    built_in_name: false,
};

/// The fault of the attributes in RETURNS, of a procedure and of an ENTRY.
pub fn result_fault(attributes: &[DescribedAttribute]) -> Option<Code>
    ensures { result ≡ spec.result_fault (map described_view attributes.now) }
{
    description_fault(RESULT, &[], attributes)
}

/// The fault of the description of a parameter in ENTRY, apart from its size.
fn parameter_fault(description: &ParameterDescription) -> Option<Code>
    ensures { result ≡ spec.parameter_fault (parameter_view description.now) }
{
    description_fault(
        PARAMETER,
        description.dimensions.as_slice(),
        description.attributes.as_slice(),
    )
}

/// The least fault of descriptions of parameters.
pub(crate) fn parameters_fault(descriptions: &[ParameterDescription]) -> Option<Code>
    ensures { result ≡ spec.parameters_fault (map parameter_view descriptions.now) }
{
    let mut least = None;
    for description in descriptions {
        least = lesser(least, parameter_fault(description));
    }
    least
}

/// The fault of an item's attributes, apart from what ENTRY and RETURNS hold.
#[tactic(auto, using(pli_declare::proofs::ShapeLemmas::shape_sound), unfolding(pli_declare::specs::Faults::own_fault))]
fn own_fault(place: ItemPlace, facts: &ItemFacts) -> Option<Code>
    ensures { result ≡ spec.own_fault place (item_view facts.now.item.now) }
{
    let dimensions = facts.item.dimensions.as_slice();
    let shape = shape_fault(place, dimensions, facts.summary);
    if shape.is_some() {
        return shape;
    }
    if bad_initial(place, facts) {
        return Some(Code::BadInitial);
    }
    area_fault(place, dimensions, facts.summary.set)
}

/// The least fault of an item's attributes, with those that ENTRY and RETURNS hold.
#[tactic(auto, unfolding(pli_declare::specs::Faults::attributes_fault))]
fn attributes_fault(place: ItemPlace, facts: &ItemFacts) -> Option<Code>
    ensures { result ≡ spec.attributes_fault place (item_view facts.now.item.now) }
{
    lesser(own_fault(place, facts), facts.held)
}

/// The least of A3 to A7, A9 and A13 to A15 that holds of an item at a place, apart from faults of the names and the
/// level that stand in it (own). That the number of elements above is cut at a limit changes nothing.
pub fn item_fault(place: ItemPlace, facts: &ItemFacts) -> Option<Code>
    ensures here { result ≡ spec.item_fault place (item_view facts.now.item.now) }
    ensures whole { (p : SpecPlace) → place ≡ cut_place p → result ≡ spec.item_fault p (item_view facts.now.item.now) }
{
    match attributes_fault(place, facts) {
        Some(code) => Some(code),
        None => facts.sizes,
    }
}
