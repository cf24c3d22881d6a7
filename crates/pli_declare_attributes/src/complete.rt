//! What the attributes of an item and of a result are completed to, or their least fault.
ghost use Rattle.std.specs.Prelude.{◌≡◌, true, false, None, map, option_map, IfOk};
ghost use Rattle.std.specs.List.{list_any};
ghost use Rattle.pli_base.specs.views.DeclarationView.{described_view, parameter_view, attribute_view, item_view};
ghost use Rattle.pli_map.specs.views.DescriptionView.{description_view};
ghost use Rattle.pli_map.specs.views.ParameterView.{type_view};
ghost use Rattle.pli_declare.specs.Agreement as agreement;
ghost use Rattle.pli_declare.specs.Types.{is_bad_precision, is_bad_length};
ghost use Rattle.pli_declare.specs.Extents.{are_bad_bounds};
ghost use Rattle.pli_declare.specs.Faults.{parameter_of, parameter_fault, parameters_fault};
ghost use Rattle.pli_declare.specs.Faults.{described_scalar, is_too_large_type, with_bounds};
ghost use Rattle.pli_declare.specs.Faults.{with_type_bounds, type_taken, own_fault, returned_fault};
ghost use Rattle.pli_declare.specs.Faults.{returned_in};
ghost use Rattle.pli_declare.specs.Faults as spec;
ghost use Rattle.pli_declare.specs.Completed.{storage_at, storage_of, scope_of, open_type, variable_of};
ghost use Rattle.pli_declare.specs.Completed.{completed_of};
ghost use Rattle.pli_declare.specs.views.CompletedView.{variable_view, completed_view};
ghost use Rattle.pli_declare.specs.views.CompletedView.{IsResult};

use crate::extents::{all_described, any_star};
use crate::facts::ItemFacts;
use crate::faults::{may_be_open, result_fault};
use crate::initials::values_of;
use crate::parts::{parameters_of, returned_of};
use crate::set::AttributeSet;
use crate::summary::Summary;
use crate::types::{element, scalar};
use pli_base::Code;
use pli_base::declaration::{Attribute, DescribedAttribute, ParameterDescription, WrittenBounds};
use pli_declare::{Completed, DeclaredStorage, ItemPlace, Position, ScopeAttribute, Variable};
use pli_map::{Bounds, Description, ParameterType, array_of, size};
use std::alloc::{AllocError, Global};

/// The storage class: AUTOMATIC by default; EXTERNAL implies STATIC unless CONTROLLED stands.
fn storage(set: AttributeSet) -> DeclaredStorage
    ensures { result ≡ storage_of set.0 }
{
    if set.has(AttributeSet::CONTROLLED) {
        DeclaredStorage::Controlled
    } else if set.has(AttributeSet::BASED) {
        DeclaredStorage::Based
    } else if set.has(AttributeSet::STATIC) || set.has(AttributeSet::EXTERNAL) {
        DeclaredStorage::Static
    } else {
        DeclaredStorage::Automatic
    }
}

/// The storage class at level 1; none of members and of parameters.
fn storage_there(position: Position, set: AttributeSet) -> Option<DeclaredStorage>
    ensures { result ≡ storage_at position set.0 }
{
    match position {
        Position::AtLevelOne => Some(storage(set)),
        Position::Member | Position::Parameter | Position::Result => None,
    }
}

/// The scope, INTERNAL by default.
fn scope(set: AttributeSet) -> ScopeAttribute
    ensures { result ≡ scope_of set.0 }
{
    if set.has(AttributeSet::EXTERNAL) {
        ScopeAttribute::External
    } else {
        ScopeAttribute::Internal
    }
}

/// A type with dimensions before it, if there are any.
pub(crate) fn bounded(
    alloc: Global,
    bounds: Vec<Bounds>,
    element: Description,
) -> Result<Description, AllocError>
    ensures { IfOk result (λ d. description_view d ≡ with_bounds bounds.items (description_view element)) }
{
    if bounds.is_empty() {
        return Ok(element);
    }
    Ok(Description::Array {
        bounds,
        element: Box::new(alloc, element)?,
    })
}

/// The same of a type that may be open.
fn bounded_type(
    alloc: Global,
    bounds: Vec<Bounds>,
    element: ParameterType,
) -> Result<ParameterType, AllocError>
    ensures { IfOk result (λ t. type_view t ≡ with_type_bounds bounds.items (type_view element)) }
{
    if bounds.is_empty() {
        return Ok(element);
    }
    array_of(alloc, bounds, element)
}

/// The type of a parameter of these dimensions and attributes.
#[tactic(auto, using(pli_declare::proofs::ShapeLemmas::bounds_good, pli_declare::proofs::ShapeLemmas::few_dimensions))]
fn type_taken(
    alloc: Global,
    dimensions: &[WrittenBounds],
    summary: Summary,
) -> Result<ParameterType, AllocError>
    requires precision { is_bad_precision summary.set.0 summary.number ≡ false }
    requires length { is_bad_length summary.set.0 summary.number ≡ false }
    requires bounds { are_bad_bounds dimensions.now ≡ false }
    ensures { IfOk result (λ t. type_view t ≡ type_taken dimensions.now summary.set.0 summary.number summary.star) }
{
    let element = element(summary);
    if any_star(dimensions) {
        return ParameterType::of_arrays(alloc, dimensions.len() as u8, element);
    }
    let bounds = all_described(alloc, dimensions)?;
    bounded_type(alloc, bounds, element)
}

/// The type of a parameter in which a `*` stands; none of what else stands at a place.
fn open_type(
    alloc: Global,
    place: ItemPlace,
    dimensions: &[WrittenBounds],
    summary: Summary,
) -> Result<Option<ParameterType>, AllocError>
    requires precision { is_bad_precision summary.set.0 summary.number ≡ false }
    requires length { is_bad_length summary.set.0 summary.number ≡ false }
    requires bounds { are_bad_bounds dimensions.now ≡ false }
    ensures { IfOk result (λ t. option_map type_view t
        ≡ open_type (agreement.may_be_open place) dimensions.now summary.set.0 summary.number summary.star) }
{
    if may_be_open(place) && (summary.star || any_star(dimensions)) {
        return Ok(Some(type_taken(alloc, dimensions, summary)?));
    }
    Ok(None)
}

/// What the description of a parameter says, where it has no fault.
fn parameter(alloc: Global, description: &ParameterDescription) -> Result<ParameterType, AllocError>
    requires { parameter_fault (parameter_view description.now) ≡ None }
    ensures { IfOk result (λ t. type_view t ≡ parameter_of (parameter_view description.now)) }
{
    let summary = Summary::of_description(description.attributes.as_slice());
    type_taken(alloc, description.dimensions.as_slice(), summary)
}

/// What descriptions of parameters say, where they have no fault.
pub(crate) fn parameters(
    alloc: Global,
    descriptions: &[ParameterDescription],
) -> Result<Vec<ParameterType>, AllocError>
    requires { parameters_fault (map parameter_view descriptions.now) ≡ None }
    ensures { IfOk result (λ ts. map type_view ts.items ≡ map parameter_of (map parameter_view descriptions.now)) }
{
    let mut all = Vec::with_capacity(alloc, descriptions.len())?;
    for description in descriptions {
        all.push(parameter(alloc, description)?)?;
    }
    Ok(all)
}

/// Whether a parameter takes more than 1,000,000 bytes, where it is known how many.
fn too_large(parameter: &ParameterType) -> bool
    ensures { result ≡ is_too_large_type (type_view parameter.now) }
{
    match parameter.stated() {
        Some(description) => size(description).is_none(),
        None => false,
    }
}

/// Whether one does.
pub(crate) fn any_too_large(parameters: &[ParameterType]) -> bool
    ensures { result ≡ list_any is_too_large_type (map type_view parameters.now) }
{
    for parameter in parameters {
        if too_large(parameter) {
            return true;
        }
    }
    false
}

/// What the attributes of a result say, where they have no fault.
fn result_type(attributes: &[DescribedAttribute]) -> Description
    requires { spec.result_fault (map described_view attributes.now) ≡ None }
    ensures { description_view result ≡ described_scalar (map described_view attributes.now) }
{
    scalar(Summary::of_description(attributes))
}

/// What the attributes in an item's RETURNS say, where they have no fault.
fn returned_type(attributes: &[Attribute]) -> Option<Description>
    requires { returned_fault (returned_in (map attribute_view attributes.now)) ≡ None }
    ensures { option_map description_view result ≡ option_map described_scalar
        (returned_in (map attribute_view attributes.now)) }
{
    match returned_of(attributes) {
        Some(returned) => Some(result_type(returned)),
        None => None,
    }
}

/// The type of what a procedure returns, by the attributes in its RETURNS, with their defaults; or their least fault.
pub fn completed_result(attributes: &[DescribedAttribute]) -> Result<Description, Code>
    ensures { IsResult result (map described_view attributes.now) }
{
    match result_fault(attributes) {
        Some(code) => Err(code),
        None => Ok(result_type(attributes)),
    }
}

/// What the attributes of a variable or member say, where they have no fault.
#[tactic(auto, unfolding(pli_declare::specs::Completed::variable_of))]
fn variable<'a>(
    alloc: Global,
    place: ItemPlace,
    facts: &ItemFacts<'a>,
) -> Result<Variable<'a>, AllocError>
    requires { own_fault place (item_view facts.now.item.now) ≡ None }
    ensures { IfOk result (λ v. variable_view v ≡ variable_of place (item_view facts.now.item.now)) }
{
    let summary = facts.summary;
    let dimensions = facts.item.dimensions.as_slice();
    let bounds = all_described(alloc, dimensions)?;
    let taken = open_type(alloc, place, dimensions, summary)?;
    let initial = values_of(facts.item.attributes.as_slice());
    let description = if place.has_members {
        None
    } else {
        Some(scalar(summary))
    };
    Ok(Variable {
        description,
        bounds,
        taken,
        storage: storage_there(place.position, summary.set),
        scope: scope(summary.set),
        initial,
    })
}

/// What an item is, by its attributes with their defaults, where it has no fault. Its attributes are not looked through
/// for faults again.
pub fn completed_item<'a>(
    alloc: Global,
    place: ItemPlace,
    facts: &ItemFacts<'a>,
) -> Result<Completed<'a>, AllocError>
    requires { spec.item_fault place (item_view facts.now.item.now) ≡ None }
    ensures { IfOk result (λ completed. completed_view completed
        ≡ completed_of place (item_view facts.now.item.now)) }
{
    let attributes = facts.item.attributes.as_slice();
    let set = facts.summary.set;
    if set.has(AttributeSet::ENTRY) {
        Ok(Completed::Entry {
            parameters: parameters(alloc, parameters_of(attributes))?,
            result: returned_type(attributes),
        })
    } else if set.has(AttributeSet::BUILTIN) {
        Ok(Completed::BuiltIn)
    } else {
        Ok(Completed::Variable(variable(alloc, place, facts)?))
    }
}
