//! What an item's attributes say, whatever its name is and wherever it stands: found once for all its names.
ghost use Rattle.std.specs.Prelude.{◌≡◌, ◌≤◌, false, None, map, IfOk};
ghost use Rattle.std.specs.List.{list_all};
ghost use Rattle.pli_base.specs.views.DeclarationView.{attribute_view, parameter_view, item_view};
ghost use Rattle.pli_map.specs.views.DescriptionView.{description_view};
ghost use Rattle.pli_declare.specs.Sets.{set_of, each_once, outermost};
ghost use Rattle.pli_declare.specs.Types.{number_of, has_star, is_bad_precision, is_bad_length, scalar_of};
ghost use Rattle.pli_declare.specs.Initials.{values_in, fits, all_given};
ghost use Rattle.pli_declare.specs.Faults.{parameters_in, returned_in, parameters_fault, returned_fault};
ghost use Rattle.pli_declare.specs.Faults as spec;

use crate::complete::{any_too_large, parameters};
use crate::faults::{lesser, parameters_fault, result_fault};
use crate::initials::{all_fit, given, values_of};
use crate::parts::{parameters_of, returned_of};
use crate::summary::Summary;
use crate::types::{bad_length, bad_precision, scalar};
use pli_base::Code;
use pli_base::declaration::{Attribute, InitialValue, Item, ParameterDescription};
use std::alloc::{AllocError, Global};

/// How many parameters an entry may have (own).
const PARAMETER_LIMIT: usize = 64;

/// An item with what its attributes say, whatever its name is and wherever it stands. It is made once for an item, and
/// then answers for each of its names without a further look at the attributes.
#[derive(Clone, Copy)]
pub struct ItemFacts<'a> {
    pub item: &'a Item,
    pub(crate) summary: Summary,
    /// Whether each value in INITIAL is of the item's type; known where its precision and length are good.
    pub(crate) values_fit: bool,
    /// For how many elements the values in INITIAL are.
    pub(crate) values_given: u128,
    /// The least fault of what ENTRY and RETURNS hold.
    pub(crate) held: Option<Code>,
    /// The fault of the number and of the sizes of the parameters; known where `held` is none.
    pub(crate) sizes: Option<Code>,
    ghost is_set: { summary.set.0 ≡ set_of (map outermost (map attribute_view item.now.attributes.items)) },
    ghost is_once: { summary.once ≡ each_once 0 (map outermost (map attribute_view item.now.attributes.items)) },
    ghost is_number: { summary.number ≡ number_of (map outermost (map attribute_view item.now.attributes.items)) },
    ghost is_star: { summary.star ≡ has_star (map outermost (map attribute_view item.now.attributes.items)) },
    ghost are_fitting: { is_bad_precision summary.set.0 summary.number ≡ false →
        is_bad_length summary.set.0 summary.number ≡ false
        → values_fit ≡ list_all (fits (scalar_of summary.set.0 summary.number))
        (values_in (map attribute_view item.now.attributes.items)) },
    ghost are_given: { values_given ≡ all_given (values_in (map attribute_view item.now.attributes.items)) },
    ghost are_few: { values_given ≤ 340282366920938463463374607431768211455 },
    ghost is_held: { held ≡ spec.lesser (parameters_fault (parameters_in
        (map attribute_view item.now.attributes.items)))
        (returned_fault (returned_in (map attribute_view item.now.attributes.items))) },
    ghost is_of_sizes: { held ≡ None → sizes ≡ spec.entry_fault
        (parameters_in (map attribute_view item.now.attributes.items)) },
}

/// Whether each value is of the type that attributes say, where its numbers are good.
fn values_fit(summary: Summary, values: &[InitialValue]) -> bool
    ensures { is_bad_precision summary.set.0 summary.number ≡ false → is_bad_length summary.set.0 summary.number ≡ false
        → result ≡ list_all (fits (scalar_of summary.set.0 summary.number)) values.now }
{
    if bad_precision(summary) || bad_length(summary) {
        return false;
    }
    all_fit(&scalar(summary), values)
}

/// The least fault of what ENTRY and RETURNS hold.
fn held_fault(attributes: &[Attribute]) -> Option<Code>
    ensures { result ≡ spec.lesser (parameters_fault (parameters_in (map attribute_view attributes.now)))
        (returned_fault (returned_in (map attribute_view attributes.now))) }
{
    let parameters = parameters_fault(parameters_of(attributes));
    let returned = match returned_of(attributes) {
        Some(returned) => result_fault(returned),
        None => None,
    };
    lesser(parameters, returned)
}

/// The fault of the number and of the sizes of parameters, where their descriptions have none.
#[tactic(auto, using(pli_declare::proofs::ShapeLemmas::too_many_parameters, pli_declare::proofs::ShapeLemmas::too_large_parameter, pli_declare::proofs::ShapeLemmas::good_parameters))]
fn sizes_fault(
    alloc: Global,
    descriptions: &[ParameterDescription],
) -> Result<Option<Code>, AllocError>
    requires { parameters_fault (map parameter_view descriptions.now) ≡ None }
    ensures { IfOk result (λ fault. fault ≡ spec.entry_fault (map parameter_view descriptions.now)) }
{
    if descriptions.len() > PARAMETER_LIMIT {
        return Ok(Some(Code::TooManyParameters));
    }
    let parameters = parameters(alloc, descriptions)?;
    if any_too_large(parameters.as_slice()) {
        return Ok(Some(Code::GenerationTooLarge));
    }
    Ok(None)
}

/// The same of the parameters in an item's ENTRY, where what ENTRY and RETURNS hold has no fault.
fn sizes_where(
    alloc: Global,
    held: Option<Code>,
    attributes: &[Attribute],
) -> Result<Option<Code>, AllocError>
    requires { held ≡ spec.lesser (parameters_fault (parameters_in (map attribute_view attributes.now)))
        (returned_fault (returned_in (map attribute_view attributes.now))) }
    ensures { IfOk result (λ fault. held ≡ None → fault ≡ spec.entry_fault
        (parameters_in (map attribute_view attributes.now))) }
{
    if held.is_some() {
        return Ok(None);
    }
    sizes_fault(alloc, parameters_of(attributes))
}

impl<'a> ItemFacts<'a> {
    /// What the attributes of an item say. Memory is taken only for the parameters of an ENTRY whose descriptions have
    /// no fault.
    pub fn of(alloc: Global, item: &'a Item) -> Result<ItemFacts<'a>, AllocError>
        ensures { IfOk result (λ facts. item_view facts.item.now ≡ item_view item.now) }
    {
        let attributes = item.attributes.as_slice();
        let summary = Summary::of_item(attributes);
        let values = values_of(attributes);
        let held = held_fault(attributes);
        let sizes = sizes_where(alloc, held, attributes)?;
        Ok(ItemFacts {
            item,
            summary,
            values_fit: values_fit(summary, values),
            values_given: given(values),
            held,
            sizes,
        })
    }
}
