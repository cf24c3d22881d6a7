//! Whether the templates of code keep the limits, and whether their initial values fit.
ghost use Rattle.std.specs.Prelude.{◌≡◌, Some, option_map, map, IfOk};
ghost use Rattle.std.specs.List.{list_all};
ghost use Rattle.pli_map.specs.Description as tree;
ghost use Rattle.pli_map.specs.views.ParameterView.{type_view};
ghost use Rattle.pli_deck_write.specs.DeckFaults as faults;
ghost use Rattle.pli_type_tree.specs.views.TemplateView.{initial_view};
ghost use Rattle.pli_code.specs.CodeTables.{stated_at};
ghost use Rattle.pli_code.specs.views.CodeView.{code_view, coded_template_view};
ghost use Rattle.pli_deck_faults.specs.Places.{places_of, placed_of, placed_type, places_view, placed_view, all_placed};
ghost use Rattle.pli_deck_faults.specs.Counted.{counted_of, keep_limits};

use crate::places::{DescriptionExtent, Places, placed_scalars, scalar_at};
use crate::standing::has_description;
use pli_bytes::holds;
use pli_code::{Code, CodedTemplate};
use pli_map::ParameterType;
use pli_type_tree::InitialScalar;
use std::alloc::{AllocError, Global};

/// The greatest number of bytes of all templates that have initial values (own).
const INITIAL_LIMIT: u32 = 16_777_216;

/// Whether an initial value fits the scalar at its offset.
fn initial_fits(places: &Places, initial: &InitialScalar) -> bool
    ensures { (d : tree.Description) → places_view places.now ≡ places_of d → let i = initial_view initial.now in
        result ≡ faults.fits_scalar (faults.scalar_at d i.offset) i.value }
{
    match scalar_at(places, initial.offset) {
        Some(scalar) => holds(scalar, &initial.value),
        None => false,
    }
}

/// Whether all of some initial values fit.
fn all_fit(places: &Places, values: &[InitialScalar]) -> bool
    ensures { (d : tree.Description) → places_view places.now ≡ places_of d →
        result ≡ list_all (λ i. faults.fits_scalar (faults.scalar_at d i.offset) i.value)
        (map initial_view values.now) }
{
    for value in values {
        if !initial_fits(places, value) {
            return false;
        }
    }
    true
}

/// The bytes that count of a template, by what stands where in its description: all where it has initial values, and
/// else none; `None` where it does not keep the limits.
fn counted(placed: &Option<DescriptionExtent>, initial: &[InitialScalar]) -> Option<u32>
    ensures { (d : tree.Description) → option_map placed_view placed.now ≡ placed_of d →
        result ≡ counted_of (Some d) (map initial_view initial.now) }
{
    let Some(found) = placed else {
        return None;
    };
    if !all_fit(&found.places, initial) {
        return None;
    }
    if initial.is_empty() {
        Some(0)
    } else {
        Some(found.bytes)
    }
}

/// The bytes that count of a template; none of one whose description there is not, or has a `*` in it.
fn bytes_of(
    code: &Code,
    placed: &[Option<DescriptionExtent>],
    template: &CodedTemplate,
) -> Option<u32>
    ensures { let c = code_view code.now in all_placed placed.now ≡ map placed_type c.descriptions →
        let t = coded_template_view template.now in
        result ≡ counted_of (stated_at c t.description) t.initial }
{
    let number = usize::from(template.description);
    if number >= placed.len() {
        return Some(0);
    }
    if !has_description(code, template.description) {
        return Some(0);
    }
    counted(&placed[number], &template.initial)
}

/// Whether all templates keep the limits, and those that have initial values take no more bytes than there may be.
fn templates_fit(
    code: &Code,
    placed: &[Option<DescriptionExtent>],
    templates: &[CodedTemplate],
) -> bool
    ensures { let c = code_view code.now in all_placed placed.now ≡ map placed_type c.descriptions →
        result ≡ keep_limits c (map coded_template_view templates.now) 16777216 }
{
    let mut left = INITIAL_LIMIT;
    for template in templates {
        let Some(bytes) = bytes_of(code, placed, template) else {
            return false;
        };
        if bytes > left {
            return false;
        }
        left -= bytes;
    }
    true
}

/// What a type takes whose description is stated, and where its scalars stand; nothing of one with a `*`.
fn placed_in(alloc: Global, of: &ParameterType) -> Result<Option<DescriptionExtent>, AllocError>
    ensures { IfOk result (λ found. option_map placed_view found ≡ placed_type (type_view of.now)) }
{
    match of.stated() {
        Some(description) => placed_scalars(alloc, description),
        None => Ok(None),
    }
}

/// What each of some types takes, and where its scalars stand.
fn places_of_all(
    alloc: Global,
    types: &[ParameterType],
) -> Result<Vec<Option<DescriptionExtent>>, AllocError>
    ensures { IfOk result (λ found. all_placed found.items ≡ map placed_type (map type_view types.now)) }
{
    let mut found = Vec::new(alloc);
    for of in types {
        found.push(placed_in(alloc, of)?)?;
    }
    Ok(found)
}

/// Whether the templates of code keep the limits. An error comes where memory runs out.
pub fn within_limits(alloc: Global, code: &Code) -> Result<bool, AllocError>
    ensures { IfOk result (λ good. good ≡ faults.within_limits (code_view code.now)) }
{
    let placed = places_of_all(alloc, &code.descriptions)?;
    Ok(templates_fit(code, &placed, &code.templates))
}
