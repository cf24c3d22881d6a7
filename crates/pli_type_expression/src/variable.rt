//! References to variables.
ghost use Rattle.std.specs.Prelude.{◌≡◌, ℕ, List, Some, None, map, option_map, IfOk};
ghost use Rattle.pli_type_rules.specs.Names as names;
ghost use Rattle.pli_type_rules.specs.References as spec;
ghost use Rattle.pli_type_rules.specs.TypingSteps as steps;
ghost use Rattle.pli_base.specs.answers.FailureAnswers.{Gives};
ghost use Rattle.pli_type_expression.specs.views.SegmentView.{locator_view};
ghost use Rattle.pli_type_operands.specs.views.TypingView.{referent_view, role_view};
ghost use Rattle.pli_type_names.specs.SymbolMeaning.{IsVariable, is_way};
ghost use Rattle.pli_type_names.specs.views.NameView.{part_view};
ghost use Rattle.pli_map.specs.views.DescriptionView.{description_view};
ghost use Rattle.pli_map.specs.views.ParameterView.{type_seen};
ghost use Rattle.pli_type_tree.specs.TypedTree.{Part};
ghost use Rattle.pli_type_tree.specs.views.TypedView.{expression_view, reference_view, root_view, stride_view};
ghost use Rattle.pli_type_tree.specs.views.TypedView.{subscripts_view};

use crate::locator::{LocatorBefore, passed_root, root_by};
use pli_base::{Code, fault};
use pli_map::{Description, TypeRef, is_aggregate};
use pli_type_names::{NamedVariable, StridedPart};
use pli_type_operands::{Referent, Role, TypeError};
use pli_type_tree::{Root, Stride, TypedExpression, TypedReference, TypedSubscript};
use std::alloc::{AllocError, Global};

/// What is meant with so many subscripts: with those of all its levels one element, without any the whole, but only
/// where no level above it has subscripts; with another number nothing.
fn with_subscripts<'a>(
    alloc: Global,
    given: usize,
    part: &StridedPart<'a>,
) -> Result<Option<StridedPart<'a>>, AllocError>
    ensures { IfOk result (λ meant. option_map part_view meant ≡ spec.with_subscripts given (part_view part.now)) }
{
    let element = part.element(alloc)?;
    if given == element.strides.len() {
        return Ok(Some(element));
    }
    if given == 0 && part.strides.is_empty() {
        return Ok(Some(part.copy(alloc)?));
    }
    Ok(None)
}

/// Each subscript with its stride.
fn subscripts_at(
    alloc: Global,
    strides: &[Stride],
    values: Vec<TypedExpression>,
) -> Result<Vec<TypedSubscript>, AllocError>
    ensures { IfOk result (λ placed. subscripts_view placed.items
        ≡ spec.subscripts_at (map stride_view strides.now) (map expression_view values.items)) }
{
    let mut placed = Vec::new(alloc);
    for (stride, value) in strides.iter().zip(values) {
        placed.push(TypedSubscript {
            stride: *stride,
            value,
        })?;
    }
    Ok(placed)
}

/// A part of a variable that begins there.
fn part_reference(
    root: Box<Root>,
    offset: u32,
    description: Description,
    subscripts: Vec<TypedSubscript>,
) -> TypedReference
    ensures { reference_view result
        ≡ Part (root_view root.value) offset (description_view description) (subscripts_view subscripts.items) }
{
    TypedReference::Part {
        root: Box::into_inner(root),
        offset,
        description,
        subscripts,
    }
}

/// A reference to a whole variable of its own, or to a part.
fn reference_to(
    alloc: Global,
    root: Box<Root>,
    is_member: bool,
    part: &StridedPart<'_>,
    subscripts: Vec<TypedExpression>,
) -> Result<TypedReference, AllocError>
    ensures { IfOk result (λ made. (path : List ℕ) → is_member ≡ is_way path → reference_view made
        ≡ spec.reference_to (root_view root.value) path (part_view part.now) (map expression_view subscripts.items)) }
{
    if !is_member && subscripts.is_empty() {
        return Ok(TypedReference::Whole(Box::into_inner(root)));
    }
    let description = part.description.copy(alloc)?;
    let subscripts = subscripts_at(alloc, part.strides.as_slice(), subscripts)?;
    Ok(part_reference(root, part.offset, description, subscripts))
}

/// A reference to a part of a variable of this description, with all its subscripts: T10 where it begins nowhere.
fn referent<'a>(
    alloc: Global,
    locator: LocatorBefore,
    at: u32,
    variable: NamedVariable<'_, 'a>,
    whole: &Description,
    part: &StridedPart<'a>,
    subscripts: Vec<TypedExpression>,
) -> Result<Referent<'a>, TypeError>
    ensures { (named : names.NamedVariable) → IsVariable variable.entry named
        → Gives referent_view result (steps.begins_somewhere at
        (option_map (spec.referent_from named (map expression_view subscripts.items) (part_view part.now))
        (spec.root_by named.storage (description_view whole.now) (locator_view locator)))) }
{
    let Some(root) = root_by(alloc, variable.storage, whole, locator)? else {
        return Err(fault(Code::LocatorMissingOrNotAllowed, at));
    };
    let reference = reference_to(alloc, root, variable.is_member, part, subscripts)?;
    Ok(Referent {
        reference,
        description: TypeRef::Stated(part.description),
        is_parameter: variable.storage.is_parameter(),
        area: variable.area,
    })
}

/// A reference to a variable of this description, with all its subscripts: T3 where their number is wrong, T2 where no
/// aggregate may stand, and then T10 (own).
fn part_meant<'a>(
    alloc: Global,
    role: Role,
    locator: LocatorBefore,
    at: u32,
    variable: NamedVariable<'_, 'a>,
    whole: &Description,
    subscripts: Vec<TypedExpression>,
) -> Result<Referent<'a>, TypeError>
    ensures { (named : names.NamedVariable) → IsVariable variable.entry named
        → Gives referent_view result (spec.whole_meant (role_view role) (locator_view locator) at named
        (map expression_view subscripts.items)
        (Some (description_view whole.now))) }
{
    let Some(named) = variable.part else {
        return Err(fault(Code::WrongNumberOfSubscripts, at));
    };
    let Some(part) = with_subscripts(alloc, subscripts.len(), named)? else {
        return Err(fault(Code::WrongNumberOfSubscripts, at));
    };
    if role.wants_scalar() && is_aggregate(part.description) {
        return Err(fault(Code::AggregateNotAllowedHere, at));
    }
    referent(alloc, locator, at, variable, whole, &part, subscripts)
}

/// What is meant of a parameter in which a `*` stands, with so many subscripts: without any the whole, with one for
/// each dimension of an array an element; with another number nothing.
#[tactic(auto, using(crate::proofs::OpenLemmas::whole_part_open, crate::proofs::OpenLemmas::element_part_open))]
fn open_part(taken: TypeRef<'_>, given: usize) -> Option<TypeRef<'_>>
    ensures { option_map type_seen result ≡ spec.open_part (type_seen taken.entry) given }
{
    if given == 0 {
        return Some(taken);
    }
    taken.element(given)
}

/// A reference to a whole parameter in which a `*` stands, or to an element of it.
fn open_reference(root: Box<Root>, subscripts: Vec<TypedExpression>) -> TypedReference
    ensures { reference_view result ≡ spec.open_reference (root_view root.value)
        (map expression_view subscripts.items) }
{
    if subscripts.is_empty() {
        return TypedReference::Whole(Box::into_inner(root));
    }
    TypedReference::ElementOf {
        root: Box::into_inner(root),
        subscripts,
    }
}

/// A reference to what is of this type in a parameter in which a `*` stands: T10 where it begins nowhere.
fn open_referent<'a>(
    alloc: Global,
    locator: LocatorBefore,
    at: u32,
    variable: NamedVariable<'_, 'a>,
    taken: TypeRef<'a>,
    subscripts: Vec<TypedExpression>,
) -> Result<Referent<'a>, TypeError>
    ensures { (named : names.NamedVariable) → IsVariable variable.entry named
        → Gives referent_view result (steps.begins_somewhere at
        (option_map (spec.open_referent named (map expression_view subscripts.items) (type_seen taken.entry))
        (spec.passed_root named.storage (locator_view locator)))) }
{
    let Some(root) = passed_root(alloc, variable.storage, locator)? else {
        return Err(fault(Code::LocatorMissingOrNotAllowed, at));
    };
    Ok(Referent {
        reference: open_reference(root, subscripts),
        description: taken,
        is_parameter: variable.storage.is_parameter(),
        area: variable.area,
    })
}

/// A reference to a parameter in which a `*` stands, with all its subscripts: T3 where their number is wrong, T2 where
/// no aggregate may stand, and then T10 (own).
fn open_meant<'a>(
    alloc: Global,
    role: Role,
    locator: LocatorBefore,
    at: u32,
    variable: NamedVariable<'_, 'a>,
    subscripts: Vec<TypedExpression>,
) -> Result<Referent<'a>, TypeError>
    ensures { (named : names.NamedVariable) → IsVariable variable.entry named
        → Gives referent_view result (spec.whole_meant (role_view role) (locator_view locator) at named
        (map expression_view subscripts.items) None) }
{
    let Some(taken) = open_part(variable.whole, subscripts.len()) else {
        return Err(fault(Code::WrongNumberOfSubscripts, at));
    };
    if role.wants_scalar() && taken.is_aggregate() {
        return Err(fault(Code::AggregateNotAllowedHere, at));
    }
    open_referent(alloc, locator, at, variable, taken, subscripts)
}

/// A reference to a variable or a part of one, with its subscripts.
pub(crate) fn variable_meant<'a>(
    alloc: Global,
    role: Role,
    locator: LocatorBefore,
    at: u32,
    variable: NamedVariable<'_, 'a>,
    subscripts: Vec<TypedExpression>,
) -> Result<Referent<'a>, TypeError>
    ensures { (named : names.NamedVariable) → IsVariable variable.entry named
        → Gives referent_view result (spec.variable_meant (role_view role) (locator_view locator) at named
        (map expression_view subscripts.items)) }
{
    match variable.whole.stated() {
        Some(whole) => part_meant(alloc, role, locator, at, variable, whole, subscripts),
        None => open_meant(alloc, role, locator, at, variable, subscripts),
    }
}
