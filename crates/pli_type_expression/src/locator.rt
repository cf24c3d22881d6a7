//! What stands in front of names.
ghost use Rattle.std.specs.Prelude.{◌≡◌, ℕ, Some, IfOk, option_map};
ghost use Rattle.pli_map.specs.ParameterTypes as types;
ghost use Rattle.pli_map.specs.views.DescriptionView.{description_view};
ghost use Rattle.pli_map.specs.views.ParameterView.{type_seen};
ghost use Rattle.pli_type_rules.specs.Beginnings.{root_at};
ghost use Rattle.pli_type_rules.specs.Names.{IsBased};
ghost use Rattle.pli_type_rules.specs.References.{NotLocated, locator_at, passed_root, pointer_of, root_by};
ghost use Rattle.pli_type_rules.specs.Typing.{as_locator};
ghost use Rattle.pli_type_operands.specs.views.TypingView.{denoted_view};
ghost use Rattle.pli_type_expression.specs.views.SegmentView.{locator_view, variable_view};
ghost use Rattle.pli_type_names.specs.views.StorageView.{locator_view as named_view, storage_view};
ghost use Rattle.pli_type_tree.specs.TypedTree.{Located};
ghost use Rattle.pli_type_tree.specs.views.TypedView.{expression_view, reference_view, root_view};

use pli_map::Description;
use pli_type::pointer_into;
use pli_type_names::{NamedLocator, NamedStorage};
use pli_type_operands::{Denoted, Referent};
use pli_type_rules::Beginning;
use pli_type_tree::{Root, TypedExpression, TypedReference};
use std::alloc::{AllocError, Global};

/// A variable that leads to BASED ones: a POINTER, or an OFFSET whose declaration names an area.
#[derive(Drop)]
pub struct LocatorVariable {
    pub reference: TypedReference,
    /// The area that an OFFSET names, seen from where it is used; none of a POINTER.
    pub area: Option<Beginning>,
}

/// What stands in front of a name.
#[derive(Drop)]
pub(crate) enum LocatorBefore {
    /// No arrow.
    NotLocated,
    /// An arrow after a locator, which gives this pointer.
    LocatedBy(Box<TypedExpression>),
    /// An arrow after what leads nowhere.
    LocatedWrongly,
}

impl LocatorVariable {
    /// The locator that BASED names.
    pub fn named(alloc: Global, locator: NamedLocator) -> LocatorVariable
        ensures { variable_view result ≡ named_view locator }
    {
        LocatorVariable {
            reference: locator.reference(alloc),
            area: locator.area,
        }
    }
}

/// What leads to BASED variables of what is of this description; none of what is no POINTER, and no OFFSET that names
/// an area.
fn described_locator(
    reference: TypedReference,
    description: &Description,
    area: Option<Beginning>,
) -> Option<LocatorVariable>
    ensures { option_map variable_view result
        ≡ locator_at (reference_view reference) (types.Stated (description_view description.now)) area }
{
    match (description, area) {
        (Description::Pointer, _) => Some(LocatorVariable {
            reference,
            area: None,
        }),
        (Description::Offset, Some(area)) => Some(LocatorVariable {
            reference,
            area: Some(area),
        }),
        _ => {
            drop(reference);
            None
        }
    }
}

/// A variable or a part of one that leads to BASED ones; none of what is no POINTER, and no OFFSET that names an area.
pub fn locator_at(referent: Referent<'_>) -> Option<LocatorVariable>
    ensures { option_map variable_view result
        ≡ locator_at (reference_view referent.entry.reference)
        (type_seen referent.entry.description) referent.entry.area }
{
    let area = referent.area;
    match referent.description.stated() {
        Some(description) => described_locator(referent.reference, description, area),
        None => {
            drop(referent);
            None
        }
    }
}

/// The pointer that a locator gives: an offset is one in its area.
fn pointer_of(alloc: Global, locator: LocatorVariable) -> Result<Box<TypedExpression>, AllocError>
    ensures { IfOk result (λ made. expression_view made.value ≡ pointer_of (variable_view locator)) }
{
    let LocatorVariable { reference, area } = locator;
    let held = TypedExpression::Held(reference);
    match area {
        None => Ok(Box::new(alloc, held)?),
        Some(area) => {
            let pointer = pointer_into(alloc, area, held)?;
            Ok(Box::new(alloc, pointer)?)
        }
    }
}

/// What is denoted in front of an arrow.
pub(crate) fn as_locator(alloc: Global, denoted: Denoted<'_>) -> Result<LocatorBefore, AllocError>
    ensures { IfOk result (λ made. locator_view made ≡ as_locator (denoted_view denoted.entry)) }
{
    let Denoted::Variable(referent) = denoted else {
        drop(denoted);
        return Ok(LocatorBefore::LocatedWrongly);
    };
    match locator_at(referent) {
        Some(locator) => {
            let pointer = pointer_of(alloc, locator)?;
            Ok(LocatorBefore::LocatedBy(pointer))
        }
        None => Ok(LocatorBefore::LocatedWrongly),
    }
}

/// The root at what a locator leads to, which is of this whole description.
#[tactic(auto, using(pli_type_tree::specs::laws::TypedTreeLaws::located_made))]
fn located(
    alloc: Global,
    locator: Box<TypedExpression>,
    whole: &Description,
) -> Result<Option<Box<Root>>, AllocError>
    ensures { IfOk result (λ made. option_map (λ r. root_view r.value) made
        ≡ Some (Located (expression_view locator.value) (description_view whole.now))) }
{
    let description = whole.copy(alloc)?;
    let root = Root::Located {
        locator,
        description,
    };
    Ok(Some(Box::new(alloc, root)?))
}

/// Where a variable begins, as the root of a reference.
fn begun_root(alloc: Global, begins: Beginning) -> Result<Option<Box<Root>>, AllocError>
    ensures { IfOk result (λ made. option_map (λ r. root_view r.value) made ≡ Some (root_at begins)) }
{
    let root = Box::new(alloc, begins.root())?;
    Ok(Some(root))
}

/// The root at what the locator that BASED names leads to, if it names one.
fn implied_root(
    alloc: Global,
    implied: Option<NamedLocator>,
    whole: &Description,
) -> Result<Option<Box<Root>>, AllocError>
    ensures { IfOk result (λ made. (block number : ℕ) → option_map (λ r. root_view r.value) made
        ≡ root_by (IsBased block number (option_map named_view implied)) (description_view whole.now) NotLocated) }
{
    let Some(locator) = implied else {
        return Ok(None);
    };
    let pointer = pointer_of(alloc, LocatorVariable::named(alloc, locator))?;
    located(alloc, pointer, whole)
}

/// Where a reference to a variable begins, by what stands in front of its name: a BASED variable at what the locator
/// leads to, a written one in the place of the one that BASED names; any other where it is, without a locator (X3.74).
pub(crate) fn root_by(
    alloc: Global,
    storage: NamedStorage,
    whole: &Description,
    locator: LocatorBefore,
) -> Result<Option<Box<Root>>, AllocError>
    ensures { IfOk result (λ made. option_map (λ r. root_view r.value) made
        ≡ root_by (storage_view storage) (description_view whole.now) (locator_view locator)) }
{
    match (storage, locator) {
        (NamedStorage::Begins { begins, .. }, LocatorBefore::NotLocated) => begun_root(
            alloc, begins,
        ),
        (NamedStorage::Based { implied, .. }, LocatorBefore::NotLocated) => {
            implied_root(alloc, implied, whole)
        }
        (NamedStorage::Based { .. }, LocatorBefore::LocatedBy(locator)) => {
            located(alloc, locator, whole)
        }
        (_, locator) => {
            drop(locator);
            Ok(None)
        }
    }
}

/// Where a reference to a parameter begins in which a `*` stands: no locator stands in front of its name.
pub(crate) fn passed_root(
    alloc: Global,
    storage: NamedStorage,
    locator: LocatorBefore,
) -> Result<Option<Box<Root>>, AllocError>
    ensures { IfOk result (λ made. option_map (λ r. root_view r.value) made
        ≡ passed_root (storage_view storage) (locator_view locator)) }
{
    match (storage, locator) {
        (NamedStorage::Begins { begins, .. }, LocatorBefore::NotLocated) => begun_root(
            alloc, begins,
        ),
        (_, locator) => {
            drop(locator);
            Ok(None)
        }
    }
}
