//! Where variables begin that are not BASED.
ghost use Rattle.std.specs.Prelude.{◌≡◌};
ghost use Rattle.pli_map.specs.ParameterTypes as taken;
ghost use Rattle.pli_map.specs.views.DescriptionView.{description_view};
ghost use Rattle.pli_map.specs.views.ParameterView.{type_seen, type_view};
ghost use Rattle.pli_type_rules.specs.Beginnings as spec;
ghost use Rattle.pli_type_tree.specs.WellTyped.{is_area_type};
ghost use Rattle.pli_type_tree.specs.views.TypedView.{reference_view, root_view};

use pli_map::{Description, ParameterType, TypeRef, is_area};
use pli_type_tree::{Root, TypedReference};

/// Where a variable begins that is no BASED one, seen from where its name is used. An AREA is such a variable.
#[derive(Clone, Copy, Debug, PartialEq, Eq)]
pub enum Beginning {
    /// In a slot of the activation so many static links outward.
    InSlot { outward: usize, slot: usize },
    /// Before the program begins, by the number of its global.
    OfProgram { number: usize },
    /// At the newest generation of a CONTROLLED variable, by the number of its global.
    NewestOf { number: usize },
}

impl Beginning {
    /// The root of references that begin there.
    pub fn root(self) -> Root
        ensures { root_view result ≡ spec.root_at self }
    {
        match self {
            Beginning::InSlot { outward, slot } => Root::InSlot { outward, slot },
            Beginning::OfProgram { number } => Root::OfProgram { number },
            Beginning::NewestOf { number } => Root::NewestOf { number },
        }
    }

    /// The variable that begins there, as a whole.
    pub fn whole(self) -> TypedReference
        ensures { reference_view result ≡ spec.whole_at self }
    {
        TypedReference::Whole(self.root())
    }
}

/// Where references of a root begin; those that a locator leads to begin nowhere.
fn beginning_of(root: &Root) -> Option<Beginning>
    ensures { result ≡ spec.beginning_of (root_view root.now) }
{
    match root {
        Root::InSlot { outward, slot } => Some(Beginning::InSlot {
            outward: *outward,
            slot: *slot,
        }),
        Root::OfProgram { number } => Some(Beginning::OfProgram { number: *number }),
        Root::NewestOf { number } => Some(Beginning::NewestOf { number: *number }),
        Root::Located { .. } => None,
    }
}

/// Whether a type of a parameter is that of an area.
fn is_area_among(taken: &ParameterType) -> bool
    ensures { result ≡ is_area_type (type_view taken.now) }
{
    match taken {
        ParameterType::Stated(description) => is_area(description),
        _ => false,
    }
}

/// Whether a type is that of an area.
pub fn is_area_type(taken: TypeRef<'_>) -> bool
    ensures { result ≡ is_area_type (type_seen taken.entry) }
{
    match taken {
        TypeRef::Stated(description) => is_area(description),
        TypeRef::Open(taken) => is_area_among(taken),
    }
}

/// Where an area begins, if a reference to what is of a description is one to an area.
fn described_area(reference: &TypedReference, description: &Description) -> Option<Beginning>
    ensures { result ≡ spec.area_meant (reference_view reference.now)
        (taken.Stated (description_view description.now)) }
{
    match description {
        Description::Area(_) => match reference {
            TypedReference::Whole(root) => beginning_of(root),
            TypedReference::Part { .. } | TypedReference::ElementOf { .. } => None,
        },
        _ => None,
    }
}

/// The same of what is of a type.
fn area_of_type(reference: &TypedReference, taken: &ParameterType) -> Option<Beginning>
    ensures { result ≡ spec.area_meant (reference_view reference.now) (type_view taken.now) }
{
    match taken {
        ParameterType::Stated(description) => described_area(reference, description),
        _ => None,
    }
}

/// Where an area begins, if a reference to what is of a type is one to an area: that is a whole variable, and none that
/// a locator leads to.
pub fn area_meant(reference: &TypedReference, taken: TypeRef<'_>) -> Option<Beginning>
    ensures { result ≡ spec.area_meant (reference_view reference.now) (type_seen taken.entry) }
{
    match taken {
        TypeRef::Stated(description) => described_area(reference, description),
        TypeRef::Open(taken) => area_of_type(reference, taken),
    }
}
