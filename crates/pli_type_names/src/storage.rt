//! Where the storage of variables is, seen from where their names are used.
ghost use Rattle.std.specs.Prelude.{◌≡◌, []};
ghost use Rattle.pli_map.specs.views.DescriptionView.{description_view};
ghost use Rattle.pli_type_rules.specs.Beginnings.{root_at};
ghost use Rattle.pli_type_rules.specs.NamedUnits.{is_based_whole};
ghost use Rattle.pli_type_rules.specs.References.{is_passed};
ghost use Rattle.pli_type_names.specs.LocatorReferences.{described_by, locator_reference};
ghost use Rattle.pli_type_names.specs.views.StorageView.{storage_view};
ghost use Rattle.pli_type_tree.specs.views.TypedView.{reference_view};

use pli_map::Description;
use pli_type_rules::Beginning;
use pli_type_tree::TypedReference;
use std::alloc::Global;

/// A locator variable of its own, or a locator that is a member without dimensions: a POINTER, or an OFFSET whose
/// declaration names an area.
#[derive(Clone, Copy)]
pub struct NamedLocator {
    /// Where the variable begins.
    pub begins: Beginning,
    /// How many bytes after that the member stands; none of a variable of its own.
    pub offset: Option<u32>,
    /// The area that an OFFSET names, seen from where the locator is used; none of a POINTER.
    pub area: Option<Beginning>,
}

/// Where the storage of a variable is.
#[derive(Clone, Copy)]
pub enum NamedStorage {
    /// It begins there, seen from where the name is used: that of a variable that is not BASED. Whether it is a
    /// parameter's is told too.
    Begins {
        begins: Beginning,
        is_parameter: bool,
    },
    /// Wherever a locator leads: that of the BASED variable of this number among those of a block, counted from 0, with
    /// the locator that BASED names, if it names one.
    Based {
        block: usize,
        number: usize,
        implied: Option<NamedLocator>,
    },
}

/// What a locator is that names an area, or none.
fn described_by(area: Option<Beginning>) -> Description
    ensures { description_view result ≡ described_by area }
{
    match area {
        None => Description::Pointer,
        Some(_) => Description::Offset,
    }
}

impl NamedLocator {
    /// The reference to it.
    pub fn reference(self, alloc: Global) -> TypedReference
        ensures { reference_view result ≡ locator_reference (root_at self.begins) self.offset (described_by self.area) }
    {
        let root = self.begins.root();
        match self.offset {
            None => TypedReference::Whole(root),
            Some(offset) => TypedReference::Part {
                root,
                offset,
                description: described_by(self.area),
                subscripts: Vec::new(alloc),
            },
        }
    }
}

impl NamedStorage {
    /// Whether it is that of a BASED variable.
    pub fn is_based(self) -> bool
        ensures { result ≡ is_based_whole (storage_view self) [] }
    {
        matches!(self, NamedStorage::Based { .. })
    }

    /// Whether it is that of a parameter.
    pub fn is_parameter(self) -> bool
        ensures { result ≡ is_passed (storage_view self) }
    {
        match self {
            NamedStorage::Begins { is_parameter, .. } => is_parameter,
            NamedStorage::Based { .. } => false,
        }
    }
}
