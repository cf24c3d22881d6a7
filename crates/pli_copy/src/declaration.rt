//! Copies of what stands after DECLARE.
ghost use Rattle.std.specs.Prelude.{◌≡◌, IfOk};
ghost use Rattle.pli_base.specs.views.DeclarationView.{simple_view, described_view, parameter_view, attribute_view};
ghost use Rattle.pli_base.specs.views.DeclarationView.{item_view};
ghost use Rattle.pli_base.specs.Declarations as tree;

use crate::copied::{Copied, copied_list};
use pli_base::declaration::{
    Attribute, DescribedAttribute, Item, ParameterDescription, SimpleAttribute, copied_values,
};
use std::alloc::{AllocError, Global};

impl Copied for SimpleAttribute {
    ghost View = { tree.SimpleAttribute };

    ghost view = { simple_view };

    fn copy(&self, alloc: Global) -> Result<SimpleAttribute, AllocError> {
        match self {
            SimpleAttribute::Fixed(precision) => Ok(SimpleAttribute::Fixed(*precision)),
            SimpleAttribute::Binary(precision) => Ok(SimpleAttribute::Binary(*precision)),
            SimpleAttribute::Character(length) => Ok(SimpleAttribute::Character(*length)),
            SimpleAttribute::Bit(length) => Ok(SimpleAttribute::Bit(*length)),
            SimpleAttribute::Area(size) => Ok(SimpleAttribute::Area(*size)),
            SimpleAttribute::Offset(area) => Ok(SimpleAttribute::Offset(*area)),
            SimpleAttribute::Based(None) => Ok(SimpleAttribute::Based(None)),
            SimpleAttribute::Based(Some(names)) => {
                let names = Vec::from_slice(alloc, names.as_slice())?;
                Ok(SimpleAttribute::Based(Some(names)))
            }
            SimpleAttribute::Initial(values) => {
                let values = copied_values(alloc, values.as_slice())?;
                Ok(SimpleAttribute::Initial(values))
            }
            SimpleAttribute::Varying => Ok(SimpleAttribute::Varying),
            SimpleAttribute::Pointer => Ok(SimpleAttribute::Pointer),
            SimpleAttribute::Controlled => Ok(SimpleAttribute::Controlled),
            SimpleAttribute::Static => Ok(SimpleAttribute::Static),
            SimpleAttribute::Automatic => Ok(SimpleAttribute::Automatic),
            SimpleAttribute::External => Ok(SimpleAttribute::External),
            SimpleAttribute::Internal => Ok(SimpleAttribute::Internal),
            SimpleAttribute::Builtin => Ok(SimpleAttribute::Builtin),
        }
    }
}

impl Copied for DescribedAttribute {
    ghost View = { tree.DescribedAttribute };

    ghost view = { described_view };

    fn copy(&self, alloc: Global) -> Result<DescribedAttribute, AllocError> {
        match self {
            DescribedAttribute::Simple(simple) => {
                Ok(DescribedAttribute::Simple(simple.copy(alloc)?))
            }
            DescribedAttribute::Entry => Ok(DescribedAttribute::Entry),
            DescribedAttribute::Returns => Ok(DescribedAttribute::Returns),
        }
    }
}

impl Copied for ParameterDescription {
    ghost View = { tree.ParameterDescription };

    ghost view = { parameter_view };

    fn copy(&self, alloc: Global) -> Result<ParameterDescription, AllocError> {
        Ok(ParameterDescription {
            dimensions: Vec::from_slice(alloc, self.dimensions.as_slice())?,
            attributes: copied_list(alloc, self.attributes.as_slice())?,
        })
    }
}

impl Copied for Attribute {
    ghost View = { tree.Attribute };

    ghost view = { attribute_view };

    fn copy(&self, alloc: Global) -> Result<Attribute, AllocError> {
        match self {
            Attribute::Simple(simple) => Ok(Attribute::Simple(simple.copy(alloc)?)),
            Attribute::Entry(None) => Ok(Attribute::Entry(None)),
            Attribute::Entry(Some(parameters)) => {
                let parameters = copied_list(alloc, parameters.as_slice())?;
                Ok(Attribute::Entry(Some(parameters)))
            }
            Attribute::Returns(attributes) => {
                let attributes = copied_list(alloc, attributes.as_slice())?;
                Ok(Attribute::Returns(attributes))
            }
        }
    }
}

impl Copied for Item {
    ghost View = { tree.Item };

    ghost view = { item_view };

    fn copy(&self, alloc: Global) -> Result<Item, AllocError> {
        Ok(Item {
            level: self.level,
            names: Vec::from_slice(alloc, self.names.as_slice())?,
            dimensions: Vec::from_slice(alloc, self.dimensions.as_slice())?,
            attributes: copied_list(alloc, self.attributes.as_slice())?,
        })
    }
}
