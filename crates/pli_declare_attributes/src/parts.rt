//! The parts of an item that ENTRY and RETURNS hold.
ghost use Rattle.std.specs.Prelude.{◌≡◌, map, option_map};
ghost use Rattle.pli_base.specs.views.DeclarationView.{described_view, parameter_view, attribute_view};
ghost use Rattle.pli_declare.specs.Faults.{parameters_in, returned_in};

use pli_base::declaration::{Attribute, DescribedAttribute, ParameterDescription};

/// The descriptions of parameters in an item's ENTRY, none without any.
pub(crate) fn parameters_of(attributes: &[Attribute]) -> &[ParameterDescription]
    ensures { map parameter_view result.now ≡ parameters_in (map attribute_view attributes.now) }
{
    for attribute in attributes {
        if let Attribute::Entry(Some(parameters)) = attribute {
            return parameters.as_slice();
        }
    }
    &[]
}

/// The attributes in an item's RETURNS.
pub(crate) fn returned_of(attributes: &[Attribute]) -> Option<&[DescribedAttribute]>
    ensures { option_map (λ r. map described_view r.now) result ≡ returned_in (map attribute_view attributes.now) }
{
    for attribute in attributes {
        if let Attribute::Returns(returned) = attribute {
            return Some(returned.as_slice());
        }
    }
    None
}
