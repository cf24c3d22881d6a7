//! What attributes and dimensions describe, for those who put descriptions together of their parts.
ghost use Rattle.std.specs.Prelude.{◌≡◌, ◌||◌, false, map, IfOk};
ghost use Rattle.pli_base.specs.views.DeclarationView.{attribute_view, item_view};
ghost use Rattle.pli_map.specs.views.DescriptionView.{description_view};
ghost use Rattle.pli_declare.specs.Sets.{set_of, outermost};
ghost use Rattle.pli_declare.specs.Extents.{are_bad_bounds, all_bounds};
ghost use Rattle.pli_declare.specs.Faults.{with_bounds, described_scalar};
ghost use Rattle.pli_declare.specs.Types.{number_of, is_bad_precision, is_bad_length};
ghost use Rattle.pli_declare.specs.Types as types;
ghost use Rattle.pli_declare.specs.Extents as extents;

use crate::complete::bounded;
use crate::extents::{all_described, any_star};
use crate::facts::ItemFacts;
use crate::summary::Summary;
use crate::types::scalar;
use pli_base::declaration::{Attribute, WrittenBounds};
use pli_map::Description;
use std::alloc::{AllocError, Global};

/// The type that an item's attributes say, with its defaults, where precision and length are good. A `*` counts as 1.
pub fn scalar_description(attributes: &[Attribute]) -> Description
    requires precision { let stood = map outermost (map attribute_view attributes.now) in is_bad_precision
        (set_of stood) (number_of stood) ≡ false }
    requires length { let stood = map outermost (map attribute_view attributes.now) in is_bad_length (set_of stood)
        (number_of stood) ≡ false }
    ensures { description_view result ≡ described_scalar (map outermost (map attribute_view attributes.now)) }
{
    scalar(Summary::of_item(attributes))
}

impl ItemFacts<'_> {
    /// The type that the item's attributes say, with its defaults, where precision and length are good. A `*` counts as
    /// 1.
    pub fn scalar(&self) -> Description
        requires precision { let stood = map outermost (item_view self.now.item.now).attributes in is_bad_precision
            (set_of stood) (number_of stood) ≡ false }
        requires length { let stood = map outermost (item_view self.now.item.now).attributes in is_bad_length
            (set_of stood) (number_of stood) ≡ false }
        ensures { description_view result
            ≡ described_scalar (map outermost (item_view self.now.item.now).attributes) }
    {
        scalar(self.summary)
    }

    /// Whether a `*` stands in the item's attributes or dimensions.
    pub fn has_star(&self) -> bool
        ensures { let item = item_view self.now.item.now in result
            ≡ (types.has_star (map outermost item.attributes) || extents.has_star item.dimensions) }
    {
        self.summary.star || any_star(self.item.dimensions.as_slice())
    }
}

/// An array of these dimensions, which are good, and of this element; or the element itself where there are none.
#[tactic(auto, using(pli_declare::proofs::ShapeLemmas::bounds_good))]
pub fn array_description(
    alloc: Global,
    dimensions: &[WrittenBounds],
    element: Description,
) -> Result<Description, AllocError>
    requires { are_bad_bounds dimensions.now ≡ false }
    ensures { IfOk result (λ d. description_view d ≡ with_bounds (all_bounds dimensions.now)
        (description_view element)) }
{
    let bounds = all_described(alloc, dimensions)?;
    bounded(alloc, bounds, element)
}
