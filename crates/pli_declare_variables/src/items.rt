//! What an entry has as an item. A label and a procedure have nothing.
ghost use Rattle.std.specs.Prelude.{◌≡◌, false, map};
ghost use Rattle.pli_map.specs.Layouts.{IsLayout};
ghost use Rattle.pli_map.specs.Sizes.{size_of, alignment_of};
ghost use Rattle.pli_map.specs.views.DescriptionView.{description_view};
ghost use Rattle.pli_declare_tables.specs.views.TableView.{entry_view};
ghost use Rattle.pli_declare.specs.Descriptions.{is_starred};
ghost use Rattle.pli_declare.specs.Faults.{described_scalar};
ghost use Rattle.pli_declare.specs.Sets.{set_of, outermost};
ghost use Rattle.pli_declare.specs.Types.{number_of, is_bad_precision, is_bad_length};
ghost use Rattle.pli_declare.specs.Places.{item_in};
ghost use Rattle.pli_declare.specs.Places as places;

use pli_base::declaration::WrittenBounds;
use pli_declare_attributes::{Named, scalar_description, scalar_layout};
use pli_declare_tables::{Entity, Entry};
use pli_map::{Description, Layout};

/// Whether its level is a fault.
pub(crate) fn is_bad_level(entry: &Entry) -> bool
    ensures { result ≡ places.is_bad_level (entry_view entry.now).entity }
{
    match entry.entity {
        Entity::Item {
            facts: _,
            is_bad_level,
        } => is_bad_level,
        Entity::Label { .. } | Entity::Procedure { .. } => false,
    }
}

/// The dimensions of its own.
pub(crate) fn dimensions<'a>(entry: &Entry<'a>) -> &'a [WrittenBounds]
    ensures { result.now ≡ (item_in (entry_view entry.now).entity).dimensions }
{
    match entry.entity {
        Entity::Item {
            facts,
            is_bad_level: _,
        } => facts.item.dimensions.as_slice(),
        Entity::Label { .. } | Entity::Procedure { .. } => &[],
    }
}

/// The type of its own, with its defaults, where precision and length are good. A `*` counts as 1.
pub(crate) fn scalar(entry: &Entry) -> Description
    requires precision { let stood = map outermost (item_in (entry_view entry.now).entity).attributes in
        is_bad_precision (set_of stood) (number_of stood) ≡ false }
    requires length { let stood = map outermost (item_in (entry_view entry.now).entity).attributes in
        is_bad_length (set_of stood) (number_of stood) ≡ false }
    ensures { description_view result
        ≡ described_scalar (map outermost (item_in (entry_view entry.now).entity).attributes) }
{
    match &entry.entity {
        Entity::Item {
            facts,
            is_bad_level: _,
        } => facts.scalar(),
        Entity::Label { .. } | Entity::Procedure { .. } => scalar_description(&[]),
    }
}

/// What the type of its own takes, or `None` where it is over the limit.
pub(crate) fn layout(entry: &Entry) -> Option<Layout>
    ensures { let d = described_scalar (map outermost (item_in (entry_view entry.now).entity).attributes) in
        IsLayout result (size_of d) (alignment_of d) }
{
    match &entry.entity {
        Entity::Item {
            facts,
            is_bad_level: _,
        } => facts.layout(),
        Entity::Label { .. } | Entity::Procedure { .. } => scalar_layout(&[]),
    }
}

/// Whether a `*` stands in it, so that its size is not known.
pub(crate) fn is_starred(entry: &Entry) -> bool
    ensures { result ≡ is_starred (item_in (entry_view entry.now).entity) }
{
    match &entry.entity {
        Entity::Item {
            facts,
            is_bad_level: _,
        } => facts.has_star(),
        Entity::Label { .. } | Entity::Procedure { .. } => false,
    }
}

/// Whether it is a variable: an item that is neither an entry nor a built-in function.
pub(crate) fn is_variable(entry: &Entry) -> bool
    ensures { result ≡ places.is_variable (entry_view entry.now).entity }
{
    match &entry.entity {
        Entity::Item {
            facts,
            is_bad_level: _,
        } => Named::of_item(facts).is_variable,
        Entity::Label { .. } | Entity::Procedure { .. } => false,
    }
}
