//! What items take by their attributes and dimensions alone, without a tree.
ghost use Rattle.std.specs.Prelude.{◌≡◌, ◌+◌, ◌*◌, false, map};
ghost use Rattle.std.specs.Int.{next_multiple_of};
ghost use Rattle.pli_base.specs.views.DeclarationView.{attribute_view, item_view};
ghost use Rattle.pli_map.specs.Layouts.{IsLayout};
ghost use Rattle.pli_map.specs.Sizes.{count_of, size_of, alignment_of};
ghost use Rattle.pli_declare.specs.Sets.{outermost};
ghost use Rattle.pli_declare.specs.Extents.{are_bad_bounds, all_bounds};
ghost use Rattle.pli_declare.specs.Faults.{described_scalar};
ghost use Rattle.pli_declare.specs.Types.{number_or, scalar_of};

use crate::facts::ItemFacts;
use crate::initials::elements;
use crate::set::AttributeSet;
use crate::summary::Summary;
use pli_base::declaration::{Attribute, WrittenBounds};
use pli_map::{Layout, OVER_LIMIT, fixed_binary_size};

/// A number in parentheses, or else the default.
fn number_or_default(number: Option<u64>, default: u64) -> u64
    ensures { result ≡ number_or default number }
{
    number.unwrap_or(default)
}

/// What a varying string of this greatest length takes, or `None` where it is over the limit.
fn varying_layout(length: u64) -> Option<Layout>
    ensures { IsLayout result (2 + length) 2 }
{
    Layout::of(2 + length.min(OVER_LIMIT), 2)
}

/// What an area of this size takes, or `None` where it is over the limit.
fn area_layout(size: u64) -> Option<Layout>
    ensures { IsLayout result (next_multiple_of size 8) 8 }
{
    Layout::of(size.min(OVER_LIMIT).next_multiple_of(8), 8)
}

/// What a type takes, whatever the number in it is, or `None` where it is over the limit.
#[tactic(auto, unfolding(pli_declare::specs::Types::scalar_of))]
fn summary_layout(summary: Summary) -> Option<Layout>
    ensures { IsLayout result (size_of (scalar_of summary.set.0 summary.number))
        (alignment_of (scalar_of summary.set.0 summary.number)) }
{
    let set = summary.set;
    let number = summary.number;
    if set.has(AttributeSet::FIXED) {
        let bytes = fixed_binary_size(number.unwrap_or(15));
        Layout::of(u64::from(bytes), bytes)
    } else if set.has(AttributeSet::VARYING) {
        varying_layout(number_or_default(number, 1))
    } else if set.has(AttributeSet::CHARACTER) {
        Layout::of(number_or_default(number, 1), 1)
    } else if set.has(AttributeSet::BIT) {
        Layout::of(number_or_default(number, 1).div_ceil(8), 1)
    } else if set.has(AttributeSet::POINTER) {
        Layout::of(8, 4)
    } else if set.has(AttributeSet::OFFSET) {
        Layout::of(4, 4)
    } else if set.has(AttributeSet::AREA) {
        area_layout(number_or_default(number, 1_000))
    } else {
        Layout::of(1_000, 8)
    }
}

/// What the type takes that an item's attributes say, or `None` where it is over the limit.
pub fn scalar_layout(attributes: &[Attribute]) -> Option<Layout>
    ensures { let d = described_scalar (map outermost (map attribute_view attributes.now)) in
        IsLayout result (size_of d) (alignment_of d) }
{
    summary_layout(Summary::of_item(attributes))
}

impl ItemFacts<'_> {
    /// What the type takes that the item's attributes say, or `None` where it is over the limit.
    pub fn layout(&self) -> Option<Layout>
        ensures { let d = described_scalar (map outermost (item_view self.now.item.now).attributes) in
            IsLayout result (size_of d) (alignment_of d) }
    {
        summary_layout(self.summary)
    }
}

/// What an array takes of these dimensions, which are good, and of elements of this layout; or `None` where it is over
/// the limit.
#[tactic(auto, using(pli_declare::proofs::ShapeLemmas::bounds_good, crate::proofs::CountLemmas::enough))]
pub fn array_layout(element: Layout, dimensions: &[WrittenBounds]) -> Option<Layout>
    requires { are_bad_bounds dimensions.now ≡ false }
    ensures { IsLayout result (count_of (all_bounds dimensions.now) * next_multiple_of element.bytes element.alignment)
        element.alignment }
{
    let count = elements(1, dimensions).min(u128::from(u64::MAX)) as u64;
    element.times(count)
}
