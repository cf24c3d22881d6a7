//! The bounds of dimensions.
ghost use Rattle.std.specs.Prelude.{◌≡◌, ◌≤ℤ◌, negsuc, pos, IsTrue, true, IfOk};
ghost use Rattle.std.specs.List.{list_all};
ghost use Rattle.pli_base.specs.declared.declaration.WrittenBounds.TheVariants.{Stated};
ghost use Rattle.pli_declare.specs.Extents.{low_of, bounds_of, are_good, are_bad_bounds, is_star, has_star};
ghost use Rattle.pli_declare.specs.Extents.{are_bad_stars, all_bounds};

use pli_base::declaration::{Integer, WrittenBounds};
use std::alloc::{AllocError, Global};

/// How many dimensions an item may have of its own (own).
const DIMENSION_LIMIT: usize = 8;

/// The greatest bound (own); the least is as far below 0.
const BOUND_LIMIT: i128 = 32_767;

/// The lower bound of a dimension, 1 by default (X3.74).
fn lower(low: Option<Integer>) -> i128
    ensures { result ≡ low_of low }
{
    match low {
        Some(low) => low.number(),
        None => 1,
    }
}

/// Whether each bound is from -32,767 to 32,767, and the lower one not above the other.
fn good_range(low: Option<Integer>, high: Integer) -> bool
    ensures { result ≡ are_good (Stated low high) }
{
    let low = lower(low);
    let high = high.number();
    -BOUND_LIMIT <= low && low <= high && high <= BOUND_LIMIT
}

/// Whether the bounds that are written are good.
fn good(bounds: WrittenBounds) -> bool
    ensures { result ≡ are_good bounds }
{
    match bounds {
        WrittenBounds::Stated { low, high } => good_range(low, high),
        WrittenBounds::Any => true,
    }
}

/// Whether bounds are `*`.
fn is_star(bounds: WrittenBounds) -> bool
    ensures { result ≡ is_star bounds }
{
    match bounds {
        WrittenBounds::Stated { .. } => false,
        WrittenBounds::Any => true,
    }
}

/// Whether the bounds of a dimension are `*`.
pub(crate) fn any_star(dimensions: &[WrittenBounds]) -> bool
    ensures { result ≡ has_star dimensions.now }
{
    for bounds in dimensions {
        if is_star(*bounds) {
            return true;
        }
    }
    false
}

/// Whether those of all dimensions are.
fn all_stars(dimensions: &[WrittenBounds]) -> bool
    ensures { result ≡ list_all is_star dimensions.now }
{
    for bounds in dimensions {
        if !is_star(*bounds) {
            return false;
        }
    }
    true
}

/// Whether a `*` stands at what is no parameter, or beside bounds that are written.
pub(crate) fn bad_stars(is_parameter: bool, dimensions: &[WrittenBounds]) -> bool
    ensures { result ≡ are_bad_stars is_parameter dimensions.now }
{
    any_star(dimensions) && !(is_parameter && all_stars(dimensions))
}

/// Whether there are more than 8 dimensions, or one with bad bounds.
#[tactic(auto, unfolding(pli_declare::specs::Extents::are_bad_bounds))]
pub(crate) fn bad_bounds(dimensions: &[WrittenBounds]) -> bool
    ensures { result ≡ are_bad_bounds dimensions.now }
{
    dimensions.len() > DIMENSION_LIMIT || !all_good(dimensions)
}

/// Whether each dimension has good bounds.
fn all_good(dimensions: &[WrittenBounds]) -> bool
    ensures { result ≡ list_all are_good dimensions.now }
{
    for bounds in dimensions {
        if !good(*bounds) {
            return false;
        }
    }
    true
}

/// Bounds that are written and good, as those of a description.
fn described_range(low: Option<Integer>, high: Integer) -> pli_map::Bounds
    requires { IsTrue (are_good (Stated low high)) }
    ensures { result ≡ bounds_of (Stated low high) }
{
    pli_map::Bounds {
        low: lower(low) as i16,
        high: high.number() as i16,
    }
}

/// Bounds that are good, as those of a description: `*` counts as 1 to 1.
pub(crate) fn described(bounds: WrittenBounds) -> pli_map::Bounds
    requires { IsTrue (are_good bounds) }
    ensures { result ≡ bounds_of bounds }
{
    match bounds {
        WrittenBounds::Stated { low, high } => described_range(low, high),
        WrittenBounds::Any => pli_map::Bounds { low: 1, high: 1 },
    }
}

/// Bounds that are good, as those of a description.
pub(crate) fn all_described(
    alloc: Global,
    dimensions: &[WrittenBounds],
) -> Result<Vec<pli_map::Bounds>, AllocError>
    requires { list_all are_good dimensions.now ≡ true }
    ensures { IfOk result (λ bounds. bounds.items ≡ all_bounds dimensions.now) }
{
    let mut all = Vec::with_capacity(alloc, dimensions.len())?;
    for bounds in dimensions {
        all.push(described(*bounds))?;
    }
    Ok(all)
}
