//! How blocks are numbered.
ghost use Rattle.std.specs.Prelude.{◌≡◌, ◌≤◌, IfOk};
ghost use Rattle.pli_declare_outline.specs.views.OutlineView.{regions_view};
ghost use Rattle.pli_declare.specs.BlockNumbers as spec;

use pli_declare::{BlockRegion, ResolvedBlockKind};
use pli_declare_outline::{Region, RegionKind};
use std::alloc::{AllocError, Global};

/// The block that a region is: a group is none.
pub(crate) fn block_kind(kind: RegionKind) -> Option<ResolvedBlockKind>
    ensures { result ≡ spec.block_kind kind }
{
    match kind {
        RegionKind::Procedure => Some(ResolvedBlockKind::Procedure),
        RegionKind::Begin => Some(ResolvedBlockKind::Begin),
        RegionKind::Group => None,
        RegionKind::OnUnit => Some(ResolvedBlockKind::OnUnit),
    }
}

/// The number of the block round a region, by those of the regions before it.
fn number_outside(numbers: &[usize], outer: Option<usize>) -> usize
    ensures { result ≡ spec.number_outside numbers.now outer }
{
    match outer {
        Some(outer) if outer < numbers.len() => numbers[outer],
        _ => 0,
    }
}

/// The number of the block that a region is or stands in, where a block would have the next number.
fn number_with(
    numbers: &[usize],
    next: usize,
    outer: Option<usize>,
    kind: Option<ResolvedBlockKind>,
) -> usize
    ensures { result ≡ spec.number_with numbers.now next outer kind }
{
    match kind {
        Some(_) => next,
        None => number_outside(numbers, outer),
    }
}

/// How many blocks begin with a region.
fn begun_by(kind: Option<ResolvedBlockKind>) -> usize
    ensures begun { result ≡ spec.begun_by kind }
    ensures one { result ≤ 1 }
{
    match kind {
        Some(_) => 1,
        None => 0,
    }
}

/// For each region the number of the block that it is or stands in.
pub(crate) fn block_numbers(alloc: Global, regions: &[Region]) -> Result<Vec<usize>, AllocError>
    ensures { IfOk result (λ numbers. numbers.items ≡ spec.block_numbers (regions_view regions.now)) }
{
    let mut numbers = Vec::new(alloc);
    let mut next = 0;
    for region in regions {
        let kind = block_kind(region.kind);
        let number = number_with(&numbers, next, region.outer, kind);
        numbers.push(number)?;
        next += begun_by(kind);
    }
    Ok(numbers)
}

/// The regions that are blocks.
pub(crate) fn block_regions(
    alloc: Global,
    regions: &[Region],
) -> Result<Vec<BlockRegion>, AllocError>
    ensures { IfOk result (λ blocks. blocks.items ≡ spec.block_regions (regions_view regions.now)) }
{
    let mut blocks = Vec::new(alloc);
    for (number, region) in regions.iter().enumerate() {
        if let Some(kind) = block_kind(region.kind) {
            blocks.push(BlockRegion {
                region: number,
                kind,
                outer: region.outer,
            })?;
        }
    }
    Ok(blocks)
}
