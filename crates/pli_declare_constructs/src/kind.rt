//! What a kind of region is.
ghost use Rattle.std.specs.Prelude.{◌≡◌};
ghost use Rattle.pli_declare_constructs.specs.Regions.{is_block};
ghost use Rattle.pli_declare_constructs.specs.Reach.{is_group};
ghost use Rattle.pli_declare_constructs.specs.answers.ReachSteps.{left_on_unit};

use pli_declare_outline::RegionKind;

/// Whether a region is a block.
pub(crate) fn is_block(kind: RegionKind) -> bool
    ensures { result ≡ is_block kind }
{
    match kind {
        RegionKind::Procedure | RegionKind::Begin => true,
        RegionKind::Group | RegionKind::OnUnit => false,
    }
}

/// Whether a region is a group.
pub(crate) fn is_group(kind: RegionKind) -> bool
    ensures { result ≡ is_group kind }
{
    match kind {
        RegionKind::Group => true,
        RegionKind::Procedure | RegionKind::Begin | RegionKind::OnUnit => false,
    }
}

/// Whether an ON-unit of the block was left, when a region of this kind is left too.
pub(crate) fn left_on_unit(left: bool, kind: RegionKind) -> bool
    ensures { result ≡ left_on_unit left kind }
{
    match kind {
        RegionKind::Procedure | RegionKind::Begin => false,
        RegionKind::Group => left,
        RegionKind::OnUnit => true,
    }
}
