//! What the blocks of a unit declare.
ghost use Rattle.std.specs.Prelude.{◌≡◌};
ghost use Rattle.pli_declare_outline.specs.views.OutlineView.{outline_view, regions_view};
ghost use Rattle.pli_declare_tables.specs.answers.Answers.{AreOf};
ghost use Rattle.pli_declare_faults.specs.answers.Answers.{AreInBlocks};

use pli_declare_constructs::Nesting;
use pli_declare_outline::Outline;
use pli_declare_tables::Tables;

/// The outline of a unit, how its regions nest, and the tables of what its blocks declare.
#[derive(Clone, Copy)]
pub(crate) struct Scopes<'s, 'a> {
    pub outline: &'s Outline<'a>,
    pub nesting: &'s Nesting,
    pub tables: &'s Tables<'a>,
    ghost nested: { nesting.now ≡ regions_view outline.now.regions.items },
    ghost tabled: { AreOf tables.now (outline_view outline.now) },
    ghost placed: { AreInBlocks (outline_view outline.now) },
}
