//! The names of a unit, and what is known of each.
ghost use Rattle.std.specs.Prelude.{◌≡◌, ◌+◌, ◌<◌, length, map};
ghost use Rattle.pli_declare_outline.specs.views.OutlineView.{outline_view};
ghost use Rattle.pli_declare.specs.Tables.{entries_in, table_in};
ghost use Rattle.pli_declare_tables.specs.views.TableView.{table_view};
ghost use Rattle.pli_declare_variables.specs.Judging.{judged_at};
ghost use Rattle.pli_declare.specs.Resolution.{parameters_of};
ghost use Rattle.pli_declare_faults.specs.answers.Answers.{AreKnown};

use crate::scopes::Scopes;
use pli_declare_tables::Table;
use pli_declare_variables::Judged;

/// The names of a unit, and what is known of each.
#[derive(Clone, Copy)]
pub(crate) struct Known<'a> {
    pub scopes: Scopes<'a, 'a>,
    /// For each table what is known of each of its names.
    pub judged: &'a Vec<Vec<Judged>>,
    ghost known: { AreKnown (map (λ v. v.items) judged.now.items) (outline_view scopes.outline.now) },
}

impl<'a> Known<'a> {
    /// What a block declares.
    pub(crate) fn table(&self, block: usize) -> &'a Table<'a>
        requires { block < length self.now.scopes.outline.now.regions.items + 1 }
        ensures { table_view result.now ≡ table_in (outline_view self.now.scopes.outline.now) block }
    {
        &self.scopes.tables.blocks[block]
    }

    /// What is known of the name of this number in a block.
    pub(crate) fn judged(&self, block: usize, number: usize) -> Judged
        requires block { block < length self.now.scopes.outline.now.regions.items + 1 }
        requires number { number < length (entries_in (outline_view self.now.scopes.outline.now) block) }
        ensures { let o = outline_view self.now.scopes.outline.now in result
            ≡ judged_at (entries_in o block) (parameters_of o block) number }
    {
        self.judged[block][number]
    }
}
