//! What names mean where they stand.
ghost use Rattle.std.specs.Prelude.{◌≡◌};
ghost use Rattle.pli_declare_outline.specs.views.OutlineView.{outline_view};
ghost use Rattle.pli_declare_tables.specs.answers.Answers.{AreOf};
ghost use Rattle.pli_declare_tables.specs.views.TableView.{entries_view};
ghost use Rattle.pli_declare_faults.specs.answers.Answers.{IsLookedUp, IsWithin, entries_at};
ghost use Rattle.pli_declare_faults.specs.answers.Looking.{looked_there};

use crate::scopes::Scopes;
use pli_base::Name;
use pli_declare_outline::Outline;
use pli_declare_scopes::Found;
use pli_declare_tables::{Table, Tables};

/// What names mean.
#[derive(Clone, Copy)]
pub enum Looked {
    /// The name of this number in a block, by its region; or the unit's own name, which the outermost block declares.
    Found { block: Option<usize>, number: usize },
    /// A10 AMBIGUOUS.
    Ambiguous,
    /// A1 NOT DECLARED.
    NotDeclared,
}

/// What names mean that fit this in the block that decides, which has this region, or none if it is the outermost.
fn decided(found: Found, block: Option<usize>) -> Looked
    ensures { result ≡ looked_there block found }
{
    match found {
        Found::Nothing => Looked::NotDeclared,
        Found::One(number) => Looked::Found { block, number },
        Found::Several => Looked::Ambiguous,
    }
}

/// What names that stand in a region mean: the innermost block round it that declares the first of them decides
/// (X3.74), and at last the outermost, which declares the unit's own name.
pub(crate) fn look_up(scopes: &Scopes, region: usize, names: &[Name]) -> Looked
    ensures { IsLookedUp result (outline_view scopes.now.outline.now) region names.now }
{
    let mut here = scopes.nesting.innermost(region);
    while let Some(block) = here {
        let items = &scopes.tables.blocks[block].block;
        if let Some(found) = items.find_declared(names) {
            return decided(found, here);
        }
        here = scopes.nesting.outward(block);
    }
    match scopes.tables.unit.block.find_declared(names) {
        Some(found) => decided(found, None),
        None => Looked::NotDeclared,
    }
}

/// The table of a block by its region, or that of the outermost one.
pub(crate) fn table_at<'t, 'a>(
    outline: &Outline,
    tables: &'t Tables<'a>,
    block: Option<usize>,
) -> &'t Table<'a>
    requires tabled { AreOf tables.now (outline_view outline.now) }
    requires within { IsWithin (outline_view outline.now) block }
    ensures { entries_view result.now.entries.items ≡ entries_at (outline_view outline.now) block }
{
    match block {
        Some(block) => &tables.blocks[block],
        None => &tables.unit,
    }
}
