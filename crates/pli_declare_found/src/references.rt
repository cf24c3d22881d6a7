//! The blocks in which references are remembered.
ghost use Rattle.std.specs.Prelude.{◌≡◌, Some, IfSome};
ghost use Rattle.pli_declare_constructs.specs.Regions.{innermost};

use pli_base::Name;
use pli_declare_constructs::Nesting;
use pli_declare_tables::Table;
use std::alloc::{AllocError, Global};

/// The innermost block round a region that declares a name.
fn declaring_block(
    nesting: &Nesting,
    tables: &[Table],
    region: usize,
    name: Name,
) -> Option<usize> {
    let mut here = nesting.innermost(region);
    while let Some(block) = here {
        if tables.get(block)?.block.declares(name) {
            return here;
        }
        here = nesting.outward(block);
    }
    None
}

/// Remembers what the names of a reference fit in a table.
fn remember_in(alloc: Global, table: &mut Table, names: &[Name]) -> Result<(), AllocError>
    ensures { table.new ≡ table.old }
{
    table.block.remember(alloc, names)
}

/// Remembers what the names of a reference in a region fit in the block that decides, if there is one. One name fits
/// what is found at once.
pub(crate) fn remember(
    alloc: Global,
    nesting: &Nesting,
    tables: &mut Vec<Table>,
    region: usize,
    names: &[Name],
) -> Result<(), AllocError>
    ensures { tables.new.items ≡ tables.old.items }
{
    let [first, _second, ..] = names else {
        return Ok(());
    };
    let Some(block) = declaring_block(nesting, tables, region, *first) else {
        return Ok(());
    };
    let Some(table) = tables.get_mut(block) else {
        return Ok(());
    };
    remember_in(alloc, table, names)
}
