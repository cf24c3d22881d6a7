//! The references that the marks of a unit use.
ghost use Rattle.std.specs.Prelude.{◌≡◌};

use crate::attributes::{remember_items, remember_options};
use crate::references::remember;
use pli_base::Name;
use pli_base::syntax::Identifier;
use pli_declare_constructs::Nesting;
use pli_declare_outline::{Mark, PlacedMark};
use pli_declare_tables::Table;
use std::alloc::{AllocError, Global};

/// The names of identifiers.
fn names_of(alloc: Global, identifiers: &[Identifier]) -> Result<Vec<Name>, AllocError> {
    identifiers
        .iter()
        .map(|identifier| identifier.name)
        .collect(alloc)
}

/// Remembers the references of a mark. One name, as that of a GOTO, is found at once.
fn remember_mark(
    alloc: Global,
    nesting: &Nesting,
    tables: &mut Vec<Table>,
    placed: &PlacedMark,
) -> Result<(), AllocError>
    ensures { tables.new.items ≡ tables.old.items }
{
    let region = placed.region;
    match &placed.mark {
        Mark::Labelled(_) | Mark::Jumped(_) => Ok(()),
        Mark::Declared(items) => remember_items(alloc, nesting, tables, region, items),
        Mark::Entered { procedure, .. } => {
            remember_options(alloc, nesting, tables, region, procedure.options.as_slice())
        }
        Mark::Used(used) if used.as_slice().len() < 2 => Ok(()),
        Mark::Used(used) => {
            let names = names_of(alloc, used.as_slice())?;
            remember(alloc, nesting, tables, region, &names)
        }
    }
}

/// Remembers the references of marks.
pub(crate) fn remember_marks(
    alloc: Global,
    nesting: &Nesting,
    tables: &mut Vec<Table>,
    marks: &[PlacedMark],
) -> Result<(), AllocError>
    ensures { tables.new.items ≡ tables.old.items }
{
    for placed in marks {
        remember_mark(alloc, nesting, tables, placed)?;
    }
    Ok(())
}
