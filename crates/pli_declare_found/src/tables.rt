//! Tables in which references are remembered.
ghost use Rattle.std.specs.Prelude.{◌≡◌, IfOk};
ghost use Rattle.pli_declare_outline.specs.views.OutlineView.{outline_view, regions_view};
ghost use Rattle.pli_declare_tables.specs.answers.Answers.{AreOf};

use crate::marks::remember_marks;
use pli_declare_constructs::Nesting;
use pli_declare_outline::Outline;
use pli_declare_tables::Tables;
use std::alloc::{AllocError, Global};

/// The tables of an outline. Each reference of several names is searched for once, in the block that decides what it
/// means, which remembers what it fits: to look it up then takes no longer than to read it, whatever number of times it
/// stands.
pub fn searched_tables<'a>(
    alloc: Global,
    outline: &Outline<'a>,
    nesting: &Nesting,
) -> Result<Tables<'a>, AllocError>
    requires { nesting.now ≡ regions_view outline.now.regions.items }
    ensures { IfOk result (λ tables. AreOf tables (outline_view outline.now)) }
{
    let mut tables = Tables::new(alloc, outline, nesting)?;
    if remember_marks(alloc, nesting, &mut tables.blocks, &outline.marks).is_err() {
        drop(tables);
        return Err(AllocError);
    }
    Ok(tables)
}
