//! The symbols of each block of a unit, with the members with INITIAL of each.
ghost use Rattle.std.specs.Prelude.{◌≡◌, IfOk, map};
ghost use Rattle.std.specs.List.{All};
ghost use Rattle.pli_declare.specs.views.SymbolView.{symbol_view};
ghost use Rattle.pli_resolve.specs.views.UnitView.{rows_view};
ghost use Rattle.pli_type_templates.specs.views.BlockView.{AreKnown, block_symbols};

use crate::items::ValuedItem;
use crate::members::members_by_root;
use pli_declare::Symbol;
use std::alloc::{AllocError, Global};

/// What a block declares, in the order of the text.
#[derive(Drop)]
pub(crate) struct BlockNames<'a> {
    pub symbols: &'a Vec<Symbol<'a>>,
    /// The members with INITIAL of each.
    pub members: Vec<Vec<ValuedItem<'a>>>,
}

/// What a block of these symbols declares.
fn names_in<'a>(alloc: Global, symbols: &'a Vec<Symbol<'a>>) -> Result<BlockNames<'a>, AllocError>
    ensures symbols { IfOk result (λ made. block_symbols made ≡ map symbol_view symbols.now.items) }
    ensures known { IfOk result (λ made. AreKnown made) }
{
    let members = members_by_root(alloc, symbols)?;
    Ok(BlockNames { symbols, members })
}

/// What each block of a unit with these symbols declares, and the outermost one, under the block's number.
pub(crate) fn block_names<'a>(
    alloc: Global,
    symbols: &'a [Vec<Symbol<'a>>],
) -> Result<Vec<BlockNames<'a>>, AllocError>
    ensures symbols { IfOk result (λ made. map block_symbols made.items ≡ rows_view symbols.now) }
    ensures known { IfOk result (λ made. All AreKnown made.items) }
{
    let mut made = Vec::with_capacity(alloc, symbols.len())?;
    for row in symbols {
        made.push(names_in(alloc, row)?)?;
    }
    Ok(made)
}
