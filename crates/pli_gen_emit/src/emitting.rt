//! What is emitted for a unit.
ghost use Rattle.std.specs.Prelude.{IfOk};
ghost use Rattle.pli_type_tree.specs.views.TypedView.{unit_view};
ghost use Rattle.pli_gen_emit.specs.answers.Units.{IsEmitted};

use crate::block::{BlockSource, blocks_by_number};
use crate::emitter::Emitter;
use crate::layout::emit_blocks;
use crate::one::One;
use crate::table::{NumberedTables, number_unit};
use indexmap::IndexSet;
use pli_type_tree::TypedUnit;
use std::alloc::{AllocError, Global};

/// The blocks of a unit by their numbers, the places of their first instructions, counted from 0, and their code, one
/// after the other, with its tables.
#[derive(Drop)]
pub struct Emitted<'a> {
    pub blocks: Vec<BlockSource<'a>>,
    pub entries: Vec<usize>,
    pub emitter: Emitter<'a>,
}

/// The blocks of a unit, and their code, with the number 1 as a value that it may name, unless memory runs out.
pub fn emit_unit<'a>(
    alloc: Global,
    one: One<'a>,
    unit: &'a TypedUnit,
) -> Result<Emitted<'a>, AllocError>
    ensures { IfOk result (IsEmitted (unit_view unit.now)) }
{
    let blocks = blocks_by_number(alloc, unit.procedures.as_slice())?;
    let mut entries = Vec::new(alloc);
    let mut emitter = Emitter {
        one,
        tables: NumberedTables {
            descriptions: IndexSet::new(alloc),
            templates: IndexSet::new(alloc),
            values: IndexSet::new(alloc),
            lacks_memory: false,
        },
        code: Vec::new(alloc),
        gotos: Vec::new(alloc),
        is_wide: false,
    };
    number_unit(&mut emitter.tables, unit, blocks.as_slice());
    emit_blocks(blocks.as_slice(), &mut emitter, &mut entries);
    if emitter.tables.lacks_memory {
        return Err(AllocError);
    }
    Ok(Emitted {
        blocks,
        entries,
        emitter,
    })
}
