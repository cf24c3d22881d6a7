//! The code of a unit's blocks, one after the other.
#![tactic(auto, using(crate::proofs::EmitLemmas::extended_both))]

ghost use Rattle.std.specs.Prelude.{◌≡◌, ◌++◌, false, length};
ghost use Rattle.pli_gen_emit.specs.TreeTranslation.{block_code, blocks_code};
ghost use Rattle.pli_gen_emit.specs.answers.Emitting.{Emits};
ghost use Rattle.pli_gen_emit.specs.answers.Pieces.{entries_of, NotesEntry};
ghost use Rattle.pli_gen_emit.specs.views.BlockView.{block_tree, block_trees};

use crate::block::BlockSource;
use crate::emitter::Emitter;
use crate::statement::emit_list;
use pli_code::Instruction;
use pli_run::RunError;

/// Emits the code of a block: its statements, and what stands at its end.
fn emit_block<'a>(block: BlockSource<'a>, code: &mut Emitter<'a>)
    ensures { Emits code.old code.new (block_code (block_tree block.entry) (length code.old.code.items)) }
{
    emit_list(block.statements, code);
    match block.function_end {
        None => code.return_outward(0),
        Some(statement) => {
            code.emit(Instruction::Line { statement });
            code.emit(Instruction::Raise(RunError::NoReturnedValue));
        }
    }
}

/// Notes the place of the next instruction.
fn note_entry(entries: &mut Vec<usize>, code: &mut Emitter<'_>)
    ensures { NotesEntry code.old code.new entries.old.items entries.new.items }
{
    if entries.push(code.place()).is_err() {
        code.tables.lacks_memory = true;
    }
}

/// Emits the code of blocks, and notes the places of their first instructions.
pub(crate) fn emit_blocks<'a>(
    blocks: &[BlockSource<'a>],
    code: &mut Emitter<'a>,
    entries: &mut Vec<usize>,
)
    ensures code { Emits code.old code.new (blocks_code (block_trees blocks.now) (length code.old.code.items)) }
    ensures entries { code.new.tables.lacks_memory ≡ false →
        entries.new.items ≡ entries.old.items ++ entries_of (block_trees blocks.now) (length code.old.code.items) }
{
    for block in blocks {
        note_entry(entries, code);
        emit_block(*block, code);
    }
}
