//! The code of a unit within its limits.
ghost use Rattle.std.specs.Prelude.{◌≡◌, ◌≤◌, ◌<◌, ◌++◌, ℕ, true, false, map, length, slice_index, IfOk, OnOk};
ghost use Rattle.std.specs.List.{list_all};
ghost use Rattle.pli_type_tree.specs.views.TypedView.{unit_view};
ghost use Rattle.pli_code.specs.CodeFields.{parent_fits};
ghost use Rattle.pli_code.specs.views.CodeView.{block_view, code_view};
ghost use Rattle.pli_gen_emit.specs.answers.Units.{IsEmitted};
ghost use Rattle.pli_gen_emit.specs.views.BlockView.{block_tree, block_trees};
ghost use Rattle.pli_gen_emit.specs.Encoding.{coded_block, code_of};
ghost use Rattle.pli_gen.specs.Limits.{is_too_long};
ghost use Rattle.pli_gen.specs.answers.Pieces.{block_fits, blocks_with_entries, no_code};
ghost use Rattle.pli_gen_emit.specs.views.TableView.{tables_view};

use crate::entries::{copy_types, copy_values, encode_templates, encode_variables};
use crate::globals::{encode_globals, encode_types, result_number};
use crate::gotos::land_gotos;
use crate::numbers::Numbers;
use pli_code::{Block, Code};
use pli_gen_emit::{BlockSource, Emitted};
use pli_type_tree::TypedUnit;
use std::alloc::{AllocError, Global};

/// The block around another, by a number of two bytes.
fn short_parent(parent: Option<usize>) -> Option<u16>
    requires { parent_fits parent ≡ true }
    ensures { result ≡ parent }
{
    match parent {
        None => None,
        Some(block) => Some(block as u16),
    }
}

/// A block with the numbers of its variables' templates.
fn encode_block<'a>(
    alloc: Global,
    numbers: Numbers<'_, 'a>,
    block: BlockSource<'a>,
    first: usize,
) -> Result<Block, AllocError>
    requires near { first ≤ 65535 }
    requires narrow { block_fits (block_tree block) ≡ true }
    ensures { IfOk result (λ coded.
        block_view coded ≡ coded_block (tables_view numbers.entry.tables.now) (block_tree block.entry) first) }
{
    let mut variables = Vec::new(alloc);
    encode_variables(numbers, block.head.variables.as_slice(), &mut variables)?;
    Ok(Block {
        kind: block.kind,
        parent: short_parent(block.parent),
        parameters: block.parameters as u8,
        variables,
        temporaries: block.head.temporaries as u16,
        entry: first as u16,
        statement: block.head.statement,
    })
}

/// Appends blocks, each with the place of its first instruction.
fn encode_blocks<'a>(
    alloc: Global,
    numbers: Numbers<'_, 'a>,
    blocks: &[BlockSource<'a>],
    entries: &[usize],
    coded: &mut Vec<Block>,
) -> Result<(), AllocError>
    requires each { length entries.now ≡ length blocks.now }
    requires near { (k : ℕ) → k < length entries.now → slice_index entries.now k ≤ 65535 }
    requires narrow { list_all block_fits (block_trees blocks.now) ≡ true }
    ensures { let placed = blocks_with_entries (tables_view numbers.entry.tables.now)
        (block_trees blocks.now) entries.now in
        OnOk result (map block_view coded.new.items ≡ map block_view coded.old.items ++ placed) }
{
    for i in 0..blocks.len() {
        coded.push(encode_block(alloc, numbers, blocks[i], entries[i])?)?;
    }
    Ok(())
}

/// Fills the code of a unit that is not too long, which has nothing before: what its external procedure takes and
/// gives, its tables, its globals, its blocks with their entries, and its instructions.
pub(crate) fn encode_unit(
    alloc: Global,
    unit: &TypedUnit,
    emitted: &Emitted<'_>,
    code: &mut Code,
) -> Result<(), AllocError>
    requires emitted { IsEmitted (unit_view unit.now) emitted.now }
    requires short { is_too_long (code_of (unit_view unit.now)) ≡ false }
    requires empty { code_view code.old ≡ no_code }
    ensures { OnOk result (code_view code.new ≡ code_of (unit_view unit.now)) }
{
    let tables = &emitted.emitter.tables;
    let numbers = Numbers { tables };
    let taken = unit.signature.parameters.as_slice();
    encode_types(numbers, taken, &mut code.signature.parameters)?;
    code.signature.result = result_number(numbers, &unit.signature.result);
    copy_types(alloc, tables, &mut code.descriptions)?;
    encode_templates(alloc, numbers, &mut code.templates)?;
    copy_values(alloc, tables, &mut code.values)?;
    encode_globals(alloc, numbers, unit.globals.as_slice(), &mut code.globals)?;
    let blocks = emitted.blocks.as_slice();
    let entries = emitted.entries.as_slice();
    encode_blocks(alloc, numbers, blocks, entries, &mut code.blocks)?;
    let instructions = emitted.emitter.code.as_slice();
    code.instructions.extend_from_slice(instructions)?;
    land_gotos(
        alloc,
        emitted.emitter.gotos.as_slice(),
        &mut code.instructions,
    )?;
    Ok(())
}
