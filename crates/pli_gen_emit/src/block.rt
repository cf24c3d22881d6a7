//! The blocks of a unit in the order of their numbers.
ghost use Rattle.std.specs.Prelude.{◌≡◌, ◌++◌, ◌∷◌, [], length, map, slice_set, get_or, replicate, IfOk, OnOk};
ghost use Rattle.std.specs.List.{flat_map};
ghost use Rattle.pli_type_tree.specs.Blocks.{kind_of_procedure};
ghost use Rattle.pli_type_tree.specs.views.TypedView.{statement_view, statements_view, procedure_view};
ghost use Rattle.pli_code.specs.views.CodeView.{kind_view};
ghost use Rattle.pli_gen_emit.specs.TreeTranslation.{blocks_in, blocks_among, blocks_of_procedure, by_number};
ghost use Rattle.pli_gen_emit.specs.answers.Collecting.{Collects};
ghost use Rattle.pli_gen_emit.specs.views.BlockView.{block_tree, block_trees};

use pli_code::BlockKind;
use pli_type_tree::{BlockHead, Form, TypedProcedure, TypedStatement};
use std::alloc::{AllocError, Global};

/// A block of a unit with what it executes, as it lies in the typed tree.
#[derive(Clone, Copy)]
pub struct BlockSource<'a> {
    pub kind: BlockKind,
    pub parent: Option<usize>,
    pub parameters: usize,
    pub head: &'a BlockHead,
    pub function_end: Option<u32>,
    pub statements: &'a [TypedStatement],
}

/// Blocks as they are collected, and the error of one for which memory was refused, which is asked for once, at the
/// end.
#[derive(Drop)]
pub(crate) struct Collected<'a> {
    pub blocks: Vec<BlockSource<'a>>,
    pub refused: Option<AllocError>,
}

/// Collects a block.
fn collect<'a>(blocks: &mut Collected<'a>, block: BlockSource<'a>)
    ensures { Collects blocks.old blocks.new (block_tree block.entry ∷ []) }
{
    if let Err(error) = blocks.blocks.push(block) {
        blocks.refused = Some(error.into());
    }
}

/// Collects the BEGIN blocks inside statements of a block.
#[cycle(collect)]
fn collect_among<'a>(parent: usize, statements: &'a [TypedStatement], blocks: &mut Collected<'a>)
    ensures { Collects blocks.old blocks.new (blocks_among parent (statements_view statements.now)) }
{
    for statement in statements {
        collect_in(parent, statement, blocks);
    }
}

/// Collects the BEGIN blocks inside a statement.
#[cycle(collect)]
fn collect_in<'a>(parent: usize, statement: &'a TypedStatement, blocks: &mut Collected<'a>)
    ensures { Collects blocks.old blocks.new (blocks_in parent (statement_view statement.now)) }
{
    match &statement.form {
        Form::If {
            consequence,
            alternative,
            ..
        } => {
            collect_in(parent, consequence, blocks);
            if let Some(other) = alternative {
                collect_in(parent, other, blocks);
            }
        }
        Form::Begin { head, statements } => {
            let statements = statements.as_slice();
            let block = BlockSource {
                kind: BlockKind::Begin,
                parent: Some(parent),
                parameters: 0,
                head,
                function_end: None,
                statements,
            };
            collect(blocks, block);
            collect_among(head.number, statements, blocks);
        }
        Form::Group(statements) => collect_among(parent, statements.as_slice(), blocks),
        Form::While { statements, .. } => collect_among(parent, statements.as_slice(), blocks),
        Form::Iterate { statements, .. } => collect_among(parent, statements.as_slice(), blocks),
        Form::Null
        | Form::Assign { .. }
        | Form::AssignString { .. }
        | Form::AssignAggregate { .. }
        | Form::AssignArea { .. }
        | Form::EmptyArea(_)
        | Form::Put { .. }
        | Form::Call { .. }
        | Form::Goto { .. }
        | Form::Return { .. }
        | Form::ReturnValue { .. }
        | Form::Stop
        | Form::On { .. }
        | Form::Revert(_)
        | Form::Signal(_)
        | Form::Allocate(_)
        | Form::Free(_) => {}
    }
}

/// What kind of block a procedure or an ON-unit has.
fn kind_of_procedure(procedure: &TypedProcedure) -> BlockKind
    ensures { kind_view result ≡ kind_of_procedure (procedure_view procedure.now) }
{
    if procedure.is_on_unit {
        BlockKind::OnUnit
    } else {
        BlockKind::Procedure
    }
}

/// Collects the block of a procedure or an ON-unit, and those inside it.
fn collect_procedure<'a>(procedure: &'a TypedProcedure, blocks: &mut Collected<'a>)
    ensures { Collects blocks.old blocks.new (blocks_of_procedure (procedure_view procedure.now)) }
{
    let statements = procedure.statements.as_slice();
    let block = BlockSource {
        kind: kind_of_procedure(procedure),
        parent: procedure.parent,
        parameters: procedure.parameters,
        head: &procedure.head,
        function_end: procedure.function_end,
        statements,
    };
    collect(blocks, block);
    collect_among(procedure.head.number, statements, blocks);
}

/// The blocks of procedures, in the order of the procedures.
fn collect_all<'a>(
    alloc: Global,
    procedures: &'a [TypedProcedure],
) -> Result<Vec<BlockSource<'a>>, AllocError>
    ensures { IfOk result
        (λ blocks. block_trees blocks.items ≡ flat_map blocks_of_procedure (map procedure_view procedures.now)) }
{
    let mut collected = Collected {
        blocks: Vec::new(alloc),
        refused: None,
    };
    for procedure in procedures {
        collect_procedure(procedure, &mut collected);
    }
    match collected.refused {
        None => Ok(collected.blocks),
        Some(error) => Err(error),
    }
}

/// So many lists without blocks.
fn no_blocks<'a>(alloc: Global, count: usize) -> Result<Vec<Vec<BlockSource<'a>>>, AllocError>
    ensures { IfOk result (λ lists. map (λ list. block_trees list.items) lists.items ≡ replicate count []) }
{
    let mut lists = Vec::with_capacity(alloc, count)?;
    for _ in 0..count {
        lists.push(Vec::new(alloc))?;
    }
    Ok(lists)
}

/// A block after those of its number. A number that is none has no list.
fn put_by_number<'a>(
    lists: &mut Vec<Vec<BlockSource<'a>>>,
    block: BlockSource<'a>,
) -> Result<(), AllocError>
    ensures { OnOk result (
        let before = map (λ list. block_trees list.items) lists.old.items in
        let tree = block_tree block.entry in
        map (λ list. block_trees list.items) lists.new.items
        ≡ slice_set before tree.head.number (get_or before tree.head.number [] ++ tree ∷ [])) }
{
    let Some(list) = lists.get_mut(block.head.number) else {
        return Ok(());
    };
    list.push(block)?;
    Ok(())
}

/// The blocks of lists, one list after the other.
fn flattened<'a>(
    alloc: Global,
    lists: &[Vec<BlockSource<'a>>],
) -> Result<Vec<BlockSource<'a>>, AllocError>
    ensures { IfOk result
        (λ blocks. block_trees blocks.items ≡ flat_map (λ trees. trees)
        (map (λ list. block_trees list.items) lists.now)) }
{
    let mut blocks = Vec::new(alloc);
    for list in lists {
        blocks.extend_from_slice(list.as_slice())?;
    }
    Ok(blocks)
}

/// Blocks in the order of their numbers, which are counted from 0; a number past their count is none.
fn in_order<'a>(
    alloc: Global,
    blocks: &[BlockSource<'a>],
) -> Result<Vec<BlockSource<'a>>, AllocError>
    ensures { IfOk result (λ ordered. block_trees ordered.items ≡ by_number (block_trees blocks.now)) }
{
    let mut lists = no_blocks(alloc, blocks.len())?;
    for block in blocks {
        put_by_number(&mut lists, *block)?;
    }
    flattened(alloc, lists.as_slice())
}

/// The blocks of procedures by their numbers.
pub(crate) fn blocks_by_number(
    alloc: Global,
    procedures: &[TypedProcedure],
) -> Result<Vec<BlockSource<'_>>, AllocError>
    ensures { IfOk result
        (λ blocks. block_trees blocks.items ≡ by_number (flat_map blocks_of_procedure
        (map procedure_view procedures.now))) }
{
    let blocks = collect_all(alloc, procedures)?;
    in_order(alloc, blocks.as_slice())
}
