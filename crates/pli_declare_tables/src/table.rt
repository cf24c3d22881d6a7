//! The tables of a unit.
ghost use Rattle.std.specs.Prelude.{◌≡◌, ℕ, ◌<◌, ◌+◌, ◌++◌, [], map, set, replicate, length, get_or, OnOk, IfOk};
ghost use Rattle.pli_declare_outline.specs.views.OutlineView.{outline_view, regions_view, mark_view, marks_view};
ghost use Rattle.pli_declare.specs.Tables.{written, entries_of, entries_after, entries_in, unit_entries};
ghost use Rattle.pli_declare.specs.Tables.{with_verdicts, numbers_from, table_with};
ghost use Rattle.pli_declare_scopes.specs.Repeats.{verdicts_of};
ghost use Rattle.pli_declare_tables.specs.views.TableView.{table_view, entries_view, blocks_view};
ghost use Rattle.pli_declare_tables.specs.answers.Answers.{AreOf};
ghost use Rattle.pli_declare.specs.answers.Owners.{AreAfterOwners, AllAfterOwners};

use crate::entries::{add_entry, declare};
use crate::entry::{Entity, Entry};
use pli_declare_constructs::Nesting;
use pli_declare_outline::{Mark, Outline, PlacedMark};
use pli_declare_scopes::{BlockItems, Verdict, Written};
use std::alloc::{AllocError, Global};

/// What a block declares.
#[derive(Drop)]
pub struct Table<'a> {
    pub entries: Vec<Entry<'a>>,
    /// Which of them count; one for each.
    pub verdicts: Vec<Verdict>,
    pub block: BlockItems,
}

/// What each block of a unit declares.
#[derive(Drop)]
pub struct Tables<'a> {
    /// For each region its table, and one more; that of a group or an ON-unit is empty.
    pub blocks: Vec<Table<'a>>,
    /// The outermost block, which declares the unit's own name.
    pub unit: Table<'a>,
}

/// So many blocks that declare nothing.
fn empty_blocks<'a>(alloc: Global, count: usize) -> Result<Vec<Vec<Entry<'a>>>, AllocError>
    ensures { IfOk result (λ blocks. blocks_view blocks.items ≡ replicate count []) }
{
    let mut blocks = Vec::new(alloc);
    for _ in 0..count {
        blocks.push(Vec::new(alloc))?;
    }
    Ok(blocks)
}

/// What a mark declares, in the block of this number.
fn declare_in<'a>(
    alloc: Global,
    blocks: &mut Vec<Vec<Entry<'a>>>,
    block: usize,
    placed: &PlacedMark<'a>,
) -> Result<(), AllocError>
    requires { block < length blocks.old.items }
    ensures { OnOk result (blocks_view blocks.new.items
        ≡ set (blocks_view blocks.old.items) block (get_or (blocks_view blocks.old.items) block []
        ++ entries_of (length (get_or (blocks_view blocks.old.items) block [])) placed.now.region
        (mark_view placed.now.mark))) }
{
    declare(alloc, &mut blocks[block], placed.region, &placed.mark)
}

/// What marks declare, each in the block of its region.
fn declare_all<'a>(
    alloc: Global,
    blocks: &mut Vec<Vec<Entry<'a>>>,
    marks: &[PlacedMark<'a>],
    nesting: &Nesting,
) -> Result<(), AllocError>
    requires { length nesting.now < length blocks.old.items }
    ensures count { OnOk result (length blocks.new.items ≡ length blocks.old.items) }
    ensures each { OnOk result ((b : ℕ) → b < length blocks.old.items → get_or (blocks_view blocks.new.items) b []
        ≡ entries_after nesting.now b (get_or (blocks_view blocks.old.items) b []) (marks_view marks.now)) }
{
    for placed in marks {
        let block = nesting.innermost(placed.region).unwrap_or(0);
        declare_in(alloc, blocks, block, placed)?;
    }
    Ok(())
}

/// What each block declares.
fn declared_blocks<'a>(
    alloc: Global,
    outline: &Outline<'a>,
    nesting: &Nesting,
) -> Result<Vec<Vec<Entry<'a>>>, AllocError>
    requires { nesting.now ≡ regions_view outline.now.regions.items }
    ensures { IfOk result (λ blocks. blocks_view blocks.items
        ≡ map (entries_in (outline_view outline.now)) (numbers_from 0
        (length (outline_view outline.now).regions + 1))) }
{
    let mut declared = empty_blocks(alloc, outline.regions.len() + 1)?;
    if let Some((_, inner)) = outline.marks.split_first() {
        declare_all(alloc, &mut declared, inner, nesting)?;
    }
    Ok(declared)
}

/// What the first mark declares: the unit's own name.
fn declared_outside<'a>(alloc: Global, outline: &Outline<'a>) -> Result<Vec<Entry<'a>>, AllocError>
    ensures { IfOk result (λ entries. entries_view entries.items ≡ unit_entries (outline_view outline.now).marks) }
{
    let mut entries = Vec::new(alloc);
    if let Some(first) = outline.marks.first() {
        if let Mark::Entered { procedure, region } = &first.mark {
            let entity = Entity::Procedure {
                procedure,
                region: *region,
            };
            add_entry(&mut entries, procedure.name, None, entity)?;
        }
    }
    Ok(entries)
}

/// Declares the names of a block that declares nothing yet, as they are looked up in it. Gives which of them count.
fn declare_names(
    alloc: Global,
    block: &mut BlockItems,
    entries: &[Entry<'_>],
) -> Result<Vec<Verdict>, AllocError>
    requires empty { block.old ≡ [] }
    requires after { AreAfterOwners (entries_view entries.now) }
    ensures verdicts { IfOk result (λ verdicts. verdicts.items ≡ verdicts_of (map written (entries_view entries.now))) }
    ensures block { IfOk result (λ verdicts. block.new ≡ with_verdicts (entries_view entries.now) verdicts.items) }
{
    let mut verdicts = Vec::with_capacity(alloc, entries.len())?;
    for entry in entries {
        let verdict = block.declare(Written {
            name: entry.identifier.name,
            owner: entry.owner,
        })?;
        verdicts.push(verdict)?;
    }
    Ok(verdicts)
}

impl<'a> Table<'a> {
    /// The table of a block that declares this.
    fn new(alloc: Global, entries: Vec<Entry<'a>>) -> Result<Table<'a>, AllocError>
        requires { AreAfterOwners (entries_view entries.items) }
        ensures { IfOk result (λ table. table_view table ≡ table_with (entries_view entries.entry.items)) }
    {
        let mut block = BlockItems::with_room(alloc, entries.len())?;
        let Ok(verdicts) = declare_names(alloc, &mut block, &entries) else {
            drop(block);
            return Err(AllocError);
        };
        Ok(Table {
            entries,
            verdicts,
            block,
        })
    }
}

/// The tables of blocks that declare this.
fn tables_of<'a>(alloc: Global, blocks: Vec<Vec<Entry<'a>>>) -> Result<Vec<Table<'a>>, AllocError>
    requires { AllAfterOwners (blocks_view blocks.items) }
    ensures { IfOk result (λ tables. map table_view tables.items ≡ map table_with (blocks_view blocks.entry.items)) }
{
    let mut tables = Vec::new(alloc);
    for entries in blocks {
        tables.push(Table::new(alloc, entries)?)?;
    }
    Ok(tables)
}

impl<'a> Tables<'a> {
    /// The tables of an outline.
    pub fn new(
        alloc: Global,
        outline: &Outline<'a>,
        nesting: &Nesting,
    ) -> Result<Tables<'a>, AllocError>
        requires { nesting.now ≡ regions_view outline.now.regions.items }
        ensures { IfOk result (λ tables. AreOf tables (outline_view outline.now)) }
    {
        let blocks = tables_of(alloc, declared_blocks(alloc, outline, nesting)?)?;
        let unit = Table::new(alloc, declared_outside(alloc, outline)?)?;
        Ok(Tables { blocks, unit })
    }
}
