//! What is found once for each block.
ghost use Rattle.std.specs.Prelude.{◌≡◌, map, IfOk};
ghost use Rattle.pli_declare.specs.views.DeclarationView.{declaration_view};
ghost use Rattle.pli_declare.specs.views.BlockView.{block_view};
ghost use Rattle.pli_declare.specs.Symbols as spec;
ghost use Rattle.pli_resolve.specs.views.TableView.{block_table_view, block_table_of};

use crate::ways::ways;
use pli_base::Name;
use pli_declare::{BlockDeclarations, Declaration};
use pli_resolve::BlockTable;
use std::alloc::{AllocError, Global};

/// The number of the first name that belongs to no item and is this name, or how many there are.
fn number_declared(declarations: &[Declaration], name: Name) -> usize
    ensures { result ≡ spec.number_declared (map declaration_view declarations.now) name }
{
    for (number, declaration) in declarations.iter().enumerate() {
        if declaration.owner.is_none() && declaration.identifier.name == name {
            return number;
        }
    }
    declarations.len()
}

/// The numbers of parameters among the names that their block declares.
fn parameter_numbers(
    alloc: Global,
    declarations: &[Declaration],
    parameters: &[Name],
) -> Result<Vec<usize>, AllocError>
    ensures { IfOk result (λ numbers. numbers.items ≡ map (spec.number_declared (map declaration_view declarations.now))
        parameters.now) }
{
    let mut numbers = Vec::new(alloc);
    for parameter in parameters {
        numbers.push(number_declared(declarations, *parameter))?;
    }
    Ok(numbers)
}

/// What is found once for what a region declares.
fn block_table(alloc: Global, block: &BlockDeclarations) -> Result<BlockTable, AllocError>
    ensures { IfOk result (λ table. block_table_view table ≡ block_table_of (block_view block.now)) }
{
    Ok(BlockTable {
        ways: ways(alloc, &block.declarations)?,
        parameters: parameter_numbers(alloc, &block.declarations, &block.parameters)?,
    })
}

/// What is found once for what each region declares.
pub(crate) fn block_tables(
    alloc: Global,
    blocks: &[BlockDeclarations],
) -> Result<Vec<BlockTable>, AllocError>
    ensures { IfOk result (λ tables. map block_table_view tables.items
        ≡ map block_table_of (map block_view blocks.now)) }
{
    let mut tables = Vec::new(alloc);
    for block in blocks {
        tables.push(block_table(alloc, block)?)?;
    }
    Ok(tables)
}
