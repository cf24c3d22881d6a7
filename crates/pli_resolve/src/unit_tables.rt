//! What is found once for a unit.

use crate::tables::BlockTable;
use crate::ways::Way;
use indexmap::IndexMap;
use pli_declare::{BlockRegion, BuiltInFunction, SymbolKey};

/// Which regions are blocks.
#[derive(Drop)]
pub struct RegionNumbers {
    /// For each region the number of its block.
    pub numbers: Vec<usize>,
    pub blocks: Vec<BlockRegion>,
}

/// What may be called.
#[derive(Drop)]
pub struct Callables {
    /// Built-in functions, by the tokens where they are named.
    pub functions: IndexMap<u32, BuiltInFunction>,
    /// The symbols of procedures' names, by the regions of the procedures.
    pub procedures: IndexMap<usize, SymbolKey>,
}

/// Where statements and their labels stand.
#[derive(Drop)]
pub struct StatementMaps {
    /// The regions of statements, by their numbers.
    pub regions: IndexMap<u32, usize>,
    /// The statements of labels, by the labels' tokens.
    pub labels: IndexMap<u32, u32>,
}

/// What is found by a token, the number of a statement, or a region.
#[derive(Drop)]
pub struct UnitMaps {
    pub callables: Callables,
    pub statements: StatementMaps,
}

/// What is found once for a unit.
#[derive(Drop)]
pub struct UnitTables {
    pub regions: RegionNumbers,
    pub tables: Vec<BlockTable>,
    /// The ways of the names of the outermost block.
    pub ways: Vec<Way>,
    pub maps: UnitMaps,
}
