//! Outlines: what a unit declares and uses, apart from how its statements nest.

use crate::statement_places::StatementPlace;
use crate::used_names::UsedNames;
use pli_base::declaration::Item;
use pli_base::statement::Procedure;
use pli_base::syntax::Identifier;

/// What a region is (own).
#[derive(Clone, Copy)]
pub enum RegionKind {
    Procedure,
    /// A BEGIN block.
    Begin,
    /// A DO group.
    Group,
    /// The statement of ON.
    OnUnit,
}

/// A region, and the number of the one that it stands in; the external procedure stands in none.
#[derive(Clone, Copy)]
pub struct Region {
    pub kind: RegionKind,
    pub outer: Option<usize>,
    /// The number of the statement with which it begins: PROCEDURE, BEGIN, DO or ON.
    pub statement: u32,
}

/// What the text declares or uses.
#[derive(Drop)]
pub enum Mark<'a> {
    /// The items of a DECLARE.
    Declared(&'a [Item]),
    /// A label of a statement that is no procedure.
    Labelled(Identifier),
    /// A procedure, and the number of its own region.
    Entered {
        procedure: &'a Procedure,
        region: usize,
    },
    /// The names of a reference between its arrows, as they are joined by `.`; each locator is a reference of its own.
    Used(UsedNames),
    /// The label of GOTO.
    Jumped(Identifier),
}

/// A mark, and the number of the region that it stands in.
#[derive(Drop)]
pub struct PlacedMark<'a> {
    pub region: usize,
    pub mark: Mark<'a>,
}

/// The outline of a unit: its regions, numbered from 0 in the order in which they begin, its marks in the order of the
/// text, and its statements in that order, the END of each region among them.
#[derive(Drop)]
pub struct Outline<'a> {
    pub regions: Vec<Region>,
    pub marks: Vec<PlacedMark<'a>>,
    pub places: Vec<StatementPlace>,
}
