//! Typed procedures and units.

use crate::statement::{BlockHead, TypedStatement};
use crate::template::{Template, VariableGroup};
use pli_base::Name;
use pli_map::{Description, ParameterType};
use pli_program::VariableKind;

/// A procedure.
#[derive(Drop)]
pub struct TypedProcedure {
    /// Whether it is an ON-unit, which takes nothing and gives nothing.
    pub is_on_unit: bool,
    pub head: BlockHead,
    /// The block in which it stands; none for an external procedure.
    pub parent: Option<usize>,
    pub parameters: usize,
    /// The number of a function's END, which must not be reached; none where it returns no value.
    pub function_end: Option<u32>,
    pub statements: Vec<TypedStatement>,
}

/// What an external procedure takes, and what it gives if it is a function.
#[derive(Drop)]
pub struct Signature {
    pub parameters: Vec<ParameterType>,
    pub result: Option<Description>,
}

/// What a unit names in a row that is there for the whole program, as the names of one item of DECLARE are.
#[derive(Drop)]
pub enum GlobalGroup {
    /// Variables of the unit's own.
    OwnVariables {
        kind: VariableKind,
        variables: VariableGroup,
    },
    /// Variables of these names, which all units that declare them share.
    ExternalVariables {
        names: Vec<Name>,
        kind: VariableKind,
        template: Template,
    },
    /// External procedures of these names.
    EntryPoints {
        names: Vec<Name>,
        signature: Signature,
    },
}

/// A unit.
#[derive(Drop)]
pub struct TypedUnit {
    pub name: Name,
    /// The name of its external procedure.
    pub procedure: Name,
    /// Whether it has OPTIONS(MAIN).
    pub is_main: bool,
    /// What its external procedure takes and gives.
    pub signature: Signature,
    /// Its globals, in the order of the text.
    pub globals: Vec<GlobalGroup>,
    /// The external procedure first.
    pub procedures: Vec<TypedProcedure>,
}
