//! What names are declared as, and what they mean.

use crate::built_in::BuiltInFunction;
use crate::completed::ScopeAttribute;
use pli_base::declaration::InitialValue;
use pli_base::syntax::Identifier;
use pli_map::{Description, ParameterType};

/// Under which a symbol is found: its block, and its number there. The number after that of the last block is the
/// outermost block's, which declares the unit's own name.
#[derive(Clone, Copy)]
pub struct SymbolKey {
    pub block: usize,
    pub number: usize,
}

/// What a name means where it is used.
#[derive(Clone, Copy)]
pub enum NameMeaning {
    Symbol(SymbolKey),
    /// A built-in function, declared BUILTIN or not at all.
    BuiltIn(BuiltInFunction),
}

/// Where the generations of a variable come from (X3.74).
#[derive(Clone, Copy)]
pub enum StorageClass {
    /// A parameter, by its place in the list of its procedure, from 0.
    Parameter(usize),
    Automatic,
    Static,
    Controlled,
    /// BASED, with the locator that it names, if it names one.
    Based(Option<SymbolKey>),
}

/// What a name is declared as.
#[derive(Clone, Copy)]
pub enum SymbolKind<'a> {
    Variable {
        description: &'a Description,
        class: StorageClass,
        scope: ScopeAttribute,
        /// The values in INITIAL, none without it.
        initial: &'a [InitialValue],
        /// The area that OFFSET names.
        area: Option<SymbolKey>,
    },
    /// A parameter in which a `*` stands.
    OpenParameter {
        taken: &'a ParameterType,
        /// Its place in the list of its procedure, from 0.
        slot: usize,
        /// The area that OFFSET names.
        area: Option<SymbolKey>,
    },
    /// A member of the variable of this number in its block, through the members on the path, counted from 0.
    Member {
        root: usize,
        path: &'a [usize],
        /// The values in INITIAL, none without it.
        initial: &'a [InitialValue],
        /// The area that OFFSET names.
        area: Option<SymbolKey>,
    },
    /// The label of the statement of this number.
    Label {
        statement: u32,
    },
    /// The procedure that is the block of this number.
    Procedure {
        block: usize,
        /// What it returns, if it does.
        returned: Option<&'a Description>,
        /// The area that OFFSET in its RETURNS names.
        area: Option<SymbolKey>,
    },
    /// An external procedure, by the types of its parameters and the description of what it returns, if it does.
    Entry {
        parameters: &'a [ParameterType],
        returned: Option<&'a Description>,
        /// The area that OFFSET in its RETURNS names.
        area: Option<SymbolKey>,
    },
    BuiltIn,
}

/// A declared name.
#[derive(Clone, Copy)]
pub struct Symbol<'a> {
    pub identifier: Identifier,
    pub kind: SymbolKind<'a>,
}
