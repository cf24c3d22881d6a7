//! What the attributes of a name are completed to.

use pli_base::declaration::InitialValue;
use pli_map::{Bounds, Description, ParameterType};

/// Where the generations of a variable come from.
#[derive(Clone, Copy)]
pub enum DeclaredStorage {
    Automatic,
    Static,
    Based,
    Controlled,
}

/// Whether a name means the same in every unit.
#[derive(Clone, Copy, PartialEq, Eq)]
pub enum ScopeAttribute {
    Internal,
    External,
}

/// A variable, or a member of one.
#[derive(Drop)]
pub struct Variable<'a> {
    /// Its type, apart from its own dimensions; `None` where it has members. A `*` counts as 1 here and in its
    /// dimensions.
    pub description: Option<Description>,
    /// Its own dimensions, none where it is no array.
    pub bounds: Vec<Bounds>,
    /// Its type with its dimensions, where it is a parameter in which a `*` stands.
    pub taken: Option<ParameterType>,
    /// `None` of members and of parameters, which have their storage from elsewhere.
    pub storage: Option<DeclaredStorage>,
    pub scope: ScopeAttribute,
    /// The values in INITIAL as the tree has them, once for all names of the item; none without it.
    pub initial: &'a [InitialValue],
}

/// What a name is.
#[derive(Drop)]
pub enum Completed<'a> {
    Variable(Variable<'a>),
    /// An entry, which is external. Without descriptions it has no parameters.
    Entry {
        parameters: Vec<ParameterType>,
        result: Option<Description>,
    },
    BuiltIn,
}
