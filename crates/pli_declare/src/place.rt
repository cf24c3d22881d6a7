//! Where a declared name stands.

/// Which rules on storage, scope and initial values hold for a name.
#[derive(Clone, Copy)]
pub enum Position {
    /// A name that belongs to no item and whose level is no fault, so one of level 1, which is no parameter.
    AtLevelOne,
    /// A member, or a name whose level is a fault.
    Member,
    /// A parameter of the procedure, or the description of a parameter in ENTRY.
    Parameter,
    /// What RETURNS describes.
    Result,
}

/// What has to be known about a name to judge its attributes.
#[derive(Clone, Copy)]
pub struct ItemPlace {
    pub position: Position,
    /// Whether items of a greater level number belong to it.
    pub has_members: bool,
    /// Whether a level above it has dimensions.
    pub in_array: bool,
    /// How many elements the dimensions of the levels above make together, 1 without any; `None` where one of them has
    /// bad bounds. The greatest number may stand for every greater one, since the values of one INITIAL are for no more
    /// elements.
    pub elements_above: Option<u128>,
    /// Whether the name is that of a built-in function.
    pub built_in_name: bool,
}
