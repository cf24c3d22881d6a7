//! The trees of what stands after DECLARE, and in the parentheses of a procedure's RETURNS.
//! None of the types leads back to itself. An ENTRY or RETURNS in the description of a parameter or of a result is a
//! fault of the declaration whatever its parentheses hold, so that nothing is kept of them, and a text may nest them as
//! deep as it likes.
ghost use Rattle.std.specs.Prelude.{◌≡◌, IfOk};
ghost use Rattle.pli_base.specs.Declarations.{integer_of};

use crate::name::Name;
use crate::string::{BitString, CharacterString};
use crate::syntax::Identifier;
use std::alloc::{AllocError, Global};

/// A constant with its sign, if it has one: `-0` is negative.
#[derive(Clone, Copy)]
pub struct Integer {
    pub negative: bool,
    pub value: u64,
}

impl Integer {
    /// The number that it spells.
    pub fn number(self) -> i128
        ensures { result ≡ integer_of self }
    {
        let value = i128::from(self.value);
        if self.negative { 0 - value } else { value }
    }
}

/// The bounds of a dimension.
#[derive(Clone, Copy)]
pub enum WrittenBounds {
    /// Where there is no lower bound, it is 1 (X3.74).
    Stated { low: Option<Integer>, high: Integer },
    /// `*`: of a parameter, the bounds of the argument (X3.74).
    Any,
}

/// A length or a size in parentheses.
#[derive(Clone, Copy)]
pub enum WrittenLength {
    Stated(u64),
    /// `*`: of a parameter, the length of the argument (X3.74).
    Any,
}

/// A value in INITIAL. A factor says how many elements have it (X3.74).
#[derive(Drop)]
pub enum InitialValue {
    Integer { factor: Option<u64>, value: Integer },
    Characters(CharacterString),
    Bits(BitString),
    Null,
}

/// An attribute other than ENTRY and RETURNS, with the number, names or values in its parentheses, if it has any
/// (X3.74; AREA, OFFSET and CONTROLLED X3.53).
#[derive(Drop)]
pub enum SimpleAttribute {
    /// With a precision. Its scale is 0, and leaves no trace.
    Fixed(Option<u64>),
    /// With a precision. Its scale is 0, and leaves no trace.
    Binary(Option<u64>),
    /// With a length.
    Character(Option<WrittenLength>),
    /// With a length.
    Bit(Option<WrittenLength>),
    Varying,
    Pointer,
    /// With the name of an area.
    Offset(Option<Name>),
    /// With a size.
    Area(Option<WrittenLength>),
    /// With a locator, a name qualified by those before it.
    Based(Option<Vec<Name>>),
    Controlled,
    Static,
    Automatic,
    External,
    Internal,
    Builtin,
    Initial(Vec<InitialValue>),
}

/// An attribute in the description of a parameter or of a result. Nothing is kept of what the parentheses of ENTRY and
/// RETURNS hold: neither may stand there, whatever it is (own).
#[derive(Drop)]
pub enum DescribedAttribute {
    Simple(SimpleAttribute),
    Entry,
    Returns,
}

/// The description of a parameter of an entry (X3.74).
#[derive(Drop)]
pub struct ParameterDescription {
    pub dimensions: Vec<WrittenBounds>,
    pub attributes: Vec<DescribedAttribute>,
}

/// An attribute of an item. It has the simple ones in common with a description, so that each is defined and read once.
#[derive(Drop)]
pub enum Attribute {
    Simple(SimpleAttribute),
    /// With descriptions of its parameters.
    Entry(Option<Vec<ParameterDescription>>),
    /// With the attributes of the result.
    Returns(Vec<DescribedAttribute>),
}

/// An item of DECLARE: one name, or names in parentheses that have the rest in common (X3.74).
#[derive(Drop)]
pub struct Item {
    pub level: Option<u64>,
    pub names: Vec<Identifier>,
    pub dimensions: Vec<WrittenBounds>,
    pub attributes: Vec<Attribute>,
}

impl InitialValue {
    /// A value that says the same.
    pub fn copy(&self, alloc: Global) -> Result<InitialValue, AllocError>
        ensures { IfOk result (λ copied. copied ≡ self.now) }
    {
        Ok(match self {
            InitialValue::Integer { factor, value } => InitialValue::Integer {
                factor: *factor,
                value: *value,
            },
            InitialValue::Characters(string) => InitialValue::Characters(string.copy(alloc)?),
            InitialValue::Bits(string) => InitialValue::Bits(string.copy(alloc)?),
            InitialValue::Null => InitialValue::Null,
        })
    }
}

/// Values that say the same.
pub fn copied_values(
    alloc: Global,
    values: &[InitialValue],
) -> Result<Vec<InitialValue>, AllocError>
    ensures { IfOk result (λ copied. copied.items ≡ values.now) }
{
    let mut copied = Vec::new(alloc);
    for value in values {
        copied.push(value.copy(alloc)?)?;
    }
    Ok(copied)
}
