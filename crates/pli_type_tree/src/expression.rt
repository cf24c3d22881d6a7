//! Typed references and expressions. A conversion is an operation like any other.

use pli_map::{Description, StringForm, WhichBound};
use pli_operation::Operation;
use pli_value::Value;

/// Where a reference begins.
#[cycle(typed_expression)]
#[derive(Drop)]
pub enum Root {
    /// At a parameter or an AUTOMATIC variable of the activation so many static links outward. Slots are counted from
    /// 0, the parameters first.
    InSlot {
        outward: usize,
        slot: usize,
    },
    /// At a static variable, by the number of its global. Those of a unit are counted
    /// from 0.
    OfProgram {
        number: usize,
    },
    /// At the newest generation of a CONTROLLED variable, by the number of its global. Those of a unit are counted
    /// from 0.
    NewestOf {
        number: usize,
    },
    /// At what a pointer leads to, which is of this whole description (BASED).
    Located {
        locator: Box<TypedExpression>,
        description: Description,
    },
}

/// What is called.
#[derive(Clone, Copy)]
pub enum Callee {
    /// A procedure of the unit, by its block.
    OfBlock { block: usize },
    /// An external procedure, by the number of the entry's global. Those of a unit are counted from 0.
    OfEntry { number: usize },
}

/// An operation of an expression (X3.74).
#[derive(Drop)]
pub enum TypedOperation {
    /// A number held against a precision, or a string cut or extended to a length.
    Fit(Description),
    Operate(Operation),
}

/// The bounds of a subscript, from -32,767 to 32,767, and how many bytes each number over the low one leads on.
#[derive(Clone, Copy, Debug, PartialEq, Eq)]
pub struct Stride {
    pub low: i32,
    pub high: i32,
    pub multiplier: u32,
}

/// A subscript: a FIXED BINARY value, and what it does to a place.
#[cycle(typed_expression)]
#[derive(Drop)]
pub struct TypedSubscript {
    pub stride: Stride,
    pub value: TypedExpression,
}

/// A reference to a variable (X3.74).
#[cycle(typed_expression)]
#[derive(Drop)]
pub enum TypedReference {
    /// A whole variable at level 1.
    Whole(Root),
    /// A part of one: its first byte where all its subscripts are the lowest, its description, and the subscripts of
    /// all its levels in turn.
    Part {
        root: Root,
        offset: u32,
        description: Description,
        subscripts: Vec<TypedSubscript>,
    },
    /// An element of an array whose extents are those of the argument, with a subscript for each dimension.
    ElementOf {
        root: Root,
        subscripts: Vec<TypedExpression>,
    },
}

/// An argument (X3.74).
#[cycle(typed_expression)]
#[derive(Drop)]
pub enum TypedArgument {
    /// A variable, which is handed over as its place.
    ByPlace(TypedReference),
    /// A value, which is handed over as a dummy argument of this description.
    ByDummy {
        description: Description,
        value: TypedExpression,
    },
    /// A string, which is handed over as a dummy argument of its own length.
    ByString {
        form: StringForm,
        value: TypedExpression,
    },
}

/// An expression, which has a value (X3.74).
#[cycle(typed_expression)]
#[derive(Drop)]
pub enum TypedExpression {
    /// A constant.
    Literal(Value),
    /// What a variable holds.
    Held(TypedReference),
    /// An operation on as many operands as it takes.
    Calculated {
        operation: TypedOperation,
        operands: Vec<TypedExpression>,
    },
    /// A call of a function.
    Called {
        callee: Callee,
        arguments: Vec<TypedArgument>,
    },
    /// How many generations a CONTROLLED variable has (ALLOCATION), by the number of its global. Those of a unit are
    /// counted from 0.
    Generations {
        number: usize,
    },
    /// A pointer to a variable (ADDR).
    Address(TypedReference),
    /// An offset as a pointer into an area, which is evaluated after it (POINTER).
    AsPointer {
        area: TypedReference,
        offset: Box<TypedExpression>,
    },
    /// A pointer as an offset of an area, which is evaluated after it (OFFSET).
    AsOffset {
        area: TypedReference,
        pointer: Box<TypedExpression>,
    },
    /// A bound of a dimension, counted from 1, of an array whose bounds are those of the argument (LBOUND, HBOUND).
    /// This is no use of its place.
    Bounded {
        which: WhichBound,
        dimension: u8,
        variable: TypedReference,
    },
}
