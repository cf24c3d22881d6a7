//! Typed statements. Statements of a unit are numbered from 1 in the order in which they begin, its blocks from 0 in
//! the order of the text (own).

use crate::conversion::Conversion;
use crate::expression::{Callee, TypedArgument, TypedExpression, TypedReference};
use crate::iteration::Iteration;
use crate::template::{Template, VariableGroup};
use pli_base::statement::Condition;
use pli_map::Description;

/// What an activation of a block begins with.
#[derive(Drop)]
pub struct BlockHead {
    /// The block.
    pub number: usize,
    /// Its PROCEDURE, BEGIN or ON.
    pub statement: u32,
    /// Its AUTOMATIC variables in the order of the text.
    pub variables: Vec<VariableGroup>,
    /// How many temporaries its code has.
    pub temporaries: usize,
}

/// What an item of ALLOCATE makes.
#[derive(Drop)]
pub enum AllocatedItem {
    /// A generation of a CONTROLLED variable, by the number of its global. Those of a unit are counted from 0.
    Controlled {
        number: usize,
    },
    /// A generation of a BASED variable, which is made from this template. The pointer to it is kept in this temporary
    /// while its target is found.
    Based {
        template: Template,
        temporary: usize,
        target: TypedReference,
    },
    /// A block of an area for a BASED variable, which is made from this template. The pointer to it is kept in this
    /// temporary while its target is found, and is then converted to the target.
    InArea {
        area: TypedReference,
        template: Template,
        temporary: usize,
        target: TypedReference,
        conversion: Conversion,
    },
}

/// What an item of FREE ends.
#[derive(Drop)]
pub enum FreedItem {
    /// The newest generation of a CONTROLLED variable, by the number of its global. Those of a unit are counted from
    /// 0.
    Controlled {
        number: usize,
    },
    /// The generation or the block of a BASED variable of this whole description to which a pointer leads.
    Based {
        locator: TypedExpression,
        description: Description,
    },
}

/// A statement, with all the statements inside it.
#[cycle(typed_statement)]
#[derive(Drop)]
pub struct TypedStatement {
    pub number: u32,
    pub form: Form,
}

/// What a statement does (X3.74). Values stand converted to what they are put into.
#[cycle(typed_statement)]
#[derive(Drop)]
pub enum Form {
    Null,
    /// A value assigned to a scalar.
    Assign {
        target: TypedReference,
        value: TypedExpression,
    },
    /// A string assigned to a parameter of any length, to whose length it is fitted.
    AssignString {
        target: TypedReference,
        value: TypedExpression,
    },
    /// An aggregate assigned to one of an equal description.
    AssignAggregate {
        target: TypedReference,
        source: TypedReference,
    },
    /// The blocks of an area assigned to another.
    AssignArea {
        target: TypedReference,
        source: TypedReference,
    },
    /// All blocks of an area end (EMPTY).
    EmptyArea(TypedReference),
    /// Items are characters or bits.
    Put {
        skip: bool,
        items: Vec<TypedExpression>,
    },
    /// One item after the other.
    Allocate(Vec<AllocatedItem>),
    /// One item after the other.
    Free(Vec<FreedItem>),
    If {
        condition: TypedExpression,
        consequence: Box<TypedStatement>,
        alternative: Option<Box<TypedStatement>>,
    },
    Begin {
        head: BlockHead,
        statements: Vec<TypedStatement>,
    },
    Group(Vec<TypedStatement>),
    While {
        condition: TypedExpression,
        statements: Vec<TypedStatement>,
    },
    Iterate {
        iteration: Box<Iteration>,
        statements: Vec<TypedStatement>,
    },
    /// A call of a procedure that is no function.
    Call {
        callee: Callee,
        arguments: Vec<TypedArgument>,
    },
    /// The label is that of the statement of this number, in the block so many static links outward.
    Goto {
        outward: usize,
        label: u32,
    },
    /// RETURN out of so many BEGIN blocks.
    Return {
        outward: usize,
    },
    ReturnValue {
        outward: usize,
        value: TypedExpression,
    },
    Stop,
    /// The activation has the ON-unit of this block for a condition from then on.
    On {
        condition: Condition,
        block: usize,
    },
    /// The activation has none for the condition from then on.
    Revert(Condition),
    /// The condition is raised.
    Signal(Condition),
}
