//! The trees of statements. Tokens are counted from 0, and the statements of a unit from 1, in the order in which they
//! begin; PROCEDURE, DECLARE, END, IF, ON and the statements inside them count (own).

use crate::declaration::{DescribedAttribute, Item};
use crate::syntax::{Expression, Identifier, Reference};

/// A condition of ON, REVERT and SIGNAL (X3.53).
#[derive(Clone, Copy)]
pub enum Condition {
    FixedOverflow,
    ZeroDivide,
    Area,
}

/// An option of PROCEDURE (X3.74).
#[derive(Drop)]
pub enum ProcedureOption {
    /// OPTIONS(MAIN).
    Main,
    /// With the attributes of the result.
    Returns(Vec<DescribedAttribute>),
    Recursive,
}

/// What limits or continues an iteration (X3.74). Operands are evaluated in the order of the text, which TO and BY keep
/// (own).
#[derive(Drop)]
pub enum Range {
    To {
        to: Expression,
        by: Option<Expression>,
    },
    By {
        by: Expression,
        to: Option<Expression>,
    },
    Repeat(Expression),
}

/// The specification of a DO group (X3.74).
#[derive(Drop)]
pub enum Control {
    While(Expression),
    Iterate {
        variable: Reference,
        /// The token of `=`.
        equals: u32,
        first: Expression,
        range: Option<Range>,
        condition: Option<Expression>,
    },
}

/// One variable of ALLOCATE: the area in IN (X3.53), and the locator in SET (X3.74).
#[derive(Drop)]
pub struct Allocation {
    pub name: Identifier,
    pub area: Option<Reference>,
    pub target: Option<Reference>,
}

/// A procedure, from its name to its END (X3.74).
#[cycle(statement)]
#[derive(Drop)]
pub struct Procedure {
    pub name: Identifier,
    /// The number of its PROCEDURE.
    pub number: u32,
    pub parameters: Vec<Identifier>,
    pub options: Vec<ProcedureOption>,
    pub statements: Vec<Statement>,
    /// The number of its END.
    pub end: u32,
}

/// A statement, with all the statements inside it.
#[cycle(statement)]
#[derive(Drop)]
pub struct Statement {
    pub number: u32,
    pub label: Option<Identifier>,
    /// Its first token after the label.
    pub at: u32,
    pub body: Body,
}

/// What a statement says (X3.74).
#[cycle(statement)]
#[derive(Drop)]
pub enum Body {
    Null,
    Assign {
        target: Reference,
        /// The token of `=`.
        equals: u32,
        value: Expression,
    },
    Declare(Vec<Item>),
    /// Its name is the statement's label.
    Procedure(Procedure),
    Begin {
        statements: Vec<Statement>,
        /// The number of its END.
        end: u32,
    },
    Do {
        control: Option<Control>,
        statements: Vec<Statement>,
        /// The number of its END.
        end: u32,
    },
    If {
        condition: Expression,
        consequence: Box<Statement>,
        alternative: Option<Box<Statement>>,
    },
    On {
        condition: Condition,
        unit: Box<Statement>,
    },
    Revert(Condition),
    Signal(Condition),
    Stop,
    Allocate(Vec<Allocation>),
    Free(Vec<Reference>),
    Call {
        name: Identifier,
        /// `CALL F()` has an empty list, `CALL F` has none.
        arguments: Option<Vec<Expression>>,
    },
    Goto(Identifier),
    Return(Option<Expression>),
    /// Without items there is no LIST.
    Put {
        skip: bool,
        items: Vec<Expression>,
    },
}
