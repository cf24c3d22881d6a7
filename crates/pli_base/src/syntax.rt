//! The trees of expressions and references.

use crate::name::Name;
use crate::string::{BitString, CharacterString};

/// A name at a token, which is counted from 0.
#[derive(Clone, Copy)]
pub struct Identifier {
    pub name: Name,
    pub at: u32,
}

/// What a constant says, as its token does (X3.74).
#[derive(Drop)]
pub enum ConstantValue {
    Decimal { value: u64, digits: u8 },
    Binary { value: u64, digits: u8 },
    Characters(CharacterString),
    Bits(BitString),
}

/// A prefix operator: `+`, `-` or `^` (X3.74).
#[derive(Clone, Copy, PartialEq, Eq)]
pub enum PrefixOperator {
    Plus,
    Minus,
    Not,
}

/// An infix operator. From the least priority to the greatest: `|`; `&`; comparisons; `||`; `+` and `-`; `*` (X3.74).
#[derive(Clone, Copy, PartialEq, Eq)]
pub enum InfixOperator {
    Or,
    And,
    Equal,
    NotEqual,
    Less,
    LessOrEqual,
    Greater,
    GreaterOrEqual,
    Concatenate,
    Add,
    Subtract,
    Multiply,
}

/// How a part of a reference is joined to what stands before it (X3.74).
#[derive(Clone, Copy, PartialEq, Eq)]
pub enum Joining {
    /// `.`: the part is a member of what the names before it name.
    Member,
    /// `->`: all that stands before it is the locator.
    Located,
}

/// A name, and the list in parentheses after it: `F()` has an empty list, `F` has none (X3.74).
#[cycle(expression)]
#[derive(Drop)]
pub struct Part {
    pub name: Identifier,
    pub arguments: Option<Vec<Expression>>,
}

/// A part of a reference that is not its first.
#[cycle(expression)]
#[derive(Drop)]
pub struct JoinedPart {
    pub joining: Joining,
    pub part: Part,
}

/// A reference, as `P -> S.X(I, J)` (X3.74).
#[cycle(expression)]
#[derive(Drop)]
pub struct Reference {
    pub first: Part,
    pub joined: Vec<JoinedPart>,
}

/// An expression (X3.74). Each constant, parenthesis and operator has its token, which is counted from 0.
#[cycle(expression)]
#[derive(Drop)]
pub enum Expression {
    Reference(Reference),
    Constant {
        at: u32,
        value: ConstantValue,
    },
    Parenthesized {
        at: u32,
        inner: Box<Expression>,
    },
    Prefix {
        operator: PrefixOperator,
        at: u32,
        operand: Box<Expression>,
    },
    Infix {
        operator: InfixOperator,
        at: u32,
        left: Box<Expression>,
        right: Box<Expression>,
    },
}
