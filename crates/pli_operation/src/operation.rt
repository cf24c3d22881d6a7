//! The operations of expressions.
ghost use Rattle.std.specs.Prelude.{◌≡◌};
ghost use Rattle.pli_operation.specs.Operations as operations;

/// What a comparison asks (X3.74).
#[derive(Clone, Copy, Debug, PartialEq, Eq)]
pub enum Relation {
    Equal,
    Unequal,
    Less,
    AtMost,
    Greater,
    AtLeast,
}

/// An operator, a built-in function of values, or a conversion without a description (X3.74).
#[derive(Clone, Copy, Debug, PartialEq, Eq)]
pub enum Operation {
    /// The prefix operator `-`.
    Negate,
    /// ABS.
    Absolute,
    /// SIGN.
    Sign,
    /// The prefix operator `^`.
    Not,
    /// LENGTH.
    LengthOf,
    /// Bits as characters `0` and `1`.
    FromBits,
    /// A number as characters, at the right of so many columns.
    ToCharacters { width: u8 },
    Add,
    Subtract,
    Multiply,
    /// MOD.
    Modulo,
    /// MAX of two numbers.
    Greatest,
    /// MIN of two numbers.
    Least,
    /// DIVIDE, to so many binary digits, from 1 to 63.
    Divide { precision: u8 },
    Compare(Relation),
    Concatenate,
    And,
    Or,
    /// INDEX.
    Index,
    /// SUBSTR without a length.
    Rest,
    /// SUBSTR with a length.
    Substring,
    /// Whether a control variable has not passed its limit: the variable, the limit and the step. A step of 0 counts as
    /// a positive one.
    Within,
}

impl Operation {
    /// How many operands it takes, from 1 to 3.
    pub fn arity(self) -> usize
        ensures { result ≡ operations.arity self }
    {
        match self {
            Operation::Negate
            | Operation::Absolute
            | Operation::Sign
            | Operation::Not
            | Operation::LengthOf
            | Operation::FromBits
            | Operation::ToCharacters { .. } => 1,
            Operation::Add
            | Operation::Subtract
            | Operation::Multiply
            | Operation::Modulo
            | Operation::Greatest
            | Operation::Least
            | Operation::Divide { .. }
            | Operation::Compare(_)
            | Operation::Concatenate
            | Operation::And
            | Operation::Or
            | Operation::Index
            | Operation::Rest => 2,
            Operation::Substring | Operation::Within => 3,
        }
    }
}
