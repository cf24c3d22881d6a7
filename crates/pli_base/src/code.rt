//! The diagnostics of a build, in the order in which they are answered.
ghost use Rattle.std.specs.Prelude.{◌≡◌, Some};
ghost use Rattle.pli_base.specs.Codes.{code_label, code_text, code_place};
ghost use Rattle.pli_base.specs.ShownCodes.{code_shown, OneCode};
ghost use Rattle.std.specs.Ordering.{nat_cmp};

use std::fmt;

/// A diagnostic (own). The order of the variants is the order of diagnostics at one place.
#[derive(Clone, Copy, PartialEq, Eq, PartialOrd, Ord)]
pub enum Code {
    /// X1, in lexing.
    UnendedComment = 0,
    /// X2, in lexing.
    UnendedString,
    /// X3, in lexing.
    BadCharacter,
    /// X4, in lexing.
    BadNumber,
    /// X5, in lexing.
    NameTooLong,
    /// X6, in lexing.
    BadBits,
    /// I1, in inclusion.
    NoSuchMember,
    /// I2, in inclusion.
    RecursiveInclude,
    /// I3, in inclusion.
    TooManyTokens,
    /// I4, in inclusion.
    BadInclude,
    /// P1, in parsing.
    NoProcedure,
    /// P2, in parsing.
    NotAStatement,
    /// P3, in parsing.
    ExpressionExpected,
    /// P4, in parsing.
    ParenthesisExpected,
    /// P5, in parsing.
    SemicolonExpected,
    /// P6, in parsing.
    NameExpected,
    /// P7, in parsing.
    ThenExpected,
    /// P8, in parsing.
    WrongEndName,
    /// P9, in parsing.
    EndMissing,
    /// P10, in parsing.
    TextAfterEnd,
    /// P11, in parsing.
    BadDo,
    /// P12, in parsing.
    BadAttribute,
    /// P13, in parsing.
    ConstantExpected,
    /// P14, in parsing.
    BadLabel,
    /// P15, in parsing.
    BadCondition,
    /// P16, in parsing.
    NestedTooDeep,
    /// P17, in parsing.
    MisplacedStatement,
    /// P18, in parsing.
    BadOption,
    /// A1, in declarations.
    NotDeclared,
    /// A2, in declarations.
    DeclaredTwice,
    /// A3, in declarations.
    AttributesConflict,
    /// A4, in declarations.
    AttributesMissing,
    /// A5, in declarations.
    BadPrecision,
    /// A6, in declarations.
    BadLength,
    /// A7, in declarations.
    BadBounds,
    /// A8, in declarations.
    BadLevel,
    /// A9, in declarations.
    BadInitial,
    /// A10, in declarations.
    Ambiguous,
    /// A11, in declarations.
    BadGoto,
    /// A12, in declarations.
    BadLocatorOrAreaName,
    /// A13, in declarations.
    AreaNotAllowedHere,
    /// A14, in declarations.
    TooManyParameters,
    /// A15, in declarations.
    GenerationTooLarge,
    /// T1, in types.
    NotAVariable,
    /// T2, in types.
    AggregateNotAllowedHere,
    /// T3, in types.
    WrongNumberOfSubscripts,
    /// T4, in types.
    WrongOperandType,
    /// T5, in types.
    CannotAssign,
    /// T6, in types.
    WrongNumberOfArguments,
    /// T7, in types.
    WrongArgument,
    /// T8, in types.
    NotCallableHere,
    /// T9, in types.
    WrongReturn,
    /// T10, in types.
    LocatorMissingOrNotAllowed,
    /// T11, in types.
    CannotAllocateOrFree,
    /// T12, in types.
    BadControlVariable,
    /// T13, in types.
    WrongBuiltInArgument,
    /// T14, in types.
    CannotPrint,
    /// G1, in code generation.
    CodeTooLong,
    /// N1, in linking.
    NoMainProcedure,
    /// N2, in linking.
    TwoMainProcedures,
    /// N3, in linking.
    Unresolved,
    /// N4, in linking.
    DefinedTwice,
    /// N5, in linking.
    Mismatch,
    /// N6, in linking.
    ModuleTooLarge,
}

impl Code {
    /// The letter and the number by which a diagnostic is cited, as `P9`.
    pub fn label(self) -> &'static str
        ensures { result.now ≡ code_label self }
    {
        match self {
            Code::UnendedComment => "X1",
            Code::UnendedString => "X2",
            Code::BadCharacter => "X3",
            Code::BadNumber => "X4",
            Code::NameTooLong => "X5",
            Code::BadBits => "X6",
            Code::NoSuchMember => "I1",
            Code::RecursiveInclude => "I2",
            Code::TooManyTokens => "I3",
            Code::BadInclude => "I4",
            Code::NoProcedure => "P1",
            Code::NotAStatement => "P2",
            Code::ExpressionExpected => "P3",
            Code::ParenthesisExpected => "P4",
            Code::SemicolonExpected => "P5",
            Code::NameExpected => "P6",
            Code::ThenExpected => "P7",
            Code::WrongEndName => "P8",
            Code::EndMissing => "P9",
            Code::TextAfterEnd => "P10",
            Code::BadDo => "P11",
            Code::BadAttribute => "P12",
            Code::ConstantExpected => "P13",
            Code::BadLabel => "P14",
            Code::BadCondition => "P15",
            Code::NestedTooDeep => "P16",
            Code::MisplacedStatement => "P17",
            Code::BadOption => "P18",
            Code::NotDeclared => "A1",
            Code::DeclaredTwice => "A2",
            Code::AttributesConflict => "A3",
            Code::AttributesMissing => "A4",
            Code::BadPrecision => "A5",
            Code::BadLength => "A6",
            Code::BadBounds => "A7",
            Code::BadLevel => "A8",
            Code::BadInitial => "A9",
            Code::Ambiguous => "A10",
            Code::BadGoto => "A11",
            Code::BadLocatorOrAreaName => "A12",
            Code::AreaNotAllowedHere => "A13",
            Code::TooManyParameters => "A14",
            Code::GenerationTooLarge => "A15",
            Code::NotAVariable => "T1",
            Code::AggregateNotAllowedHere => "T2",
            Code::WrongNumberOfSubscripts => "T3",
            Code::WrongOperandType => "T4",
            Code::CannotAssign => "T5",
            Code::WrongNumberOfArguments => "T6",
            Code::WrongArgument => "T7",
            Code::NotCallableHere => "T8",
            Code::WrongReturn => "T9",
            Code::LocatorMissingOrNotAllowed => "T10",
            Code::CannotAllocateOrFree => "T11",
            Code::BadControlVariable => "T12",
            Code::WrongBuiltInArgument => "T13",
            Code::CannotPrint => "T14",
            Code::CodeTooLong => "G1",
            Code::NoMainProcedure => "N1",
            Code::TwoMainProcedures => "N2",
            Code::Unresolved => "N3",
            Code::DefinedTwice => "N4",
            Code::Mismatch => "N5",
            Code::ModuleTooLarge => "N6",
        }
    }

    /// What a diagnostic says, in upper case.
    pub fn text(self) -> &'static str
        ensures { result.now ≡ code_text self }
    {
        match self {
            Code::UnendedComment => "UNENDED COMMENT",
            Code::UnendedString => "UNENDED STRING",
            Code::BadCharacter => "BAD CHARACTER",
            Code::BadNumber => "BAD NUMBER",
            Code::NameTooLong => "NAME TOO LONG",
            Code::BadBits => "BAD BITS",
            Code::NoSuchMember => "NO SUCH MEMBER",
            Code::RecursiveInclude => "RECURSIVE INCLUDE",
            Code::TooManyTokens => "TOO MANY TOKENS",
            Code::BadInclude => "BAD INCLUDE",
            Code::NoProcedure => "NO PROCEDURE",
            Code::NotAStatement => "NOT A STATEMENT",
            Code::ExpressionExpected => "EXPRESSION EXPECTED",
            Code::ParenthesisExpected => "PARENTHESIS EXPECTED",
            Code::SemicolonExpected => "SEMICOLON EXPECTED",
            Code::NameExpected => "NAME EXPECTED",
            Code::ThenExpected => "THEN EXPECTED",
            Code::WrongEndName => "WRONG END NAME",
            Code::EndMissing => "END MISSING",
            Code::TextAfterEnd => "TEXT AFTER END",
            Code::BadDo => "BAD DO",
            Code::BadAttribute => "BAD ATTRIBUTE",
            Code::ConstantExpected => "CONSTANT EXPECTED",
            Code::BadLabel => "BAD LABEL",
            Code::BadCondition => "BAD CONDITION",
            Code::NestedTooDeep => "NESTED TOO DEEP",
            Code::MisplacedStatement => "MISPLACED STATEMENT",
            Code::BadOption => "BAD OPTION",
            Code::NotDeclared => "NOT DECLARED",
            Code::DeclaredTwice => "DECLARED TWICE",
            Code::AttributesConflict => "ATTRIBUTES CONFLICT",
            Code::AttributesMissing => "ATTRIBUTES MISSING",
            Code::BadPrecision => "BAD PRECISION",
            Code::BadLength => "BAD LENGTH",
            Code::BadBounds => "BAD BOUNDS",
            Code::BadLevel => "BAD LEVEL",
            Code::BadInitial => "BAD INITIAL",
            Code::Ambiguous => "AMBIGUOUS",
            Code::BadGoto => "BAD GOTO",
            Code::BadLocatorOrAreaName => "BAD LOCATOR OR AREA NAME",
            Code::AreaNotAllowedHere => "AREA NOT ALLOWED HERE",
            Code::TooManyParameters => "TOO MANY PARAMETERS",
            Code::GenerationTooLarge => "GENERATION TOO LARGE",
            Code::NotAVariable => "NOT A VARIABLE",
            Code::AggregateNotAllowedHere => "AGGREGATE NOT ALLOWED HERE",
            Code::WrongNumberOfSubscripts => "WRONG NUMBER OF SUBSCRIPTS",
            Code::WrongOperandType => "WRONG OPERAND TYPE",
            Code::CannotAssign => "CANNOT ASSIGN",
            Code::WrongNumberOfArguments => "WRONG NUMBER OF ARGUMENTS",
            Code::WrongArgument => "WRONG ARGUMENT",
            Code::NotCallableHere => "NOT CALLABLE HERE",
            Code::WrongReturn => "WRONG RETURN",
            Code::LocatorMissingOrNotAllowed => "LOCATOR MISSING OR NOT ALLOWED",
            Code::CannotAllocateOrFree => "CANNOT ALLOCATE OR FREE",
            Code::BadControlVariable => "BAD CONTROL VARIABLE",
            Code::WrongBuiltInArgument => "WRONG BUILT-IN ARGUMENT",
            Code::CannotPrint => "CANNOT PRINT",
            Code::CodeTooLong => "CODE TOO LONG",
            Code::NoMainProcedure => "NO MAIN PROCEDURE",
            Code::TwoMainProcedures => "TWO MAIN PROCEDURES",
            Code::Unresolved => "UNRESOLVED",
            Code::DefinedTwice => "DEFINED TWICE",
            Code::Mismatch => "MISMATCH",
            Code::ModuleTooLarge => "MODULE TOO LARGE",
        }
    }
}

/// What it is cited by, a blank and what it says, as `A1 NOT DECLARED`.
impl fmt::Display for Code {
    ghost output = { λ code. Some (code_shown code) };

    fn fmt<W: fmt::Write>(&self, f: &mut fmt::Formatter<W>) -> fmt::Result {
        write!(f, "{} {}", self.label(), self.text())
    }
}

/// The law of the table: each code has a label and a text of its own.
pub fn one_code()
    ensures label { OneCode code_label }
    ensures text { OneCode code_text }
{}

/// The law of the order: codes are in the order of their places.
pub fn code_order()
    ensures { (a b : _) → ⟦<Code as Ord>⟧.cmp a b ≡ nat_cmp (code_place a) (code_place b) }
{}
