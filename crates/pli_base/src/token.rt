//! Tokens, as the grammar sees them, and the lines on which they stand.
ghost use Rattle.std.specs.Prelude.{◌≡◌, IfOk};

use crate::name::Name;
use crate::string::{BitString, CharacterString};
use std::alloc::{AllocError, Global};

/// A sign of the language. Each has one spelling here: `~` is `^`, `^<` is `>=` and `^>` is `<=` (X3.74).
#[derive(Clone, Copy, PartialEq, Eq)]
pub enum Sign {
    Colon,
    Semicolon,
    Comma,
    Period,
    OpenParenthesis,
    CloseParenthesis,
    /// `=`: of an assignment, or the comparison.
    Equals,
    NotEqual,
    Less,
    LessOrEqual,
    Greater,
    GreaterOrEqual,
    Plus,
    Minus,
    Times,
    /// `||`
    Concatenate,
    And,
    Or,
    Not,
    /// `->`
    Arrow,
    /// `%`, which begins a directive.
    Percent,
}

/// What a token says. Names are in upper case. A decimal constant is its value, at most 9223372036854775807, and its
/// number of digits, 1 to 19, so that `07` differs from `7`; a binary constant is its value and its number of digits, 1
/// to 63, which is its precision (own). A character constant is its characters, a bit constant its bits (X3.74).
#[derive(Drop)]
pub enum TokenText {
    Word(Name),
    Decimal { value: u64, digits: u8 },
    Binary { value: u64, digits: u8 },
    Characters(CharacterString),
    Bits(BitString),
    Sign(Sign),
}

impl TokenText {
    /// A token text that says the same.
    pub fn copy(&self, alloc: Global) -> Result<TokenText, AllocError>
        ensures { IfOk result (λ copied. copied ≡ self.now) }
    {
        Ok(match self {
            TokenText::Word(name) => TokenText::Word(*name),
            TokenText::Decimal { value, digits } => TokenText::Decimal {
                value: *value,
                digits: *digits,
            },
            TokenText::Binary { value, digits } => TokenText::Binary {
                value: *value,
                digits: *digits,
            },
            TokenText::Characters(string) => TokenText::Characters(string.copy(alloc)?),
            TokenText::Bits(string) => TokenText::Bits(string.copy(alloc)?),
            TokenText::Sign(sign) => TokenText::Sign(*sign),
        })
    }
}

/// A token, and the number of its line, from 1.
#[derive(Drop)]
pub struct Token {
    pub text: TokenText,
    pub line: u32,
}

/// A diagnostic at a token, which is counted from 0.
#[derive(Clone, Copy)]
pub struct Fault {
    pub code: crate::code::Code,
    pub at: u32,
}

/// A place in a member: the member's name, and the number of a line, from 1.
#[derive(Clone, Copy)]
pub struct Origin {
    pub member: Name,
    pub line: u32,
}
