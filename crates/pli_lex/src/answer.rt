//! Why lines have no tokens.

use pli_base::{Code, Failure};

/// A fault in lexing: X1 UNENDED COMMENT, X2 UNENDED STRING, X3 BAD CHARACTER, X4 BAD NUMBER, X5 NAME TOO LONG or X6
/// BAD BITS, and the number of the line, from 1, where the comment or the token that cannot stand begins.
#[derive(Clone, Copy, PartialEq, Eq)]
pub struct LexFault {
    pub code: Code,
    pub line: u32,
}

/// Why lines have no tokens: the first place where no token can stand, or that memory was refused.
pub type LexError = Failure<LexFault>;
