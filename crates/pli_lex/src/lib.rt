//! The lexer: the tokens of a member's lines, or the fault of the first place where no token can stand.
#![tactic(auto)]

mod answer;
mod character;
mod laws;
mod number;
mod piece;
mod quoted;
mod reading;
mod sign;

pub use answer::{LexError, LexFault};
pub use laws::{
    lines_faults_are_met, lines_have_their_faults, lines_read_are_spelled, lines_spelled_are_read,
    texts_faults_are_met, texts_have_their_faults, texts_read_are_spelled, texts_spelled_are_read,
    tokens_are_longest, worked_examples,
};
pub use reading::lex;
