//! The grammar of statements, blocks, groups and the unit, and the parser of what has no statement inside: first
//! tokens, keywords, headings, what controls a group, and simple statements.
#![tactic(auto)]

mod control;
mod cursor;
mod first;
mod heading;
mod keyword;
mod listing;
mod simple;
mod word;

pub use control::control_at;
pub use cursor::{expression_in, is_name};
pub use first::{
    Beginning, Context, Misplacement, NextStatement, StatementKind, bad_label, beginning_of,
    else_first, has_semicolon, label_at, next_of, why_misplaced,
};
pub use heading::{Heading, heading_at, word_taken};
pub use keyword::{Keyword, StatementStanding, named_condition, statement_keyword};
pub use listing::Listing;
pub use simple::{assignment_at, condition_at, simple_at};
