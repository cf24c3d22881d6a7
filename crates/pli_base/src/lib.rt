//! Names, codes, tokens, trees and devices: what every other crate speaks of.
#![tactic(auto)]

mod character;
mod code;
pub mod declaration;
mod device;
mod failure;
mod line;
mod name;
mod reading;
pub mod statement;
mod string;
pub mod syntax;
mod token;

pub use character::{decimal_value, is_digit, is_letter, is_name_character};
pub use code::{Code, code_order, one_code};
pub use device::{Device, Failed, Sink, Source, put_all, take_all};
pub use failure::Failure;
pub use line::Line;
pub use name::{NAME_LIMIT, Name};
pub use reading::{
    Front, ParseError, after_close, after_colon, after_comma, after_open, after_period,
    close_taken, fault, misfit, name_first, open_taken, semicolon_taken,
};
/// The whole tree of a unit, which is its external procedure.
pub use statement::Procedure as Unit;
pub use string::{BitString, CharacterString};
pub use token::{Fault, Origin, Sign, Token, TokenText};
