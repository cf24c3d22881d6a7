//! Lines of text as tokens.
ghost use Rattle.std.specs.Prelude.{◌≡◌, ◌≤◌, ◌<◌, IfOk, length};
ghost use Rattle.pli_lex.specs.Reading.{lexed};
ghost use Rattle.pli_lex.specs.answers.Answers.{Gives, Passes, PassesLine};

use crate::answer::{LexError, LexFault};
use crate::character::{begins_comment, is_blank};
use crate::piece::{closing_width, token_at};
use pli_base::{Code, Line, Token};
use std::alloc::Global;

/// Passes over what a line has at the front: a separator, the rest of a comment that began on the line `began`, or a
/// token, which is added. Answers the line where the comment began that is open then, and how many bytes were passed.
fn pass(
    alloc: Global,
    tokens: &mut Vec<Token>,
    began: Option<u32>,
    number: u32,
    text: &[u8],
) -> Result<(Option<u32>, usize), LexError>
    requires { 1 ≤ length text.now }
    ensures exact { Passes result tokens.old.items tokens.new.items began number text.now }
    ensures width { IfOk result (λ passed. (1 ≤ passed.1) × (passed.1 ≤ length text.now)) }
{
    if began.is_some() {
        return Ok(match closing_width(text) {
            None => (began, text.len()),
            Some(width) => (None, width),
        });
    }
    if is_blank(text[0]) {
        return Ok((None, 1));
    }
    if begins_comment(text) {
        return Ok((Some(number), 2));
    }
    match token_at(alloc, text)? {
        Err(code) => Err(LexError::Fault(LexFault { code, line: number })),
        Ok((text, width)) => {
            tokens.push(Token { text, line: number })?;
            Ok((None, width))
        }
    }
}

/// Adds the tokens of the line with this number, where a comment may be open that began on the line `began`. Answers
/// the line where the comment began that is open at its end.
fn push_line(
    alloc: Global,
    tokens: &mut Vec<Token>,
    began: Option<u32>,
    number: u32,
    text: &[u8],
) -> Result<Option<u32>, LexError>
    ensures { PassesLine result tokens.old.items tokens.new.items began number text.now }
{
    let mut rest = text;
    let mut began = began;
    while !rest.is_empty() {
        let (left, width) = pass(alloc, tokens, began, number, rest)?;
        began = left;
        rest = rest.split_at(width).1;
    }
    Ok(began)
}

/// The tokens of a member's lines, which are numbered from 1, or the fault of the first place where neither a separator
/// nor a token can stand (X3.74). Room for one token a line is taken at the start.
pub fn lex(alloc: Global, lines: &[Line]) -> Result<Vec<Token>, LexError>
    requires { length lines.now ≤ 9999 }
    ensures { Gives result (lexed lines.now) }
{
    let mut tokens = Vec::with_capacity(alloc, lines.len())?;
    let mut began = None;
    let mut number = 0;
    for line in lines {
        number += 1;
        began = push_line(alloc, &mut tokens, began, number, line.text())?;
    }
    match began {
        None => Ok(tokens),
        Some(line) => Err(LexError::Fault(LexFault {
            code: Code::UnendedComment,
            line,
        })),
    }
}
