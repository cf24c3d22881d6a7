//! Tokens and comments at the front of a text.
ghost use Rattle.std.specs.Prelude.{◌≡◌, ◌<◌, ◌≤◌, IsOk, IfOk, IfSome, length};
ghost use Rattle.std.specs.List.{prefix_len};
ghost use Rattle.pli_base.specs.Name.{is_name_character};
ghost use Rattle.pli_lex.specs.Reading.{word_at, token_at, closing_width};

use crate::number::number_at;
use crate::quoted::string_at;
use crate::sign::sign_at;
use pli_base::{Code, Name, TokenText, is_digit, is_letter, is_name_character};
use std::alloc::{AllocError, Global};

/// How many characters of names a text begins with.
fn name_width(text: &[u8]) -> usize
    ensures { result ≡ prefix_len is_name_character text.now }
{
    text.iter()
        .take_while(|byte| is_name_character(**byte))
        .count()
}

/// The name at the front of a text that begins with a letter.
fn word_at(text: &[u8]) -> Result<(TokenText, usize), Code>
    ensures { result ≡ word_at text.now }
{
    let width = name_width(text);
    match Name::read(&text[..width]) {
        None => Err(Code::NameTooLong),
        Some(name) => Ok((TokenText::Word(name), width)),
    }
}

/// The token at the front of a text, and how many bytes it takes; or the code of the fault.
#[tactic(auto, unfolding(crate::specs::Reading::token_at))]
pub fn token_at(alloc: Global, text: &[u8]) -> Result<Result<(TokenText, usize), Code>, AllocError>
    ensures { IfOk result (λ found. found ≡ token_at text.now) }
{
    let Some(first) = text.first() else {
        return Ok(Err(Code::BadCharacter));
    };
    if is_letter(*first) {
        Ok(word_at(text))
    } else if is_digit(*first) {
        Ok(number_at(text))
    } else if *first == b'\'' {
        string_at(alloc, text)
    } else {
        Ok(sign_at(text))
    }
}

/// How many bytes there are up to the end of the first `*/`; None where there is none.
pub fn closing_width(text: &[u8]) -> Option<usize>
    ensures { result ≡ closing_width text.now }
{
    let mut at = 0;
    while at + 1 < text.len() {
        if text[at] == b'*' && text[at + 1] == b'/' {
            return Some(at + 2);
        }
        at += 1;
    }
    None
}
