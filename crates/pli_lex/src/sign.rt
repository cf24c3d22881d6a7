//! Signs.
ghost use Rattle.std.specs.Prelude.{◌≡◌, ◌≢◌, ◌∷◌, []};
ghost use Rattle.pli_lex.specs.Signs.{sign_of};
ghost use Rattle.pli_lex.specs.Reading.{sign_at};

use pli_base::{Code, Sign, TokenText};

/// The sign that one character is (X3.74; `^` and `~` are own).
fn single_sign(byte: u8) -> Option<Sign>
    ensures { result ≡ sign_of (byte ∷ []) }
{
    match byte {
        b'+' => Some(Sign::Plus),
        b'-' => Some(Sign::Minus),
        b'*' => Some(Sign::Times),
        b'(' => Some(Sign::OpenParenthesis),
        b')' => Some(Sign::CloseParenthesis),
        b',' => Some(Sign::Comma),
        b'.' => Some(Sign::Period),
        b';' => Some(Sign::Semicolon),
        b':' => Some(Sign::Colon),
        b'=' => Some(Sign::Equals),
        b'<' => Some(Sign::Less),
        b'>' => Some(Sign::Greater),
        b'&' => Some(Sign::And),
        b'|' => Some(Sign::Or),
        b'^' | b'~' => Some(Sign::Not),
        b'%' => Some(Sign::Percent),
        _ => None,
    }
}

/// The sign that two characters are (X3.74).
fn double_sign(first: u8, second: u8) -> Option<Sign>
    ensures { result ≡ sign_of (first ∷ second ∷ []) }
{
    match (first, second) {
        (b'<', b'=') => Some(Sign::LessOrEqual),
        (b'>', b'=') => Some(Sign::GreaterOrEqual),
        (b'^' | b'~', b'=') => Some(Sign::NotEqual),
        (b'^' | b'~', b'<') => Some(Sign::GreaterOrEqual),
        (b'^' | b'~', b'>') => Some(Sign::LessOrEqual),
        (b'-', b'>') => Some(Sign::Arrow),
        (b'|', b'|') => Some(Sign::Concatenate),
        _ => None,
    }
}

/// The longest sign at the front of a text, and how many bytes it takes.
pub fn sign_at(text: &[u8]) -> Result<(TokenText, usize), Code>
    ensures { result ≡ sign_at text.now }
{
    if let [first, second, ..] = text {
        if let Some(sign) = double_sign(*first, *second) {
            return Ok((TokenText::Sign(sign), 2));
        }
    }
    match text.first() {
        None => Err(Code::BadCharacter),
        Some(byte) => match single_sign(*byte) {
            None => Err(Code::BadCharacter),
            Some(sign) => Ok((TokenText::Sign(sign), 1)),
        },
    }
}
