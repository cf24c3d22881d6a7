ghost use Rattle.std.specs.Prelude.{◌≤◌, length};

use pli_base::{Line, Sign, TokenText};
use pli_lex::{LexError, lex};
use std::alloc::Global;
use std::process::Abort;
use std::test::*;

/// One line.
fn lines_of(rt: &impl Abort, alloc: Global, text: &str) -> Vec<Line>
    ensures { length result.items ≤ 9999 }
{
    let line = Line::new(alloc, text.as_bytes()).expect(rt, "memory");
    let mut lines = Vec::new(alloc);
    lines.push(line).expect(rt, "memory");
    assert!(rt; lines.len() <= 9999);
    lines
}

/// The token texts of a line.
pub(crate) fn tokens_of(rt: &impl Abort, alloc: Global, text: &str) -> Vec<TokenText>
    ensures { length result.items ≤ 200000 }
{
    let lines = lines_of(rt, alloc, text);
    let tokens = lex(alloc, &lines).ok().expect(rt, "tokens");
    let mut texts = Vec::new(alloc);
    for token in tokens {
        texts.push(token.text).expect(rt, "memory");
    }
    assert!(rt; texts.len() <= 200_000);
    texts
}

/// Whether tokens are a name, a number, characters, bits and a sign.
fn are_one_of_each(texts: &[TokenText]) -> bool {
    match texts {
        [
            TokenText::Word(word),
            TokenText::Decimal {
                value: 7,
                digits: 2,
            },
            TokenText::Binary {
                value: 5,
                digits: 3,
            },
            TokenText::Characters(string),
            TokenText::Bits(bits),
            TokenText::Sign(Sign::LessOrEqual),
        ] => {
            word.is(b"A")
                && string.bytes() == b"it's".as_slice()
                && bits.bits() == [true, false].as_slice()
        }
        _ => false,
    }
}

/// The label and the line of the fault of a line.
fn fault_of(rt: &impl Abort, alloc: Global, text: &str) -> Option<(&'static str, u32)> {
    let lines = lines_of(rt, alloc, text);
    match lex(alloc, &lines) {
        Err(LexError::Fault(fault)) => Some((fault.code.label(), fault.line)),
        _ => None,
    }
}

/// Whether a token is the name A.
fn is_a(text: &TokenText) -> bool {
    match text {
        TokenText::Word(word) => word.is(b"A"),
        _ => false,
    }
}

/// Whether a copy of the first token is the name A.
fn is_copied(rt: &impl Abort, alloc: Global, texts: &[TokenText]) -> bool {
    match texts.first() {
        Some(text) => {
            let copy = text.copy(alloc).expect(rt, "memory");
            let is_right = is_a(&copy);
            drop(copy);
            is_right
        }
        None => false,
    }
}

#[test]
fn texts_are_lexed(rt: HostRuntime) {
    let texts = tokens_of(&rt, rt.alloc(), "a /* b */ 07 101b 'it''s' '10'B <=");
    let is_right = are_one_of_each(&texts) && is_copied(&rt, rt.alloc(), &texts);
    drop(texts);
    assert!(rt; is_right && fault_of(&rt, rt.alloc(), "A ?") == Some(("X3", 1)));
}
