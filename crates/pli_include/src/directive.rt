//! Directives: `%INCLUDE name;` and `%INCLUDE 'name';`.
ghost use Rattle.std.specs.Prelude.{◌≡◌};
ghost use Rattle.pli_base.specs.Words.{is_semicolon};
ghost use Rattle.pli_include.specs.Pieces.{is_percent, is_include, name_in, named_by};

use pli_base::{Name, Sign, TokenText};

/// Whether a token begins a directive, or should.
pub fn is_percent(text: &TokenText) -> bool
    ensures { result ≡ is_percent text.now }
{
    matches!(text, TokenText::Sign(Sign::Percent))
}

/// Whether a token is the word INCLUDE.
fn is_include(text: &TokenText) -> bool
    ensures { result ≡ is_include text.now }
{
    match text {
        TokenText::Word(name) => name.is(b"INCLUDE"),
        _ => false,
    }
}

/// Whether a token is `;`.
fn is_semicolon(text: &TokenText) -> bool
    ensures { result ≡ is_semicolon text.now }
{
    matches!(text, TokenText::Sign(Sign::Semicolon))
}

/// The member that a token names: by its name, or by a character constant that spells one.
fn name_in(text: &TokenText) -> Option<Name>
    ensures { result ≡ name_in text.now }
{
    match text {
        TokenText::Word(name) => Some(*name),
        TokenText::Characters(string) => Name::read(string.bytes()),
        _ => None,
    }
}

/// The member that a directive names, if these are the tokens after its `%`.
pub fn named_by(word: &TokenText, named: &TokenText, semicolon: &TokenText) -> Option<Name>
    ensures { result ≡ named_by word.now named.now semicolon.now }
{
    if is_include(word) && is_semicolon(semicolon) {
        name_in(named)
    } else {
        None
    }
}
