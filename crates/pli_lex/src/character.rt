//! The kinds of characters.
ghost use Rattle.std.specs.Prelude.{◌≡◌};
ghost use Rattle.pli_base.specs.Name.{is_name_character};
ghost use Rattle.pli_lex.specs.Characters.{is_blank, is_b, is_binary_digit, is_width_digit, digit_value};
ghost use Rattle.pli_lex.specs.Characters.{continues_number, begins_with, begins_comment};

use pli_base::is_name_character;

/// Whether `byte` is a blank or a tab.
pub fn is_blank(byte: u8) -> bool
    ensures { result ≡ is_blank byte }
{
    matches!(byte, b' ' | b'\t')
}

/// Whether `byte` is a binary digit.
pub fn is_binary_digit(byte: u8) -> bool
    ensures { result ≡ is_binary_digit byte }
{
    matches!(byte, b'0' | b'1')
}

/// The value of a digit of a bit constant, 0 to 15, in either case (X3.74); 16 where `byte` is none.
pub fn digit_value(byte: u8) -> u8
    ensures { result ≡ digit_value byte }
{
    match byte {
        b'0'..=b'9' => byte - b'0',
        b'A'..=b'F' => byte - b'A' + 10,
        b'a'..=b'f' => byte - b'a' + 10,
        _ => 16,
    }
}

/// Whether a text begins with `B`, in either case.
pub fn begins_with_b(text: &[u8]) -> bool
    ensures { result ≡ begins_with is_b text.now }
{
    match text.first() {
        None => false,
        Some(byte) => matches!(*byte, b'B' | b'b'),
    }
}

/// Whether a text begins with a name character.
pub fn continues_name(text: &[u8]) -> bool
    ensures { result ≡ begins_with is_name_character text.now }
{
    match text.first() {
        None => false,
        Some(byte) => is_name_character(*byte),
    }
}

/// Whether a number may not stand directly before a text (own).
pub fn continues_number(text: &[u8]) -> bool
    ensures { result ≡ begins_with continues_number text.now }
{
    match text.first() {
        None => false,
        Some(byte) => is_name_character(*byte) || *byte == b'.',
    }
}

/// Whether a text begins with `/*`.
pub fn begins_comment(text: &[u8]) -> bool
    ensures { result ≡ begins_comment text.now }
{
    match text {
        [first, second, ..] => *first == b'/' && *second == b'*',
        _ => false,
    }
}
