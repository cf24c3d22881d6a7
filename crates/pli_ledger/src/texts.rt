//! Whether token texts are the same.
ghost use Rattle.std.specs.Prelude.{◌≡◌};
ghost use Rattle.pli_ledger.specs.SameTexts.{same_text, same_texts};

use pli_base::TokenText;

/// Whether two texts say the same.
fn same_text(one: &TokenText, other: &TokenText) -> bool
    ensures { result ≡ same_text one.now other.now }
{
    match (one, other) {
        (TokenText::Word(one), TokenText::Word(other)) => *one == *other,
        (
            TokenText::Decimal { value, digits },
            TokenText::Decimal {
                value: other_value,
                digits: other_digits,
            },
        ) => *value == *other_value && *digits == *other_digits,
        (
            TokenText::Binary { value, digits },
            TokenText::Binary {
                value: other_value,
                digits: other_digits,
            },
        ) => *value == *other_value && *digits == *other_digits,
        (TokenText::Characters(one), TokenText::Characters(other)) => one.bytes() == other.bytes(),
        (TokenText::Bits(one), TokenText::Bits(other)) => one.bits() == other.bits(),
        (TokenText::Sign(one), TokenText::Sign(other)) => *one == *other,
        _ => false,
    }
}

/// Whether two lists of texts do.
pub fn same_texts(one: &[TokenText], other: &[TokenText]) -> bool
    ensures { result ≡ same_texts one.now other.now }
{
    if one.len() != other.len() {
        return false;
    }
    for (at, text) in one.iter().enumerate() {
        if !same_text(text, &other[at]) {
            return false;
        }
    }
    true
}
