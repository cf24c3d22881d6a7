//! The characters of names and numbers.
ghost use Rattle.std.specs.Prelude.{◌≡◌, ◌<◌, ◌≤◌, ◌^◌, IsTrue, length};
ghost use Rattle.std.specs.List.{list_all};
ghost use Rattle.pli_base.specs.Digits.{value_in};
ghost use Rattle.pli_base.specs.Name.{is_letter, is_digit, is_name_character};

/// Whether `byte` is a letter, in either case.
pub fn is_letter(byte: u8) -> bool
    ensures { result ≡ is_letter byte }
{
    matches!(byte, b'A'..=b'Z' | b'a'..=b'z')
}

/// Whether `byte` is a decimal digit.
pub fn is_digit(byte: u8) -> bool
    ensures { result ≡ is_digit byte }
{
    matches!(byte, b'0'..=b'9')
}

/// Whether `byte` may follow the first letter of a name (X3.74; `$` is own).
pub fn is_name_character(byte: u8) -> bool
    ensures { result ≡ is_name_character byte }
{
    is_letter(byte) || is_digit(byte) || matches!(byte, b'_' | b'$')
}

/// The value of at most 19 decimal digits.
pub fn decimal_value(digits: &[u8]) -> u64
    requires count { length digits.now ≤ 19 }
    requires form { IsTrue (list_all is_digit digits.now) }
    ensures value { result ≡ value_in 10 digits.now }
    ensures below { result < 10 ^ length digits.now }
{
    let mut value = 0;
    for digit in digits {
        value = value * 10 + u64::from(*digit - b'0');
    }
    value
}
