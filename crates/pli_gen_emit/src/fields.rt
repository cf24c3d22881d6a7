//! Numbers as wide as their fields in the bytes of code.
ghost use Rattle.std.specs.Prelude.{◌≡◌, ◌+◌, min};
ghost use Rattle.pli_code.specs.CodeFields.{is_short};

/// The greatest number in a field of one byte.
pub(crate) const BYTE_LIMIT: usize = 255;

/// The greatest number in a field of two bytes.
pub(crate) const SHORT_LIMIT: usize = 65_535;

/// A number of one byte; the greatest for every greater one.
pub(crate) fn byte(number: usize) -> u8
    ensures { result ≡ min number 255 }
{
    number.min(BYTE_LIMIT) as u8
}

/// A number of two bytes; the greatest for every greater one.
pub fn short(number: usize) -> u16
    ensures { result ≡ min number 65535 }
{
    number.min(SHORT_LIMIT) as u16
}

/// Whether the number of a temporary so many after another is within its field.
pub(crate) fn temporary_fits(first: usize, after: u8) -> bool
    ensures { result ≡ is_short (first + after) }
{
    first <= SHORT_LIMIT - usize::from(after)
}

/// The number of a temporary so many after another; the greatest of its field for every greater one.
pub(crate) fn temporary(first: usize, after: u8) -> u16
    ensures { result ≡ min (first + after) 65535 }
{
    short(first.min(SHORT_LIMIT) + usize::from(after))
}
