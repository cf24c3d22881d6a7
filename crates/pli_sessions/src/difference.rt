//! Where two texts differ first.
ghost use Rattle.std.specs.Prelude.{◌≡◌, ◌↔◌, IsNone};

use std::fmt;

/// A line that is not the same in two texts.
#[derive(Clone, Copy)]
pub struct Difference<'a> {
    /// The number of the line, from 1.
    line: usize,
    /// The line in the text that is wanted, with its line feed; nothing past its end.
    wanted: &'a [u8],
    /// The line in the text that was found.
    found: &'a [u8],
}

impl<'a> fmt::Display for Difference<'a> {
    fn fmt<W: fmt::Write>(&self, f: &mut fmt::Formatter<W>) -> fmt::Result {
        let (wanted, found) = (self.wanted.escape_ascii(), self.found.escape_ascii());
        write!(
            f,
            "line {}: '{wanted}' is wanted, '{found}' was found",
            self.line
        )
    }
}

/// The line after so many others, with its line feed; nothing where the text has no such line.
fn line_after(text: &[u8], lines: usize) -> &[u8] {
    text.split_inclusive(|byte| *byte == b'\n')
        .nth(lines)
        .unwrap_or(b"")
}

/// The first line that differs, where the texts are not the same.
pub fn first_difference<'a>(wanted: &'a [u8], found: &'a [u8]) -> Option<Difference<'a>>
    ensures { IsNone result ↔ wanted.now ≡ found.now }
{
    if wanted == found {
        return None;
    }
    let alike = wanted
        .iter()
        .zip(found)
        .take_while(|bytes| bytes.0 == bytes.1)
        .filter(|bytes| *bytes.0 == b'\n')
        .count();
    Some(Difference {
        line: alike.saturating_add(1),
        wanted: line_after(wanted, alike),
        found: line_after(found, alike),
    })
}
