//! Changes of a member's lines, and which may be made.
ghost use Rattle.std.specs.Prelude.{◌≡◌};
ghost use Rattle.std.specs.List.{list_all};
ghost use Rattle.pli_members.specs.views.ChangeView.{change_view};
ghost use Rattle.pli_members.specs.Refusals.{may_stand, refusal_of_lines, refusal_of_text, or_full};

use crate::refusal::Refusal;
use pli_base::Line;

/// The greatest number of lines in a member (own).
const LINE_LIMIT: usize = 9999;

/// The greatest number of bytes in a line (own).
const TEXT_LIMIT: usize = 120;

/// A change of a member's lines, which are counted from 1.
#[derive(Clone, Copy)]
pub(crate) enum Change<'a> {
    /// A line is put after line `after`, first where that is 0.
    Insert { after: usize, text: &'a [u8] },
    /// A line has another text.
    Replace { number: usize, text: &'a [u8] },
    /// The lines from the first to the last are taken away.
    Remove { first: usize, last: usize },
}

// Whether a byte may stand in a line: a tab, or 32 to 126.
fn may_stand(byte: u8) -> bool
    ensures { result ≡ may_stand byte }
{
    byte == b'\t' || (byte >= 32 && byte <= 126)
}

// Whether each byte may stand in a line.
fn is_clean(text: &[u8]) -> bool
    ensures { result ≡ list_all may_stand text.now }
{
    text.iter().all(|b| may_stand(*b))
}

// Why a text may not be a line's.
fn text_refusal(text: &[u8]) -> Option<Refusal>
    ensures { result ≡ refusal_of_text text.now }
{
    if text.len() > TEXT_LIMIT {
        return Some(Refusal::LineTooLong);
    }
    if !is_clean(text) {
        return Some(Refusal::BadByte);
    }
    None
}

// Why one more line of this text may not stand among these.
fn new_line_refusal(lines: &[Line], text: &[u8]) -> Option<Refusal>
    ensures { result ≡ or_full lines.now (refusal_of_text text.now) }
{
    if let Some(refusal) = text_refusal(text) {
        return Some(refusal);
    }
    if lines.len() >= LINE_LIMIT {
        return Some(Refusal::TooManyLines);
    }
    None
}

// Why these lines may not be changed so.
pub(crate) fn change_refusal(lines: &[Line], change: Change<'_>) -> Option<Refusal>
    ensures { result ≡ refusal_of_lines (change_view change.entry) lines.now }
{
    match change {
        Change::Insert { after, text } if after <= lines.len() => new_line_refusal(lines, text),
        Change::Replace { number, text } if 1 <= number && number <= lines.len() => {
            text_refusal(text)
        }
        Change::Remove { first, last } if 1 <= first && first <= last && last <= lines.len() => {
            None
        }
        _ => Some(Refusal::NoSuchLine),
    }
}
