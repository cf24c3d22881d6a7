//! Why an edit is refused.
ghost use Rattle.std.specs.Prelude.{◌≡◌, Some};
ghost use Rattle.pli_members.specs.Refusals.{refusal_label, refusal_text, refusal_shown};
ghost use Rattle.pli_members.specs.declared.refusal.EditError.TheVariants.{Refused, OutOfMemory};

use std::alloc::{AllocError, AllocFailed};
use std::fmt;

/// Why an edit is refused (own). The order of the variants is that of the numbers.
#[derive(Clone, Copy, Debug, PartialEq, Eq)]
pub enum Refusal {
    /// M1.
    NameTaken,
    /// M2.
    NoSuchMember,
    /// M3.
    NoSuchLine,
    /// M4, over 120 bytes.
    LineTooLong,
    /// M5, neither a tab nor one of the characters 32 to 126.
    BadByte,
    /// M6, where 9,999 lines are there.
    TooManyLines,
    /// M7, where 999 members are there.
    TooManyMembers,
    /// M8, where version 18,446,744,073,709,551,615 was given.
    VersionsExhausted,
}

impl Refusal {
    /// The letter and the number by which a refusal is cited.
    pub fn label(self) -> &'static str
        ensures { result.now ≡ refusal_label self }
    {
        match self {
            Refusal::NameTaken => "M1",
            Refusal::NoSuchMember => "M2",
            Refusal::NoSuchLine => "M3",
            Refusal::LineTooLong => "M4",
            Refusal::BadByte => "M5",
            Refusal::TooManyLines => "M6",
            Refusal::TooManyMembers => "M7",
            Refusal::VersionsExhausted => "M8",
        }
    }

    /// What a refusal says, in upper case.
    pub fn text(self) -> &'static str
        ensures { result.now ≡ refusal_text self }
    {
        match self {
            Refusal::NameTaken => "NAME TAKEN",
            Refusal::NoSuchMember => "NO SUCH MEMBER",
            Refusal::NoSuchLine => "NO SUCH LINE",
            Refusal::LineTooLong => "LINE TOO LONG",
            Refusal::BadByte => "BAD BYTE",
            Refusal::TooManyLines => "TOO MANY LINES",
            Refusal::TooManyMembers => "TOO MANY MEMBERS",
            Refusal::VersionsExhausted => "VERSIONS EXHAUSTED",
        }
    }
}

/// Its label, a blank and its text, as `M1 NAME TAKEN`.
impl fmt::Display for Refusal {
    ghost output = { λ refusal. Some (refusal_shown refusal) };

    fn fmt<W: fmt::Write>(&self, f: &mut fmt::Formatter<W>) -> fmt::Result {
        write!(f, "{} {}", self.label(), self.text())
    }
}

/// Why an edit that takes memory was not done.
#[derive(Clone, Copy, Debug, PartialEq, Eq)]
pub enum EditError {
    /// The edit is refused.
    Refused(Refusal),
    /// The edit is none that is refused, and memory was.
    OutOfMemory,
}

impl From<Refusal> for EditError {
    ghost from_gives = { λ refusal e. e ≡ Refused refusal };

    fn from(refusal: Refusal) -> EditError {
        EditError::Refused(refusal)
    }
}

impl From<AllocError> for EditError {
    ghost from_gives = { λ _ e. e ≡ OutOfMemory };

    fn from(_e: AllocError) -> EditError {
        EditError::OutOfMemory
    }
}

impl<T: Drop> From<AllocFailed<T>> for EditError {
    ghost from_gives = { λ _ e. e ≡ OutOfMemory };

    fn from(_e: AllocFailed<T>) -> EditError {
        EditError::OutOfMemory
    }
}
