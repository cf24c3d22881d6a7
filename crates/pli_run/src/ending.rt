//! How a run ends.
ghost use Rattle.std.specs.Prelude.{◌≡◌, Some};
ghost use Rattle.pli_run.specs.Errors.{error_label, error_text, error_shown};

use pli_base::Name;
use std::fmt;

/// An error that ends a run (own).
#[derive(Clone, Copy, Debug, PartialEq, Eq)]
pub enum RunError {
    SubscriptRange,
    StringRange,
    NullLocator,
    DeadLocator,
    DescriptionMismatch,
    NoGeneration,
    OutsideArea,
    NoReturnedValue,
    FixedOverflow,
    ZeroDivide,
    Area,
    StorageLimit,
    TooManyActivations,
}

impl RunError {
    /// The letter and the number by which an error is cited, as `E9`.
    pub fn label(self) -> &'static str
        ensures { result.now ≡ error_label self }
    {
        match self {
            RunError::SubscriptRange => "E1",
            RunError::StringRange => "E2",
            RunError::NullLocator => "E3",
            RunError::DeadLocator => "E4",
            RunError::DescriptionMismatch => "E5",
            RunError::NoGeneration => "E6",
            RunError::OutsideArea => "E7",
            RunError::NoReturnedValue => "E8",
            RunError::FixedOverflow => "E9",
            RunError::ZeroDivide => "E10",
            RunError::Area => "E11",
            RunError::StorageLimit => "E12",
            RunError::TooManyActivations => "E13",
        }
    }

    /// What an error says, in upper case.
    pub fn text(self) -> &'static str
        ensures { result.now ≡ error_text self }
    {
        match self {
            RunError::SubscriptRange => "SUBSCRIPT RANGE",
            RunError::StringRange => "STRING RANGE",
            RunError::NullLocator => "NULL LOCATOR",
            RunError::DeadLocator => "DEAD LOCATOR",
            RunError::DescriptionMismatch => "DESCRIPTION MISMATCH",
            RunError::NoGeneration => "NO GENERATION",
            RunError::OutsideArea => "OUTSIDE AREA",
            RunError::NoReturnedValue => "NO RETURNED VALUE",
            RunError::FixedOverflow => "FIXEDOVERFLOW",
            RunError::ZeroDivide => "ZERODIVIDE",
            RunError::Area => "AREA",
            RunError::StorageLimit => "STORAGE LIMIT",
            RunError::TooManyActivations => "TOO MANY ACTIVATIONS",
        }
    }
}

/// Its label, a blank and its text, as `E10 ZERODIVIDE`.
impl fmt::Display for RunError {
    ghost output = { λ error. Some (error_shown error) };

    fn fmt<W: fmt::Write>(&self, f: &mut fmt::Formatter<W>) -> fmt::Result {
        write!(f, "{} {}", self.label(), self.text())
    }
}

/// How a run ends: by the end of the main procedure, where the next step would be one too many, by an error at a
/// statement of a unit, or where no rule of the machine fits, which no compiled module meets.
#[derive(Clone, Copy)]
pub enum Ending {
    Ended,
    OutOfSteps,
    Error {
        error: RunError,
        unit: Name,
        statement: u32,
    },
    MachineFault,
}

/// What a run leaves beside its output: how it ended, and the next column, from 1 to 121.
#[derive(Clone, Copy)]
pub struct Ran {
    pub ending: Ending,
    pub column: u32,
}
