//! Calls on storage, and what they answer.

use crate::items::{Item, Text};
use pli_run::RunError;
use pli_store::{Made, StoreFault};
use pli_value::Locator;
use std::fmt;
use std::process::Abort;

/// The whole of something: the generation of a number, or what a reference by a locator has met.
#[derive(Clone, Copy)]
pub(crate) enum Whole {
    Generation(u32),
    Met(usize),
}

/// Where a call leads: into the whole of something, there so many bytes after its beginning, so many multiples
/// further as a subscript is above a low bound, and so many bytes further again, to a part of the description of a
/// number.
#[derive(Clone, Copy)]
pub(crate) struct Reference {
    pub(crate) whole: Whole,
    pub(crate) first: u32,
    pub(crate) low: i32,
    pub(crate) multiplier: u32,
    pub(crate) subscript: i32,
    pub(crate) second: u32,
    pub(crate) shape: usize,
}

impl Reference {
    /// The part of the description of a number that stands so many bytes after the beginning.
    pub(crate) fn new(whole: Whole, offset: u32, shape: usize) -> Reference {
        Reference {
            whole,
            first: offset,
            low: 0,
            multiplier: 0,
            subscript: 0,
            second: 0,
            shape,
        }
    }

    /// How many bytes it stands after the beginning; the greatest number of 64 bits where they are no fewer.
    pub(crate) fn offset(&self) -> u64 {
        let passed = u64::from(self.subscript.abs_diff(self.low));
        passed
            .saturating_mul(u64::from(self.multiplier))
            .saturating_add(u64::from(self.first))
            .saturating_add(u64::from(self.second))
    }
}

/// What is done at a place.
#[derive(Clone, Copy)]
pub(crate) enum Use {
    Held,
    /// The same, where it is a number; or characters.
    Number,
    Text,
    Store(Item),
    Put(i64),
    /// Characters are put after others, where both are no more than so many.
    Append(Text, usize),
    Address,
    Empty,
    /// A locator as an offset of the area, and as a pointer into it.
    Offset(Locator),
    Pointer(Locator),
}

/// A call on storage. Descriptions are numbers. What is made begins with these values for its scalars; without any,
/// with zeros, blanks, empty strings and null locators.
#[derive(Clone, Copy)]
pub(crate) enum Call<'a> {
    /// Whether there is room for a generation.
    Room(usize),
    Make(Made, usize, &'a [Item]),
    Dummy(usize, Item),
    End(&'a [u32]),
    /// ALLOCATE of a BASED variable, in an area, a reference to one, and FREE.
    Allocate(usize, &'a [Item]),
    AllocateIn(Reference, usize, &'a [Item]),
    Based(usize, Locator),
    Free(usize, Locator),
    /// A stack more, of a CONTROLLED variable of a description; ALLOCATE of the variable of a stack, a reference to it,
    /// ALLOCATION and FREE.
    Stack(usize),
    Push(usize),
    Newest(usize),
    Count(usize),
    Pop(usize),
    At(Reference, Use),
    /// What the first place holds is put at the second; blocks of an area.
    Copy(Reference, Reference),
    Assign(Reference, Reference),
}

/// What a call answers.
#[derive(Clone, Copy, PartialEq, Eq)]
pub(crate) enum Answer {
    Done,
    Yes,
    No,
    Nothing,
    Raised(RunError),
    /// No rule gives an answer.
    Wrong,
    /// A place would lie too far from the beginning, or in a block of an area, where no such call leads.
    Far,
    /// A value, the number of a generation or of a stack, or how many there are.
    Gives(Item),
}

impl fmt::Display for Answer {
    fn fmt<W: fmt::Write>(&self, f: &mut fmt::Formatter<W>) -> fmt::Result {
        match self {
            Answer::Done => write!(f, "done"),
            Answer::Yes => write!(f, "yes"),
            Answer::No => write!(f, "no"),
            Answer::Nothing => write!(f, "none"),
            Answer::Raised(error) => write!(f, "{}", error.label()),
            Answer::Wrong => write!(f, "wrong"),
            Answer::Far => write!(f, "far"),
            Answer::Gives(item) => write!(f, "{item}"),
        }
    }
}

impl Answer {
    /// Whether something holds.
    pub(crate) fn of(holds: bool) -> Answer {
        if holds { Answer::Yes } else { Answer::No }
    }

    /// A number, as that of a generation.
    pub(crate) fn number(number: usize) -> Answer {
        Answer::Gives(Item::Number(i64::try_from(number).unwrap_or(i64::MAX)))
    }

    pub(crate) fn locator(locator: Locator) -> Answer {
        Answer::Gives(Item::Locator(locator))
    }

    /// What a fault says.
    pub(crate) fn fault(rt: &impl Abort, fault: StoreFault) -> Answer {
        match fault {
            StoreFault::Raised(error) => Answer::Raised(error),
            StoreFault::NoRule => Answer::Wrong,
            StoreFault::OutOfMemory => panic!(rt; "no memory"),
        }
    }

    /// What is answered where a call gives nothing.
    pub(crate) fn done(rt: &impl Abort, answered: Result<(), StoreFault>) -> Answer {
        match answered {
            Ok(()) => Answer::Done,
            Err(fault) => Answer::fault(rt, fault),
        }
    }

    /// What is answered where a call gives a locator.
    pub(crate) fn pointed(rt: &impl Abort, found: Result<Locator, StoreFault>) -> Answer {
        match found {
            Ok(locator) => Answer::locator(locator),
            Err(fault) => Answer::fault(rt, fault),
        }
    }
}
