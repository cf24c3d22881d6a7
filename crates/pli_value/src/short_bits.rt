//! What a string of few bits is: a number, and how many of its digits count.
ghost use Rattle.std.specs.Prelude.{◌^◌, ◌<◌, ◌≤◌};

/// A string of at most 63 bits: a number that has no more binary digits than so many, which are its bits.
#[derive(Clone, Copy)]
pub struct ShortBits {
    pub number: u64,
    pub count: usize,
    ghost few: { count ≤ 63 },
    ghost small: { number < 2 ^ count },
}
