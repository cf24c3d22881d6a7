//! Devices that move their bytes in pieces, fail, or look at each other.
ghost use Rattle.std.specs.Prelude.{◌≤◌, None, length};

use pli_base::{Failed, Sink, Source};
use std::alloc::Global;
use std::cell::Cell;

/// The most bytes that are kept at a time.
const PIECE: usize = 1000;

/// Puts the first bytes of `bytes`, at most `most`, at the front of `buffer`, and answers how many.
pub fn fill(buffer: &mut [u8], bytes: &[u8], most: usize) -> usize
    ensures in_buffer { result ≤ length buffer.new }
    ensures in_bytes { result ≤ length bytes.now }
{
    let count = most.min(bytes.len()).min(buffer.len());
    for (place, byte) in bytes[..count].iter().enumerate() {
        buffer[place] = *byte;
    }
    count
}

/// Gives its bytes in pieces, and fails after some calls.
#[derive(Drop)]
pub struct Pieces<'a> {
    pub left: &'a [u8],
    pub piece: usize,
    pub calls: u32,
    pub failed: bool,
}

impl<'a> Source for Pieces<'a> {
    ghost remaining = { λ _. None };

    ghost failed = { λ p. p.failed };

    ghost takes = { λ _. 0 };

    fn take(&mut self, buffer: &mut [u8]) -> Result<usize, Failed> {
        self.failed = self.failed || self.calls == 0;
        if self.failed {
            return Err(Failed);
        }
        self.calls -= 1;
        let count = fill(buffer, self.left, self.piece);
        self.left = &self.left[count..];
        Ok(count)
    }
}

/// Keeps what is written, at most 1000 bytes at a time, and fails after some calls.
#[derive(Drop)]
pub struct Kept {
    pub bytes: Vec<u8>,
    pub calls: u32,
    pub failed: bool,
}

impl Kept {
    /// A sink that takes so many calls.
    pub fn new(alloc: Global, calls: u32) -> Kept {
        Kept {
            bytes: Vec::new(alloc),
            calls,
            failed: false,
        }
    }
}

impl Sink for Kept {
    ghost contents = { λ _. None };

    ghost failed = { λ k. k.failed };

    fn put(&mut self, bytes: &[u8]) -> Result<usize, Failed> {
        let kept = bytes.get(..PIECE).unwrap_or(bytes);
        self.failed = self.failed || self.calls == 0 || self.bytes.extend_from_slice(kept).is_err();
        if self.failed {
            return Err(Failed);
        }
        self.calls -= 1;
        Ok(kept.len())
    }
}

/// Bytes that are given at one time, with the answers to the lines that end in them.
pub type Turn = (&'static [u8], &'static [u8]);

/// Gives the bytes of one turn after another, and fails unless the answers to the lines that it gave have been written,
/// and nothing else.
#[derive(Drop)]
pub struct Asking<'a> {
    turns: &'a [Turn],
    given: usize,
    awaited: usize,
    written: &'a Cell<usize>,
    failed: bool,
}

impl<'a> Asking<'a> {
    /// Asks in these turns, where `written` tells how many bytes have been written.
    pub fn new(turns: &'a [Turn], written: &'a Cell<usize>) -> Asking<'a> {
        Asking {
            turns,
            given: 0,
            awaited: 0,
            written,
            failed: false,
        }
    }
}

impl<'a> Source for Asking<'a> {
    ghost remaining = { λ _. None };

    ghost failed = { λ a. a.failed };

    ghost takes = { λ _. 0 };

    fn take(&mut self, buffer: &mut [u8]) -> Result<usize, Failed> {
        self.failed = self.failed || self.written.get() != self.awaited;
        if self.failed {
            return Err(Failed);
        }
        let Some(turn) = self.turns.get(self.given) else {
            return Ok(0);
        };
        self.given += 1;
        self.awaited = self.awaited.saturating_add(turn.1.len());
        Ok(fill(buffer, turn.0, turn.0.len()))
    }
}

/// Keeps what is written, and tells how many bytes that is.
#[derive(Drop)]
pub struct Told<'a> {
    pub bytes: Vec<u8>,
    written: &'a Cell<usize>,
    failed: bool,
}

impl<'a> Told<'a> {
    /// A sink that tells there how many bytes it has.
    pub fn new(alloc: Global, written: &'a Cell<usize>) -> Told<'a> {
        Told {
            bytes: Vec::new(alloc),
            written,
            failed: false,
        }
    }
}

impl<'a> Sink for Told<'a> {
    ghost contents = { λ _. None };

    ghost failed = { λ t. t.failed };

    fn put(&mut self, bytes: &[u8]) -> Result<usize, Failed> {
        self.failed = self.failed || self.bytes.extend_from_slice(bytes).is_err();
        if self.failed {
            return Err(Failed);
        }
        self.written.set(self.bytes.len());
        Ok(bytes.len())
    }
}
