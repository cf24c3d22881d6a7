//! Calls on an area, and what they answer.
ghost use Rattle.std.specs.Bool.{OnTrue};
ghost use Rattle.pli_area.specs.Areas.{HasBytes};

use pli_area::Area;
use std::alloc::Global;
use std::fmt;
use std::process::Abort;

/// A call on an area.
#[derive(Clone, Copy)]
pub(crate) enum Call<'a> {
    /// A block of a description and of so many bytes is placed.
    Allocate(u32, u32),
    /// The block at a position is taken away.
    Release(u32),
    /// What the block at a position is.
    Find(u32),
    /// Of the block at a position, from a byte on, so many bytes are read.
    Read(u32, u32, u32),
    /// Into the block at a position, from a byte on, bytes are written.
    Write(u32, u32, &'a [u8]),
    /// All blocks are taken away.
    Empty,
    Extent,
    Count,
    Capacity,
    Visited,
}

/// What a call answers.
#[derive(PartialEq, Drop)]
pub(crate) enum Answer {
    Done,
    Full,
    /// No block is at the position, or it has no such bytes.
    Dead,
    Position(u32),
    Number(u64),
    /// The description of a block, and how many bytes it has.
    Block(u32, u32),
    Bytes(Vec<u8>),
}

impl fmt::Display for Answer {
    fn fmt<W: fmt::Write>(&self, f: &mut fmt::Formatter<W>) -> fmt::Result {
        match self {
            Answer::Done => write!(f, "done"),
            Answer::Full => write!(f, "full"),
            Answer::Dead => write!(f, "dead"),
            Answer::Position(position) => write!(f, "{position}"),
            Answer::Number(number) => write!(f, "{number}"),
            Answer::Block(description, size) => write!(f, "{size} of {description}"),
            Answer::Bytes(bytes) => write!(f, "{}", str::from_utf8(bytes).unwrap_or("no text")),
        }
    }
}

/// Whether the block at a position has so many bytes from a byte on.
fn has_bytes(area: &Area, position: u32, at: u32, count: usize) -> bool
    ensures { OnTrue result (HasBytes area.now.blocks position at count) }
{
    match area.find(position) {
        Some(block) => at <= block.size && count <= (block.size - at) as usize,
        None => false,
    }
}

fn read(rt: &impl Abort, alloc: Global, area: &Area, position: u32, at: u32, count: u32) -> Answer {
    if !has_bytes(area, position, at, count as usize) {
        return Answer::Dead;
    }
    let mut bytes = vec![in alloc; 0; count as usize].expect(rt, "memory");
    area.read(position, at, &mut bytes);
    Answer::Bytes(bytes)
}

fn write(area: &mut Area, position: u32, at: u32, bytes: &[u8]) -> Answer {
    if !has_bytes(area, position, at, bytes.len()) {
        return Answer::Dead;
    }
    area.write(position, at, bytes);
    Answer::Done
}

/// Makes a call on an area.
pub(crate) fn answer_of(rt: &impl Abort, alloc: Global, area: &mut Area, call: Call) -> Answer {
    match call {
        Call::Allocate(description, size) => match area.allocate(description, size) {
            Ok(position) => Answer::Position(position),
            Err(_) => Answer::Full,
        },
        Call::Release(position) => match area.release(position) {
            Ok(()) => Answer::Done,
            Err(_) => Answer::Dead,
        },
        Call::Find(position) => match area.find(position) {
            Some(block) => Answer::Block(block.description, block.size),
            None => Answer::Dead,
        },
        Call::Read(position, at, count) => read(rt, alloc, area, position, at, count),
        Call::Write(position, at, bytes) => write(area, position, at, bytes),
        Call::Empty => {
            area.empty();
            Answer::Done
        }
        Call::Extent => Answer::Number(u64::from(area.extent())),
        Call::Count => Answer::Number(u64::from(area.count())),
        Call::Capacity => Answer::Number(u64::from(area.capacity())),
        Call::Visited => Answer::Number(u64::from(area.visited())),
    }
}
