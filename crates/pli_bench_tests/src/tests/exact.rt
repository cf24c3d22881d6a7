//! Bytes whole, cut at each length, and changed in each place and at random.

use crate::tests::outcome::{Kind, Outcome, outcome_of};
use pli_deck_read::read_module;
use pli_deck_write::write_deck;
use rand_core::utils::NextWord;
use rand_pcg::Pcg32;
use std::alloc::{AllocError, Global};

/// Bytes that are not read exactly.
#[derive(Clone, Copy, Debug, PartialEq, Eq)]
pub enum Inexact {
    /// They are not the spelling of what they are read as.
    Whole,
    /// Cut at this length they are not refused as they are to be.
    Cut(usize),
    /// With a byte after them they are not refused as they are to be.
    Longer,
    /// Another byte in this place is neither spelled so nor refused.
    Changed(usize),
    /// Random changes, after so many others, are neither spelled so nor refused.
    Random(u32),
}

/// What is tried of bytes.
#[derive(Clone, Copy)]
pub struct Tries<'a> {
    /// In each place the bits of each mask are turned, one mask after the other.
    pub masks: &'a [u8],
    /// How many times 2 to 9 random bytes are changed.
    pub random: u32,
}

/// The number of the fault of a deck or a module that is cut at a length: fewer than four bytes do not begin as one
/// does, and others end within an item. So no spelling is the front of another.
fn fault_of_cut(length: usize) -> u8 {
    if length < 4 { 1 } else { 3 }
}

/// The first length at which bytes that are cut are not refused as they are to be.
fn first_cut(alloc: Global, kind: Kind, bytes: &[u8]) -> Option<Inexact> {
    for length in 0..bytes.len() {
        let wanted = Outcome::Fault(fault_of_cut(length));
        if outcome_of(alloc, kind, &bytes[..length]) != wanted {
            return Some(Inexact::Cut(length));
        }
    }
    None
}

/// Whether bytes with one more after them are refused for that.
fn is_refused_longer(alloc: Global, kind: Kind, bytes: &[u8]) -> Result<bool, AllocError> {
    let mut longer = bytes.to_vec(alloc)?;
    longer.push(0)?;
    Ok(outcome_of(alloc, kind, &longer) == Outcome::Fault(4))
}

/// Whether bytes are the one spelling of what they are read as, or are refused for a fault of a number from 1 to 8.
fn is_exact(alloc: Global, kind: Kind, bytes: &[u8]) -> bool {
    match outcome_of(alloc, kind, bytes) {
        Outcome::Same => true,
        Outcome::Fault(number) => number >= 1 && number <= 8,
        Outcome::Other | Outcome::OutOfMemory => false,
    }
}

/// Turns the bits of a mask in the byte of a place, where there is such a byte.
fn turn(bytes: &mut [u8], place: usize, mask: u8) {
    if let Some(byte) = bytes.get_mut(place) {
        *byte ^= mask;
    }
}

/// The first place where bytes with another byte are neither spelled so nor refused.
fn first_changed(
    alloc: Global,
    kind: Kind,
    bytes: &[u8],
    tries: Tries<'_>,
) -> Result<Option<Inexact>, AllocError> {
    let mut other = bytes.to_vec(alloc)?;
    for place in 0..bytes.len() {
        for mask in tries.masks {
            turn(&mut other, place, *mask);
            if !is_exact(alloc, kind, &other) {
                return Ok(Some(Inexact::Changed(place)));
            }
            turn(&mut other, place, *mask);
        }
    }
    Ok(None)
}

/// One of so many places, or 0.
fn place_of(random: &mut Pcg32, count: usize) -> usize {
    random.next_word() as usize % count.max(1)
}

/// Puts the byte of another place, or any byte, into a place.
fn change_byte(random: &mut Pcg32, bytes: &mut [u8]) {
    let place = place_of(random, bytes.len());
    let from = place_of(random, bytes.len());
    let word = random.next_word();
    let put = if word % 2 == 0 {
        bytes.get(from).copied().unwrap_or(0)
    } else {
        (word >> 24) as u8
    };
    if let Some(byte) = bytes.get_mut(place) {
        *byte = put;
    }
}

/// The first of so many random changes that are neither spelled so nor refused. They are the same in each run.
fn first_random(
    alloc: Global,
    kind: Kind,
    bytes: &[u8],
    times: u32,
) -> Result<Option<Inexact>, AllocError> {
    let mut random = Pcg32::new(42, 54);
    for time in 0..times {
        let mut other = bytes.to_vec(alloc)?;
        for _ in 0..2 + random.next_word() % 8 {
            change_byte(&mut random, &mut other);
        }
        if !is_exact(alloc, kind, &other) {
            return Ok(Some(Inexact::Random(time)));
        }
    }
    Ok(None)
}

/// Where bytes, which are to be a deck or a module, are not read exactly; none, if they are: they are the one spelling
/// of what they are read as, no part from the front on is one, and what is changed is the one spelling of something
/// else or is refused for a fault of a number from 1 to 8. Takes time in proportion to the square of the bytes.
pub fn first_inexact(
    alloc: Global,
    kind: Kind,
    bytes: &[u8],
    tries: Tries<'_>,
) -> Result<Option<Inexact>, AllocError> {
    if outcome_of(alloc, kind, bytes) != Outcome::Same {
        return Ok(Some(Inexact::Whole));
    }
    if !is_refused_longer(alloc, kind, bytes)? {
        return Ok(Some(Inexact::Longer));
    }
    if let Some(cut) = first_cut(alloc, kind, bytes) {
        return Ok(Some(cut));
    }
    if let Some(changed) = first_changed(alloc, kind, bytes, tries)? {
        return Ok(Some(changed));
    }
    first_random(alloc, kind, bytes, tries.random)
}

/// Where the deck of a unit of a module is not read exactly, as by itself; or that there is no such module.
pub fn first_inexact_deck(
    alloc: Global,
    module: &[u8],
    tries: Tries<'_>,
) -> Result<Option<Inexact>, AllocError> {
    let Ok(read) = read_module(alloc, module) else {
        return Ok(Some(Inexact::Whole));
    };
    for unit in &read.units {
        let deck = write_deck(alloc, &unit.deck)?;
        if let Some(inexact) = first_inexact(alloc, Kind::Deck, &deck, tries)? {
            return Ok(Some(inexact));
        }
    }
    Ok(None)
}
