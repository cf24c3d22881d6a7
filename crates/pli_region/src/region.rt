//! Regions.
ghost use Rattle.std.specs.Prelude.{◌≡◌, ◌+◌, ◌≤◌, length, take, drop, replicate, IfOk};
ghost use Rattle.pli_region.specs.Words.{word_at, bytes_of, overwritten};

use crate::memory::{Lease, Memory};
use std::alloc::{AllocError, Global};
use std::marker::Model;

/// A region: so many bytes of memory. Contracts see the list of these.
pub struct Region {
    memory: Memory,
    len: u32,
    lease: Lease<Global>,
    alloc: Global,
}

impl Model for Region {
    ghost use Rattle.std.specs.Prelude.{ℕ, List};

    ghost Value = { List ℕ };

    ghost view = { λ r. r.memory.items };

    ghost use Rattle.pli_region.specs.Held.{IsHeld};

    ghost invariant = { λ r. IsHeld r.memory r.len r.lease r.alloc };
}

impl Region {
    /// A region of `len` bytes, all zero. Takes that much memory; no other call takes any.
    pub fn new(alloc: Global, len: u32) -> Result<Region, AllocError>
        ensures { IfOk result (λ region. region ≡ replicate len 0) }
    {
        let Some((mut memory, lease)) = Memory::reserve(&alloc, len as usize) else {
            return Err(AllocError);
        };
        for at in 0..len as usize {
            memory.push(at, 0);
        }
        Ok(Region {
            memory,
            len,
            lease,
            alloc,
        })
    }

    /// How many bytes it has.
    pub fn len(&self) -> u32
        ensures { result ≡ length self.now }
    {
        self.len
    }

    /// The word at a place: the number of its four bytes, the lowest first.
    pub fn word(&self, at: u32) -> u32
        requires { at + 4 ≤ length self.now }
        ensures { result ≡ word_at self.now at }
    {
        number_of(self.memory.word(at as usize))
    }

    /// Writes a word at a place, its lowest byte first. No other byte changes.
    pub fn set_word(&mut self, at: u32, value: u32)
        requires { at + 4 ≤ length self.old }
        ensures { self.new ≡ overwritten self.old at (bytes_of value) }
    {
        self.memory.set_word(at as usize, bytes_of(value));
    }

    /// Reads the bytes from a place on.
    pub fn read_into(&self, at: u32, into: &mut [u8])
        requires { at + length into.old ≤ length self.now }
        ensures { into.new ≡ take (length into.old) (drop at self.now) }
    {
        into.copy_from_slice(self.memory.part(at as usize, into.len()));
    }

    /// Writes bytes from a place on. No other byte changes.
    pub fn write_from(&mut self, at: u32, from: &[u8])
        requires { at + length from.now ≤ length self.old }
        ensures { self.new ≡ overwritten self.old at from.now }
    {
        self.memory
            .part_mut(at as usize, from.len())
            .copy_from_slice(from);
    }

    /// Copies `n` bytes of another region, those from the place `from` on, to the place `at`. No other byte changes.
    pub fn copy_from(&mut self, source: &Region, from: u32, at: u32, n: u32)
        requires source { from + n ≤ length source.now }
        requires target { at + n ≤ length self.old }
        ensures { self.new ≡ overwritten self.old at (take n (drop from source.now)) }
    {
        self.memory
            .copy(&source.memory, from as usize, at as usize, n as usize);
    }
}

impl Drop for Region {
    fn drop(self) {
        let Region {
            memory,
            len,
            lease,
            alloc,
        } = self;
        memory.free(len as usize, lease, &alloc);
    }
}

/// The number of four bytes, the lowest first.
fn number_of(bytes: [u8; 4]) -> u32
    ensures { result ≡ word_at bytes 0 }
{
    u32::from(bytes[0])
        + 256 * u32::from(bytes[1])
        + 65_536 * u32::from(bytes[2])
        + 16_777_216 * u32::from(bytes[3])
}

/// The four bytes of a number, the lowest first.
fn bytes_of(value: u32) -> [u8; 4]
    ensures { result ≡ bytes_of value }
{
    [
        (value % 256) as u8,
        (value / 256 % 256) as u8,
        (value / 65_536 % 256) as u8,
        (value / 16_777_216) as u8,
    ]
}
