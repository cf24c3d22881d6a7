//! The strings of character and bit constants.
ghost use Rattle.std.specs.Prelude.{◌≡◌, IfOk};

use std::alloc::{AllocError, Global};
use std::marker::Model;

/// The characters of a character constant, a doubled quote being one quote (X3.74). Contracts see the list of its
/// bytes.
#[derive(Drop)]
pub struct CharacterString {
    bytes: Vec<u8>,
}

impl Model for CharacterString {
    ghost use Rattle.std.specs.Prelude.{List, ℕ};

    ghost Value = { List ℕ };

    ghost view = { λ s. s.bytes.items };
}

impl CharacterString {
    /// The string of these characters.
    pub fn new(bytes: Vec<u8>) -> CharacterString
        ensures { result ≡ bytes.items }
    {
        CharacterString { bytes }
    }

    /// The characters.
    pub fn bytes(&self) -> &[u8]
        ensures { result.now ≡ self.now }
    {
        self.bytes.as_slice()
    }

    /// An equal string.
    pub fn copy(&self, alloc: Global) -> Result<CharacterString, AllocError>
        ensures { IfOk result (λ copied. copied ≡ self.now) }
    {
        Ok(CharacterString {
            bytes: Vec::from_slice(alloc, self.bytes.as_slice())?,
        })
    }
}

/// The bits of a bit constant, from left to right (X3.74). Contracts see the list of them.
#[derive(Drop)]
pub struct BitString {
    bits: Vec<bool>,
}

impl Model for BitString {
    ghost use Rattle.std.specs.Prelude.{List, Bool};

    ghost Value = { List Bool };

    ghost view = { λ s. s.bits.items };
}

impl BitString {
    /// The string of these bits.
    pub fn new(bits: Vec<bool>) -> BitString
        ensures { result ≡ bits.items }
    {
        BitString { bits }
    }

    /// The bits.
    pub fn bits(&self) -> &[bool]
        ensures { result.now ≡ self.now }
    {
        self.bits.as_slice()
    }

    /// An equal string.
    pub fn copy(&self, alloc: Global) -> Result<BitString, AllocError>
        ensures { IfOk result (λ copied. copied ≡ self.now) }
    {
        Ok(BitString {
            bits: Vec::from_slice(alloc, self.bits.as_slice())?,
        })
    }
}
