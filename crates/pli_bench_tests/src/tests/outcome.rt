//! What comes of bytes that are read and written again.

use pli_deck_read::{ReadError, read_deck, read_module};
use pli_deck_write::{write_deck, write_module};
use std::alloc::Global;

/// What bytes are read as.
#[derive(Clone, Copy, Debug, PartialEq, Eq)]
pub enum Kind {
    Deck,
    Module,
}

/// What comes of bytes that are read.
#[derive(Clone, Copy, Debug, PartialEq, Eq)]
pub enum Outcome {
    /// They are refused for the fault of this number.
    Fault(u8),
    /// What is read is written as the same bytes.
    Same,
    /// What is read is written as other bytes.
    Other,
    OutOfMemory,
}

/// What is written of the deck that bytes are.
fn deck_again(alloc: Global, bytes: &[u8]) -> Result<Vec<u8>, ReadError> {
    Ok(write_deck(alloc, &read_deck(alloc, bytes)?)?)
}

/// What is written of the module that bytes are.
fn module_again(alloc: Global, bytes: &[u8]) -> Result<Vec<u8>, ReadError> {
    let module = read_module(alloc, bytes)?;
    Ok(write_module(alloc, &module.lent(alloc)?)?)
}

/// What comes of bytes of which this is written again.
fn compared(bytes: &[u8], again: Result<Vec<u8>, ReadError>) -> Outcome {
    match again {
        Ok(written) if written.as_slice() == bytes => Outcome::Same,
        Ok(_) => Outcome::Other,
        Err(ReadError::Fault(fault)) => Outcome::Fault(fault.number()),
        Err(ReadError::OutOfMemory) => Outcome::OutOfMemory,
    }
}

/// What comes of bytes that are read as a deck or a module.
pub fn outcome_of(alloc: Global, kind: Kind, bytes: &[u8]) -> Outcome {
    match kind {
        Kind::Deck => compared(bytes, deck_again(alloc, bytes)),
        Kind::Module => compared(bytes, module_again(alloc, bytes)),
    }
}
