//! Readers and writers that move their bytes in pieces.

use std::io::{self, Read, Write};

/// A reader or a writer of which no call moves more than `most` bytes.
#[derive(Drop)]
pub struct Pieces<T> {
    pub inner: T,
    most: usize,
}

impl<T> Pieces<T> {
    /// Moves at most `most` bytes of `inner` in a call.
    pub fn new(inner: T, most: usize) -> Pieces<T> {
        Pieces { inner, most }
    }
}

impl<T: Read> Read for Pieces<T> {
    fn read(&mut self, buffer: &mut [u8]) -> io::Result<usize> {
        let count = self.most.min(buffer.len());
        self.inner.read(&mut buffer[..count])
    }
}

impl<T: Write> Write for Pieces<T> {
    fn write(&mut self, bytes: &[u8]) -> io::Result<usize> {
        let count = self.most.min(bytes.len());
        self.inner.write(&bytes[..count])
    }

    fn flush(&mut self) -> io::Result<()> {
        self.inner.flush()
    }
}
