//! Where bytes come from and go to, and may fail.
ghost use Rattle.std.specs.Prelude.{◌≡◌, ◌≤◌, ◌<◌, ◌+◌, ℕ, List, Option, Bool, false, length, take, IfOk, MatchResult};
ghost use Rattle.std.specs.Io.KnownBytes.{Appends, Consumes, IsAtEnd, ReadConsumes, WriteAppends};
ghost use Rattle.pli_base.specs.Devices.{Marks, AppendsPrefix, ConsumesPrefix};

use std::io::{ErrorKind, Read, Write};

/// How often an interrupted call of the system is made before it counts as failed (own).
const TRIES: u32 = 64;

/// The answer of a device that failed. From then on it answers nothing else.
#[derive(Clone, Copy, Debug, PartialEq, Eq)]
pub struct Failed;

/// Where bytes come from.
pub trait Source {
    /// The bytes that are left, where they are known.
    ghost remaining: { Self → Option (List ℕ) };

    /// The mark that an answer `Failed` sets.
    ghost failed: { Self → Bool };

    /// How often bytes were asked for, where a source counts that.
    ghost takes: { Self → ℕ };

    /// Puts the next bytes at the front of `buffer`, and answers how many: none only at the end, or where `buffer` is
    /// empty. `Failed` takes none.
    fn take(&mut self, buffer: &mut [u8]) -> Result<usize, Failed>
        ensures bound { IfOk result (λ n. n ≤ length buffer.new) }
        ensures moved { ReadConsumes (remaining self.old) (remaining self.new) result buffer.new }
        ensures mark { Marks (failed self.old) (failed self.new) result }
        ensures count { takes self.new ≤ takes self.old + 1 };
}

/// Where bytes go to.
pub trait Sink {
    /// The bytes that were written, where they are known.
    ghost contents: { Self → Option (List ℕ) };

    /// The mark that an answer `Failed` sets.
    ghost failed: { Self → Bool };

    /// Writes some first bytes of `bytes`, and answers how many: at least one, unless `bytes` is empty. `Failed` writes
    /// none.
    fn put(&mut self, bytes: &[u8]) -> Result<usize, Failed>
        ensures bound { IfOk result (λ n. n ≤ length bytes.now) }
        ensures some { IfOk result (λ n. 0 < length bytes.now → 0 < n) }
        ensures moved { WriteAppends (contents self.old) (contents self.new) result bytes.now }
        ensures mark { Marks (failed self.old) (failed self.new) result };
}

/// A reader or a writer of std, as a source or a sink.
#[derive(Drop)]
pub struct Device<T> {
    inner: T,
    failed: bool,
    /// How often bytes were asked for; at the greatest number it stays.
    takes: u64,
}

impl<T> Device<T> {
    /// The device over `inner`, which has not failed.
    pub fn over(inner: T) -> Device<T>
        ensures inner { result.inner ≡ inner }
        ensures unmarked { result.failed ≡ false }
    {
        Device {
            inner,
            failed: false,
            takes: 0,
        }
    }

    /// The reader or writer.
    pub fn into_inner(self) -> T
        ensures { result ≡ self.inner }
    {
        self.inner
    }
}

impl<T: Read> Source for Device<T> {
    ghost remaining = { λ d. T.remaining d.inner };

    ghost failed = { λ d. d.failed };

    ghost takes = { λ d. d.takes };

    fn take(&mut self, buffer: &mut [u8]) -> Result<usize, Failed> {
        self.takes = self.takes.saturating_add(1);
        if self.failed {
            return Err(Failed);
        }
        let taken = read_some(&mut self.inner, buffer);
        self.failed = taken.is_err();
        taken
    }
}

impl<T: Write> Sink for Device<T> {
    ghost contents = { λ d. T.contents d.inner };

    ghost failed = { λ d. d.failed };

    fn put(&mut self, bytes: &[u8]) -> Result<usize, Failed> {
        if self.failed {
            return Err(Failed);
        }
        let written = write_some(&mut self.inner, bytes);
        self.failed = written.is_err();
        written
    }
}

/// One read, made again where it was interrupted.
fn read_some<T: Read>(reader: &mut T, buffer: &mut [u8]) -> Result<usize, Failed>
    ensures bound { IfOk result (λ n. n ≤ length buffer.new) }
    ensures moved { ReadConsumes (T.remaining reader.old) (T.remaining reader.new) result buffer.new }
{
    for _ in 0..TRIES {
        match reader.read(buffer) {
            Ok(count) => return Ok(count),
            Err(error) if error.kind() == ErrorKind::Interrupted => {}
            Err(_) => return Err(Failed),
        }
    }
    Err(Failed)
}

/// One write, made again where it was interrupted. A writer that takes no byte of some has failed.
fn write_some<T: Write>(writer: &mut T, bytes: &[u8]) -> Result<usize, Failed>
    ensures bound { IfOk result (λ n. n ≤ length bytes.now) }
    ensures some { IfOk result (λ n. 0 < length bytes.now → 0 < n) }
    ensures moved { WriteAppends (T.contents writer.old) (T.contents writer.new) result bytes.now }
{
    if bytes.is_empty() {
        return Ok(0);
    }
    for _ in 0..TRIES {
        match writer.write(bytes) {
            Ok(0) => return Err(Failed),
            Ok(count) => return Ok(count),
            Err(error) if error.kind() == ErrorKind::Interrupted => {}
            Err(_) => return Err(Failed),
        }
    }
    Err(Failed)
}

/// Writes all of `bytes`. `Failed` leaves some first bytes of them written.
pub fn put_all<W: Sink>(sink: &mut W, bytes: &[u8]) -> Result<(), Failed>
    ensures written { MatchResult result
        (λ _. Appends (W.contents sink.old) (W.contents sink.new) bytes.now)
        (λ _. AppendsPrefix (W.contents sink.old) (W.contents sink.new) bytes.now) }
    ensures mark { Marks (W.failed sink.old) (W.failed sink.new) result }
{
    let mut rest = bytes;
    loop {
        let count = sink.put(rest)?;
        rest = &rest[count..];
        if rest.is_empty() {
            return Ok(());
        }
    }
}

/// Fills `buffer` with the next bytes, and answers how many there were: fewer than it holds only at the end. `Failed`
/// leaves those that were taken at its front.
pub fn take_all<R: Source>(source: &mut R, buffer: &mut [u8]) -> Result<usize, Failed>
    ensures bound { IfOk result (λ n. n ≤ length buffer.new) }
    ensures taken { MatchResult result
        (λ n. Consumes (R.remaining source.old) (R.remaining source.new) (take n buffer.new))
        (λ _. ConsumesPrefix (R.remaining source.old) (R.remaining source.new) buffer.new) }
    ensures end { IfOk result (λ n. n < length buffer.new → IsAtEnd (R.remaining source.new)) }
    ensures mark { Marks (R.failed source.old) (R.failed source.new) result }
{
    let mut filled = 0;
    loop {
        let count = source.take(&mut buffer[filled..])?;
        filled += count;
        if count == 0 || filled == buffer.len() {
            return Ok(filled);
        }
    }
}
