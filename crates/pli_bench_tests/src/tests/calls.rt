//! Calls of the system that are interrupted, give nothing or fail.
ghost use Rattle.std.specs.Prelude.{None};

use crate::tests::at_row;
use crate::tests::devices::fill;
use pli_base::{Device, Failed, Sink, Source};
use pli_bench::{AfterCommand, Bench, ServeFault};
use std::alloc::Global;
use std::io::{self, ErrorKind, Read, Write};
use std::test::*;

/// What a call comes to.
#[derive(Clone, Copy)]
enum Outcome {
    /// It moves as many of these bytes as there is room for.
    Moves(&'static [u8]),
    Interrupted,
    Refused,
}

/// Nothing is moved.
const NOTHING: Outcome = Outcome::Moves(b"");

/// A reader and a writer whose calls come to these outcomes, one after another, and then to nothing.
#[derive(Drop)]
struct Scripted {
    outcomes: &'static [Outcome],
    calls: usize,
}

impl Scripted {
    fn new(outcomes: &'static [Outcome]) -> Scripted {
        Scripted { outcomes, calls: 0 }
    }

    /// The outcome of the next call.
    fn next(&mut self) -> io::Result<&'static [u8]> {
        let outcome = self.outcomes.get(self.calls).copied().unwrap_or(NOTHING);
        self.calls = self.calls.saturating_add(1);
        match outcome {
            Outcome::Moves(bytes) => Ok(bytes),
            Outcome::Interrupted => Err(io::Error::from(ErrorKind::Interrupted)),
            Outcome::Refused => Err(io::Error::from(ErrorKind::PermissionDenied)),
        }
    }
}

impl Read for Scripted {
    fn read(&mut self, buffer: &mut [u8]) -> io::Result<usize> {
        let bytes = self.next()?;
        Ok(fill(buffer, bytes, bytes.len()))
    }
}

impl Write for Scripted {
    fn write(&mut self, bytes: &[u8]) -> io::Result<usize> {
        let taken = self.next()?;
        Ok(taken.len().min(bytes.len()))
    }

    fn flush(&mut self) -> io::Result<()> {
        Ok(())
    }
}

/// Outcomes of calls, with what one read of a device answers and one write, and how many calls are made.
static CALLS: [(&[Outcome], Option<usize>, Option<usize>, usize); 7] = [
    (&[Outcome::Moves(b"AB")], Some(2), Some(2), 1),
    (
        &[
            Outcome::Interrupted,
            Outcome::Interrupted,
            Outcome::Moves(b"AB"),
        ],
        Some(2),
        Some(2),
        3,
    ),
    (
        &[
            Outcome::Interrupted,
            Outcome::Interrupted,
            NOTHING,
            Outcome::Moves(b"AB"),
        ],
        Some(0),
        None,
        3,
    ),
    (
        &[
            Outcome::Interrupted,
            Outcome::Interrupted,
            Outcome::Refused,
            Outcome::Moves(b"AB"),
        ],
        None,
        None,
        3,
    ),
    (&[NOTHING, Outcome::Moves(b"AB")], Some(0), None, 1),
    (&[Outcome::Refused, Outcome::Moves(b"AB")], None, None, 1),
    (&[Outcome::Interrupted; 64], None, None, 64),
];

/// Whether one read moves this, and so many calls are made; and a second one fails where the first did.
fn reads_so(outcomes: &'static [Outcome], read: Option<usize>, calls: usize) -> bool {
    let mut reader = Device::over(Scripted::new(outcomes));
    let mut buffer = [0; 9];
    let moved = reader.take(&mut buffer).ok() == read;
    let again = read.is_some() || reader.take(&mut buffer) == Err(Failed);
    moved && again && reader.into_inner().calls == calls
}

/// Whether one write moves this, and so many calls are made; and a second one fails where the first did.
fn writes_so(outcomes: &'static [Outcome], written: Option<usize>, calls: usize) -> bool {
    let mut writer = Device::over(Scripted::new(outcomes));
    let moved = writer.put(b"12345").ok() == written;
    let again = written.is_some() || writer.put(b"12345") == Err(Failed);
    moved && again && writer.into_inner().calls == calls
}

#[test]
fn one_read_and_one_write(rt: HostRuntime) {
    for row in 0..CALLS.len() {
        let (outcomes, read, written, calls) = CALLS[row];
        at_row(&rt, row, reads_so(outcomes, read, calls));
        at_row(&rt, row, writes_so(outcomes, written, calls));
    }
}

/// Outcomes of reads, with what serving them answers, what is written, and how many calls are made.
static SERVED: [(&[Outcome], Result<AfterCommand, ServeFault>, &[u8], usize); 4] = [
    (
        &[
            Outcome::Interrupted,
            Outcome::Interrupted,
            Outcome::Moves(b"ADD M SOURCE\nMEM"),
            Outcome::Interrupted,
            Outcome::Moves(b"BERS\nRUN"),
            NOTHING,
            Outcome::Moves(b"RUN\n"),
        ],
        Ok(AfterCommand::End),
        b"OK\nM SOURCE 0\nOK\nB2 NOT BUILT\n",
        6,
    ),
    (
        &[
            Outcome::Moves(b"RUN\nQU"),
            Outcome::Moves(b"IT\nRUN\n"),
            Outcome::Moves(b"RUN\n"),
        ],
        Ok(AfterCommand::Quit),
        b"B2 NOT BUILT\nOK\n",
        2,
    ),
    (
        &[Outcome::Moves(b"QUIT"), NOTHING, Outcome::Moves(b"\nRUN\n")],
        Ok(AfterCommand::Quit),
        b"OK\n",
        2,
    ),
    (
        &[
            Outcome::Moves(b"RUN\nRUN"),
            Outcome::Interrupted,
            Outcome::Refused,
            Outcome::Moves(b"\n"),
        ],
        Err(ServeFault::ReadFailed),
        b"B2 NOT BUILT\n",
        3,
    ),
];

/// Whether a new workbench serves so, with these answers, and so many calls are made.
fn serves_so(
    alloc: Global,
    outcomes: &'static [Outcome],
    wanted: Result<AfterCommand, ServeFault>,
    answers: &[u8],
    calls: usize,
) -> bool {
    let mut bench = Bench::new(alloc, 1_000_000);
    let mut reader = Device::over(Scripted::new(outcomes));
    let mut writer = Device::over(Vec::new(alloc));
    let served = bench.serve(&mut reader, &mut writer, 99) == wanted;
    let answered = writer.into_inner().as_slice() == answers;
    served && answered && reader.into_inner().calls == calls
}

#[test]
fn no_read_too_many(rt: HostRuntime) {
    for row in 0..SERVED.len() {
        let (outcomes, wanted, answers, calls) = SERVED[row];
        at_row(
            &rt,
            row,
            serves_so(rt.alloc(), outcomes, wanted, answers, calls),
        );
    }
}
