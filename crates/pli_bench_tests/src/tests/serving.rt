//! Sessions over devices that fail, move pieces, or look at each other.
use crate::tests::devices::{Asking, Kept, Pieces, Told, Turn};
use pli_bench::{AfterCommand, Bench, ServeFault};
use std::alloc::Global;
use std::cell::Cell;
use std::process::Abort;
use std::test::*;

/// A session with its answers.
type Row = (&'static [u8], &'static [u8]);

/// `X = 2 + 3`, printed within three steps and not within two.
static FIRST_RUN: Row = (
    b"ADD M SOURCE\nINSERT M 0 M: PROC OPTIONS(MAIN);\nINSERT M 1 DCL X FIXED BIN(31); X = 2 + 3; PUT LIST(X);\nINSERT M 2 END M;\nBUILD\nRUN 3\nRUN 2\n",
    b"OK\nOK\nOK\nOK\nBUILT\n             5 \nENDED\nOUT OF STEPS\n",
);

/// Lists of lines and of members.
static LISTINGS: Row = (
    b"ADD M SOURCE\nINSERT M 0 X\nLIST M\nMEMBERS\n",
    b"OK\nOK\n1 X\nOK\nM SOURCE 1\nOK\n",
);

/// How many bytes a read moves at most, how many reads are made at most, and how many calls the reader and the writer
/// take before they fail.
#[derive(Clone, Copy)]
struct Limits {
    piece: usize,
    reads: u64,
    takes: u32,
    puts: u32,
}

/// Limits that no session here comes to.
const AMPLE: Limits = Limits {
    piece: 4096,
    reads: 99,
    takes: 99,
    puts: 99,
};

/// What serving a session within limits answers, and what is written.
fn served(
    alloc: Global,
    session: &[u8],
    limits: Limits,
) -> (Result<AfterCommand, ServeFault>, Vec<u8>) {
    let mut bench = Bench::new(alloc, 1_000_000);
    let mut reader = Pieces {
        left: session,
        piece: limits.piece,
        calls: limits.takes,
        failed: false,
    };
    let mut writer = Kept::new(alloc, limits.puts);
    let result = bench.serve(&mut reader, &mut writer, limits.reads);
    let Kept { bytes, .. } = writer;
    (result, bytes)
}

/// Whether a session within limits comes to this fault, and gives a front of its answers.
fn fails_so(alloc: Global, (session, wanted): Row, limits: Limits, fault: ServeFault) -> bool {
    let (result, bytes) = served(alloc, session, limits);
    result == Err(fault) && wanted.starts_with(bytes.as_slice())
}

/// Whether a session within limits comes to its end, and gives its answers.
fn ends_so(alloc: Global, (session, wanted): Row, limits: Limits) -> bool {
    let (result, bytes) = served(alloc, session, limits);
    result == Ok(AfterCommand::End) && bytes.as_slice() == wanted
}

/// How many bytes the answers to so many commands of the first run have.
static ENDS: [usize; 8] = [0, 3, 6, 9, 12, 18, 40, 53];

/// How many bytes a read of the first run moves.
const PIECE: usize = 15;

/// How many commands of the first run end within so many reads.
fn commands_within(reads: u32) -> usize {
    let (session, _) = FIRST_RUN;
    let taken = (reads as usize).saturating_mul(PIECE).min(session.len());
    session[..taken]
        .iter()
        .filter(|byte| **byte == b'\n')
        .count()
}

/// Whether the first run fails so where only so many reads succeed, and just the commands that end in them are
/// answered.
fn breaks_off(alloc: Global, calls: u32, limits: Limits, fault: ServeFault) -> bool {
    let (session, answers) = FIRST_RUN;
    let (result, bytes) = served(alloc, session, limits);
    let wanted = ENDS.get(commands_within(calls)).copied();
    result == Err(fault) && answers.starts_with(bytes.as_slice()) && wanted == Some(bytes.len())
}

/// Whether the first run breaks off so where so many calls of the reader succeed, and where so many reads are allowed.
fn breaks_off_after(alloc: Global, calls: u32) -> bool {
    let takes = Limits {
        piece: PIECE,
        takes: calls,
        ..AMPLE
    };
    let reads = Limits {
        piece: PIECE,
        reads: u64::from(calls),
        ..AMPLE
    };
    breaks_off(alloc, calls, takes, ServeFault::ReadFailed)
        && breaks_off(alloc, calls, reads, ServeFault::TooManyReads)
}

#[test]
fn failing_devices(rt: HostRuntime) {
    let alloc = rt.alloc();
    for calls in 0..11u32 {
        assert!(rt; breaks_off_after(alloc, calls));
    }
    for puts in 0..10u32 {
        let limits = Limits { puts, ..AMPLE };
        assert!(rt; fails_so(alloc, FIRST_RUN, limits, ServeFault::WriteFailed));
    }
    let limits = Limits {
        piece: 4096,
        reads: 2,
        takes: 2,
        puts: 10,
    };
    assert!(rt; ends_so(alloc, FIRST_RUN, limits));
    for puts in 0..6u32 {
        let limits = Limits { puts, ..AMPLE };
        assert!(rt; fails_so(alloc, LISTINGS, limits, ServeFault::WriteFailed));
    }
    assert!(rt; ends_so(alloc, LISTINGS, Limits { puts: 6, ..AMPLE }));
}

/// A conversation: parts of lines and two lines at once are among its turns, and the last line has no end.
static TURNS: [Turn; 11] = [
    (b"ADD M SOURCE\n", b"OK\n"),
    (b"INSERT M 0 M: PROC OPTIONS(MAIN);\r\n", b"OK\n"),
    (
        b"INSERT M 1 PUT LIST(1, 2, 3, 4, 5, 6);\nINSERT M 2 EN",
        b"OK\n",
    ),
    (b"D;\nBUILD\n", b"OK\nBUILT\n"),
    (b"RUN 1\n", b"OUT OF STEPS\n"),
    (
        b"RUN\n",
        b"   1                       2                       3                       4                       5 \n   6 \nENDED\n",
    ),
    (b"LIST", b""),
    (
        b" M\n",
        b"1 M: PROC OPTIONS(MAIN);\n2 PUT LIST(1, 2, 3, 4, 5, 6);\n3 END;\nOK\n",
    ),
    (b"REPLACE M 2 X = 1;\n", b"OK\n"),
    (b"BUILD\n", b"M M:2 A1 NOT DECLARED\nNOT BUILT\n"),
    (b"RUN", b""),
];

/// The answers to all turns, and to the last line.
fn of_turns(rt: &impl Abort, alloc: Global) -> Vec<u8> {
    let mut wanted = Vec::new(alloc);
    for (_, answers) in &TURNS {
        wanted.extend_from_slice(answers).expect(rt, "memory");
    }
    wanted
        .extend_from_slice(b"B2 NOT BUILT\n")
        .expect(rt, "memory");
    wanted
}

#[test]
fn answers_before_more_is_read(rt: HostRuntime) {
    let wanted = of_turns(&rt, rt.alloc());
    let written = Cell::new(0);
    let mut reader = Asking::new(&TURNS, &written);
    let mut writer = Told::new(rt.alloc(), &written);
    let mut bench = Bench::new(rt.alloc(), 1_000_000);
    let result = bench.serve(&mut reader, &mut writer, 99);
    assert!(rt; result == Ok(AfterCommand::End) && writer.bytes.as_slice() == wanted.as_slice());
}
