//! The program over memory: its statuses, and what it tells.
use crate::tests::devices::{Kept, Pieces};
use pli_base::Device;
use pli_bench::{ArgumentsError, go, refuse, serve};
use std::alloc::Global;
use std::io::Cursor;
use std::process::Abort;
use std::test::*;

/// A member typed, built and run.
const PROGRAM: &str = "ADD M SOURCE\nINSERT M 0 M: PROC OPTIONS(MAIN); ; END;\nBUILD\nRUN\n";

/// What the program is answered.
const ANSWERS: &[u8] = b"OK\nOK\nBUILT\nENDED\n";

/// A word of the command line.
fn word(rt: &impl Abort, alloc: Global, text: &str) -> String {
    String::from_str(alloc, text).expect(rt, "memory")
}

/// Words of the command line, after the program's name, which is an option here.
fn words_of(rt: &impl Abort, alloc: Global, words: &[&str]) -> Vec<String> {
    let mut given = Vec::new(alloc);
    given.push(word(rt, alloc, "--steps")).expect(rt, "memory");
    for text in words {
        given.push(word(rt, alloc, text)).expect(rt, "memory");
    }
    given
}

/// What `go` answers for words after the program's name and an input: its status, what it writes, and what it tells.
fn ran(rt: &impl Abort, alloc: Global, words: &[&str], input: &str) -> (u8, Vec<u8>, Vec<u8>) {
    let given = words_of(rt, alloc, words);
    let mut reader = Device::over(Cursor::new(input.as_bytes()));
    let mut writer = Device::over(Vec::new(alloc));
    let mut errors = Device::over(Vec::new(alloc));
    let status = go(alloc, &given, &mut reader, &mut writer, &mut errors);
    (status, writer.into_inner(), errors.into_inner())
}

/// Wrong words with the text that tells what is wrong with them, and the word that asks for help with the help.
static WRONG: [(&[&str], &str); 6] = [
    (
        &["--steps", "x"],
        "error: invalid value 'x' for '--steps <N>': invalid digit found in string\n\nFor more information, try '--help'.\n",
    ),
    (
        &["--steps=1000000000000000000"],
        "error: invalid value '1000000000000000000' for '--steps <N>': 1000000000000000000 is not in 0..=999999999999999999\n\nFor more information, try '--help'.\n",
    ),
    (
        &["--steps"],
        "error: a value is required for '--steps <N>' but none was supplied\n\nFor more information, try '--help'.\n",
    ),
    (
        &["--steps", "-1"],
        "error: unexpected argument '-1' found\n\nUsage: pliwb [OPTIONS]\n\nFor more information, try '--help'.\n",
    ),
    (
        &["FILE", "FILE"],
        "error: unexpected argument 'FILE' found\n\nUsage: pliwb [OPTIONS]\n\nFor more information, try '--help'.\n",
    ),
    (
        &["--help"],
        "The workbench: commands from standard input, answers to standard output\n\nUsage: pliwb [OPTIONS]\n\nOptions:\n      --steps <N>  The steps of a bare RUN [default: 1000000]\n  -h, --help       Print help\n",
    ),
];

/// Whether `go` answers so for words after the program's name.
fn runs_so(
    rt: &impl Abort,
    alloc: Global,
    words: &[&str],
    status: u8,
    answers: &[u8],
    told: &[u8],
) -> bool {
    let (found, text, errors) = ran(rt, alloc, words, PROGRAM);
    found == status && text.as_slice() == answers && errors.as_slice() == told
}

#[test]
fn statuses(rt: HostRuntime) {
    let alloc = rt.alloc();
    assert!(rt; runs_so(&rt, alloc, &[], 0, ANSWERS, b""));
    let cut = b"OK\nOK\nBUILT\nOUT OF STEPS\n";
    assert!(rt; runs_so(&rt, alloc, &["--steps", "1"], 0, cut, b""));
    for &(words, wanted) in &WRONG {
        assert!(rt;
            runs_so(&rt, alloc, words, 2, b"", wanted.as_bytes()),
            "{wanted}"
        );
    }
}

/// A reader of the program, which moves a few bytes so many times.
fn reader_of(calls: u32) -> Pieces<'static> {
    Pieces {
        left: PROGRAM.as_bytes(),
        piece: 30,
        calls,
        failed: false,
    }
}

/// Whether the program ends with a status where the devices fail after so many calls, gives a front of its answers, and
/// tells nothing.
fn ends_so(alloc: Global, takes: u32, puts: u32, status: u8) -> bool {
    let mut reader = reader_of(takes);
    let mut writer = Kept::new(alloc, puts);
    let mut errors = Kept::new(alloc, 99);
    let words: Vec<String> = Vec::new(alloc);
    let found = go(alloc, &words, &mut reader, &mut writer, &mut errors);
    let is_whole = writer.bytes.len() == ANSWERS.len();
    found == status
        && errors.bytes.is_empty()
        && ANSWERS.starts_with(writer.bytes.as_slice())
        && (status != 0 || is_whole)
}

#[test]
fn failing_devices(rt: HostRuntime) {
    for calls in 0..4u32 {
        assert!(rt; ends_so(rt.alloc(), calls, 99, 1), "take {calls}");
        assert!(rt; ends_so(rt.alloc(), 99, calls, 1), "put {calls}");
    }
    assert!(rt; ends_so(rt.alloc(), 4, 9, 0));
}

/// The status where at most so many reads are made.
fn served_within(alloc: Global, reads: u64) -> u8 {
    let mut writer = Kept::new(alloc, 99);
    serve(alloc, 9, &mut reader_of(99), &mut writer, reads)
}

#[test]
fn too_many_reads(rt: HostRuntime) {
    for (reads, wanted) in [(0, 1), (1, 1), (3, 1), (4, 0)] {
        assert!(rt; served_within(rt.alloc(), reads) == wanted, "{reads} reads");
    }
}

/// Whether refused memory and wrong words have their statuses, and nothing is told where that fails.
fn are_refused(alloc: Global) -> bool {
    let mut errors = Kept::new(alloc, 9);
    let usage = ArgumentsError::Usage(String::new(alloc));
    refuse(ArgumentsError::OutOfMemory, &mut errors) == 3
        && errors.bytes.is_empty()
        && refuse(usage, &mut Kept::new(alloc, 0)) == 2
}

#[test]
fn want_of_memory(rt: HostRuntime) {
    assert!(rt; are_refused(rt.alloc()));
}
