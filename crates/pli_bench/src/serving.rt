//! The program over any reader and writers.
ghost use Rattle.std.specs.Prelude.{◌≡◌, ◌≢◌, ◌≤◌, ◌<◌, ◌+◌, ℕ, drop, map};
ghost use Rattle.std.specs.String.{string_bytes};
ghost use Rattle.pli_bench.specs.CommandLine.{Gives};
ghost use Rattle.pli_bench.specs.Statuses.{EndsServed, BreaksOff, devices, Refused, Tells, status_of};
ghost use Rattle.pli_bench.specs.Statuses.{reads_limit};

use crate::arguments::{ArgumentsError, read_arguments};
use crate::bench::Bench;
use pli_base::{Sink, Source, put_all};
use std::alloc::Global;

/// The greatest number of reads (own).
const READS: u64 = 1_000_000_000;

/// The status where the commands ended, or one was QUIT.
const SERVED: u8 = 0;
/// The status where a read or a write failed, or there were too many reads.
const DEVICE_FAILED: u8 = 1;
/// The status of a wrong command line, and of `--help`.
const USAGE: u8 = 2;
/// The status where memory was refused while the command line was read.
const OUT_OF_MEMORY: u8 = 3;

/// Serves `reader` to `writer` with a new workbench, and answers the status.
pub fn serve<R: Source, W: Sink>(
    alloc: Global,
    steps: u64,
    reader: &mut R,
    writer: &mut W,
    reads: u64,
) -> u8
    ensures answered { result ≡ 0 → EndsServed steps reads (devices (R.remaining reader.old) (R.remaining reader.new)
        (W.contents writer.old) (W.contents writer.new) (R.failed reader.new) (W.failed writer.new)) }
    ensures broke { result ≡ 1 → BreaksOff steps reads (devices (R.remaining reader.old) (R.remaining reader.new)
        (W.contents writer.old) (W.contents writer.new) (R.failed reader.new) (W.failed writer.new)) }
    ensures range { result ≤ 1 }
    ensures takes { R.takes reader.new ≤ R.takes reader.old + reads }
{
    match Bench::new(alloc, steps).serve(reader, writer, reads) {
        Ok(_) => SERVED,
        Err(_) => DEVICE_FAILED,
    }
}

/// The status where the words say nothing. The text for the user goes to `errors`, whose failure changes no status.
pub fn refuse<F: Sink>(error: ArgumentsError, errors: &mut F) -> u8
    ensures status { result ≡ status_of error }
    ensures told { Tells error (F.contents errors.old) (F.contents errors.new) (F.failed errors.new) }
    ensures silent { result ≢ 2 → errors.new ≡ errors.old }
{
    match error {
        ArgumentsError::Usage(text) => {
            let _ = put_all(errors, text.as_bytes());
            USAGE
        }
        ArgumentsError::OutOfMemory => OUT_OF_MEMORY,
    }
}

/// The words after the program's name, which is the first.
fn words_after_name(words: &[String]) -> &[String]
    ensures { result.now ≡ drop 1 words.now }
{
    words.get(1..).unwrap_or(&[])
}

/// Reads the words, of which the first is the program's name, serves `reader` to `writer`, and answers the status
/// (own).
/// `errors` takes the text of status 2 alone, and its failure changes no status.
pub fn go<R: Source, W: Sink, F: Sink>(
    alloc: Global,
    words: &[String],
    reader: &mut R,
    writer: &mut W,
    errors: &mut F,
) -> u8
    ensures answered { result ≡ 0 → (steps : ℕ) × Gives (map string_bytes (drop 1 words.now)) steps
        × EndsServed steps reads_limit (devices (R.remaining reader.old) (R.remaining reader.new)
        (W.contents writer.old) (W.contents writer.new) (R.failed reader.new) (W.failed writer.new)) }
    ensures broke { result ≡ 1 → (steps : ℕ) × Gives (map string_bytes (drop 1 words.now)) steps
        × BreaksOff steps reads_limit (devices (R.remaining reader.old) (R.remaining reader.new)
        (W.contents writer.old) (W.contents writer.new) (R.failed reader.new) (W.failed writer.new)) }
    ensures refused { 1 < result → Refused (map string_bytes (drop 1 words.now)) result
        (F.contents errors.old) (F.contents errors.new) (F.failed errors.new) }
    ensures unserved { 1 < result → (reader.new ≡ reader.old) × (writer.new ≡ writer.old) }
    ensures silent { result ≢ 2 → errors.new ≡ errors.old }
    ensures range { result ≤ 3 }
    ensures takes { R.takes reader.new ≤ R.takes reader.old + reads_limit }
{
    match read_arguments(alloc, words_after_name(words)) {
        Ok(arguments) => serve(alloc, arguments.steps, reader, writer, READS),
        Err(error) => refuse(error, errors),
    }
}
