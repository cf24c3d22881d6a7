//! What DUMP shows.
ghost use Rattle.std.specs.Prelude.{◌≡◌, ◌<◌, [], ◌++◌};
ghost use Rattle.pli_commands.specs.answers.Answering.{Writes};
ghost use Rattle.pli_commands.specs.answers.Batches.{Passes};
ghost use Rattle.pli_commands.specs.Dumps.{digit_of, digits_of, end_at, next_column, hex_from};
ghost use Rattle.pli_commands.specs.Runs.{Marked};
ghost use Rattle.pli_commands.specs.AnswerLines.{okay};

use crate::answer::put_parts;
use crate::batch::Batch;
use pli_base::{Failed, Sink};

/// A digit in base 16, in lower case.
fn digit_of(digit: u8) -> u8
    requires { digit < 16 }
    ensures { result ≡ digit_of digit }
{
    if digit < 10 { 48 + digit } else { 87 + digit }
}

/// The line feed after the last byte of a line.
fn end_at(column: u8) -> &'static [u8]
    ensures { result.now ≡ end_at column }
{
    if column == 31 { b"\n" } else { b"" }
}

/// The line feed after the last byte of all, unless it has ended a line.
fn last_end(column: u8) -> &'static [u8]
    ensures { result.now ≡ hex_from column [] }
{
    if column == 0 { b"" } else { b"\n" }
}

/// The column of the next byte.
fn next_column(column: u8) -> u8
    requires { column < 32 }
    ensures value { result ≡ next_column column }
    ensures within { result < 32 }
{
    if column == 31 { 0 } else { column + 1 }
}

/// Adds a byte, and the line feed after it where it is the last of a line.
fn add_byte<W: Sink>(batch: &mut Batch, writer: &mut W, byte: u8, column: u8) -> Result<(), Failed>
    ensures passed { Passes (W.contents writer.old) (W.contents writer.new)
        (batch.old ++ (digits_of byte ++ end_at column)) batch.new result }
    ensures mark { Marked (W.failed writer.old) (W.failed writer.new) result }
{
    let digits = [digit_of(byte / 16), digit_of(byte % 16)];
    batch.add_parts(writer, &[digits.as_slice(), end_at(column)])
}

/// Puts bytes, each as two digits in base 16, 32 to a line.
fn put_hex<W: Sink>(writer: &mut W, bytes: &[u8]) -> Result<(), Failed>
    ensures written { Writes (W.contents writer.old) (W.contents writer.new) (hex_from 0 bytes.now) result }
    ensures mark { Marked (W.failed writer.old) (W.failed writer.new) result }
{
    let mut batch = Batch::new();
    let mut column = 0;
    for byte in bytes {
        add_byte(&mut batch, writer, *byte, column)?;
        column = next_column(column);
    }
    batch.add(writer, last_end(column))?;
    batch.put(writer)
}

/// Puts the answer that shows bytes.
pub fn put_dump<W: Sink>(writer: &mut W, bytes: &[u8]) -> Result<(), Failed>
    ensures written { Writes (W.contents writer.old) (W.contents writer.new) (hex_from 0 bytes.now ++ okay) result }
    ensures mark { Marked (W.failed writer.old) (W.failed writer.new) result }
{
    put_hex(writer, bytes)?;
    put_parts(writer, &[b"OK\n"])
}
