//! Texts of several parts, put one after another.
ghost use Rattle.std.specs.Prelude.{MatchResult, map};
ghost use Rattle.std.specs.Io.KnownBytes.{Appends};
ghost use Rattle.pli_base.specs.Devices.{AppendsPrefix};
ghost use Rattle.pli_commands.specs.answers.Answering.{joined, Writes};
ghost use Rattle.pli_commands.specs.Runs.{Marked};
ghost use Rattle.pli_commands.specs.AnswerLines.{ending_line, refused};

use itoa::Buffer;
use pli_base::{Failed, Sink, put_all};
use pli_members::Refusal;
use pli_run::Ending;

/// Puts the parts, one after another.
pub fn put_parts<W: Sink>(writer: &mut W, parts: &[&[u8]]) -> Result<(), Failed>
    ensures written { Writes (W.contents writer.old) (W.contents writer.new)
        (joined (map (λ p. p.now) parts.now)) result }
    ensures mark { Marked (W.failed writer.old) (W.failed writer.new) result }
{
    for part in parts {
        put_all(writer, part)?;
    }
    Ok(())
}

/// Puts the line that says how a run ended.
pub fn put_ending<W: Sink>(writer: &mut W, ending: Ending) -> Result<(), Failed>
    ensures written { Writes (W.contents writer.old) (W.contents writer.new) (ending_line ending) result }
    ensures mark { Marked (W.failed writer.old) (W.failed writer.new) result }
{
    match ending {
        Ending::Ended => put_parts(writer, &[b"ENDED\n"]),
        Ending::OutOfSteps => put_parts(writer, &[b"OUT OF STEPS\n"]),
        Ending::MachineFault => put_parts(writer, &[b"MACHINE FAULT\n"]),
        Ending::Error {
            error,
            unit,
            statement,
        } => {
            let mut digits = Buffer::new();
            put_parts(
                writer,
                &[
                    b"ERROR ",
                    error.label().as_bytes(),
                    b" ",
                    error.text().as_bytes(),
                    b" ",
                    unit.bytes(),
                    b" ",
                    digits.format(statement).as_bytes(),
                    b"\n",
                ],
            )
        }
    }
}

/// Puts the line of a refusal.
pub fn put_refusal<W: Sink>(writer: &mut W, refusal: Refusal) -> Result<(), Failed>
    ensures written { Writes (W.contents writer.old) (W.contents writer.new) (refused refusal) result }
    ensures mark { Marked (W.failed writer.old) (W.failed writer.new) result }
{
    put_parts(
        writer,
        &[
            refusal.label().as_bytes(),
            b" ",
            refusal.text().as_bytes(),
            b"\n",
        ],
    )
}
