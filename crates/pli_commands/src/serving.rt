//! The loop over a stream of command lines.
ghost use Rattle.std.specs.Prelude.{◌≡◌, ◌+◌, ◌*◌, ◌<◌, ◌≤◌, ℕ, List, Bool, false, length, take, ◌≢◌, Ok, Err};
ghost use Rattle.pli_commands.specs.Commands.{line_limit};
ghost use Rattle.pli_commands.specs.answers.Kept.{kept_limit};
ghost use Rattle.pli_commands.specs.Exchanges.{Exchange, exchange, span};
ghost use Rattle.pli_commands.specs.Lines.{without_return, complete_from, pending_from, last_line};
ghost use Rattle.pli_commands.specs.Runs.{AnsweredOne, Answered, Served, QuitsWithin, Takes, Marked, Blames};
ghost use Rattle.pli_commands.specs.Runs.{piece_limit};
ghost use Rattle.pli_commands.specs.declared.serving.AfterCommand.TheVariants.{Go, Quit, End};
ghost use Rattle.pli_commands.specs.declared.serving.ServeFault.TheVariants.{TooManyReads};

use crate::pending::Pending;
use pli_base::{Failed, Sink, Source};
use thiserror::Error;

/// How many bytes are taken in one piece (own).
const PIECE: usize = 4096;

/// What follows a command, or how the commands ended.
#[derive(Clone, Copy, Debug, PartialEq, Eq)]
pub enum AfterCommand {
    /// More commands may come.
    Go,
    /// The command was QUIT.
    Quit,
    /// There are no more commands.
    End,
}

/// The writer failed.
#[derive(Clone, Copy, Debug, PartialEq, Eq, Error)]
#[error("a write failed")]
pub struct WriteFailed;

/// Why the commands of a reader were not all answered.
#[derive(Clone, Copy, Debug, PartialEq, Eq, Error)]
pub enum ServeFault {
    /// The reader failed.
    #[error("a read failed")]
    ReadFailed,
    /// So many reads were not enough to come to the end.
    #[error("too many reads")]
    TooManyReads,
    /// The writer failed.
    #[error("a write failed")]
    WriteFailed,
}

impl From<Failed> for WriteFailed {
    fn from(_error: Failed) -> WriteFailed {
        WriteFailed
    }
}

impl From<WriteFailed> for ServeFault {
    ghost use Rattle.std.specs.Prelude.{◌≡◌};
    ghost use Rattle.pli_commands.specs.declared.serving.ServeFault.TheVariants as faults;

    ghost from_gives = { λ _ e. e ≡ faults.WriteFailed };

    fn from(_error: WriteFailed) -> ServeFault {
        ServeFault::WriteFailed
    }
}

/// What answers commands.
pub trait Interpreter {
    /// A line may be answered so.
    ghost steps: { List ℕ → Exchange Self → Type 0 };

    /// Whether a line ends the session.
    ghost quits: { List ℕ → Bool };

    /// Answers the command on a line, which has no line end.
    fn command<W: Sink>(&mut self, line: &[u8], writer: &mut W) -> Result<AfterCommand, WriteFailed>
        ensures answered { AnsweredOne steps quits line.now (span self.old self.new)
            (span (W.contents writer.old) (W.contents writer.new)) result }
        ensures mark { Marked (W.failed writer.old) (W.failed writer.new) result };

    /// Lines that are too long for a command are answered alike.
    ghost too_long: { (s t : Self) (line other answer : List ℕ)
        → line_limit < length line → line_limit < length other
        → steps line (exchange s answer t) → steps other (exchange s answer t) };

    /// None of them ends the session.
    ghost too_long_goes: { (line : List ℕ) → line_limit < length line → quits line ≡ false };
}

/// Answers the lines of `reader` on `writer`, up to the first that quits or to the end. A line ends with a line feed,
/// and a carriage return before it is dropped; a last line without a line feed counts where it is not empty (own).
/// Bytes are asked for at most `reads` times: where that does not come to the end, it is `TooManyReads`, which an input
/// of fewer bytes than `reads` never is. Where the reader failed or was asked too often, the lines that ended in what
/// was taken were answered; where the writer failed, the state is the one after the command whose answer it failed in.
pub fn serve<T: Interpreter, R: Source, W: Sink>(
    bench: &mut T,
    reader: &mut R,
    writer: &mut W,
    reads: u64,
) -> Result<AfterCommand, ServeFault>
    ensures served { Served T.steps T.quits (record {
      state = span bench.old bench.new;
      reader = span (R.remaining reader.old) (R.remaining reader.new);
      writer = span (W.contents writer.old) (W.contents writer.new);
      reads = reads;
    }) result }
    ensures blamed { Blames result (R.failed reader.new) (W.failed writer.new) }
    ensures few { Takes T.quits piece_limit (record {
      state = span bench.old bench.new;
      reader = span (R.remaining reader.old) (R.remaining reader.new);
      writer = span (W.contents writer.old) (W.contents writer.new);
      reads = reads;
    }) result }
    ensures unread { reads ≡ 0 → result ≡ Err TooManyReads }
    ensures takes { R.takes reader.new ≤ R.takes reader.old + reads }
{
    let mut buffer = [0; PIECE];
    serve_pieces(bench, reader, writer, reads, &mut buffer)
}

/// The text before a line feed, without the carriage return at its end.
fn without_return(text: &[u8]) -> &[u8]
    ensures { result.now ≡ without_return text.now }
{
    let Some((last, front)) = text.split_last() else {
        return text;
    };
    if *last == b'\r' { front } else { text }
}

/// Answers the lines that end in `piece`, where the first of them begins with what is kept in `line`; then `line` keeps
/// what has begun after them.
fn answer_piece<T: Interpreter, W: Sink>(
    bench: &mut T,
    line: &mut Pending,
    piece: &[u8],
    writer: &mut W,
) -> Result<AfterCommand, WriteFailed>
    ensures answered { (begun : List ℕ) → line.old ≡ take kept_limit begun
        → Answered T.steps T.quits (complete_from begun piece.now) (span bench.old bench.new)
        (span (W.contents writer.old) (W.contents writer.new)) result }
    ensures kept { (begun : List ℕ) → line.old ≡ take kept_limit begun → result ≡ Ok End
        → line.new ≡ take kept_limit (pending_from begun piece.now) }
    ensures quit { (begun : List ℕ) → line.old ≡ take kept_limit begun → result ≡ Ok Quit
        → QuitsWithin T.quits (length piece.now) begun piece.now }
    ensures stops { result ≢ Ok Go }
    ensures mark { Marked (W.failed writer.old) (W.failed writer.new) result }
{
    for byte in piece {
        if *byte == b'\n' {
            if let AfterCommand::Quit = bench.command(without_return(line.bytes()), writer)? {
                return Ok(AfterCommand::Quit);
            }
            line.clear();
        } else {
            line.push(*byte);
        }
    }
    Ok(AfterCommand::End)
}

/// Answers the last line, which no line feed ends, where it is not empty.
fn answer_last<T: Interpreter, W: Sink>(
    bench: &mut T,
    line: &[u8],
    writer: &mut W,
) -> Result<AfterCommand, WriteFailed>
    ensures answered { (begun : List ℕ) → line.now ≡ take kept_limit begun
        → Answered T.steps T.quits (last_line begun) (span bench.old bench.new)
        (span (W.contents writer.old) (W.contents writer.new)) result }
    ensures mark { Marked (W.failed writer.old) (W.failed writer.new) result }
{
    if line.is_empty() {
        return Ok(AfterCommand::End);
    }
    if let AfterCommand::Quit = bench.command(line, writer)? {
        return Ok(AfterCommand::Quit);
    }
    Ok(AfterCommand::End)
}

/// As `serve`, in pieces of at most as many bytes as `buffer` has.
fn serve_pieces<T: Interpreter, R: Source, W: Sink>(
    bench: &mut T,
    reader: &mut R,
    writer: &mut W,
    reads: u64,
    buffer: &mut [u8],
) -> Result<AfterCommand, ServeFault>
    requires { 0 < length buffer.old }
    ensures served { Served T.steps T.quits (record {
      state = span bench.old bench.new;
      reader = span (R.remaining reader.old) (R.remaining reader.new);
      writer = span (W.contents writer.old) (W.contents writer.new);
      reads = reads;
    }) result }
    ensures blamed { Blames result (R.failed reader.new) (W.failed writer.new) }
    ensures few { Takes T.quits (length buffer.old) (record {
      state = span bench.old bench.new;
      reader = span (R.remaining reader.old) (R.remaining reader.new);
      writer = span (W.contents writer.old) (W.contents writer.new);
      reads = reads;
    }) result }
    ensures unread { reads ≡ 0 → result ≡ Err TooManyReads }
    ensures takes { R.takes reader.new ≤ R.takes reader.old + reads }
{
    let mut line = Pending::new();
    for _read in 0..reads {
        let Ok(count) = reader.take(buffer) else {
            return Err(ServeFault::ReadFailed);
        };
        if count == 0 {
            return Ok(answer_last(bench, line.bytes(), writer)?);
        }
        if let AfterCommand::Quit = answer_piece(bench, &mut line, &buffer[..count], writer)? {
            return Ok(AfterCommand::Quit);
        }
    }
    Err(ServeFault::TooManyReads)
}
