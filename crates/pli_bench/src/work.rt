//! What LEDGER shows.
ghost use Rattle.pli_commands.specs.answers.Answering.{Writes};
ghost use Rattle.pli_commands.specs.Runs.{Marked};
ghost use Rattle.pli_bench.specs.Session.{work_line};

use itoa::Buffer;
use pli_base::{Failed, Sink};
use pli_commands::put_parts;
use pli_ledger::Ledger;

/// Puts how many units the last build that was not refused has expanded and compiled.
pub fn put_work<W: Sink>(writer: &mut W, ledger: &Ledger) -> Result<(), Failed>
    ensures written { Writes (W.contents writer.old) (W.contents writer.new) (work_line ledger.now) result }
    ensures mark { Marked (W.failed writer.old) (W.failed writer.new) result }
{
    let mut expanded = Buffer::new();
    let mut compiled = Buffer::new();
    put_parts(
        writer,
        &[
            b"EXPANDED ",
            expanded.format(ledger.expanded_last()).as_bytes(),
            b" COMPILED ",
            compiled.format(ledger.compiled_last()).as_bytes(),
            b"\n",
        ],
    )
}
