//! What LIST and MEMBERS show.
ghost use Rattle.std.specs.Prelude.{◌≡◌};
ghost use Rattle.std.specs.List.{flat_map};
ghost use Rattle.pli_commands.specs.answers.Answering.{Writes};
ghost use Rattle.pli_commands.specs.Runs.{Marked};
ghost use Rattle.pli_commands.specs.AnswerLines.{numbered_lines, kind_word, member_line};

use crate::batch::Batch;
use itoa::Buffer;
use pli_base::{Failed, Line, Sink};
use pli_members::{MemberKind, NamedMember};

/// Puts lines after their numbers, from 1 on.
pub fn put_lines<W: Sink>(writer: &mut W, lines: &[Line]) -> Result<(), Failed>
    ensures written { Writes (W.contents writer.old) (W.contents writer.new) (numbered_lines 1 lines.now) result }
    ensures mark { Marked (W.failed writer.old) (W.failed writer.new) result }
{
    let mut batch = Batch::new();
    for (place, line) in lines.iter().enumerate() {
        let mut digits = Buffer::new();
        batch.add_parts(
            writer,
            &[
                digits.format(place + 1).as_bytes(),
                b" ",
                line.text(),
                b"\n",
            ],
        )?;
    }
    batch.put(writer)
}

/// Puts a line for each member: its name, its kind and how many lines it has.
pub fn put_members<W: Sink>(writer: &mut W, entries: &[NamedMember]) -> Result<(), Failed>
    ensures written { Writes (W.contents writer.old) (W.contents writer.new) (flat_map member_line entries.now) result }
    ensures mark { Marked (W.failed writer.old) (W.failed writer.new) result }
{
    let mut batch = Batch::new();
    for entry in entries {
        let name = entry.name();
        let mut digits = Buffer::new();
        batch.add_parts(
            writer,
            &[
                name.bytes(),
                b" ",
                kind_word(entry.kind()).as_bytes(),
                b" ",
                digits.format(entry.lines().len()).as_bytes(),
                b"\n",
            ],
        )?;
    }
    batch.put(writer)
}

/// The word for a kind of members.
fn kind_word(kind: MemberKind) -> &'static str
    ensures { result.now ≡ kind_word kind }
{
    match kind {
        MemberKind::Source => "SOURCE",
        MemberKind::Include => "INCLUDE",
    }
}
