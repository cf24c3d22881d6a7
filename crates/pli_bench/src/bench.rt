//! The workbench: members, what is kept of their units, the module that stands, and the commands on them.
ghost use Rattle.std.specs.Prelude.{◌≡◌, ◌≤◌, ◌+◌, ◌∷◌, Err};
ghost use Rattle.pli_commands.specs.declared.serving.ServeFault.TheVariants.{TooManyReads};
ghost use Rattle.pli_commands.specs.answers.Answering.{Writes};
ghost use Rattle.pli_commands.specs.Commands as spelt;
ghost use Rattle.pli_bench.specs.answers.Obeying.{Does, as_edit, edit_answer, end_answer, gone, standing_after};
ghost use Rattle.pli_commands.specs.Exchanges.{span};
ghost use Rattle.pli_commands.specs.Runs.{AnsweredOne, Marked, Served, Takes, Blames, piece_limit};
ghost use Rattle.pli_bench.specs.Session.{Obeys, Step, quits, opened};
ghost use Rattle.pli_commands.specs.AnswerLines.{no_memory};
ghost use Rattle.pli_bench.specs.laws.ShownModules.{ShowsModule};

use crate::work::put_work;
use pli_base::{Failed, Name, Sink, Source};
use pli_commands::{
    AfterCommand, Command, Interpreter, ServeFault, WriteFailed, put_dump, put_ending, put_lines,
    put_members, put_parts, put_refusal, read_command, serve,
};
use pli_deck::Compiler;
use pli_include::Expander;
use pli_ledger::{Ledger, Outcome, StoredModule, edits_keep_fits};
use pli_machine::{load, run};
use pli_members::{EditError, MemberKind, Members, Refusal};
use pli_print::RunFault;
use pli_run::Ran;
use std::alloc::{AllocError, Global};
use std::marker::Model;

/// The version that a new workbench gives first (own).
const FIRST_VERSION: u64 = 1;

/// A workbench. Contracts see its members with their versions, what is kept of their units, whether a module of them
/// stands, and the steps of a bare RUN.
#[derive(Drop)]
pub struct Bench {
    alloc: Global,
    members: Members,
    ledger: Ledger,
    expander: Expander,
    compiler: Compiler,
    standing: Option<StoredModule>,
    steps: u64,
}

impl Model for Bench {
    ghost use Rattle.std.specs.Prelude.{is_some};
    ghost use Rattle.pli_bench.specs.Session.{State};

    ghost Value = { State };

    ghost use Rattle.pli_ledger.specs.answers.Built.{IsStanding};
    ghost use Rattle.pli_ledger.specs.Fits.{Fits};

    ghost view = { λ b. record { store = b.members; ledger = b.ledger; stands = is_some b.standing; steps = b.steps } };

    ghost invariant = { λ b. IsStanding b.members.entries b.standing × Fits b.ledger.units b.members };
}

impl Bench {
    /// A workbench without members, whose first version is 1. A bare RUN has `steps` steps.
    pub fn new(alloc: Global, steps: u64) -> Bench
        ensures { result ≡ opened steps }
    {
        edits_keep_fits();
        Bench {
            alloc,
            members: Members::new(alloc, FIRST_VERSION),
            ledger: Ledger::new(alloc),
            expander: Expander::new(alloc),
            compiler: Compiler::new(alloc),
            standing: None,
            steps,
        }
    }

    /// Answers the command on a line, which has no line end. A line of more than 200 bytes is no command. All of the
    /// answer is put before the call ends.
    pub fn command<W: Sink>(
        &mut self,
        line: &[u8],
        writer: &mut W,
    ) -> Result<AfterCommand, WriteFailed>
        ensures answered { AnsweredOne Step quits line.now (span self.old self.new)
            (span (W.contents writer.old) (W.contents writer.new)) result }
        ensures mark { Marked (W.failed writer.old) (W.failed writer.new) result }
    {
        match read_command(line) {
            None => going_on(put_parts(writer, &[b"B1 BAD COMMAND\n"])),
            Some(Command::Add { member, kind }) => going_on(self.add(member.name, kind, writer)),
            Some(Command::Delete(member)) => going_on(self.delete(member.name, writer)),
            Some(
                Command::Insert {
                    member,
                    after,
                    text,
                },
            ) => going_on(self.insert(member.name, after, text, writer)),
            Some(
                Command::Replace {
                    member,
                    number,
                    text,
                },
            ) => going_on(self.replace(member.name, number, text, writer)),
            Some(
                Command::Remove {
                    member,
                    first,
                    last,
                },
            ) => going_on(self.remove(member.name, first, last, writer)),
            Some(Command::ListLines(member)) => going_on(self.list_lines(member.name, writer)),
            Some(Command::ListMembers) => going_on(self.list_members(writer)),
            Some(Command::Build) => going_on(self.rebuild(writer)),
            Some(Command::ListWork) => going_on(put_work(writer, &self.ledger)),
            Some(Command::Dump) => going_on(self.dump(writer)),
            Some(Command::Run(steps)) => going_on(self.execute(steps, writer)),
            Some(Command::Quit) => match put_parts(writer, &[b"OK\n"]) {
                Ok(()) => Ok(AfterCommand::Quit),
                Err(Failed) => Err(WriteFailed),
            },
        }
    }

    /// Law: the bytes that DUMP shows where a module stands spell the module of the members, and no other.
    pub fn shows_its_module(&self)
        ensures { ShowsModule self.now }
    {
        let _ = &self.standing;
    }

    /// Answers the commands of `reader` on `writer`, up to QUIT or to the end. Bytes are asked for at most `reads`
    /// times.
    pub fn serve<R: Source, W: Sink>(
        &mut self,
        reader: &mut R,
        writer: &mut W,
        reads: u64,
    ) -> Result<AfterCommand, ServeFault>
        ensures served { Served Step quits (record {
          state = span self.old self.new;
          reader = span (R.remaining reader.old) (R.remaining reader.new);
          writer = span (W.contents writer.old) (W.contents writer.new);
          reads = reads;
        }) result }
        ensures blamed { Blames result (R.failed reader.new) (W.failed writer.new) }
        ensures few { Takes quits piece_limit (record {
          state = span self.old self.new;
          reader = span (R.remaining reader.old) (R.remaining reader.new);
          writer = span (W.contents writer.old) (W.contents writer.new);
          reads = reads;
        }) result }
        ensures unread { reads ≡ 0 → result ≡ Err TooManyReads }
        ensures takes { R.takes reader.new ≤ R.takes reader.old + reads }
    {
        serve(self, reader, writer, reads)
    }

    fn add<W: Sink>(&mut self, name: Name, kind: MemberKind, writer: &mut W) -> Result<(), Failed>
        ensures answered { Does (Obeys (Some (spelt.Add name kind))) self.old self.new (W.contents writer.old)
            (W.contents writer.new) result }
        ensures mark { Marked (W.failed writer.old) (W.failed writer.new) result }
    {
        edits_keep_fits();
        let edited = self.members.add(name, kind);
        answer_edit(&mut self.standing, edited, writer)
    }

    fn delete<W: Sink>(&mut self, name: Name, writer: &mut W) -> Result<(), Failed>
        ensures answered { Does (Obeys (Some (spelt.Delete name))) self.old self.new (W.contents writer.old)
            (W.contents writer.new) result }
        ensures mark { Marked (W.failed writer.old) (W.failed writer.new) result }
    {
        let _ = self.members.entries();
        edits_keep_fits();
        let edited = as_edit(self.members.delete(name));
        answer_edit(&mut self.standing, edited, writer)
    }

    fn insert<W: Sink>(
        &mut self,
        name: Name,
        after: u32,
        text: &[u8],
        writer: &mut W,
    ) -> Result<(), Failed>
        ensures answered { Does (Obeys (Some (spelt.Insert name after text.now))) self.old self.new
            (W.contents writer.old) (W.contents writer.new) result }
        ensures mark { Marked (W.failed writer.old) (W.failed writer.new) result }
    {
        edits_keep_fits();
        let edited = self.members.insert_line(name, after as usize, text);
        answer_edit(&mut self.standing, edited, writer)
    }

    fn replace<W: Sink>(
        &mut self,
        name: Name,
        number: u32,
        text: &[u8],
        writer: &mut W,
    ) -> Result<(), Failed>
        ensures answered { Does (Obeys (Some (spelt.Replace name number text.now))) self.old self.new
            (W.contents writer.old) (W.contents writer.new) result }
        ensures mark { Marked (W.failed writer.old) (W.failed writer.new) result }
    {
        edits_keep_fits();
        let edited = self.members.replace_line(name, number as usize, text);
        answer_edit(&mut self.standing, edited, writer)
    }

    fn remove<W: Sink>(
        &mut self,
        name: Name,
        first: u32,
        last: u32,
        writer: &mut W,
    ) -> Result<(), Failed>
        ensures answered { Does (Obeys (Some (spelt.Remove name first last))) self.old self.new (W.contents writer.old)
            (W.contents writer.new) result }
        ensures mark { Marked (W.failed writer.old) (W.failed writer.new) result }
    {
        edits_keep_fits();
        let removed = self
            .members
            .remove_lines(name, first as usize, last as usize);
        answer_edit(&mut self.standing, as_edit(removed), writer)
    }

    fn list_lines<W: Sink>(&self, name: Name, writer: &mut W) -> Result<(), Failed>
        ensures answered { Does (Obeys (Some (spelt.ListLines name))) self.now self.now (W.contents writer.old)
            (W.contents writer.new) result }
        ensures mark { Marked (W.failed writer.old) (W.failed writer.new) result }
    {
        let Some(lines) = self.members.lines(name) else {
            return put_refusal(writer, Refusal::NoSuchMember);
        };
        put_lines(writer, lines)?;
        put_parts(writer, &[b"OK\n"])
    }

    fn list_members<W: Sink>(&self, writer: &mut W) -> Result<(), Failed>
        ensures answered { Does (Obeys (Some spelt.ListMembers)) self.now self.now (W.contents writer.old)
            (W.contents writer.new) result }
        ensures mark { Marked (W.failed writer.old) (W.failed writer.new) result }
    {
        put_members(writer, self.members.entries())?;
        put_parts(writer, &[b"OK\n"])
    }

    fn rebuild<W: Sink>(&mut self, writer: &mut W) -> Result<(), Failed>
        ensures answered { Does (Obeys (Some spelt.Build)) self.old self.new (W.contents writer.old)
            (W.contents writer.new) result }
        ensures mark { Marked (W.failed writer.old) (W.failed writer.new) result }
    {
        let standing = self.standing.take();
        match self.ledger.build(
            self.alloc,
            &self.members,
            &mut self.expander,
            &mut self.compiler,
            standing,
        ) {
            Ok(Outcome::Module(module)) => {
                self.standing = Some(module);
                put_parts(writer, &[b"BUILT\n"])
            }
            Ok(Outcome::Diagnostics(text)) => {
                put_parts(writer, &[text.as_bytes(), b"NOT BUILT\n"])
            }
            Err(AllocError) => put_parts(writer, &[b"NO MEMORY\n"]),
        }
    }

    fn dump<W: Sink>(&self, writer: &mut W) -> Result<(), Failed>
        ensures answered { Does (Obeys (Some spelt.Dump)) self.now self.now (W.contents writer.old)
            (W.contents writer.new) result }
        ensures mark { Marked (W.failed writer.old) (W.failed writer.new) result }
    {
        let Some(module) = &self.standing else {
            return put_parts(writer, &[b"B2 NOT BUILT\n"]);
        };
        put_dump(writer, module.bytes.as_slice())
    }

    fn execute<W: Sink>(&self, steps: Option<u64>, writer: &mut W) -> Result<(), Failed>
        ensures answered { Does (Obeys (Some (spelt.Run steps))) self.now self.now (W.contents writer.old)
            (W.contents writer.new) result }
        ensures mark { Marked (W.failed writer.old) (W.failed writer.new) result }
    {
        let Some(module) = &self.standing else {
            return put_parts(writer, &[b"B2 NOT BUILT\n"]);
        };
        let Ok(loaded) = load(self.alloc, module.bytes.as_slice()) else {
            return put_broken(writer);
        };
        match run(self.alloc, &loaded, steps.unwrap_or(self.steps), writer) {
            Ok(ran) => put_end(writer, ran),
            Err(RunFault::OutOfMemory) => put_broken(writer),
            Err(RunFault::WriteFailed) => Err(Failed),
        }
    }
}

impl Interpreter for Bench {
    ghost use Rattle.pli_bench.specs.Session.{Step, quits};
    ghost use Rattle.pli_bench.specs.laws.SessionLaws.{long_alike, long_goes};

    ghost steps = { Step };

    ghost quits = { quits };

    fn command<W: Sink>(
        &mut self,
        line: &[u8],
        writer: &mut W,
    ) -> Result<AfterCommand, WriteFailed> {
        Bench::command(self, line, writer)
    }

    ghost too_long = { long_alike };

    ghost too_long_goes = { long_goes };
}

/// What a command that was answered, or not, tells the session.
fn going_on(answered: Result<(), Failed>) -> Result<AfterCommand, WriteFailed>
    ensures { result ≡ gone answered }
{
    match answered {
        Ok(()) => Ok(AfterCommand::Go),
        Err(Failed) => Err(WriteFailed),
    }
}

/// Puts what stands after what a run printed for which memory was refused.
fn put_broken<W: Sink>(writer: &mut W) -> Result<(), Failed>
    ensures written { Writes (W.contents writer.old) (W.contents writer.new) (10 ∷ no_memory) result }
    ensures mark { Marked (W.failed writer.old) (W.failed writer.new) result }
{
    put_parts(writer, &[b"\nNO MEMORY\n"])
}

/// Puts what stands after the output of a run: a line end, unless the next column is the first, and how it ended.
fn put_end<W: Sink>(writer: &mut W, ran: Ran) -> Result<(), Failed>
    ensures written { Writes (W.contents writer.old) (W.contents writer.new) (end_answer ran.column ran.ending) result }
    ensures mark { Marked (W.failed writer.old) (W.failed writer.new) result }
{
    if ran.column == 1 {
        return put_ending(writer, ran.ending);
    }
    put_parts(writer, &[b"\n"])?;
    put_ending(writer, ran.ending)
}

/// An edit that takes no memory, as one that may take some.
fn as_edit(edited: Result<(), Refusal>) -> Result<(), EditError>
    ensures { result ≡ as_edit edited }
{
    Ok(edited?)
}

/// Puts the answer to an edit. Where it was made, no module stands any more.
fn answer_edit<W: Sink>(
    standing: &mut Option<StoredModule>,
    edited: Result<(), EditError>,
    writer: &mut W,
) -> Result<(), Failed>
    ensures standing { standing.new ≡ standing_after edited standing.old }
    ensures written { Writes (W.contents writer.old) (W.contents writer.new) (edit_answer edited) result }
    ensures mark { Marked (W.failed writer.old) (W.failed writer.new) result }
{
    match edited {
        Ok(()) => {
            *standing = None;
            put_parts(writer, &[b"OK\n"])
        }
        Err(EditError::Refused(refusal)) => put_refusal(writer, refusal),
        Err(EditError::OutOfMemory) => put_parts(writer, &[b"NO MEMORY\n"]),
    }
}
