//! A name with its member.
ghost use Rattle.std.specs.Prelude.{◌≡◌, ◌≤◌, ◌<◌, ◌++◌, length, insert, slice_set, take, drop, OnOk, OnErr};

use crate::kind::MemberKind;
use pli_base::{Line, Name};
use std::alloc::AllocError;
use std::marker::Model;

/// A name and its member. Contracts see the pair of the two.
#[derive(Drop)]
pub struct NamedMember {
    name: Name,
    kind: MemberKind,
    lines: Vec<Line>,
    version: u64,
}

impl Model for NamedMember {
    ghost use Rattle.pli_members.specs.Members.{Member};
    ghost use Rattle.pli_base.specs.Name.{Name as Characters};

    ghost Value = { Characters × Member };

    ghost view = { λ e. (e.name, record { kind = e.kind; lines = e.lines.items; version = e.version }) };
}

impl NamedMember {
    // An entry of these parts.
    pub(crate) fn new(name: Name, kind: MemberKind, lines: Vec<Line>, version: u64) -> NamedMember
        ensures { result ≡ (name, record { kind = kind; lines = lines.items; version = version }) }
    {
        NamedMember {
            name,
            kind,
            lines,
            version,
        }
    }

    /// The name.
    pub fn name(&self) -> Name
        ensures { result ≡ self.now.0 }
    {
        self.name
    }

    /// What the member is for.
    pub fn kind(&self) -> MemberKind
        ensures { result ≡ self.now.1.kind }
    {
        self.kind
    }

    /// The member's lines.
    pub fn lines(&self) -> &[Line]
        ensures { result.now ≡ self.now.1.lines }
    {
        self.lines.as_slice()
    }

    /// The version that the member's last edit gave.
    pub fn version(&self) -> u64
        ensures { result ≡ self.now.1.version }
    {
        self.version
    }

    // Puts a line after line `after`, under a new version.
    pub(crate) fn put_line(
        &mut self,
        after: usize,
        line: Line,
        version: u64,
    ) -> Result<(), AllocError>
        requires { after ≤ length self.old.1.lines }
        ensures ok { OnOk result (self.new ≡ (
          self.old.0,
          record {
            kind = self.old.1.kind;
            lines = insert self.old.1.lines after line;
            version = version;
          },
        )) }
        ensures err { OnErr result (self.new ≡ self.old) }
    {
        self.lines.insert(after, line)?;
        self.version = version;
        Ok(())
    }

    // Gives a line another text, under a new version. The first line stands at 0.
    pub(crate) fn set_line(&mut self, at: usize, line: Line, version: u64)
        requires { at < length self.old.1.lines }
        ensures { self.new ≡ (
          self.old.0,
          record {
            kind = self.old.1.kind;
            lines = slice_set self.old.1.lines at line;
            version = version;
          },
        ) }
    {
        self.lines[at] = line;
        self.version = version;
    }

    // Takes the lines from `start` up to `end` away, under a new version. Only what stands after them is moved.
    pub(crate) fn take_lines(&mut self, start: usize, end: usize, version: u64)
        requires order { start ≤ end }
        requires in_range { end ≤ length self.old.1.lines }
        ensures { self.new ≡ (
          self.old.0,
          record {
            kind = self.old.1.kind;
            lines = take start self.old.1.lines ++ drop end self.old.1.lines;
            version = version;
          },
        ) }
    {
        drop(self.lines.drain(start..end));
        self.version = version;
    }
}
