//! The member store.
ghost use Rattle.pli_members.specs.views.Fields.{next_version};
ghost use Rattle.std.specs.Prelude.{◌≡◌, ◌+◌, ◌^◌, ◌<◌, ◌≤◌, length, IfOk, IfErr, OnOk, OnErr, None};
ghost use Rattle.std.specs.Option.{option_copied, option_map};
ghost use Rattle.std.specs.Result.{result_err};
ghost use Rattle.pli_members.specs.Members.{empty_store, names_of, member_of, kind_of, lines_of, version_of, added};
ghost use Rattle.pli_members.specs.Members.{deleted, with_line, with_line_replaced, without_lines};
ghost use Rattle.pli_members.specs.answers.Kept.{IsKept};
ghost use Rattle.pli_members.specs.Refusals.{refusal_of_add, refusal_of_delete, refusal_of_insert, refusal_of_replace};
ghost use Rattle.pli_members.specs.Refusals.{refusal_of_remove, refusal_of_change, refusal_in};
ghost use Rattle.pli_members.specs.views.ChangeView.{change_view};
ghost use Rattle.pli_members.specs.answers.Search.{IsPlace, IsGap, IsStep, CanChange};
ghost use Rattle.pli_members.specs.declared.refusal.Refusal.TheVariants.{VersionsExhausted};

use crate::entry::NamedMember;
use crate::kind::MemberKind;
use crate::lines::{Change, change_refusal};
use crate::names::NamesLeft;
use crate::refusal::{EditError, Refusal};
use pli_base::{Line, Name};
use std::alloc::Global;
use std::marker::Model;

/// The greatest number of members (own).
const MEMBER_LIMIT: usize = 999;

/// The members of a workbench, with their versions. Contracts see the members in the order of their names, and the
/// version that the next edit gives.
#[derive(Drop)]
pub struct Members {
    alloc: Global,
    entries: Vec<NamedMember>,
    next: Option<u64>,
}

impl Model for Members {
    ghost use Rattle.pli_members.specs.Members.{Store};
    ghost use Rattle.pli_members.specs.answers.Kept.{IsKept};
    ghost use Rattle.pli_members.specs.views.Fields.{next_version};

    ghost Value = { Store };

    ghost view = { λ m. record { entries = m.entries.items; next = next_version m.next } };

    ghost invariant = { λ m. IsKept (record { entries = m.entries.items; next = next_version m.next }) };
}

// A version to give, and the one that comes after it.
#[derive(Clone, Copy)]
struct NextVersion {
    version: u64,
    next: Option<u64>,
}

impl Members {
    /// No members; the first edit gives version `first`.
    pub fn new(alloc: Global, first: u64) -> Members
        ensures { result ≡ empty_store first }
    {
        Members {
            alloc,
            entries: Vec::new(alloc),
            next: Some(first),
        }
    }

    /// The members in the order of their names.
    pub fn entries(&self) -> &[NamedMember]
        ensures entries { result.now ≡ self.now.entries }
        ensures kept { IsKept self.now }
    {
        self.entries.as_slice()
    }

    /// The names in order.
    pub fn names(&self) -> NamesLeft<'_>
        ensures { result ≡ names_of self.now }
    {
        NamesLeft::of(self.entries())
    }

    /// Law: there are at most 999 members.
    pub fn are_few(&self)
        ensures { length self.now.entries ≤ 999 }
    {
        let _ = &self.entries;
    }

    /// How many members there are, at most 999.
    pub fn count(&self) -> usize
        ensures { result ≡ length self.now.entries }
    {
        self.entries().len()
    }

    /// What the member is for, or `None` where there is none.
    pub fn kind(&self, name: Name) -> Option<MemberKind>
        ensures { result ≡ kind_of self.now name }
    {
        Some(self.find(name)?.kind())
    }

    /// The member's lines, or `None` where there is none.
    pub fn lines(&self, name: Name) -> Option<&[Line]>
        ensures { option_copied result ≡ lines_of self.now name }
    {
        Some(self.find(name)?.lines())
    }

    /// The version that the member's last edit gave, or `None` where there is none.
    pub fn version(&self, name: Name) -> Option<u64>
        ensures { result ≡ version_of self.now name }
    {
        Some(self.find(name)?.version())
    }

    /// Gives a new member without lines. Refused with M1, M7 and M8, in this order.
    pub fn add(&mut self, name: Name, kind: MemberKind) -> Result<(), EditError>
        ensures ok { OnOk result (self.new ≡ added self.old name kind) }
        ensures err { OnErr result (self.new ≡ self.old) }
        ensures refusal { refusal_in result ≡ refusal_of_add self.old name }
    {
        let Err(at) = self.place(&name) else {
            return Err(EditError::Refused(Refusal::NameTaken));
        };
        if self.entries.len() >= MEMBER_LIMIT {
            return Err(EditError::Refused(Refusal::TooManyMembers));
        }
        let step = self.step()?;
        let entry = NamedMember::new(name, kind, Vec::new(self.alloc), step.version);
        self.entries.insert(at, entry)?;
        self.next = step.next;
        Ok(())
    }

    /// Takes a member away. Refused with M2. Takes no memory and gives no version.
    pub fn delete(&mut self, name: Name) -> Result<(), Refusal>
        ensures ok { OnOk result (self.new ≡ deleted self.old name) }
        ensures err { OnErr result (self.new ≡ self.old) }
        ensures refusal { result_err result ≡ refusal_of_delete self.old name }
    {
        let Ok(at) = self.place(&name) else {
            return Err(Refusal::NoSuchMember);
        };
        self.entries.remove(at);
        Ok(())
    }

    /// Puts a line after line `after` of a member, first where that is 0. Refused with M2 to M6 and M8, in this order.
    pub fn insert_line(&mut self, name: Name, after: usize, text: &[u8]) -> Result<(), EditError>
        ensures ok { OnOk result (self.new ≡ with_line self.old name after text.now) }
        ensures err { OnErr result (self.new ≡ self.old) }
        ensures refusal { refusal_in result ≡ refusal_of_insert self.old name after text.now }
    {
        let (at, step) = self.change_place(&name, Change::Insert { after, text })?;
        let line = Line::new(self.alloc, text)?;
        let entry = &mut self.entries[at];
        entry.put_line(after, line, step.version)?;
        self.next = step.next;
        Ok(())
    }

    /// Gives line `number` of a member another text; the first is 1. Refused with M2 to M5 and M8, in this order.
    pub fn replace_line(&mut self, name: Name, number: usize, text: &[u8]) -> Result<(), EditError>
        ensures ok { OnOk result (self.new ≡ with_line_replaced self.old name number text.now) }
        ensures err { OnErr result (self.new ≡ self.old) }
        ensures refusal { refusal_in result ≡ refusal_of_replace self.old name number text.now }
    {
        let (at, step) = self.change_place(&name, Change::Replace { number, text })?;
        let line = Line::new(self.alloc, text)?;
        let entry = &mut self.entries[at];
        entry.set_line(number - 1, line, step.version);
        self.next = step.next;
        Ok(())
    }

    /// Takes the lines from `first` to `last` away from a member; the first line is 1. Refused with M2, M3 and M8, in
    /// this order. Takes no memory.
    pub fn remove_lines(&mut self, name: Name, first: usize, last: usize) -> Result<(), Refusal>
        ensures ok { OnOk result (self.new ≡ without_lines self.old name first last) }
        ensures err { OnErr result (self.new ≡ self.old) }
        ensures refusal { result_err result ≡ refusal_of_remove self.old name first last }
    {
        let (at, step) = self.change_place(&name, Change::Remove { first, last })?;
        let entry = &mut self.entries[at];
        entry.take_lines(first - 1, last, step.version);
        self.next = step.next;
        Ok(())
    }

    // The place of a member whose lines may be changed so, and the version that it then gets.
    fn change_place(&self, name: &Name, change: Change<'_>) -> Result<(usize, NextVersion), Refusal>
        ensures refusal { result_err result ≡ refusal_of_change self.now name.now (change_view change.entry) }
        ensures found { IfOk result (λ found. CanChange self.now name.now (change_view change.entry) found.0 found.1) }
    {
        let Ok(at) = self.place(name) else {
            return Err(Refusal::NoSuchMember);
        };
        if let Some(refusal) = change_refusal(self.entries[at].lines(), change) {
            return Err(refusal);
        }
        Ok((at, self.step()?))
    }

    // The version that an edit gives.
    fn step(&self) -> Result<NextVersion, Refusal>
        ensures left { IfOk result (λ step. IsStep self.now step) }
        ensures none { IfErr result (λ refusal. (refusal ≡ VersionsExhausted) × (2 ^ 64 ≤ self.now.next)) }
    {
        match self.next {
            Some(version) => Ok(NextVersion {
                version,
                next: version_after(version),
            }),
            None => Err(Refusal::VersionsExhausted),
        }
    }

    // The entry of a name.
    fn find(&self, name: Name) -> Option<&NamedMember>
        ensures { option_map (λ e. e.1) (option_copied result) ≡ member_of self.now name }
    {
        match self.place(&name) {
            Ok(at) => Some(&self.entries[at]),
            Err(_) => None,
        }
    }

    // Where the name stands, or where it would.
    fn place(&self, name: &Name) -> Result<usize, usize>
        ensures found { IfOk result (IsPlace self.now name.now) }
        ensures absent { IfErr result (IsGap self.now name.now) }
    {
        self.entries
            .binary_search_by_key(name, |entry| entry.name())
    }
}

// The version that comes after this one, if one does.
fn version_after(version: u64) -> Option<u64>
    ensures after { next_version result ≡ version + 1 }
    ensures fits { version < 2 ^ 64 }
{
    version.checked_add(1)
}
