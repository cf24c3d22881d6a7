//! The members that are open in an expansion: a list of work in place of a recursion, since members may include one
//! another in a chain of 999.
ghost use Rattle.std.specs.Prelude.{◌≡◌, ◌<◌, ◌≤◌, ◌+◌, [], ◌∷◌, ◌++◌, length, None, IfOk};
ghost use Rattle.pli_members.specs.answers.Kept.{IsKept};
ghost use Rattle.pli_include.specs.Expanded.{look_in, outcome_of};
ghost use Rattle.pli_include.specs.Expansion.{◌then◌};
ghost use Rattle.pli_include.specs.answers.Walking.{IsUnderWay, IsFresh, going, goes_on, ended, include_from};
ghost use Rattle.pli_include.specs.answers.Walking.{work_left};

use crate::expansion::ExpansionFault;
use crate::library::{MemberTokens, Membership, look};
use crate::progress::Progress;
use crate::reading::{Pause, read_tokens};
use indexmap::IndexSet;
use pli_base::{Code, Name, Origin};
use pli_members::Members;
use std::alloc::{AllocError, Global};

/// An open member: the place of its tokens among the texts, and of the token that it reads next.
#[derive(Clone, Copy)]
pub struct OpenMember {
    pub name: Name,
    pub slot: usize,
    pub next: usize,
}

/// An expansion under way. The path has the names of the open members.
#[derive(Drop)]
pub struct ExpansionWalk {
    pub progress: Progress,
    pub texts: Vec<MemberTokens>,
    pub path: IndexSet<Name>,
    pub frames: Vec<OpenMember>,
}

impl ExpansionWalk {
    /// No member is open yet. There is room for the texts of so many members.
    pub fn new(alloc: Global, count: usize) -> Result<ExpansionWalk, AllocError>
        ensures { IfOk result IsFresh }
    {
        Ok(ExpansionWalk {
            progress: Progress::new(alloc),
            texts: Vec::with_capacity(alloc, count)?,
            path: IndexSet::new(alloc),
            frames: Vec::new(alloc),
        })
    }

    /// Opens a member that is named at a place, or answers the fault.
    pub fn enter(
        &mut self,
        alloc: Global,
        members: &Members,
        name: Name,
        at: Origin,
    ) -> Result<Option<ExpansionFault>, AllocError>
        requires kept { IsKept members.now }
        requires under_way { IsUnderWay (look_in members.now.entries) self.old.progress.looked self.old.texts.items
            self.old.path.keys self.old.frames.items }
        ensures same { IfOk result (λ fault.
            goes_on 200000 (look_in members.now.entries) fault self.new.progress self.new.frames.items
            ≡ (include_from 200000 (look_in members.now.entries) self.old.path.keys at name self.old.progress then going
            200000 (look_in members.now.entries) [] self.old.frames.items)) }
        ensures under_way { IfOk result (λ fault. fault ≡ None →
            IsUnderWay (look_in members.now.entries) self.new.progress.looked self.new.texts.items
            self.new.path.keys self.new.frames.items) }
        ensures read { IfOk result (λ fault. self.new.progress.read ≡ self.old.progress.read) }
        ensures frames { IfOk result (λ fault. length self.new.frames.items ≤ length self.old.frames.items + 1) }
    {
        if self.path.contains(&name) {
            return Ok(Some(ExpansionFault {
                code: Code::RecursiveInclude,
                origin: at,
            }));
        }
        match look(alloc, members, &mut self.progress, &mut self.texts, name)? {
            Membership::Absent => Ok(Some(ExpansionFault {
                code: Code::NoSuchMember,
                origin: at,
            })),
            Membership::Faulty(fault) => Ok(Some(ExpansionFault {
                code: fault.code,
                origin: Origin {
                    member: name,
                    line: fault.line,
                },
            })),
            Membership::At(slot) => {
                self.path.insert(name)?;
                self.frames.push(OpenMember {
                    name,
                    slot,
                    next: 0,
                })?;
                Ok(None)
            }
        }
    }

    /// Reads on in a member that was the innermost open one, up to its end or the next directive.
    fn step(
        &mut self,
        alloc: Global,
        members: &Members,
        frame: OpenMember,
    ) -> Result<Option<ExpansionFault>, AllocError>
        requires kept { IsKept members.now }
        requires under_way { IsUnderWay (look_in members.now.entries) self.old.progress.looked self.old.texts.items
            self.old.path.keys (self.old.frames.items ++ frame ∷ []) }
        ensures same { IfOk result (λ fault.
            goes_on 200000 (look_in members.now.entries) fault self.new.progress self.new.frames.items
            ≡ going 200000 (look_in members.now.entries) [] (self.old.frames.items ++ frame ∷ []) self.old.progress) }
        ensures under_way { IfOk result (λ fault. fault ≡ None →
            IsUnderWay (look_in members.now.entries) self.new.progress.looked self.new.texts.items
            self.new.path.keys self.new.frames.items) }
        ensures less { IfOk result (λ fault. work_left self.new.progress self.new.frames.items
            < work_left self.old.progress (self.old.frames.items ++ frame ∷ [])) }
    {
        let tokens = self.texts[frame.slot].tokens();
        match read_tokens(alloc, &mut self.progress, frame.name, tokens, frame.next)? {
            Pause::End => {
                self.path.pop();
                Ok(None)
            }
            Pause::Fault(fault) => Ok(Some(fault)),
            Pause::Include(request) => {
                self.frames.push(OpenMember {
                    name: frame.name,
                    slot: frame.slot,
                    next: request.next,
                })?;
                self.enter(alloc, members, request.name, request.at)
            }
        }
    }

    /// Reads on until no member is open, or to the first fault.
    pub fn run(
        &mut self,
        alloc: Global,
        members: &Members,
    ) -> Result<Option<ExpansionFault>, AllocError>
        requires kept { IsKept members.now }
        requires under_way { IsUnderWay (look_in members.now.entries) self.old.progress.looked self.old.texts.items
            self.old.path.keys self.old.frames.items }
        ensures { IfOk result (λ fault. ended fault self.new.progress
            ≡ going 200000 (look_in members.now.entries) [] self.old.frames.items self.old.progress) }
    {
        while let Some(frame) = self.frames.pop() {
            if let Some(fault) = self.step(alloc, members, frame)? {
                return Ok(Some(fault));
            }
        }
        Ok(None)
    }

    /// Reads a unit from the start, to its end or to the first fault.
    pub fn read(
        &mut self,
        alloc: Global,
        members: &Members,
        unit: Name,
    ) -> Result<Option<ExpansionFault>, AllocError>
        requires kept { IsKept members.now }
        requires fresh { IsFresh self.old }
        ensures { IfOk result (λ fault. ended fault self.new.progress ≡ outcome_of members.now.entries unit) }
    {
        let start = Origin {
            member: unit,
            line: 1,
        };
        match self.enter(alloc, members, unit, start)? {
            Some(fault) => Ok(Some(fault)),
            None => self.run(alloc, members),
        }
    }
}
