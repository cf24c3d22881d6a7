//! The expander.
ghost use Rattle.std.specs.Prelude.{◌≡◌, ◌+◌, ◌-◌, ◌^◌, None, min, map, OnOk, OnErr, IfOk};
ghost use Rattle.pli_include.specs.Expanded.{answered, told, expansion_of};
ghost use Rattle.pli_include.specs.answers.Walking.{ended, IsEven};

use crate::expansion::{Expansion, ExpansionFault, TraceEntry};
use crate::progress::Progress;
use crate::walk::ExpansionWalk;
use pli_base::Name;
use pli_members::Members;
use std::alloc::{AllocError, Global};
use std::marker::Model;

/// Makes expansions, and counts them. Contracts see the count.
#[derive(Drop)]
pub struct Expander {
    alloc: Global,
    count: u64,
}

impl Model for Expander {
    ghost use Rattle.std.specs.Prelude.{ℕ};

    ghost Value = { ℕ };

    ghost view = { λ e. e.count };
}

/// The names, each with its version or its absence.
fn trace_of(alloc: Global, members: &Members, names: &[Name]) -> Result<Vec<TraceEntry>, AllocError>
    ensures { IfOk result (λ trace. trace.items ≡ map (answered members.now) names.now) }
{
    let mut trace = Vec::with_capacity(alloc, names.len())?;
    for name in names {
        trace.push(TraceEntry {
            name: *name,
            version: members.version(*name),
        })?;
    }
    Ok(trace)
}

/// The expansion that ends so.
fn finish(
    alloc: Global,
    members: &Members,
    progress: Progress,
    fault: Option<ExpansionFault>,
) -> Result<Expansion, AllocError>
    requires { fault ≡ None → IsEven progress }
    ensures { IfOk result (λ expansion. expansion ≡ told members.now (ended fault progress)) }
{
    let trace = trace_of(alloc, members, progress.looked())?;
    match fault {
        Some(fault) => Ok(Expansion::faulty(alloc, trace, fault)),
        None => Ok(Expansion::whole(trace, progress.into_texts())),
    }
}

/// The expansion of a member.
fn expansion(alloc: Global, members: &Members, unit: Name) -> Result<Expansion, AllocError>
    ensures { IfOk result (λ expansion. expansion ≡ expansion_of members.now unit) }
{
    let mut walk = ExpansionWalk::new(alloc, members.entries().len())?;
    let fault = walk.read(alloc, members, unit)?;
    finish(alloc, members, walk.progress, fault)
}

impl Expander {
    /// An expander that has made no expansion.
    pub fn new(alloc: Global) -> Expander
        ensures { result ≡ 0 }
    {
        Expander { alloc, count: 0 }
    }

    /// How many expansions were made, up to 2^64 - 1, where the count stays.
    pub fn count(&self) -> u64
        ensures { result ≡ self.now }
    {
        self.count
    }

    /// The expansion of a member: its tokens with each directive replaced by the expansion of the member that it names,
    /// or the first fault: at a directive I4 BAD INCLUDE, I3 TOO MANY TOKENS, I2 RECURSIVE INCLUDE and I1 NO SUCH
    /// MEMBER in this order, and of a member that is entered its lexical fault (X3.74; the limit of 200,000 tokens is
    /// own). A unit that is no member is I1 at its line 1. Each member is lexed once, so the cost is linear in the
    /// tokens that are read and the text of the members that are entered. Refused only when out of memory.
    pub fn expand(&mut self, members: &Members, unit: Name) -> Result<Expansion, AllocError>
        ensures expansion { IfOk result (λ expansion. expansion ≡ expansion_of members.now unit) }
        ensures counted { OnOk result (self.new ≡ min (self.old + 1) (2 ^ 64 - 1)) }
        ensures refused { OnErr result (self.new ≡ self.old) }
    {
        let expansion = expansion(self.alloc, members, unit)?;
        self.count = self.count.saturating_add(1);
        Ok(expansion)
    }
}
