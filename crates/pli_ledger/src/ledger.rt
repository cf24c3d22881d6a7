//! The ledger.
ghost use Rattle.std.specs.Prelude.{◌≡◌, IfOk, OnErr, OnOk};
ghost use Rattle.pli_ledger.specs.Fits.{Fits};
ghost use Rattle.pli_ledger.specs.Kept.{empty_ledger};
ghost use Rattle.pli_ledger.specs.Refused.{IsRefused, Rises, compiled_count, expanded_count};
ghost use Rattle.pli_ledger.specs.Work.{ledger_after};
ghost use Rattle.pli_ledger.specs.WorkParts.{due_count, stale_count};
ghost use Rattle.pli_ledger.specs.answers.Built.{IsBuilt, IsStanding};

use crate::align::align;
use crate::kept::KeptUnit;
use crate::outcome::{Outcome, outcome_of};
use crate::passes::{compile_stale, expand_due};
use crate::stored::StoredModule;
use pli_deck::Compiler;
use pli_include::Expander;
use pli_members::Members;
use std::alloc::{AllocError, Global};
use std::marker::Model;

/// What is kept of units from one build to the next: of each source member its expansion and what its texts were
/// compiled to, which are found again by the versions of the members that were looked up, and by the texts. Contracts
/// see what is kept, and the numbers of the last build that was not refused.
#[derive(Drop)]
pub struct Ledger {
    units: Vec<KeptUnit>,
    expanded: u64,
    compiled: u64,
}

impl Model for Ledger {
    ghost use Rattle.pli_ledger.specs.Kept as kept;

    ghost Value = { kept.Ledger };

    ghost view = { λ l. record { units = l.units.items; expanded = l.expanded; compiled = l.compiled } };
}

impl Ledger {
    /// A ledger that keeps nothing.
    pub fn new(alloc: Global) -> Ledger
        ensures { result ≡ empty_ledger }
    {
        Ledger {
            units: Vec::new(alloc),
            expanded: 0,
            compiled: 0,
        }
    }

    /// Builds all source members: those that are due are expanded, those that are stale are compiled, and what is kept
    /// serves for the others. It answers what a build from scratch of the members gives, and keeps what was expanded
    /// and compiled. A module of the members that stands still is answered as it is. Refused only when out of memory;
    /// then what was done before is kept, so that the next build does not do it again.
    pub fn build(
        &mut self,
        alloc: Global,
        members: &Members,
        expander: &mut Expander,
        compiler: &mut Compiler,
        standing: Option<StoredModule>,
    ) -> Result<Outcome, AllocError>
        requires fits { Fits self.old.units members.now }
        requires stands { IsStanding members.now.entries standing }
        ensures answer { IfOk result (IsBuilt members.now.entries) }
        ensures after { OnOk result (self.new ≡ ledger_after self.old members.now) }
        ensures expansions { OnOk result (Rises expander.old (due_count self.old.units members.now) expander.new) }
        ensures compilations { OnOk result (Rises compiler.old (stale_count self.old.units members.now) compiler.new) }
        ensures refused { OnErr result (IsRefused members.now self.old self.new) }
        ensures expansions_refused { OnErr result (Rises expander.old
            (expanded_count self.old.units self.new.units members.now) expander.new) }
        ensures compilations_refused { OnErr result (Rises compiler.old
            (compiled_count self.old.units self.new.units members.now) compiler.new) }
        ensures fits { Fits self.new.units members.now }
    {
        let _ = members.entries();
        let before = self.units.as_mut_slice();
        let aligned = align(alloc, before, members)?;
        self.units = aligned;
        let due = self.units.as_mut_slice();
        let expanded = expand_due(due, members, expander)?;
        let stale = self.units.as_mut_slice();
        let compiled = compile_stale(stale, compiler)?;
        let all = self.units.as_slice();
        let outcome = outcome_of(alloc, all, members, standing)?;
        self.expanded = expanded;
        self.compiled = compiled;
        Ok(outcome)
    }

    /// How many units the last build that was not refused has expanded; 0 before one.
    pub fn expanded_last(&self) -> u64
        ensures { result ≡ self.now.expanded }
    {
        self.expanded
    }

    /// How many units it has compiled.
    pub fn compiled_last(&self) -> u64
        ensures { result ≡ self.now.compiled }
    {
        self.compiled
    }
}
