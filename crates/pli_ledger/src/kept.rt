//! What is kept of one unit.
ghost use Rattle.std.specs.Prelude.{◌≡◌, true, Option, None, Some, is_some, option_map, OnOk, OnErr, IfOk};
ghost use Rattle.pli_deck.specs.views.OutcomeView.{outcome_view};
ghost use Rattle.pli_include.specs.Expanded.{Expanded};
ghost use Rattle.pli_ledger.specs.Kept.{nothing_kept};
ghost use Rattle.pli_ledger.specs.Refused.{Rises};
ghost use Rattle.pli_ledger.specs.Work.{is_compiled};
ghost use Rattle.pli_ledger.specs.answers.Compiling.{IsFresh, IsRecalled, one_if, recompiled, refreshed, unit_is_due};
ghost use Rattle.pli_ledger.specs.answers.Compiling.{unit_is_stale};
ghost use Rattle.pli_ledger.specs.views.KeptView.{HaveResult, texts_of};

use crate::texts::same_texts;
use pli_base::Name;
use pli_deck::{Compiled, Compiler};
use pli_include::{Expander, Expansion};
use pli_members::Members;
use std::alloc::AllocError;
use std::marker::Model;
use std::mem;

/// What is kept of a unit: its last expansion, and a result with the texts that were compiled to it. Contracts see the
/// unit's name, the expansion, and these texts.
#[derive(Drop)]
pub struct KeptUnit {
    name: Name,
    last: Option<Expansion>,
    /// The expansion that was compiled, where it is not the last.
    before: Option<Expansion>,
    compiled: Option<Compiled>,
}

impl Model for KeptUnit {
    ghost use Rattle.pli_base.specs.Name.{Name as Characters};
    ghost use Rattle.pli_ledger.specs.Kept.{Kept};

    ghost Value = { Characters × Kept };

    ghost use Rattle.pli_ledger.specs.views.KeptView.{HaveResult, texts_of};

    ghost view = { λ u. (u.name, record { expansion = u.last; compiled = texts_of u.last u.before u.compiled }) };

    ghost invariant = { λ u. HaveResult (texts_of u.last u.before u.compiled) u.compiled };
}

/// The expansion that was compiled, once another one than `last` is kept: none, where there is no result.
fn compiled_before(
    last: Option<Expansion>,
    before: Option<Expansion>,
    compiled: &Option<Compiled>,
) -> Option<Expansion>
    requires { HaveResult (texts_of last before compiled.now) compiled.now }
    ensures { (e : Option Expanded) → texts_of e result compiled.now ≡ texts_of last before compiled.now }
{
    match compiled {
        Some(_) => before.or(last),
        None => None,
    }
}

/// Whether the texts of the last expansion are those that were compiled.
fn is_compiled(last: &Expansion, before: &Option<Expansion>, compiled: &Option<Compiled>) -> bool
    ensures { result ≡ is_compiled last.now.texts (texts_of (Some last.now) before.now compiled.now) }
{
    let Some(_) = compiled else {
        return false;
    };
    match before {
        Some(before) => same_texts(before.texts(), last.texts()),
        None => true,
    }
}

/// The expansion that was compiled: none, where the last one has the same texts.
fn needed_before(
    last: &Option<Expansion>,
    before: Option<Expansion>,
    compiled: &Option<Compiled>,
) -> Option<Expansion>
    ensures { texts_of last.now result compiled.now ≡ texts_of last.now before compiled.now }
{
    let Some(expansion) = last else {
        return before;
    };
    if is_compiled(expansion, &before, compiled) {
        return None;
    }
    before
}

/// The result of the last expansion, where that has no fault, and other texts than were compiled.
fn fresh_result(
    compiler: &mut Compiler,
    last: &Option<Expansion>,
    before: &Option<Expansion>,
    compiled: &Option<Compiled>,
) -> Result<Option<Compiled>, AllocError>
    ensures fresh { IfOk result (IsFresh last.now (texts_of last.now before.now compiled.now)) }
    ensures counted { IfOk result (λ fresh. Rises compiler.old (one_if (is_some fresh)) compiler.new) }
    ensures refused { OnErr result (compiler.new ≡ compiler.old) }
{
    let Some(last) = last else {
        return Ok(None);
    };
    if last.fault().is_some() || is_compiled(last, before, compiled) {
        return Ok(None);
    }
    Ok(Some(compiler.compile(last.texts())?))
}

impl KeptUnit {
    /// A unit of which nothing is kept.
    pub fn new(name: Name) -> KeptUnit
        ensures { result ≡ (name, nothing_kept) }
    {
        KeptUnit {
            name,
            last: None,
            before: None,
            compiled: None,
        }
    }

    /// The unit's name.
    pub fn name(&self) -> Name
        ensures { result ≡ self.now.0 }
    {
        self.name
    }

    /// The last expansion.
    pub fn expansion(&self) -> Option<&Expansion>
        ensures { option_map (λ e. e.now) result ≡ self.now.1.expansion }
    {
        self.last.as_ref()
    }

    /// The result, if there is one.
    pub fn compiled(&self) -> Option<&Compiled>
        ensures { HaveResult self.now.1.compiled (option_map (λ c. c.now) result) }
    {
        self.compiled.as_ref()
    }

    /// Whether the members answer a name that the expansion rests on otherwise than they did, or there is no expansion.
    fn is_due(&self, members: &Members) -> bool
        ensures { result ≡ unit_is_due members.now self.now }
    {
        match &self.last {
            Some(last) => !last.holds(members),
            None => true,
        }
    }

    /// Keeps an expansion; the one that was compiled is kept too, for its texts.
    fn put(&mut self, fresh: Expansion)
        ensures { self.new ≡ (self.old.0, record { expansion = Some fresh; compiled = self.old.1.compiled }) }
    {
        let last = mem::replace(&mut self.last, Some(fresh));
        let before = self.before.take();
        self.before = compiled_before(last, before, &self.compiled);
    }

    /// Expands the unit, if it is due, and answers whether it was.
    pub fn refresh(
        &mut self,
        members: &Members,
        expander: &mut Expander,
    ) -> Result<bool, AllocError>
        requires { IsRecalled members.now self.old }
        ensures unit { OnOk result (self.new ≡ refreshed members.now self.old) }
        ensures told { IfOk result (λ due. due ≡ unit_is_due members.now self.old) }
        ensures counted { OnOk result (Rises expander.old (one_if (unit_is_due members.now self.old)) expander.new) }
        ensures refused { OnErr result ((self.new ≡ self.old) × (expander.new ≡ expander.old)) }
    {
        if !self.is_due(members) {
            return Ok(false);
        }
        let fresh = expander.expand(members, self.name)?;
        self.put(fresh);
        Ok(true)
    }

    /// Keeps a result of the last expansion.
    fn put_result(&mut self, compiled: Compiled)
        requires stale { unit_is_stale self.old ≡ true }
        requires result { HaveResult (recompiled self.old).1.compiled (Some compiled) }
        ensures { self.new ≡ recompiled self.old }
    {
        self.compiled = Some(compiled);
        self.before = None;
    }

    /// Drops an expansion that was compiled, where the last one has the same texts.
    fn forget_same(&mut self)
        ensures { self.new ≡ self.old }
    {
        let before = self.before.take();
        self.before = needed_before(&self.last, before, &self.compiled);
    }

    /// Compiles the texts of the unit, if it is stale, and answers whether it was.
    pub fn recompile(&mut self, compiler: &mut Compiler) -> Result<bool, AllocError>
        ensures unit { OnOk result (self.new ≡ recompiled self.old) }
        ensures told { IfOk result (λ stale. stale ≡ unit_is_stale self.old) }
        ensures counted { OnOk result (Rises compiler.old (one_if (unit_is_stale self.old)) compiler.new) }
        ensures refused { OnErr result ((self.new ≡ self.old) × (compiler.new ≡ compiler.old)) }
    {
        match fresh_result(compiler, &self.last, &self.before, &self.compiled)? {
            Some(fresh) => {
                self.put_result(fresh);
                Ok(true)
            }
            None => {
                self.forget_same();
                Ok(false)
            }
        }
    }
}
