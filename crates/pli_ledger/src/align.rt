//! The units of a build, in the order of their names, with what is kept of them.
ghost use Rattle.std.specs.Prelude.{◌≡◌, ◌≢◌, ◌+◌, ◌<◌, ◌≤◌, ◌++◌, ◌∷◌, [], true, map, IfOk, IfSome, OnErr, vec_len};
ghost use Rattle.std.specs.Prelude.{vec_capacity};
ghost use Rattle.std.specs.Option.{option_copied};
ghost use Rattle.pli_base.specs.Name as base;
ghost use Rattle.pli_ledger.specs.Kept.{kept_of};
ghost use Rattle.pli_ledger.specs.answers.Aligning.{aligned, unit_name};
ghost use Rattle.pli_meaning.specs.MemberParts.{source_in};
ghost use Rattle.pli_meaning.specs.Scratch.{sources};

use crate::kept::KeptUnit;
use pli_base::Name;
use pli_members::{MemberKind, Members, NamedMember};
use std::alloc::{AllocError, Global};
use std::mem;

/// Takes what is kept of a unit out of the list, where nothing is kept of it any more.
fn take_kept(units: &mut [KeptUnit], name: Name) -> KeptUnit
    ensures kept { result ≡ (name, kept_of units.old name) }
    ensures others { (other : base.Name) → other ≢ name → kept_of units.new other ≡ kept_of units.old other }
{
    for unit in units.iter_mut() {
        if unit.name() == name {
            return mem::replace(unit, KeptUnit::new(name));
        }
    }
    KeptUnit::new(name)
}

/// Appends a unit where there is room for it.
fn push_within(units: &mut Vec<KeptUnit>, unit: KeptUnit)
    requires { vec_len units.old < vec_capacity units.old }
    ensures items { units.new.items ≡ units.old.items ++ unit ∷ [] }
    ensures few { vec_len units.new ≤ vec_len units.old + 1 }
    ensures room { vec_capacity units.old ≤ vec_capacity units.new }
{
    let _ = units.push(unit);
}

/// Moves what is kept of a member, if it is a source, from one list to the other, which has room for it.
fn move_kept(from: &mut [KeptUnit], to: &mut Vec<KeptUnit>, entry: &NamedMember)
    requires { vec_len to.old < vec_capacity to.old }
    ensures moved { to.new.items ≡ to.old.items ++ aligned from.old (source_in entry.now.0 entry.now.1.kind) }
    ensures others { (other : base.Name) → other ≢ entry.now.0 → kept_of from.new other ≡ kept_of from.old other }
    ensures few { vec_len to.new ≤ vec_len to.old + 1 }
    ensures room { vec_capacity to.old ≤ vec_capacity to.new }
{
    match entry.kind() {
        MemberKind::Source => {
            let kept = take_kept(from, entry.name());
            push_within(to, kept);
        }
        MemberKind::Include => {}
    }
}

/// What is left of units after that of a member, if it is a source: none, where the first unit is another one.
fn after_source<'a>(left: &'a [KeptUnit], entry: &NamedMember) -> Option<&'a [KeptUnit]>
    ensures { IfSome (option_copied result) (λ after. map unit_name left.now
        ≡ source_in entry.now.0 entry.now.1.kind ++ map unit_name after) }
{
    match entry.kind() {
        MemberKind::Source => {
            let (unit, after) = left.split_first()?;
            if unit.name() == entry.name() {
                Some(after)
            } else {
                None
            }
        }
        MemberKind::Include => Some(left),
    }
}

/// Whether these are the units of the source members, in the order of their names.
fn are_sources(units: &[KeptUnit], entries: &[NamedMember]) -> bool
    ensures { result ≡ true → map unit_name units.now ≡ sources entries.now }
{
    let mut left = units;
    for entry in entries {
        let Some(after) = after_source(left, entry) else {
            return false;
        };
        left = after;
    }
    left.is_empty()
}

/// All units of a list, taken out of it. Where memory is refused, all stay in the list.
fn all_of(alloc: Global, units: &mut [KeptUnit]) -> Result<Vec<KeptUnit>, AllocError>
    ensures all { IfOk result (λ all. all.items ≡ units.old) }
    ensures refused { OnErr result (units.new ≡ units.old) }
{
    let mut all = Vec::with_capacity(alloc, units.len())?;
    for unit in units.iter_mut() {
        let name = unit.name();
        push_within(&mut all, mem::replace(unit, KeptUnit::new(name)));
    }
    Ok(all)
}

/// The units of the source members, in the order of their names, with what is kept of them, which is taken out of a
/// list of units. Where memory is refused, all stays in the list.
pub fn align(
    alloc: Global,
    units: &mut [KeptUnit],
    members: &Members,
) -> Result<Vec<KeptUnit>, AllocError>
    ensures aligned { IfOk result (λ kept. kept.items ≡ aligned units.old (sources members.now.entries)) }
    ensures refused { OnErr result (units.new ≡ units.old) }
{
    if are_sources(units, members.entries()) {
        return all_of(alloc, units);
    }
    let mut kept = Vec::with_capacity(alloc, members.entries().len())?;
    for entry in members.entries() {
        move_kept(units, &mut kept, entry);
    }
    Ok(kept)
}
