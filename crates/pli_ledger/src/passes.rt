//! The two passes over the units of a build: those that are due are expanded, then those that are stale are compiled.
ghost use Rattle.std.specs.Prelude.{◌≡◌, All, IfOk, OnOk, length};
ghost use Rattle.std.specs.List.{count_by};
ghost use Rattle.pli_ledger.specs.answers.Compiling.{IsRecalled, one_if, recompiled, refreshed, unit_is_due};
ghost use Rattle.pli_ledger.specs.answers.Compiling.{unit_is_stale};
ghost use Rattle.pli_ledger.specs.answers.Passing.{PassedUpTo, Passes};

use crate::kept::KeptUnit;
use pli_deck::Compiler;
use pli_include::Expander;
use pli_members::Members;
use std::alloc::AllocError;

/// 1 where something was done.
fn one_if(done: bool) -> u64
    ensures { result ≡ one_if done }
{
    if done { 1 } else { 0 }
}

/// Expands the units that are due, and answers how many they were. Where memory is refused, the units before stay
/// expanded.
pub fn expand_due(
    units: &mut [KeptUnit],
    members: &Members,
    expander: &mut Expander,
) -> Result<u64, AllocError>
    requires { All (IsRecalled members.now) units.old }
    ensures number { IfOk result (λ number. number ≡ count_by (unit_is_due members.now) units.old) }
    ensures all { OnOk result (PassedUpTo (refreshed members.now) (unit_is_due members.now)
        (length units.old) units.old units.new expander.old expander.new) }
    ensures some { Passes (refreshed members.now) (unit_is_due members.now) units.old units.new expander.old
        expander.new }
{
    let mut number = 0;
    for unit in units.iter_mut() {
        number += one_if(unit.refresh(members, expander)?);
    }
    Ok(number)
}

/// Compiles the units that are stale, and answers how many they were. Where memory is refused, the units before stay
/// compiled.
pub fn compile_stale(units: &mut [KeptUnit], compiler: &mut Compiler) -> Result<u64, AllocError>
    ensures number { IfOk result (λ number. number ≡ count_by unit_is_stale units.old) }
    ensures all { OnOk result (PassedUpTo recompiled unit_is_stale
        (length units.old) units.old units.new compiler.old compiler.new) }
    ensures some { Passes recompiled unit_is_stale units.old units.new compiler.old compiler.new }
{
    let mut number = 0;
    for unit in units.iter_mut() {
        number += one_if(unit.recompile(compiler)?);
    }
    Ok(number)
}
