//! What the names of references were found to fit.
ghost use Rattle.std.specs.Prelude.{◌≡◌, IfSome, List};
ghost use Rattle.pli_base.specs.Name.{Name as Characters};
ghost use Rattle.pli_declare_scopes.specs.declared.found.Found.{Found as What};
ghost use Rattle.pli_declare_scopes.specs.answers.Remembered.{AreRemembered};

use crate::found::Found;
use indexmap::IndexMap;
use pli_base::Name;
use std::alloc::{AllocError, AllocFailed};

/// What names were found to fit, if they are among these.
fn remembered_of(remembered: &IndexMap<Vec<Name>, Found>, names: &[Name]) -> Option<Found>
    ensures { (find : List Characters → What) → AreRemembered find remembered.now.entries →
        IfSome result (λ found. found ≡ find names.now) }
{
    remembered.get(names).copied()
}

/// What names were found to fit, if they are remembered. One name is not, since it is found at once.
pub(crate) fn recalled(remembered: &IndexMap<Vec<Name>, Found>, names: &[Name]) -> Option<Found>
    ensures { (find : List Characters → What) → AreRemembered find remembered.now.entries →
        IfSome result (λ found. found ≡ find names.now) }
{
    if names.len() < 2 {
        return None;
    }
    remembered_of(remembered, names)
}

/// Remembers what names were found to fit.
pub(crate) fn keep(
    remembered: &mut IndexMap<Vec<Name>, Found>,
    names: Vec<Name>,
    found: Found,
) -> Result<(), AllocError>
    ensures { (find : List Characters → What) → AreRemembered find remembered.old.entries → found ≡ find names.items
        → AreRemembered find remembered.new.entries }
{
    remembered.insert(names, found)?;
    Ok(())
}

/// Forgets what names were found to fit. Mostly nothing is remembered: items are declared before names are looked up.
pub(crate) fn forget(remembered: &mut IndexMap<Vec<Name>, Found>)
    ensures { (find : List Characters → What) → AreRemembered find remembered.new.entries }
{
    if remembered.is_empty() {
        return;
    }
    remembered.clear();
}
