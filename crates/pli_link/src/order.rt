//! Names of procedures, and names in order.
ghost use Rattle.std.specs.Prelude.{◌≡◌, ◌++◌, ◌∷◌, [], map, OnOk, IfOk, if◌then◌else◌};
ghost use Rattle.pli_link.specs.Link as link;
ghost use Rattle.pli_link.specs.Units.{procedure_of};
ghost use Rattle.pli_link.specs.views.UnitView.{compiled_view};

use crate::units::{LinkedName, NamedUnit, procedure_of};
use indexmap::IndexSet;
use std::alloc::{AllocError, Global};

/// Puts names in their order; those that are equal stay as they stand.
pub(crate) fn sort(names: &mut Vec<LinkedName>) -> Result<(), AllocError>
    ensures { OnOk result (names.new.items ≡ link.in_order names.old.items) }
{
    names.sort_by_key(|name| name.name)?;
    Ok(())
}

/// The main procedures, in the order of their units.
pub(crate) fn main_names(
    alloc: Global,
    units: &[NamedUnit<'_>],
) -> Result<Vec<LinkedName>, AllocError>
    ensures { IfOk result (λ names. names.items ≡ map procedure_of (link.mains (map compiled_view units.now))) }
{
    let mut names = Vec::new(alloc);
    for unit in units {
        add_unless(&mut names, unit, !unit.deck.is_main)?;
    }
    Ok(names)
}

/// Appends the procedure of a unit, unless it is left out.
fn add_unless(
    names: &mut Vec<LinkedName>,
    unit: &NamedUnit<'_>,
    is_left_out: bool,
) -> Result<(), AllocError>
    ensures { OnOk result (names.new.items ≡ names.old.items
        ++ (if is_left_out then [] else procedure_of (compiled_view unit.now) ∷ [])) }
{
    if !is_left_out {
        names.push(procedure_of(unit))?;
    }
    Ok(())
}

/// The procedures that have the name of an earlier one, in the order of their units.
pub(crate) fn repeated_names(
    alloc: Global,
    units: &[NamedUnit<'_>],
) -> Result<Vec<LinkedName>, AllocError>
    ensures { IfOk result (λ names. names.items ≡ link.defined_again [] (map compiled_view units.now)) }
{
    let mut before = IndexSet::new(alloc);
    let mut names = Vec::new(alloc);
    for unit in units {
        let is_new = before.insert(unit.deck.name)?;
        add_unless(&mut names, unit, is_new)?;
    }
    Ok(names)
}
