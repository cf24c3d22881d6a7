//! The globals of a unit in the order of their names in the text.
ghost use Rattle.std.specs.Prelude.{◌≡◌, OnOk, map};
ghost use Rattle.std.specs.List.Sorted.{IsPermutation};
ghost use Rattle.pli_type_rules.specs.NamedUnits as units;
ghost use Rattle.pli_type_rules.specs.TextOrder.{in_order};
ghost use Rattle.pli_type_templates.specs.views.PlacedView.{placed_view};

use crate::made_variable::MadeVariable;
use pli_base::Name;
use pli_map::{Description, ParameterType};
use pli_program::VariableKind;
use std::alloc::AllocError;

/// A global of a unit.
#[derive(Clone, Copy)]
pub(crate) enum UnitGlobal<'a> {
    /// A variable of the unit's own.
    OwnVariable {
        kind: VariableKind,
        made: MadeVariable<'a>,
    },
    /// A variable of this name, which all units that declare it share.
    ExternalVariable {
        name: Name,
        kind: VariableKind,
        made: MadeVariable<'a>,
    },
    /// An external procedure of this name, with what it takes and gives.
    EntryPoint {
        name: Name,
        parameters: &'a [ParameterType],
        returned: Option<&'a Description>,
    },
}

/// A global, and the token of its name. Tokens are counted from 0.
#[derive(Clone, Copy)]
pub(crate) struct PlacedGlobal<'a> {
    pub at: u32,
    pub global: UnitGlobal<'a>,
}

/// Puts globals in the order of the text.
pub(crate) fn sort(globals: &mut Vec<PlacedGlobal<'_>>) -> Result<(), AllocError>
    ensures order { OnOk result (map placed_view globals.new.items
        ≡ in_order (λ (p : units.PlacedGlobal). p.at) (map placed_view globals.old.items)) }
    ensures same { IsPermutation globals.old.items globals.new.items }
{
    globals.sort_by_key(|placed| placed.at)?;
    Ok(())
}
