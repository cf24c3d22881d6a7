//! The module of a build, as its bytes.
ghost use Rattle.std.specs.Prelude.{◌≡◌, map, IfOk};
ghost use Rattle.std.specs.List.{AllByRecursion};
ghost use Rattle.pli_code.specs.views.CodeView.{lent_member_view, lent_module_view};
ghost use Rattle.pli_deck_write.specs.ModuleSpelling.{module_bytes};
ghost use Rattle.pli_deck_write.specs.answers.SpelledUnits.{AreDecks};
ghost use Rattle.pli_deck_laws.specs.UnitTypes.{IsTypedUnit};

use pli_deck_laws::units_are_typed;
use pli_deck_write::write_spelled_module;
use pli_link::Linked;
use std::alloc::{AllocError, Global};

/// A module as its bytes.
#[derive(Drop)]
pub struct StoredModule {
    pub bytes: Vec<u8>,
}

/// The bytes of linked units, whose decks have these bytes. An error comes where memory runs out.
pub fn stored(
    alloc: Global,
    linked: &Linked<'_>,
    decks: &[&[u8]],
) -> Result<StoredModule, AllocError>
    requires { AreDecks (map (λ d. d.now) decks.now) (lent_module_view linked.now.program).units }
    ensures bytes { IfOk result (λ s. s.bytes.items ≡ module_bytes (lent_module_view linked.now.program)) }
    ensures typed { AllByRecursion IsTypedUnit (map lent_member_view linked.now.program.units.items) }
{
    units_are_typed(linked.program.units.as_slice());
    let bytes = write_spelled_module(alloc, &linked.program, decks)?;
    Ok(StoredModule { bytes })
}
