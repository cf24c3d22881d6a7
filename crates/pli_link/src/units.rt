//! Units to be linked, and the names that faults of linking tell, with their units.
ghost use Rattle.std.specs.Prelude.{◌≡◌};
ghost use Rattle.pli_link.specs.Units.{procedure_of};
ghost use Rattle.pli_link.specs.views.UnitView.{compiled_view};

use pli_base::Name;
use pli_code::Deck;

/// A unit to be linked: the name of its member, and its deck, which is lent.
#[derive(Clone, Copy)]
pub struct NamedUnit<'a> {
    pub unit: Name,
    pub deck: &'a Deck,
}

/// A name that a unit has: of its procedure, of an external variable or of an entry.
#[derive(Clone, Copy)]
pub struct LinkedName {
    pub name: Name,
    pub unit: Name,
}

/// The name of a unit's procedure, with the unit.
pub(crate) fn procedure_of(unit: &NamedUnit<'_>) -> LinkedName
    ensures { result ≡ procedure_of (compiled_view unit.now) }
{
    LinkedName {
        name: unit.deck.name,
        unit: unit.unit,
    }
}
