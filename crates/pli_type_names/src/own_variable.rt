//! Variables of their own.
ghost use Rattle.std.specs.Prelude.{◌≡◌, true};
ghost use Rattle.pli_map.specs.views.DescriptionView.{description_view};
ghost use Rattle.pli_type_rules.specs.NamedUnits.{is_stored};

use crate::place::Location;
use pli_map::Description;

/// A variable of its own that is compiled: where it begins, and what it is.
#[derive(Clone, Copy)]
pub(crate) struct OwnVariable<'a> {
    pub begins: Location,
    pub description: &'a Description,
    ghost stored: { is_stored 63 (description_view description.now) ≡ true },
}
