//! Variables that are made.
ghost use Rattle.std.specs.Prelude.{◌≡◌, true};
ghost use Rattle.pli_map.specs.views.DescriptionView.{description_view};
ghost use Rattle.pli_type_rules.specs.NamedUnits.{is_stored};

use crate::items::ValuedItem;
use pli_base::declaration::InitialValue;
use pli_map::Description;

/// A variable that is made.
#[derive(Clone, Copy)]
pub(crate) struct MadeVariable<'a> {
    /// The token of its name, counted from 0.
    pub at: u32,
    pub description: &'a Description,
    /// The values in its INITIAL.
    pub values: &'a [InitialValue],
    /// Its members with INITIAL.
    pub members: &'a [ValuedItem<'a>],
    ghost stored: { is_stored 63 (description_view description.now) ≡ true },
}
