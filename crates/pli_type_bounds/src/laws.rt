//! Laws of what typed units say.
ghost use Rattle.pli_type_bounds.specs.UnitLaws.{TypedUnitsAreWellFormed};

/// A law: what the type checker gives for a unit that was read, and whose declarations have no faults, is well formed:
/// what it says is within the limits of the language, and what it names by a number is one of its own.
pub fn typed_units_are_well_formed()
    ensures { TypedUnitsAreWellFormed }
{}
