//! Laws of how many initial values variables have.
ghost use Rattle.pli_initial_laws.specs.InitialCounts.{InitialValuesAreFew};

/// A law: where the declarations of a unit have no fault, no variable has more initial values than scalars, so none has
/// more than 1,000,000.
pub fn initial_values_are_few()
    ensures { InitialValuesAreFew }
{}
