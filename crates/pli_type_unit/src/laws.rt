//! Laws and worked examples of how units are typed, and of what their names mean to types.
ghost use Rattle.pli_type_unit.specs.examples.NameExamples.{GlobalsOfUnit, NamesOfUnit};
ghost use Rattle.pli_type_unit.specs.laws.UnitLaws.{UnitsAreChecked};

/// A law: what a unit without faults of declarations is typed as, or its faults of types, is what the type checker
/// gives.
#[tactic(auto, using(crate::proofs::LimitsAlike::units_are_checked))]
pub fn units_are_checked()
    ensures { UnitsAreChecked }
{}

/// Worked examples of what names of a resolved unit mean, of what its variables are made from, and of globals in the
/// order of the text.
pub fn name_examples()
    ensures names { NamesOfUnit }
    ensures globals { GlobalsOfUnit }
{}
