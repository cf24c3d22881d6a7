//! Laws of what declarations and names mean.
ghost use Rattle.pli_declarations.specs.laws.UnitLaws.{FaultsAreFound, UnitsAreFound};

/// A law: the faults of declarations of a unit, and what its names mean, are what the passes over it find.
#[tactic(auto, using(crate::proofs::UnitsAlike::faults_alike, crate::proofs::UnitsAlike::units_alike))]
pub fn declarations_are_found()
    ensures faults { FaultsAreFound }
    ensures units { UnitsAreFound }
{}
