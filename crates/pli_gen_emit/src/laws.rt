//! Laws of the code of a unit.
ghost use Rattle.pli_gen_emit.specs.CodingLaws.{CodesAlike};

/// A law: the code that is emitted for a unit is that of its items, with their labels at their places.
#[tactic(auto, using(crate::proofs::ItemsMake::codes_alike))]
pub fn codes_alike()
    ensures { CodesAlike }
{}
