//! Laws of tables.
ghost use Rattle.pli_declare.specs.laws.TableLaws.{OwnersStandBefore};

/// A law: in each block each name stands after the item that it is a member of.
#[tactic(auto, using(pli_declare::proofs::MembersStandAfter::owners_stand_before))]
pub fn owners_stand_before()
    ensures { OwnersStandBefore }
{}
