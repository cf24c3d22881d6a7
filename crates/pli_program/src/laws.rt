//! The law of naming.
ghost use Rattle.pli_program.specs.laws.NamingLaws.{NamedByItself};

/// A law: an instruction is itself where what it names is answered by itself.
#[tactic(auto, using(crate::proofs::NamedAlike::named_by_itself))]
pub fn named_by_itself()
    ensures { NamedByItself }
{}
