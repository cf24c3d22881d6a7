//! Laws of the bytes of instructions, and worked examples of them and of what they name.
ghost use Rattle.pli_code.specs.Fields.{BothWays};
ghost use Rattle.pli_code.specs.Instructions.{instruction};
ghost use Rattle.pli_code.specs.examples.InstructionExamples.{NumberedSo, StarredSo};
ghost use Rattle.pli_code.specs.examples.NamingExamples.{MovedSo, LookedUpSo};

/// A law: an instruction that is read is spelled by the bytes that were there, and one that is spelled is read again,
/// whatever stands after it.
#[tactic(auto, using(crate::proofs::InstructionLaws::instructions_both_ways))]
pub fn instructions_both_ways()
    ensures { BothWays instruction }
{}

/// Worked examples: instructions with their bytes, and bytes that are none, in each version.
#[tactic(auto, using(crate::proofs::Worked::numbered_so, crate::proofs::Worked::starred_so))]
pub fn worked_instructions()
    ensures numbered { NumberedSo }
    ensures starred { StarredSo }
{}

/// Worked examples: instructions that name something else, and instructions that are looked up in tables.
#[tactic(auto, using(crate::proofs::Worked::moved_so, crate::proofs::Worked::looked_up_so))]
pub fn worked_naming()
    ensures moved { MovedSo }
    ensures looked_up { LookedUpSo }
{}
