//! Instructions as the code of a unit has them.
ghost use Rattle.std.specs.Prelude.{◌≡◌};
ghost use Rattle.pli_code.specs.Instructions.{is_instruction_in, is_operation_in};

use crate::version::Version;
use pli_operation::Operation;

/// An instruction in the code of a unit: descriptions, templates and values are numbers of entries of its tables.
pub type Instruction = pli_program::Instruction<u16, u16, u16>;

/// Whether an operation may stand in a version: a quotient has no greater precision than the version's numbers.
fn operation_stands(operation: Operation, version: Version) -> bool
    ensures { result ≡ is_operation_in version operation }
{
    match operation {
        Operation::Divide { precision } => precision <= version.greatest_precision(),
        _ => true,
    }
}

/// Whether an instruction may stand in a version: none names a greater precision than that of the version's numbers,
/// and what works on parameters with a `*` stands where these do.
pub fn stands_in(instruction: Instruction, version: Version) -> bool
    ensures { result ≡ is_instruction_in version instruction }
{
    match instruction {
        Instruction::Operate(operation) => operation_stands(operation, version),
        Instruction::SubscriptIn { .. } => version.has_stars(),
        Instruction::BoundOf { .. } => version.has_stars(),
        Instruction::MakeStringDummy { .. } => version.has_stars(),
        Instruction::FitToPlace => version.has_stars(),
        _ => true,
    }
}
