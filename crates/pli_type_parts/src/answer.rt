//! Faults of parts of statements.
ghost use Rattle.std.specs.Prelude.{◌≡◌, ◌++◌, IfOk, OnOk};
ghost use Rattle.pli_type_parts.specs.Parts.{IsKnown, faults_in, part_in};

use pli_base::{Failure, Fault};
use std::alloc::AllocError;

/// A part of a statement. Where it has a fault, that is put after the others, and the part is none.
pub fn noted<T: Drop>(
    answer: Result<T, Failure<Fault>>,
    faults: &mut Vec<Fault>,
) -> Result<Option<T>, AllocError>
    ensures part { IfOk result (λ part. part ≡ part_in answer) }
    ensures faults { OnOk result (faults.new.items ≡ faults.old.items ++ faults_in answer) }
    ensures known { OnOk result (IsKnown answer) }
{
    match answer {
        Ok(part) => Ok(Some(part)),
        Err(Failure::Fault(fault)) => {
            faults.push(fault)?;
            Ok(None)
        }
        Err(Failure::OutOfMemory) => Err(AllocError),
    }
}
