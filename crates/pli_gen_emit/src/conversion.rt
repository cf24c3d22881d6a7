//! The code of what converts a value to a variable that gets it.
#![tactic(auto, using(crate::proofs::EmitLemmas::extended_both))]

ghost use Rattle.std.specs.Prelude.{◌++◌, ◌∷◌, [], map};
ghost use Rattle.pli_program.specs.declared.instruction.Instruction.TheVariants as op;
ghost use Rattle.pli_type_tree.specs.views.TypedView.{conversion_view, operation_view};
ghost use Rattle.pli_gen_emit.specs.TreeTranslation.{operations_code, conversion_code};
ghost use Rattle.pli_gen_emit.specs.answers.Emitting.{Emits};

use crate::emitter::Emitter;
use crate::expression::emit_place;
use pli_code::Instruction;
use pli_type_tree::{Conversion, TypedOperation};

/// Emits one operation after the other.
fn emit_operations<'a>(operations: &'a [TypedOperation], code: &mut Emitter<'a>)
    ensures { Emits code.old code.new (operations_code (map operation_view operations.now)) }
{
    for operation in operations {
        code.operation(operation);
    }
}

/// Emits a conversion.
fn emit_conversion<'a>(conversion: &'a Conversion, code: &mut Emitter<'a>)
    ensures { Emits code.old code.new (conversion_code (conversion_view conversion.now)) }
{
    match conversion {
        Conversion::ByOperations(operations) => emit_operations(operations.as_slice(), code),
        Conversion::AsPointerIn(area) => {
            emit_place(area, code);
            code.emit(Instruction::ToPointer);
        }
        Conversion::AsOffsetIn(area) => {
            emit_place(area, code);
            code.emit(Instruction::ToOffset);
        }
        Conversion::ToPlace(operations) => {
            emit_operations(operations.as_slice(), code);
            code.emit(Instruction::FitToPlace);
        }
    }
}

/// Emits a conversion and the store.
pub(crate) fn emit_store<'a>(conversion: &'a Conversion, code: &mut Emitter<'a>)
    ensures { Emits code.old code.new (conversion_code (conversion_view conversion.now) ++ op.Store ∷ []) }
{
    emit_conversion(conversion, code);
    code.emit(Instruction::Store);
}
