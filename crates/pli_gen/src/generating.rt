//! The code of a typed unit.
ghost use Rattle.std.specs.Prelude.{◌≡◌};
ghost use Rattle.pli_type_tree.specs.views.TypedView.{unit_view};
ghost use Rattle.pli_gen_emit.specs.answers.Units.{IsEmitted};
ghost use Rattle.pli_gen_emit.specs.Encoding.{code_of};
ghost use Rattle.pli_gen.specs.answers.Answers.{Generates};
ghost use Rattle.pli_gen.specs.declared.generating.GenerateError.TheVariants.{OutOfMemory};

use crate::limits::is_too_long;
use crate::unit::encode_unit;
use pli_code::{Code, CodedSignature};
use pli_gen_emit::{Emitted, One, emit_unit};
use pli_type_tree::TypedUnit;
use pli_value::Value;
use std::alloc::{AllocError, Global};
use thiserror::Error;

/// Why a unit has no code.
#[derive(Clone, Copy, Debug, PartialEq, Eq, Error)]
pub enum GenerateError {
    /// G1: a table would have more than 65,535 entries, a block more than 65,535 slots or a structure more than 65,535
    /// members, templates with initial values more than 16,777,216 bytes, or a number more than its field has room for
    /// (own).
    #[error("code too long")]
    TooLong,
    /// Memory ran out.
    #[error("out of memory")]
    OutOfMemory,
}

impl From<AllocError> for GenerateError {
    ghost from_gives = { λ _ e. e ≡ OutOfMemory };

    fn from(_error: AllocError) -> GenerateError {
        GenerateError::OutOfMemory
    }
}

/// The code of a unit of which this was emitted, unless it is too long (G1) or memory runs out.
fn code_emitted(
    alloc: Global,
    unit: &TypedUnit,
    emitted: &Emitted<'_>,
) -> Result<Code, GenerateError>
    requires { IsEmitted (unit_view unit.now) emitted.now }
    ensures { Generates result (code_of (unit_view unit.now)) }
{
    if is_too_long(unit, emitted) {
        return Err(GenerateError::TooLong);
    }
    let mut code = Code {
        signature: CodedSignature {
            parameters: Vec::new(alloc),
            result: None,
        },
        descriptions: Vec::new(alloc),
        templates: Vec::new(alloc),
        values: Vec::new(alloc),
        globals: Vec::new(alloc),
        blocks: Vec::new(alloc),
        instructions: Vec::new(alloc),
    };
    if encode_unit(alloc, unit, emitted, &mut code).is_err() {
        drop(code);
        return Err(GenerateError::OutOfMemory);
    }
    Ok(code)
}

/// The code of a typed unit, with the number 1 as a value that it may name, unless it is too long (G1) or memory runs
/// out.
fn code_with<'a>(alloc: Global, one: One<'a>, unit: &'a TypedUnit) -> Result<Code, GenerateError>
    ensures { Generates result (code_of (unit_view unit.now)) }
{
    let emitted = emit_unit(alloc, one, unit)?;
    let code = code_emitted(alloc, unit, &emitted);
    drop(emitted);
    code
}

/// The code of a typed unit, unless it is too long (G1) or memory runs out.
pub fn generate(alloc: Global, unit: &TypedUnit) -> Result<Code, GenerateError>
    ensures { Generates result (code_of (unit_view unit.now)) }
{
    let step = Value::Number(1);
    let one = One { value: &step };
    code_with(alloc, one, unit)
}
