//! Values of the language, each with what it holds.
ghost use Rattle.std.specs.Prelude.{◌≡◌, IfOk};
ghost use Rattle.pli_value.specs.Value.{value_view};

use crate::bit::Bits;
use crate::locator::Locator;
use std::alloc::{AllocError, Global};

/// A value of a scalar variable or of an expression (X3.74). An area is none: what it holds is storage.
#[derive(Drop)]
pub enum Value {
    /// FIXED BINARY.
    Number(i64),
    /// CHARACTER and CHARACTER VARYING, a byte for each character.
    Characters(Vec<u8>),
    /// BIT.
    Bits(Bits),
    /// POINTER and OFFSET.
    Locator(Locator),
}

impl Value {
    /// An equal value.
    pub fn copy(&self, alloc: Global) -> Result<Value, AllocError>
        ensures { IfOk result (λ new. value_view new ≡ value_view self.now) }
    {
        match self {
            Value::Number(number) => Ok(Value::Number(*number)),
            Value::Characters(characters) => Ok(Value::Characters(Vec::from_slice(
                alloc, characters,
            )?)),
            Value::Bits(bits) => Ok(Value::Bits(bits.copy(alloc)?)),
            Value::Locator(locator) => Ok(Value::Locator(*locator)),
        }
    }
}
