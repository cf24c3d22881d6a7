//! The number 1.
ghost use Rattle.std.specs.Prelude.{◌≡◌, pos};
ghost use Rattle.pli_value.specs.Value as values;
ghost use Rattle.pli_value.specs.Value.{value_view};

use pli_value::Value;

/// The number 1 as a value that code may name: the step of a group where BY is absent.
#[derive(Clone, Copy)]
pub struct One<'a> {
    pub value: &'a Value,
    ghost is: { value_view value.now ≡ values.Number (pos 1) },
}
