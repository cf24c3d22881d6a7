//! Calls of POINTER and OFFSET.
ghost use Rattle.std.specs.Prelude.{◌≡◌, ℕ, map, option_map, IfOk};
ghost use Rattle.pli_type_rules.specs.FunctionCalls as spec;
ghost use Rattle.pli_type.specs.views.ValueView.{value_view};
ghost use Rattle.pli_type_operands.specs.Within.{area_given, built_in, located_of, made_within};
ghost use Rattle.pli_type_operands.specs.views.TypingView.{argument_view};
ghost use Rattle.pli_type_tree.specs.views.TypedView.{expression_view};

use crate::argument::Argument;
use crate::function::values_in;
use pli_type::{TypedValue, offset_within, pointer_within};
use pli_type_rules::Beginning;
use std::alloc::{AllocError, Global};

/// The functions that make something of a locator within an area.
#[derive(Clone, Copy)]
pub(crate) enum LocatorFunction {
    /// POINTER, of an offset.
    Pointer,
    /// OFFSET, of a pointer.
    Offset,
}

/// Where the area begins that the second of two arguments is, if it is one.
fn area_given(arguments: &[Argument<'_>]) -> Option<Option<Beginning>>
    ensures { result ≡ area_given (map argument_view arguments.now) }
{
    let [_locator, area] = arguments else {
        return None;
    };
    Some(area.denoted.area())
}

/// What is made of a value within an area.
fn made_within(
    alloc: Global,
    function: LocatorFunction,
    area: Beginning,
    value: TypedValue,
) -> Result<Option<TypedValue>, AllocError>
    ensures { IfOk result (λ given. option_map value_view given
        ≡ made_within function area (expression_view value.expression) value.kind) }
{
    match function {
        LocatorFunction::Pointer => offset_within(alloc, area, value),
        LocatorFunction::Offset => pointer_within(alloc, area, value),
    }
}

/// What is given of the first of these values, within an area if there is one.
fn located_of(
    alloc: Global,
    function: LocatorFunction,
    values: Vec<TypedValue>,
    area: Option<Beginning>,
) -> Result<Option<TypedValue>, AllocError>
    ensures { IfOk result (λ given. option_map value_view given
        ≡ located_of function (map value_view values.items) area) }
{
    let mut values = values.into_iter();
    let Some(value) = values.next() else {
        return Ok(None);
    };
    let Some(area) = area else {
        drop(value);
        return Ok(None);
    };
    made_within(alloc, function, area, value)
}

/// What POINTER or OFFSET gives of its arguments.
pub(crate) fn located_called(
    alloc: Global,
    function: LocatorFunction,
    arguments: Vec<Argument<'_>>,
) -> Result<Option<TypedValue>, AllocError>
    ensures { IfOk result (λ given. (greatest : ℕ) → option_map value_view given
        ≡ spec.of_arguments greatest (built_in function) (map argument_view arguments.entry.items)) }
{
    let Some(area) = area_given(arguments.as_slice()) else {
        return Ok(None);
    };
    let mut arguments = arguments;
    arguments.truncate(1);
    match values_in(alloc, arguments)? {
        Some(values) => located_of(alloc, function, values, area),
        None => Ok(None),
    }
}
