//! Instructions that lead a place on.
ghost use Rattle.std.specs.Prelude.{◌≡◌, ◌&&◌, ◌≤ℤ◌, int_le, true, Some, IfOk};
ghost use Rattle.pli_map.specs.views.DescriptionView.{description_view};
ghost use Rattle.pli_store.specs.views.DimensionSeen.{dimension_seen};
ghost use Rattle.pli_store.specs.views.StorageView.{place_view};
ghost use Rattle.pli_machine_activations.specs.views.MachineView.{Acts};
ghost use Rattle.pli_machine_perform.specs.views.ActView.{along_as, bounded_as, led_on_as, subscripted_as};
ghost use Rattle.pli_machine_perform.specs.views.ActView.{subscripted_by_as};

use pli_machine_activations::Stop;
use pli_machine_calculating::bounded;
use pli_machine_operate::{Operand, push};
use pli_map::{Bounds, Description, Dimension, WhichBound, nth_dimension};
use pli_run::RunError;
use pli_store::Place;
use pli_value::Value;
use std::alloc::AllocError;

/// Leads a place on to a part; no rule fits where that is more than 1,000,000 bytes after the beginning.
#[inline]
pub fn field<'m>(
    operands: &mut Vec<Operand<'m>>,
    place: Place<'m>,
    offset: u32,
    description: &'m Description,
) -> Result<Option<Stop>, AllocError>
    ensures { IfOk result (Acts (led_on_as offset (description_view description.now) (place_view place.entry))
        operands.old.items operands.new.items) }
{
    match place.field(offset, description) {
        Some(part) => {
            push(operands, Operand::AtPlace(part))?;
            Ok(None)
        }
        None => Ok(Some(Stop::Fault)),
    }
}

/// Tests a number and leads a place on by so many bytes for each number over the low one; no rule fits where that is
/// more than 1,000,000 bytes after the beginning.
#[inline]
pub fn subscript<'m>(
    operands: &mut Vec<Operand<'m>>,
    place: Place<'m>,
    number: i64,
    low: i32,
    high: i32,
    multiplier: u32,
) -> Result<Option<Stop>, AllocError>
    ensures { IfOk result (Acts (subscripted_as low high multiplier number (place_view place.entry)) operands.old.items
        operands.new.items) }
{
    let Some(number) = bounded(low, high, number) else {
        return Ok(Some(Stop::Raised(RunError::SubscriptRange)));
    };
    match place.element(low, multiplier, number) {
        Some(part) => {
            push(operands, Operand::AtPlace(part))?;
            Ok(None)
        }
        None => Ok(Some(Stop::Fault)),
    }
}

/// Whether a number is within bounds.
fn is_within(bounds: Bounds, subscript: i64) -> bool
    ensures is { result ≡ (int_le bounds.low subscript && int_le subscript bounds.high) }
    ensures inside { result ≡ true → bounds.low ≤ℤ subscript }
{
    i64::from(bounds.low) <= subscript && subscript <= i64::from(bounds.high)
}

/// Tests a number and leads a place on by a subscript of a dimension; no rule fits where that is more than 1,000,000
/// bytes after the beginning.
fn lead_along<'m>(
    operands: &mut Vec<Operand<'m>>,
    place: Place<'m>,
    dimension: Dimension<'m>,
    number: i64,
) -> Result<Option<Stop>, AllocError>
    ensures { IfOk result (Acts (along_as (Some (dimension_seen dimension.entry)) number (place_view place.entry))
        operands.old.items operands.new.items) }
{
    if !is_within(dimension.bounds, number) {
        return Ok(Some(Stop::Raised(RunError::SubscriptRange)));
    }
    match place.along(dimension, number) {
        Some(part) => {
            push(operands, Operand::AtPlace(part))?;
            Ok(None)
        }
        None => Ok(Some(Stop::Fault)),
    }
}

/// Leads a place on by a subscript of the dimension of a number, counted from 1, of the array that stands there; no
/// rule fits where it has no such dimension.
pub fn subscript_by<'m>(
    operands: &mut Vec<Operand<'m>>,
    place: Place<'m>,
    number: u8,
    subscript: i64,
) -> Result<Option<Stop>, AllocError>
    ensures { IfOk result (Acts (subscripted_by_as number subscript (place_view place.entry)) operands.old.items
        operands.new.items) }
{
    match nth_dimension(place.description, number) {
        Some(dimension) => lead_along(operands, place, dimension, subscript),
        None => Ok(Some(Stop::Fault)),
    }
}

/// Gives a bound of the dimension of a number of the array that stands at a place, which is not used; no rule fits
/// where it has no such dimension.
pub fn bound<'m>(
    operands: &mut Vec<Operand<'m>>,
    place: Place<'m>,
    which: WhichBound,
    number: u8,
) -> Result<Option<Stop>, AllocError>
    ensures { IfOk result (Acts (bounded_as which number (place_view place.entry)) operands.old.items
        operands.new.items) }
{
    match nth_dimension(place.description, number) {
        Some(dimension) => {
            let bound = i64::from(which.of(dimension.bounds));
            push(operands, Operand::OfValue(Value::Number(bound)))?;
            Ok(None)
        }
        None => Ok(Some(Stop::Fault)),
    }
}
