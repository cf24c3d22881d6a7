//! What the globals of a unit lead to.
ghost use Rattle.std.specs.Prelude.{◌≡◌, None, option_map, slice_get, MatchOption};
ghost use Rattle.pli_store.specs.views.StorageView.{place_view};
ghost use Rattle.pli_world.specs.World.{static_in};
ghost use Rattle.pli_code.specs.Modules.{unit_of};
ghost use Rattle.pli_code.specs.views.CodeView.{member_view};
ghost use Rattle.pli_machine_activations.specs.views.ImageView.{image_of};
ghost use Rattle.pli_machine_activations.specs.views.TableView.{lying_at, stack_at, standing_of, entry_at, entry_found};

use crate::linked::LinkedGlobal;
use crate::loaded::Loaded;
use crate::numbered::{laid_at, linked_at, table_at};
use crate::unit::ActiveUnit;
use pli_store::Place;

/// The unit of a number.
#[inline]
pub fn unit_at<'l, 'm>(loaded: &'l Loaded<'m>, number: usize) -> Option<ActiveUnit<'l, 'm>>
    ensures { MatchOption result (slice_get (image_of loaded.now).linked.units number ≡ None)
        (λ u. (u.number ≡ number) × (u.loaded.now ≡ loaded.now)) }
{
    let linked = linked_at(loaded.module, number)?;
    let globals = table_at(loaded, number)?;
    let laid = laid_at(loaded, number);
    Some(ActiveUnit {
        loaded,
        number,
        linked,
        globals,
        laid,
    })
}

/// The place of the STATIC variable of a number.
#[inline]
fn place_at<'m>(globals: &[LinkedGlobal<'m>], number: usize) -> Option<Place<'m>>
    ensures { option_map place_view result ≡ lying_at (standing_of (slice_get globals.now number)) }
{
    match globals.get(number) {
        Some(LinkedGlobal::Variable(place)) => Some(*place),
        Some(LinkedGlobal::ControlledVariable(_)) => None,
        Some(LinkedGlobal::EntryPoint(_)) => None,
        None => None,
    }
}

/// The place of the STATIC variable of a number among the globals of a unit.
#[inline]
pub fn static_place<'m>(unit: &ActiveUnit<'_, 'm>, number: usize) -> Option<Place<'m>>
    ensures { lying_at (static_in (image_of unit.now.loaded.now).statics unit.now.number number)
        ≡ option_map place_view result }
{
    place_at(unit.globals, number)
}

/// The stack of the CONTROLLED variable of a number.
#[inline(always)]
fn stack_in(globals: &[LinkedGlobal<'_>], number: usize) -> Option<usize>
    ensures { result ≡ stack_at (standing_of (slice_get globals.now number)) }
{
    match globals.get(number) {
        Some(LinkedGlobal::ControlledVariable(stack)) => Some(*stack),
        Some(LinkedGlobal::Variable(_)) => None,
        Some(LinkedGlobal::EntryPoint(_)) => None,
        None => None,
    }
}

/// The number of the stack of the CONTROLLED variable of a number among the globals of a unit.
#[inline(always)]
pub fn static_stack(unit: &ActiveUnit<'_, '_>, number: usize) -> Option<usize>
    ensures { stack_at (static_in (image_of unit.now.loaded.now).statics unit.now.number number) ≡ result }
{
    stack_in(unit.globals, number)
}

/// The unit of the entry of a number.
fn entry_in(globals: &[LinkedGlobal<'_>], number: usize) -> Option<u16>
    ensures { entry_found (slice_get globals.now number) ≡ result }
{
    match globals.get(number) {
        Some(LinkedGlobal::EntryPoint(other)) => Some(*other),
        Some(LinkedGlobal::Variable(_)) => None,
        Some(LinkedGlobal::ControlledVariable(_)) => None,
        None => None,
    }
}

/// The unit of the entry of a number among the globals of a unit.
pub fn entry_at(unit: &ActiveUnit<'_, '_>, number: usize) -> Option<u16>
    ensures { entry_at (slice_get (unit_of (member_view unit.now.linked.now)).globals number) ≡ result }
{
    entry_in(unit.globals, number)
}
