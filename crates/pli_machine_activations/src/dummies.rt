//! Dummy arguments.
ghost use Rattle.std.specs.Prelude.{◌≡◌, ◌<◌, ◌∷◌, true, Some, map, slice_get, IfOk};
ghost use Rattle.pli_code.specs.CodeTables.{block_looked_up};
ghost use Rattle.pli_code.specs.views.CodeView.{code_view, block_view};
ghost use Rattle.pli_map.specs.views.DescriptionView.{description_view};
ghost use Rattle.pli_value.specs.Value.{value_view, Number};
ghost use Rattle.pli_machine_step.specs.Machine.{OfValue, AtDummy, dummied, string_dummied};
ghost use Rattle.pli_program.specs.declared.instruction.Instruction.TheVariants.{MakeDummy, MakeStringDummy};
ghost use Rattle.pli_program.specs.Templates.{dummy};
ghost use Rattle.pli_store.specs.answers.Strings.{has_form};
ghost use Rattle.pli_store.specs.views.StorageView.{place_view};
ghost use Rattle.pli_machine_operate.specs.views.OperandView.{taken_operand};
ghost use Rattle.pli_machine_activations.specs.answers.DummyCalls.{called_with_dummy};
ghost use Rattle.pli_machine_activations.specs.answers.Used.{IsUsedUp};
ghost use Rattle.pli_machine_activations.specs.views.Image.{Image};
ghost use Rattle.pli_machine_activations.specs.views.MachineView.{Does, Moves};

use crate::calling::call_last;
use crate::machine::{Machine, Stop};
use crate::stops::stop_at;
use crate::unit::ActiveUnit;
use pli_code::Block;
use pli_machine_operate::{TakenPlace, pop_number, pop_value, push_dummy};
use pli_map::{Description, StringForm};
use pli_store::{Place, StringDescriptions};
use pli_value::Value;
use std::alloc::{AllocError, Global};

/// Takes a value and puts the place of a dummy argument of it upon the operands. A number takes the short way.
pub fn make_dummy<'m>(
    alloc: Global,
    machine: &mut Machine<'m>,
    description: &'m Description,
) -> Result<Option<Stop>, AllocError>
    ensures { IfOk result (Does (MakeDummy (dummy (description_view description.now))) machine.old machine.new) }
{
    match pop_number(&mut machine.here.operands) {
        Some(number) => dummy_of_number(alloc, machine, description, number),
        None => dummy_of_newest(alloc, machine, description),
    }
}

/// The same of any value.
fn dummy_of_newest<'m>(
    alloc: Global,
    machine: &mut Machine<'m>,
    description: &'m Description,
) -> Result<Option<Stop>, AllocError>
    ensures { IfOk result (Does (MakeDummy (dummy (description_view description.now))) machine.old machine.new) }
{
    match pop_value(alloc, &mut machine.here.operands)? {
        Some(value) => dummy_with(alloc, machine, description, value),
        None => Ok(Some(Stop::Fault)),
    }
}

/// Puts the place of a dummy argument of a value upon the operands, as MAKE_DUMMY does where the value is the newest of
/// them.
#[inline(never)]
fn dummy_with<'m>(
    alloc: Global,
    machine: &mut Machine<'m>,
    description: &'m Description,
    value: Value,
) -> Result<Option<Stop>, AllocError>
    ensures { IfOk result (λ stop. (image : Image) → Moves image
        (λ here frames w. dummied (description_view description.now)
        (OfValue (value_view value) ∷ here.operands) here frames w) machine.old machine.new stop) }
{
    match machine.storage.make_dummy(alloc, description, value) {
        Ok(place) => {
            machine.here.room.pending.push(place.generation)?;
            push_dummy(&mut machine.here.operands, place)?;
            Ok(None)
        }
        Err(fault) => Ok(Some(stop_at(fault)?)),
    }
}

/// The same of a number.
#[inline(always)]
pub fn dummy_of_number<'m>(
    alloc: Global,
    machine: &mut Machine<'m>,
    description: &'m Description,
    number: i64,
) -> Result<Option<Stop>, AllocError>
    ensures { IfOk result (λ stop. (image : Image) → Moves image
        (λ here frames w. dummied (description_view description.now)
        (OfValue (Number number) ∷ here.operands) here frames w) machine.old machine.new stop) }
{
    match machine.storage.make_dummy_at_once(description, number) {
        Some(place) => {
            machine.here.room.pending.push(place.generation)?;
            push_dummy(&mut machine.here.operands, place)?;
            Ok(None)
        }
        None => dummy_with(alloc, machine, description, Value::Number(number)),
    }
}

/// Makes a dummy argument of a number that is not made at once, and activates the block of a number with it as
/// `call_with_dummy` does.
#[inline(never)]
fn call_with_far<'m>(
    alloc: Global,
    unit: &ActiveUnit<'_, 'm>,
    machine: &mut Machine<'m>,
    description: &'m Description,
    argument: i64,
    number: u16,
    block: &Block,
    arguments: u8,
) -> Result<Option<Stop>, AllocError>
    requires found { slice_get (code_view unit.now.linked.now.deck.code).blocks number ≡ Some (block_view block.now) }
    requires some { 0 < arguments }
    ensures { IfOk result (λ stop. (image : Image) → Moves image
        (called_with_dummy (description_view description.now) (Number argument) number arguments
        (slice_get (map (block_looked_up (code_view unit.now.linked.now.deck.code))
        (code_view unit.now.linked.now.deck.code).blocks) number))
        machine.old machine.new stop) }
{
    match machine
        .storage
        .make_dummy(alloc, description, Value::Number(argument))
    {
        Ok(place) => call_last(alloc, unit, machine, number, block, arguments, place),
        Err(fault) => Ok(Some(stop_at(fault)?)),
    }
}

/// Makes a dummy argument of a number and activates the block of a number of the newest activation's unit with it as the
/// last of so many arguments, of which the others are taken off the operands, if it is a procedure of as many parameters.
#[inline(always)]
pub fn call_with_dummy<'m>(
    alloc: Global,
    unit: &ActiveUnit<'_, 'm>,
    machine: &mut Machine<'m>,
    description: &'m Description,
    argument: i64,
    number: u16,
    block: &Block,
    arguments: u8,
) -> Result<Option<Stop>, AllocError>
    requires found { slice_get (code_view unit.now.linked.now.deck.code).blocks number ≡ Some (block_view block.now) }
    requires some { 0 < arguments }
    ensures { IfOk result (λ stop. (image : Image) → Moves image
        (called_with_dummy (description_view description.now) (Number argument) number arguments
        (slice_get (map (block_looked_up (code_view unit.now.linked.now.deck.code))
        (code_view unit.now.linked.now.deck.code).blocks) number))
        machine.old machine.new stop) }
{
    match machine.storage.make_dummy_at_once(description, argument) {
        Some(place) => call_last(alloc, unit, machine, number, block, arguments, place),
        None => call_with_far(
            alloc,
            unit,
            machine,
            description,
            argument,
            number,
            block,
            arguments,
        ),
    }
}

/// Takes a string and puts the place of a dummy argument upon the operands that is as long as it is.
pub fn make_string_dummy<'m>(
    alloc: Global,
    machine: &mut Machine<'m>,
    strings: &'m StringDescriptions,
    form: StringForm,
) -> Result<Option<Stop>, AllocError>
    requires { has_form strings.now form ≡ true }
    ensures { IfOk result (Does (MakeStringDummy form) machine.old machine.new) }
{
    match pop_value(alloc, &mut machine.here.operands)? {
        Some(value) => string_dummy_with(alloc, machine, strings, form, value),
        None => Ok(Some(Stop::Fault)),
    }
}

/// The same where the string is the newest value.
fn string_dummy_with<'m>(
    alloc: Global,
    machine: &mut Machine<'m>,
    strings: &'m StringDescriptions,
    form: StringForm,
    value: Value,
) -> Result<Option<Stop>, AllocError>
    requires { has_form strings.now form ≡ true }
    ensures { IfOk result (λ stop. (image : Image) → Moves image
        (λ here frames w. string_dummied form (OfValue (value_view value) ∷ here.operands) here frames w) machine.old
        machine.new stop) }
{
    match machine.storage.push_string(alloc, strings, form, value) {
        Ok(place) => {
            machine.here.room.pending.push(place.generation)?;
            push_dummy(&mut machine.here.operands, place)?;
            Ok(None)
        }
        Err(fault) => Ok(Some(stop_at(fault)?)),
    }
}

/// Ends a dummy argument, which is no more among those that the newest activation prepares.
#[inline(never)]
fn end_dummy(machine: &mut Machine, dummy: Place<'_>)
    ensures { IsUsedUp (AtDummy (place_view dummy.entry)) machine.old machine.new }
{
    let generation = dummy.generation;
    machine.storage.end(&[generation]);
    machine
        .here
        .room
        .pending
        .retain(move |other| generation != *other);
}

/// Ends what an instruction has taken that hands nothing over, where that is a dummy argument.
#[inline(always)]
pub fn use_up(machine: &mut Machine, taken: TakenPlace<'_>)
    ensures { IsUsedUp (taken_operand taken.entry) machine.old machine.new }
{
    match taken {
        TakenPlace::OfReference(_) => {}
        TakenPlace::OfDummy(place) => end_dummy(machine, place),
    }
}
