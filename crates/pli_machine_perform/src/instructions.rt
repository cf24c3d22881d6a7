//! Instructions on the operands of the newest activation.
ghost use Rattle.std.specs.Prelude.{IfOk};
ghost use Rattle.pli_map.specs.views.DescriptionView.{description_view};
ghost use Rattle.pli_program.specs.declared.instruction.Instruction.TheVariants.{Jump, JumpUnless, Load};
ghost use Rattle.pli_program.specs.declared.instruction.Instruction.TheVariants.{Store, Copy, Field};
ghost use Rattle.pli_program.specs.declared.instruction.Instruction.TheVariants.{Subscript, Fit, Operate};
ghost use Rattle.pli_code.specs.CodeTables.{looked_up};
ghost use Rattle.pli_program.specs.declared.instruction.Instruction.TheVariants as op;
ghost use Rattle.pli_code.specs.views.CodeView.{code_view};
ghost use Rattle.pli_machine_activations.specs.views.ImageView.{image_of};
ghost use Rattle.pli_value.specs.Value.{value_view};
ghost use Rattle.pli_machine_activations.specs.views.Image.{Image};
ghost use Rattle.pli_machine_activations.specs.views.MachineView.{Does, DoesFound, Moves};
ghost use Rattle.pli_machine_perform.specs.views.ActView.{kept_as};
ghost use Rattle.pli_machine_perform.specs.views.HaltView.{DoesFoundIn, DoesIn};

use crate::halting::settle;
use crate::keeping::put_constant;
use crate::operate::{operate, operate_fit};
use crate::{jumping, places, storing};
use pli_code::Code;
use pli_machine_activations::{ActiveUnit, Machine, Stop, template_of, use_up};
use pli_machine_operate::{pop_number, pop_value, take_place};
use pli_map::Description;
use pli_operation::Operation;
use pli_value::Value;
use std::alloc::{AllocError, Global};

/// A jump.
#[inline]
pub fn jump(machine: &mut Machine, target: u16) -> Option<Stop>
    ensures { Does (Jump target) machine.old machine.new result }
{
    jumping::jump(&mut machine.here, machine.steps, target as usize)
}

/// A jump unless a bit of the newest operand is one.
#[inline]
pub fn jump_unless(machine: &mut Machine, target: u16) -> Option<Stop>
    ensures { Does (JumpUnless target) machine.old machine.new result }
{
    jumping::jump_unless(&mut machine.here, machine.steps, target as usize)
}

/// Leads the newest place on to a part of a description.
#[inline]
fn field_at<'m>(
    machine: &mut Machine<'m>,
    offset: u32,
    description: &'m Description,
) -> Result<Option<Stop>, AllocError>
    ensures { IfOk result (Does (Field offset (description_view description.now)) machine.old machine.new) }
{
    let Some(taken) = take_place(&mut machine.here.operands) else {
        return Ok(Some(Stop::Fault));
    };
    let stop = places::field(
        &mut machine.here.operands,
        taken.place(),
        offset,
        description,
    )?;
    use_up(machine, taken);
    Ok(stop)
}

/// Leads the newest place on to a part of a description of the tables.
pub fn field<'m>(
    code: &'m Code,
    machine: &mut Machine<'m>,
    offset: u32,
    description: u16,
) -> Result<Option<Stop>, AllocError>
    ensures { IfOk result (DoesFound (looked_up (code_view code.now) (op.Field offset description)) machine.old
        machine.new) }
{
    match code.description(description) {
        Some(description) => field_at(machine, offset, description),
        None => Ok(Some(Stop::Fault)),
    }
}

/// Leads the newest place on by a subscript.
pub fn subscript(
    machine: &mut Machine,
    low: i32,
    high: i32,
    multiplier: u32,
) -> Result<Option<Stop>, AllocError>
    ensures { IfOk result (Does (Subscript low high multiplier) machine.old machine.new) }
{
    let Some(number) = pop_number(&mut machine.here.operands) else {
        return Ok(Some(Stop::Fault));
    };
    let Some(taken) = take_place(&mut machine.here.operands) else {
        return Ok(Some(Stop::Fault));
    };
    let stop = places::subscript(
        &mut machine.here.operands,
        taken.place(),
        number,
        low,
        high,
        multiplier,
    )?;
    use_up(machine, taken);
    Ok(stop)
}

/// Puts a constant of the tables upon the operands.
pub fn constant<'m>(
    code: &'m Code,
    machine: &mut Machine<'m>,
    value: u16,
) -> Result<Option<Stop>, AllocError>
    ensures { IfOk result (DoesFound (looked_up (code_view code.now) (op.Constant value)) machine.old machine.new) }
{
    match code.values.get(value as usize) {
        Some(value) => put_constant(machine, value),
        None => Ok(Some(Stop::Fault)),
    }
}

/// What the newest place holds.
pub fn load(alloc: Global, machine: &mut Machine) -> Result<Option<Stop>, AllocError>
    ensures { IfOk result (Does Load machine.old machine.new) }
{
    let Some(taken) = take_place(&mut machine.here.operands) else {
        return Ok(Some(Stop::Fault));
    };
    let stop = storing::load(
        alloc,
        &mut machine.here.operands,
        &machine.storage,
        taken.place(),
    )?;
    use_up(machine, taken);
    Ok(stop)
}

/// Puts the newest value at the place below it. A number takes the short way.
pub fn store(alloc: Global, machine: &mut Machine) -> Result<Option<Stop>, AllocError>
    ensures { IfOk result (Does Store machine.old machine.new) }
{
    match pop_number(&mut machine.here.operands) {
        Some(number) => store_value(machine, Value::Number(number)),
        None => store_newest(alloc, machine),
    }
}

/// The same of any value.
fn store_newest(alloc: Global, machine: &mut Machine) -> Result<Option<Stop>, AllocError>
    ensures { IfOk result (Does Store machine.old machine.new) }
{
    let Some(value) = pop_value(alloc, &mut machine.here.operands)? else {
        return Ok(Some(Stop::Fault));
    };
    store_value(machine, value)
}

/// Puts a value at the newest place.
#[inline]
fn store_value(machine: &mut Machine, value: Value) -> Result<Option<Stop>, AllocError>
    ensures { IfOk result (λ stop. (image : Image) → Moves image
        (λ here frames w. kept_as (value_view value) here.operands here frames w) machine.old machine.new stop) }
{
    let Some(taken) = take_place(&mut machine.here.operands) else {
        return Ok(Some(Stop::Fault));
    };
    let stop = storing::store(&mut machine.storage, taken.place(), value)?;
    use_up(machine, taken);
    Ok(stop)
}

/// Copies what the newest place holds to the place below it.
pub fn copy(machine: &mut Machine) -> Result<Option<Stop>, AllocError>
    ensures { IfOk result (Does Copy machine.old machine.new) }
{
    let Some(source) = take_place(&mut machine.here.operands) else {
        return Ok(Some(Stop::Fault));
    };
    let Some(target) = take_place(&mut machine.here.operands) else {
        return Ok(Some(Stop::Fault));
    };
    let stop = storing::copy(&mut machine.storage, source.place(), target.place())?;
    use_up(machine, target);
    use_up(machine, source);
    Ok(stop)
}

/// Makes a dummy argument of the newest operand, from the template of this number in the tables.
pub fn make_dummy<'m>(
    alloc: Global,
    code: &'m Code,
    machine: &mut Machine<'m>,
    template: u16,
) -> Result<Option<Stop>, AllocError>
    ensures { IfOk result (DoesFound (looked_up (code_view code.now) (op.MakeDummy template)) machine.old
        machine.new) }
{
    match template_of(code, template) {
        Some((description, _)) => pli_machine_activations::make_dummy(alloc, machine, description),
        None => Ok(Some(Stop::Fault)),
    }
}

/// Fits the newest operand to a description.
#[inline]
fn fit_at<'m>(
    alloc: Global,
    unit: &ActiveUnit<'_, 'm>,
    machine: &mut Machine<'m>,
    description: &Description,
) -> Result<Option<Stop>, AllocError>
    ensures { IfOk result (DoesIn (image_of unit.now.loaded.now)
        (Fit (description_view description.now)) machine.old machine.new) }
{
    let halt = operate_fit(alloc, &mut machine.here.operands, description)?;
    settle(alloc, unit.loaded, machine, halt)
}

/// Fits the newest operand to a description of the tables.
pub fn fit<'m>(
    alloc: Global,
    unit: &ActiveUnit<'_, 'm>,
    machine: &mut Machine<'m>,
    description: u16,
) -> Result<Option<Stop>, AllocError>
    ensures { IfOk result (DoesFoundIn (image_of unit.now.loaded.now)
        (looked_up (code_view unit.now.linked.now.deck.code) (op.Fit description)) machine.old machine.new) }
{
    match unit.linked.deck.code.description(description) {
        Some(description) => fit_at(alloc, unit, machine, description),
        None => Ok(Some(Stop::Fault)),
    }
}

/// An operation on the newest operands, with the greatest precision of the module's version.
pub fn calculate<'m>(
    alloc: Global,
    unit: &ActiveUnit<'_, 'm>,
    machine: &mut Machine<'m>,
    operation: Operation,
) -> Result<Option<Stop>, AllocError>
    ensures { IfOk result (DoesIn (image_of unit.now.loaded.now) (Operate operation) machine.old machine.new) }
{
    let greatest = unit.loaded.module.version.greatest_precision();
    let halt = operate(alloc, &mut machine.here.operands, operation, greatest)?;
    settle(alloc, unit.loaded, machine, halt)
}
