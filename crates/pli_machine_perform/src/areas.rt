//! Instructions on areas.
ghost use Rattle.std.specs.Prelude.{map, IfOk, IfSome};
ghost use Rattle.pli_map.specs.views.DescriptionView.{description_view};
ghost use Rattle.pli_program.specs.declared.instruction.Instruction.TheVariants.{AllocateInArea, AssignArea};
ghost use Rattle.pli_program.specs.declared.instruction.Instruction.TheVariants.{EmptyArea, ToOffset};
ghost use Rattle.pli_program.specs.declared.instruction.Instruction.TheVariants.{ToPointer};
ghost use Rattle.pli_stacks.specs.answers.LaidBytes.{IsLaid};
ghost use Rattle.pli_type_tree.specs.views.TemplateView.{initial_view};
ghost use Rattle.pli_code.specs.CodeTables.{looked_up};
ghost use Rattle.pli_program.specs.declared.instruction.Instruction.TheVariants as op;
ghost use Rattle.pli_code.specs.views.CodeView.{code_view};
ghost use Rattle.pli_machine_activations.specs.views.ImageView.{image_of};
ghost use Rattle.pli_machine_activations.specs.views.MachineView.{Does};
ghost use Rattle.pli_machine_perform.specs.views.HaltView.{DoesFoundIn, DoesIn};

use crate::halting::{halt_at, settle, settle_again};
use crate::inhabiting;
use pli_machine_activations::{ActiveUnit, Machine, Stop, laid_in, template_of, use_up};
use pli_machine_operate::{Operand, push, take_place};
use pli_map::Description;
use pli_type_tree::InitialScalar;
use pli_value::Value;
use std::alloc::{AllocError, Global};

/// The pointer into the area of the newest place, by the offset below it.
pub fn to_pointer(machine: &mut Machine) -> Result<Option<Stop>, AllocError>
    ensures { IfOk result (Does ToPointer machine.old machine.new) }
{
    let Some(area) = take_place(&mut machine.here.operands) else {
        return Ok(Some(Stop::Fault));
    };
    let stop = inhabiting::to_pointer(&mut machine.here.operands, &machine.storage, area.place())?;
    use_up(machine, area);
    Ok(stop)
}

/// The offset of the area of the newest place, by the pointer below it.
pub fn to_offset(machine: &mut Machine) -> Result<Option<Stop>, AllocError>
    ensures { IfOk result (Does ToOffset machine.old machine.new) }
{
    let Some(area) = take_place(&mut machine.here.operands) else {
        return Ok(Some(Stop::Fault));
    };
    let stop = inhabiting::to_offset(&mut machine.here.operands, &machine.storage, area.place())?;
    use_up(machine, area);
    Ok(stop)
}

/// ALLOCATE in the area of the newest place of a BASED variable of a description and of initial values, or of what is
/// laid for them. After an ON-unit that takes the condition of a full area the code goes on at the target.
fn allocate_at<'m>(
    alloc: Global,
    unit: &ActiveUnit<'_, 'm>,
    machine: &mut Machine<'m>,
    description: &'m Description,
    scalars: &[InitialScalar],
    laid: Option<&[u8]>,
    target: u16,
) -> Result<Option<Stop>, AllocError>
    requires { IfSome laid (λ bytes. IsLaid (record {
      description = description_view description.now;
      initial = map initial_view scalars.now;
    }) bytes.now) }
    ensures { IfOk result (DoesIn (image_of unit.now.loaded.now)
        (AllocateInArea (record {
          description = description_view description.now;
          initial = map initial_view scalars.now;
        }) target)
        machine.old machine.new) }
{
    let Some(area) = take_place(&mut machine.here.operands) else {
        return Ok(Some(Stop::Fault));
    };
    let made = inhabiting::make_block(
        alloc,
        &mut machine.storage,
        area.place(),
        description,
        scalars,
        laid,
    );
    use_up(machine, area);
    match made {
        Ok(locator) => {
            push(
                &mut machine.here.operands,
                Operand::OfValue(Value::Locator(locator)),
            )?;
            Ok(None)
        }
        Err(fault) => {
            let halt = halt_at(fault)?;
            settle_again(alloc, unit.loaded, machine, Some(halt), target as usize)
        }
    }
}

/// ALLOCATE in the area of the newest place of a BASED variable of a template of the tables: the pointer to its block.
/// After an ON-unit that takes the condition of a full area the code goes on at the target, by a step.
pub fn allocate_in_area<'m>(
    alloc: Global,
    unit: &ActiveUnit<'_, 'm>,
    machine: &mut Machine<'m>,
    template: u16,
    target: u16,
) -> Result<Option<Stop>, AllocError>
    ensures { IfOk result (DoesFoundIn (image_of unit.now.loaded.now)
        (looked_up (code_view unit.now.linked.now.deck.code) (op.AllocateInArea template target)) machine.old
        machine.new) }
{
    match template_of(&unit.linked.deck.code, template) {
        Some((description, scalars)) => {
            let laid = laid_in(unit, template);
            allocate_at(alloc, unit, machine, description, scalars, laid, target)
        }
        None => Ok(Some(Stop::Fault)),
    }
}

/// Puts the blocks of the newest place's area at that of the place below it.
pub fn assign_area<'m>(
    alloc: Global,
    unit: &ActiveUnit<'_, 'm>,
    machine: &mut Machine<'m>,
) -> Result<Option<Stop>, AllocError>
    ensures { IfOk result (DoesIn (image_of unit.now.loaded.now) AssignArea machine.old machine.new) }
{
    let Some(source) = take_place(&mut machine.here.operands) else {
        return Ok(Some(Stop::Fault));
    };
    let Some(target) = take_place(&mut machine.here.operands) else {
        return Ok(Some(Stop::Fault));
    };
    let assigned = machine.storage.assign_area(source.place(), target.place());
    use_up(machine, target);
    use_up(machine, source);
    match assigned {
        Ok(()) => Ok(None),
        Err(fault) => {
            let halt = halt_at(fault)?;
            settle(alloc, unit.loaded, machine, Some(halt))
        }
    }
}

/// Ends all blocks of the newest place's area.
pub fn empty_area(machine: &mut Machine) -> Result<Option<Stop>, AllocError>
    ensures { IfOk result (Does EmptyArea machine.old machine.new) }
{
    let Some(area) = take_place(&mut machine.here.operands) else {
        return Ok(Some(Stop::Fault));
    };
    let stop = inhabiting::empty(&mut machine.storage, area.place())?;
    use_up(machine, area);
    Ok(stop)
}
