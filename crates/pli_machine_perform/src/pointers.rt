//! Instructions by pointers.
ghost use Rattle.std.specs.Prelude.{map, IfOk, IfSome};
ghost use Rattle.pli_map.specs.views.DescriptionView.{description_view};
ghost use Rattle.pli_program.specs.declared.instruction.Instruction.TheVariants.{AddressOf, AllocateBased};
ghost use Rattle.pli_program.specs.declared.instruction.Instruction.TheVariants.{Based, FreeBased};
ghost use Rattle.pli_stacks.specs.answers.LaidBytes.{IsLaid};
ghost use Rattle.pli_type_tree.specs.views.TemplateView.{initial_view};
ghost use Rattle.pli_code.specs.CodeTables.{looked_up};
ghost use Rattle.pli_program.specs.declared.instruction.Instruction.TheVariants as op;
ghost use Rattle.pli_code.specs.views.CodeView.{code_view};
ghost use Rattle.pli_machine_activations.specs.views.MachineView.{Does, DoesFound};

use crate::pointing;
use pli_code::Code;
use pli_machine_activations::{ActiveUnit, Machine, Stop, laid_in, template_of, use_up};
use pli_machine_operate::take_place;
use pli_map::Description;
use pli_type_tree::InitialScalar;
use std::alloc::{AllocError, Global};

/// Leads the newest operand, a pointer, to the place of what is of a description.
fn based_at<'m>(
    machine: &mut Machine<'m>,
    description: &Description,
) -> Result<Option<Stop>, AllocError>
    ensures { IfOk result (Does (Based (description_view description.now)) machine.old machine.new) }
{
    pointing::lead_to(&mut machine.here.operands, &machine.storage, description)
}

/// The place of a BASED variable of a description of the tables, by the newest operand, a pointer.
pub fn based(
    code: &Code,
    machine: &mut Machine,
    description: u16,
) -> Result<Option<Stop>, AllocError>
    ensures { IfOk result (DoesFound (looked_up (code_view code.now) (op.Based description)) machine.old
        machine.new) }
{
    match code.description(description) {
        Some(description) => based_at(machine, description),
        None => Ok(Some(Stop::Fault)),
    }
}

/// The pointer to what the newest place is the whole of.
pub fn address_of(machine: &mut Machine) -> Result<Option<Stop>, AllocError>
    ensures { IfOk result (Does AddressOf machine.old machine.new) }
{
    let Some(taken) = take_place(&mut machine.here.operands) else {
        return Ok(Some(Stop::Fault));
    };
    let stop = pointing::address_of(&mut machine.here.operands, &machine.storage, taken.place())?;
    use_up(machine, taken);
    Ok(stop)
}

/// ALLOCATE of a BASED variable of this description and with these initial values, whose bytes may have been laid
/// before.
fn allocate_at<'m>(
    alloc: Global,
    machine: &mut Machine<'m>,
    description: &'m Description,
    scalars: &[InitialScalar],
    laid: Option<&[u8]>,
) -> Result<Option<Stop>, AllocError>
    requires { IfSome laid (λ bytes. IsLaid (record {
      description = description_view description.now;
      initial = map initial_view scalars.now;
    }) bytes.now) }
    ensures { IfOk result (Does
        (AllocateBased (record {
          description = description_view description.now;
          initial = map initial_view scalars.now;
        }))
        machine.old machine.new) }
{
    pointing::allocate(
        alloc,
        &mut machine.here.operands,
        &mut machine.storage,
        description,
        scalars,
        laid,
    )
}

/// ALLOCATE of a BASED variable, which has the template of this number in the unit's tables: makes a generation, and
/// puts the pointer to it upon the operands. A template that the tables lack stops the machine with a fault.
pub fn allocate_based<'m>(
    alloc: Global,
    unit: &ActiveUnit<'_, 'm>,
    machine: &mut Machine<'m>,
    template: u16,
) -> Result<Option<Stop>, AllocError>
    ensures { IfOk result (DoesFound (looked_up (code_view unit.now.linked.now.deck.code) (op.AllocateBased template))
        machine.old machine.new) }
{
    match template_of(&unit.linked.deck.code, template) {
        Some((description, scalars)) => {
            let laid = laid_in(unit, template);
            allocate_at(alloc, machine, description, scalars, laid)
        }
        None => Ok(Some(Stop::Fault)),
    }
}

/// FREE of what is of a description, by the newest operand, a pointer.
fn free_at(machine: &mut Machine, description: &Description) -> Result<Option<Stop>, AllocError>
    ensures { IfOk result (Does (FreeBased (description_view description.now)) machine.old machine.new) }
{
    pointing::free(
        &mut machine.here.operands,
        &mut machine.storage,
        description,
    )
}

/// FREE of a BASED variable of a description of the tables, by the newest operand, a pointer.
pub fn free_based(
    code: &Code,
    machine: &mut Machine,
    description: u16,
) -> Result<Option<Stop>, AllocError>
    ensures { IfOk result (DoesFound (looked_up (code_view code.now) (op.FreeBased description)) machine.old
        machine.new) }
{
    match code.description(description) {
        Some(description) => free_at(machine, description),
        None => Ok(Some(Stop::Fault)),
    }
}
