//! Variables of activations.
ghost use Rattle.std.specs.Prelude.{◌≡◌, ℕ, List, ◌∷◌, map, None, Some, IfSome, OnOk, MatchOption};
ghost use Rattle.pli_machine_activations.specs.views.Image.{Image};
ghost use Rattle.pli_map.specs.views.DescriptionView.{description_view};
ghost use Rattle.pli_world.specs.World.{Yields, made_all, with_slot};
ghost use Rattle.pli_map.specs.Variables.{Variable};
ghost use Rattle.pli_store.specs.views.StorageView.{place_view};
ghost use Rattle.pli_type_tree.specs.Templates.{Template, variable_of};
ghost use Rattle.pli_type_tree.specs.views.TemplateView.{initial_view};
ghost use Rattle.pli_code.specs.CodeTables.{template_at, variables_at};
ghost use Rattle.pli_code.specs.views.CodeView.{code_view};
ghost use Rattle.pli_machine_activations.specs.answers.Activated.{SameFrames};
ghost use Rattle.pli_stacks.specs.answers.LaidBytes.{IsLaid};
ghost use Rattle.pli_machine_activations.specs.answers.Making.{GoesOn};
ghost use Rattle.pli_machine_activations.specs.views.MachineView.{activation_view, frame_view, world_of};

use crate::machine::{Activation, Machine};
use crate::ready::ReadyCode;
use crate::unit::ActiveUnit;
use pli_code::Code;
use pli_map::Description;
use pli_stacks::make_initial;
use pli_store::{Made, Place, StoreFault};
use pli_type_tree::InitialScalar;
use std::alloc::{AllocError, Global};

/// The description and the initial values of the template of a number, if the tables have them.
pub fn template_of(code: &Code, number: u16) -> Option<(&Description, &[InitialScalar])>
    ensures { MatchOption result (template_at (code_view code.now) number ≡ None)
        (λ t. template_at (code_view code.now) number
        ≡ Some (record { description = description_view t.0.now; initial = map initial_view t.1.now })) }
{
    let template = code.templates.get(number as usize)?;
    let description = code.description(template.description)?;
    Some((description, &template.initial))
}

/// Gives an activation the next slot, for a variable that ends with it.
fn add_slot<'m>(here: &mut Activation<'m>, place: Place<'m>) -> Result<(), AllocError>
    ensures slot { OnOk result (activation_view here.new ≡ with_slot (place_view place.entry)
        (activation_view here.old)) }
    ensures frame { frame_view here.new ≡ frame_view here.old }
    ensures statement { here.new.statement ≡ here.old.statement }
{
    here.slots.push(place)?;
    here.room.owned.push(place.generation)?;
    Ok(())
}

/// The bytes with which variables of the template of a number begin, where they were laid as the program was loaded.
#[inline]
fn laid_for<'l>(ready: &ReadyCode<'l, '_>, number: u16) -> Option<&'l [u8]>
    ensures { (t : Template) → template_at (code_view ready.now.code.now) number ≡ Some t →
        IfSome result (λ bytes. IsLaid t bytes.now) }
{
    match ready.laid.get(number as usize) {
        Some(Some(bytes)) => Some(bytes),
        Some(None) => None,
        None => None,
    }
}

/// The bytes with which variables of the template of a number in a unit's tables begin, where they were laid as the
/// program was loaded; else they are to be made of the template.
#[inline]
pub fn laid_in<'l>(unit: &ActiveUnit<'l, '_>, number: u16) -> Option<&'l [u8]>
    ensures { (t : Template) → template_at (code_view unit.now.linked.now.deck.code) number ≡ Some t →
        IfSome result (λ bytes. IsLaid t bytes.now) }
{
    let ready = ReadyCode {
        code: &unit.linked.deck.code,
        laid: unit.laid,
    };
    laid_for(&ready, number)
}

/// Makes a variable that ends with the newest activation, from a description and initial values or from what is laid
/// for them, and gives it the next slot.
fn make_variable<'m>(
    alloc: Global,
    machine: &mut Machine<'m>,
    description: &'m Description,
    scalars: &[InitialScalar],
    laid: Option<&[u8]>,
) -> Result<(), StoreFault>
    requires { IfSome laid (λ bytes. IsLaid (record {
      description = description_view description.now;
      initial = map initial_view scalars.now;
    }) bytes.now) }
    ensures made { (more : List Variable) (image : Image) (put : List ℕ) → GoesOn result
        (made_all (variable_of (record {
          description = description_view description.now;
          initial = map initial_view scalars.now;
        }) ∷ more)
        (world_of image machine.old put))
        (made_all more (world_of image machine.new put)) (world_of image machine.new put) }
    ensures same { SameFrames machine.old machine.new }
{
    match make_initial(
        alloc,
        &mut machine.storage,
        description,
        Made::Automatic,
        scalars,
        laid,
    ) {
        Ok(place) => {
            add_slot(&mut machine.here, place)?;
            Ok(())
        }
        Err(fault) => Err(fault),
    }
}

/// The same of a template's number; where the tables have no such template, there is no variable.
#[inline(never)]
fn make_numbered<'m>(
    alloc: Global,
    ready: &ReadyCode<'_, 'm>,
    machine: &mut Machine<'m>,
    number: u16,
) -> Result<(), StoreFault>
    ensures made { (more : List ℕ) (image : Image) (put : List ℕ) → GoesOn result
        (made_all (variables_at (code_view ready.now.code.now) (number ∷ more)) (world_of image machine.old put))
        (made_all (variables_at (code_view ready.now.code.now) more) (world_of image machine.new put))
        (world_of image machine.new put) }
    ensures same { SameFrames machine.old machine.new }
{
    match template_of(ready.code, number) {
        Some((description, scalars)) => {
            let laid = laid_for(ready, number);
            make_variable(alloc, machine, description, scalars, laid)
        }
        None => Ok(()),
    }
}

/// Makes the variables of these templates, one after another, as variables of the newest activation. Where there are
/// none, no call is made.
#[inline(always)]
pub fn make_variables<'m>(
    alloc: Global,
    ready: &ReadyCode<'_, 'm>,
    machine: &mut Machine<'m>,
    variables: &[u16],
) -> Result<(), StoreFault>
    ensures made { (image : Image) (put : List ℕ) → GoesOn result
        (made_all (variables_at (code_view ready.now.code.now) variables.now) (world_of image machine.old put))
        (Yields tt (world_of image machine.new put)) (world_of image machine.new put) }
    ensures same { SameFrames machine.old machine.new }
{
    if variables.is_empty() {
        return Ok(());
    }
    make_some(alloc, *ready, machine, variables)
}

/// The same where there may be some.
#[inline(never)]
fn make_some<'m>(
    alloc: Global,
    ready: ReadyCode<'_, 'm>,
    machine: &mut Machine<'m>,
    variables: &[u16],
) -> Result<(), StoreFault>
    ensures made { (image : Image) (put : List ℕ) → GoesOn result
        (made_all (variables_at (code_view ready.entry.code.now) variables.now) (world_of image machine.old put))
        (Yields tt (world_of image machine.new put)) (world_of image machine.new put) }
    ensures same { SameFrames machine.old machine.new }
{
    for variable in variables {
        match make_numbered(alloc, &ready, machine, *variable) {
            Ok(()) => {}
            Err(fault) => return Err(fault),
        }
    }
    Ok(())
}
