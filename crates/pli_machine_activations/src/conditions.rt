//! Conditions: how ON-units are established and removed, and how they take conditions.
ghost use Rattle.std.specs.Prelude.{◌≡◌, ◌&&◌, nat_eq, ℕ, Some, List, map, slice_get, option_map, IfOk};
ghost use Rattle.pli_code.specs.CodeTables as plain;
ghost use Rattle.pli_code.specs.CodeTables.{block_looked_up};
ghost use Rattle.pli_code.specs.Modules.{program_of};
ghost use Rattle.pli_code.specs.views.CodeView.{block_view, code_view, kind_view, module_view};
ghost use Rattle.pli_machine_step.specs.Machine.{Goes, establishes, raises, runs_block, runs_on_unit};
ghost use Rattle.pli_program.specs.Program.{is_on_unit};
ghost use Rattle.pli_world.specs.Conditions.{condition_of, error_of, handler, reverted};
ghost use Rattle.pli_machine_activations.specs.views.Image.{Image};
ghost use Rattle.pli_machine_activations.specs.views.ImageView.{image_of};
ghost use Rattle.pli_machine_activations.specs.views.HandlerView.{handler_view};
ghost use Rattle.pli_machine_activations.specs.views.MachineView.{Moves, activations_of, world_of};

use crate::calling::{block_at, call_block};
use crate::loaded::Loaded;
use crate::machine::{Machine, Stop};
use crate::numbered::{laid_at, linked_at};
use crate::ready::ReadyCode;
use crate::unit::ActiveUnit;
use crate::walk::is_of;
use pli_base::statement::Condition;
use pli_code::{Block, BlockKind};
use pli_run::RunError;
use std::alloc::{AllocError, Global};

/// The ON-unit that takes a condition: the number of its unit and that of its block, and the height of the activation
/// that established it.
#[derive(Clone, Copy)]
pub struct Handler {
    pub unit: usize,
    pub block: u16,
    pub link: u32,
}

/// The condition that an error is, if ON-units may take it.
pub fn condition_of(error: RunError) -> Option<Condition>
    ensures { result ≡ condition_of error }
{
    match error {
        RunError::FixedOverflow => Some(Condition::FixedOverflow),
        RunError::ZeroDivide => Some(Condition::ZeroDivide),
        RunError::Area => Some(Condition::Area),
        _ => None,
    }
}

/// The error that ends the run where no ON-unit takes a condition.
fn error_of(condition: Condition) -> RunError
    ensures { result ≡ error_of condition }
{
    match condition {
        Condition::FixedOverflow => RunError::FixedOverflow,
        Condition::ZeroDivide => RunError::ZeroDivide,
        Condition::Area => RunError::Area,
    }
}

/// Whether a block is an ON-unit.
fn is_on_unit(kind: BlockKind) -> bool
    ensures { result ≡ is_on_unit (kind_view kind) }
{
    match kind {
        BlockKind::Procedure => false,
        BlockKind::Begin => false,
        BlockKind::OnUnit => true,
    }
}

/// Whether a block is an ON-unit without parameters.
fn is_establishable(block: &Block) -> bool
    ensures { result ≡ (is_on_unit (kind_view block.now.kind) && nat_eq block.now.parameters 0) }
{
    is_on_unit(block.kind) && block.parameters == 0
}

/// The newest activation has a block of its unit as its ON-unit for a condition from then on, if that is an ON-unit
/// whose ON stands in the activation's block.
fn establish_block(
    machine: &mut Machine,
    condition: Condition,
    number: u16,
    block: &Block,
) -> Option<Stop>
    ensures { (code : plain.Code) (image : Image) →
        Moves image (establishes condition number (Some (block_looked_up code (block_view block.now)))) machine.old
        machine.new result }
{
    if !is_establishable(block) {
        return Some(Stop::Fault);
    }
    let Some(parent) = block.parent else {
        return Some(Stop::Fault);
    };
    let unit = machine.here.unit;
    if !is_of(&machine.here, unit, parent) {
        return Some(Stop::Fault);
    }
    machine.here.on_units.set(condition, Some(number));
    None
}

/// ON: the newest activation has the block of a number as its ON-unit for a condition from then on.
pub fn establish<'m>(
    unit: &ActiveUnit<'_, 'm>,
    machine: &mut Machine<'m>,
    condition: Condition,
    number: u16,
) -> Option<Stop>
    ensures { (image : Image) → Moves image
        (establishes condition number (slice_get (map (block_looked_up (code_view unit.now.linked.now.deck.code))
        (code_view unit.now.linked.now.deck.code).blocks) number))
        machine.old machine.new result }
{
    match block_at(&unit.linked.deck.code, number) {
        Some(block) => establish_block(machine, condition, number, block),
        None => Some(Stop::Fault),
    }
}

/// REVERT: the newest activation has no ON-unit for a condition from then on.
#[tactic(auto, unfolding(pli_world::specs::Conditions::reverted))]
pub fn revert(machine: &mut Machine, condition: Condition) -> Option<Stop>
    ensures { (image : Image) →
        Moves image (λ here frames w. Goes here frames (reverted condition w)) machine.old machine.new result }
{
    machine.here.on_units.set(condition, None);
    None
}

/// The ON-unit of the newest of the activations that wait which has one for a condition.
fn waiting_handler(machine: &Machine, condition: Condition) -> Option<Handler>
    ensures { handler condition (activations_of machine.now.waiting.items) ≡ option_map handler_view result }
{
    let mut count = machine.waiting.len();
    while count > 0 {
        count -= 1;
        let activation = &machine.waiting[count];
        if let Some(block) = activation.on_units.unit_for(condition) {
            return Some(Handler {
                unit: activation.unit,
                block,
                link: count as u32 + 1,
            });
        }
    }
    None
}

/// The ON-unit that takes a condition: that of the newest activation that has one for it.
fn find_handler(machine: &Machine, condition: Condition) -> Option<Handler>
    ensures { (image : Image) (put : List ℕ) →
        handler condition (world_of image machine.now put).activations ≡ option_map handler_view result }
{
    match machine.here.on_units.unit_for(condition) {
        Some(block) => Some(Handler {
            unit: machine.here.unit,
            block,
            link: machine.waiting.len() as u32 + 1,
        }),
        None => waiting_handler(machine, condition),
    }
}

/// Activates the block of an ON-unit of a unit, of which this is the code, within the activation that established it.
fn run_block<'m>(
    alloc: Global,
    ready: &ReadyCode<'_, 'm>,
    machine: &mut Machine<'m>,
    handler: Handler,
    again: bool,
) -> Result<Option<Stop>, AllocError>
    ensures { IfOk result (λ stop. (image : Image) → Moves image
        (λ here frames w. runs_block (handler_view handler)
        (slice_get (map (block_looked_up (code_view ready.now.code.now)) (code_view ready.now.code.now).blocks)
        handler.block) (record here { again = again }) frames w)
        machine.old machine.new stop) }
{
    match block_at(ready.code, handler.block) {
        Some(block) => {
            let lists = machine.spare.take(alloc)?;
            call_block(
                alloc,
                ready,
                machine,
                handler.unit,
                handler.block,
                block,
                handler.link,
                lists,
                again,
            )
        }
        None => Ok(Some(Stop::Fault)),
    }
}

/// Activates the block of an ON-unit of the program.
fn run_on_unit<'m>(
    alloc: Global,
    loaded: &Loaded<'m>,
    machine: &mut Machine<'m>,
    handler: Handler,
    again: bool,
) -> Result<Option<Stop>, AllocError>
    ensures { IfOk result (λ stop. (image : Image) → Moves image
        (λ here frames w. runs_on_unit (handler_view handler)
        (slice_get (program_of (module_view loaded.now.«module».now)).units handler.unit)
        (record here { again = again }) frames w)
        machine.old machine.new stop) }
{
    match linked_at(loaded.module, handler.unit) {
        Some(linked) => {
            let ready = ReadyCode {
                code: &linked.deck.code,
                laid: laid_at(loaded, handler.unit),
            };
            run_block(alloc, &ready, machine, handler, again)
        }
        None => Ok(Some(Stop::Fault)),
    }
}

/// Raises a condition: the ON-unit that takes it runs, while the newest activation waits as it is, after whose return
/// that executes its next instruction again or goes on; without one the run ends by the condition's error.
#[inline(never)]
pub fn raise<'m>(
    alloc: Global,
    loaded: &Loaded<'m>,
    machine: &mut Machine<'m>,
    condition: Condition,
    again: bool,
) -> Result<Option<Stop>, AllocError>
    ensures { IfOk result (Moves (image_of loaded.now)
        (λ here frames w. raises (program_of (image_of loaded.now).linked) condition (handler condition w.activations)
        (record here { again = again }) frames w)
        machine.old machine.new) }
{
    match find_handler(machine, condition) {
        Some(handler) => run_on_unit(alloc, loaded, machine, handler, again),
        None => Ok(Some(Stop::Raised(error_of(condition)))),
    }
}
