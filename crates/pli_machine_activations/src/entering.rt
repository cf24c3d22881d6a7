//! Beginnings of activations.
ghost use Rattle.std.specs.Prelude.{◌≡◌, ◌<◌, ℕ, List, [], ◌∷◌, map, length, replicate, false, None, IfOk, OnOk};
ghost use Rattle.std.specs.Prelude.{vec_len, vec_capacity};
ghost use Rattle.std.specs.Option.{option_map};
ghost use Rattle.pli_value.specs.Value.{value_view};
ghost use Rattle.pli_machine_operate.specs.views.OperandView.{stack};
ghost use Rattle.pli_world.specs.Activations.{no_on_unit};
ghost use Rattle.pli_machine_activations.specs.views.Image.{Image};
ghost use Rattle.pli_store.specs.views.StorageView.{place_view};
ghost use Rattle.pli_machine_step.specs.Machine.{enters};
ghost use Rattle.pli_code.specs.CodeTables.{block_looked_up};
ghost use Rattle.pli_code.specs.views.CodeView.{code_view, block_view};
ghost use Rattle.pli_machine_activations.specs.answers.Activated.{HasBegun};
ghost use Rattle.pli_machine_activations.specs.answers.EmptyLists.{AreEmpty};
ghost use Rattle.pli_machine_activations.specs.answers.Handing.{AreHanded, with_pending};
ghost use Rattle.pli_machine_activations.specs.views.ActivationView.{on_units_view};
ghost use Rattle.pli_machine_activations.specs.views.MachineView.{Moves, activation_view, frame_view, waiting_view};

use crate::machine::{Activation, Machine, Stop};
use crate::on_units::OnUnits;
use crate::ready::ReadyCode;
use crate::spare::Lists;
use crate::stops::stop_at;
use crate::variables::make_variables;
use pli_code::Block;
use pli_store::reserve_one;
use pli_value::Value;
use std::alloc::{AllocError, Global};
use std::mem;

/// So many temporaries, of which none is set. Where none is asked for and none is there, no call is made.
#[inline(always)]
pub fn unset(temporaries: &mut Vec<Option<Value>>, count: u16) -> Result<(), AllocError>
    ensures { OnOk result (temporaries.new.items ≡ replicate count None) }
{
    if count == 0 && temporaries.is_empty() {
        return Ok(());
    }
    unset_all(temporaries, count)
}

/// The same where there may be some.
#[inline(never)]
fn unset_all(temporaries: &mut Vec<Option<Value>>, count: u16) -> Result<(), AllocError>
    ensures { OnOk result (temporaries.new.items ≡ replicate count None) }
{
    temporaries.clear();
    temporaries.reserve(usize::from(count))?;
    for _unset in 0..count {
        temporaries.push_reserved(None);
    }
    Ok(())
}

/// The activation of a block before its first instruction and before its variables are made: its first slots are its
/// arguments, and it has these lists, of which no dummy argument is being prepared.
#[inline(always)]
pub fn activation<'m>(
    unit: usize,
    number: u16,
    block: &Block,
    link: u32,
    lists: Lists<'m>,
) -> Activation<'m>
    requires { lists.room.value.pending.items ≡ [] }
    ensures frame { frame_view result ≡ record {
      unit = unit;
      next = block.now.entry;
      operands = stack lists.entry.operands.items;
      locals = record {
        temporaries = map (option_map value_view) lists.entry.room.value.temporaries.items;
        jumps = 0;
        stamp = 0;
      };
      again = false;
    } }
    ensures activation { activation_view result ≡ record {
      unit = unit;
      block = number;
      statement = block.now.statement;
      link = link;
      slots = map place_view lists.entry.slots.items;
      pending = [];
      owned = lists.entry.room.value.owned.items;
      on_units = no_on_unit;
    } }
{
    let Lists {
        slots,
        operands,
        room,
    } = lists;
    Activation {
        unit,
        block: number,
        statement: block.statement,
        link,
        slots,
        next: block.entry as usize,
        operands,
        room,
        jumps: 0,
        stamp: 0,
        on_units: no_on_units(),
        again: false,
    }
}

/// No ON-unit.
#[inline(always)]
fn no_on_units() -> OnUnits
    ensures { on_units_view result ≡ no_on_unit }
{
    OnUnits {
        overflow: None,
        zero_divide: None,
        area: None,
    }
}

/// Puts the activation of a block in the place of another one, as `activation` makes it, and gives that back as it
/// waits, to execute its next instruction again or not: part for part, so that what is large is moved once.
#[inline(always)]
fn put_aside<'m>(
    here: &mut Activation<'m>,
    unit: usize,
    number: u16,
    block: &Block,
    link: u32,
    lists: Lists<'m>,
    again: bool,
) -> Activation<'m>
    requires { lists.room.value.pending.items ≡ [] }
    ensures frame { frame_view here.new ≡ record {
      unit = unit;
      next = block.now.entry;
      operands = stack lists.entry.operands.items;
      locals = record {
        temporaries = map (option_map value_view) lists.entry.room.value.temporaries.items;
        jumps = 0;
        stamp = 0;
      };
      again = false;
    } }
    ensures activation { activation_view here.new ≡ record {
      unit = unit;
      block = number;
      statement = block.now.statement;
      link = link;
      slots = map place_view lists.entry.slots.items;
      pending = [];
      owned = lists.entry.room.value.owned.items;
      on_units = no_on_unit;
    } }
    ensures waits { waiting_view result ≡ record (frame_view here.old) { again = again } }
    ensures kept { activation_view result ≡ activation_view here.old }
{
    let Lists {
        slots,
        operands,
        room,
    } = lists;
    let waits = Activation {
        unit: here.unit,
        block: here.block,
        statement: here.statement,
        link: here.link,
        slots: mem::replace(&mut here.slots, slots),
        next: here.next,
        operands: mem::replace(&mut here.operands, operands),
        room: mem::replace(&mut here.room, room),
        jumps: here.jumps,
        stamp: here.stamp,
        on_units: here.on_units,
        again,
    };
    here.unit = unit;
    here.block = number;
    here.statement = block.statement;
    here.link = link;
    here.next = block.entry as usize;
    here.jumps = 0;
    here.stamp = 0;
    here.on_units = no_on_units();
    here.again = false;
    waits
}

/// Lets the newest activation wait, for which there is memory, to execute its next instruction again or not, and begins
/// one of a block of a unit, whose variables are not made yet. It has these lists, with its arguments as slots, and owns
/// the dummy arguments that are handed over.
#[inline(always)]
pub fn begin_ready<'m>(
    machine: &mut Machine<'m>,
    unit: usize,
    number: u16,
    block: &Block,
    link: u32,
    lists: Lists<'m>,
    again: bool,
)
    requires room { length machine.old.waiting.items < 1000 }
    requires memory { vec_len machine.old.waiting < vec_capacity machine.old.waiting }
    requires empty { AreEmpty lists.operands.items lists.room.value.pending.items }
    requires unset { lists.room.value.temporaries.items ≡ replicate block.now.temporaries None }
    ensures { (image : Image) (put pending : List ℕ) →
        AreHanded (map place_view lists.entry.slots.items) pending lists.entry.room.value.owned.items
        machine.old.here.room.value.pending.items →
        HasBegun image put unit number block.now.statement block.now.entry block.now.temporaries link
        (map place_view lists.entry.slots.items) again pending machine.old machine.new }
{
    let waits = put_aside(&mut machine.here, unit, number, block, link, lists, again);
    machine.waiting.push_reserved(waits);
    machine.display.turn(&machine.waiting, link);
}

/// The same, where there may be no memory.
#[inline(always)]
fn begin_block<'m>(
    machine: &mut Machine<'m>,
    unit: usize,
    number: u16,
    block: &Block,
    link: u32,
    mut lists: Lists<'m>,
    again: bool,
) -> Result<(), AllocError>
    requires room { length machine.old.waiting.items < 1000 }
    requires empty { AreEmpty lists.operands.items lists.room.value.pending.items }
    ensures { OnOk result ((image : Image) (put pending : List ℕ) →
        AreHanded (map place_view lists.entry.slots.items) pending lists.entry.room.value.owned.items
        machine.old.here.room.value.pending.items →
        HasBegun image put unit number block.now.statement block.now.entry block.now.temporaries link
        (map place_view lists.entry.slots.items) again pending machine.old machine.new) }
{
    unset(&mut lists.room.temporaries, block.temporaries)?;
    reserve_one(&mut machine.waiting)?;
    begin_ready(machine, unit, number, block, link, lists, again);
    Ok(())
}

/// Enters a block of a unit, of which this is the code, while the newest activation waits, to execute its next
/// instruction again or not. There is room for one activation more.
#[inline(always)]
pub fn enter<'m>(
    alloc: Global,
    ready: &ReadyCode<'_, 'm>,
    machine: &mut Machine<'m>,
    unit: usize,
    number: u16,
    block: &Block,
    link: u32,
    lists: Lists<'m>,
    again: bool,
) -> Result<Option<Stop>, AllocError>
    requires room { length machine.old.waiting.items < 1000 }
    requires empty { AreEmpty lists.operands.items lists.room.value.pending.items }
    ensures { IfOk result (λ stop. (image : Image) (pending : List ℕ) →
        AreHanded (map place_view lists.entry.slots.items) pending lists.entry.room.value.owned.items
        machine.old.here.room.value.pending.items → Moves image
        (λ here frames w. enters unit number (block_looked_up (code_view ready.now.code.now) (block_view block.now))
        link (map place_view lists.entry.slots.items) (record here { again = again } ∷ frames)
        (with_pending pending w))
        machine.old machine.new stop) }
{
    begin_block(machine, unit, number, block, link, lists, again)?;
    match make_variables(alloc, ready, machine, &block.variables) {
        Ok(()) => Ok(None),
        Err(fault) => Ok(Some(stop_at(fault)?)),
    }
}
