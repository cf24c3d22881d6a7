//! The memory of activations that have ended, kept for those that begin.
ghost use Rattle.std.specs.Prelude.{◌≡◌, ◌<◌, ◌-◌, [], slice_get, true, vec_capacity, vec_len, IfOk, IfSome};
ghost use Rattle.std.specs.List.{All};
ghost use Rattle.pli_machine_activations.specs.answers.EmptyLists.{AreEmpty, AreEmptied, AreReady};

use crate::machine::Activation;
use crate::room::Room;
use pli_machine_operate::Operand;
use pli_store::Place;
use std::alloc::{AllocError, Global};

/// What an activation works on.
#[derive(Drop)]
pub struct Lists<'m> {
    pub slots: Vec<Place<'m>>,
    pub operands: Vec<Operand<'m>>,
    pub room: Box<Room>,
}

/// Takes all operands away, one after another, since there are few.
#[inline(always)]
fn take_all(operands: &mut Vec<Operand>)
    ensures { operands.new.items ≡ [] }
{
    'operands: while let Some(_newest) = operands.pop() {}
}

/// Takes away what an activation leaves that ends, but its slots and its temporaries.
#[inline(always)]
pub fn empty(ended: &mut Activation)
    ensures empty { AreEmpty ended.new.operands.items ended.new.room.value.pending.items }
    ensures owned { ended.new.room.value.owned.items ≡ [] }
{
    take_all(&mut ended.operands);
    let room = &mut *ended.room;
    room.pending.clear();
    room.owned.clear();
}

/// Whether there is memory for two generations, and no temporary.
#[inline(always)]
fn is_clear(room: &Room) -> bool
    ensures owned { result ≡ true → 1 < vec_capacity room.now.owned }
    ensures none { result ≡ true → room.now.temporaries.items ≡ [] }
{
    if room.owned.capacity() < 2 {
        return false;
    }
    if !room.temporaries.is_empty() {
        return false;
    }
    true
}

impl<'m> Lists<'m> {
    /// Nothing yet, with memory for two slots and two generations.
    #[inline(never)]
    pub fn new(alloc: Global) -> Result<Lists<'m>, AllocError>
        ensures slots { IfOk result (λ lists. lists.slots.items ≡ []) }
        ensures owned { IfOk result (λ lists. lists.room.value.owned.items ≡ []) }
        ensures empty { IfOk result (λ lists. AreEmpty lists.operands.items lists.room.value.pending.items) }
    {
        let mut slots = Vec::new(alloc);
        slots.reserve(2)?;
        let mut room = Room::boxed(alloc)?;
        room.owned.reserve(2)?;
        Ok(Lists {
            slots,
            operands: Vec::new(alloc),
            room,
        })
    }
}

/// Memory for activations, in which no operand is, and no generation.
#[derive(Drop)]
pub struct Spare<'m> {
    lists: Vec<Lists<'m>>,
    ghost emptied: { All AreEmptied lists.items },
}

impl<'m> Spare<'m> {
    /// None yet.
    pub fn new(alloc: Global) -> Spare<'m> {
        Spare {
            lists: Vec::new(alloc),
        }
    }

    /// Has lists of which there is no memory yet.
    #[inline(never)]
    fn fill(&mut self, alloc: Global) -> Result<(), AllocError>
        ensures { IfOk result (λ _. 0 < vec_len self.new.lists) }
    {
        let lists = Lists::new(alloc)?;
        self.lists.push(lists)?;
        Ok(())
    }

    /// Lists in which no slot, no operand and no generation is, with memory if there is any; temporaries may be there.
    #[inline(always)]
    pub fn take(&mut self, alloc: Global) -> Result<Lists<'m>, AllocError>
        ensures slots { IfOk result (λ lists. lists.slots.items ≡ []) }
        ensures owned { IfOk result (λ lists. lists.room.value.owned.items ≡ []) }
        ensures empty { IfOk result (λ lists. AreEmpty lists.operands.items lists.room.value.pending.items) }
    {
        if self.lists.is_empty() {
            self.fill(alloc)?;
        }
        let mut lists = self.lists.take_last();
        lists.slots.clear();
        Ok(lists)
    }

    /// Whether there are lists with memory for two slots and two generations, in which no temporary is.
    #[inline(always)]
    pub fn is_ready(&self) -> bool
        ensures ready { result ≡ true → IfSome (slice_get self.now.lists.items (vec_len self.now.lists - 1)) AreReady }
        ensures some { result ≡ true → 0 < vec_len self.now.lists }
    {
        let count = self.lists.len();
        if count == 0 {
            return false;
        }
        let lists = &self.lists[count - 1];
        if lists.slots.capacity() < 2 {
            return false;
        }
        is_clear(&lists.room)
    }

    /// The lists that are ready, in which no slot, no operand and no generation is.
    #[inline(always)]
    pub fn take_ready(&mut self) -> Lists<'m>
        requires some { 0 < vec_len self.old.lists }
        requires ready { IfSome (slice_get self.old.lists.items (vec_len self.old.lists - 1)) AreReady }
        ensures slots { result.slots.items ≡ [] }
        ensures owned { result.room.value.owned.items ≡ [] }
        ensures empty { AreEmpty result.operands.items result.room.value.pending.items }
        ensures ready { AreReady result }
    {
        let mut lists = self.lists.take_last();
        lists.slots.clear();
        lists
    }

    /// Keeps the memory of an activation that has ended, which is emptied; drops it where there is none to note it.
    #[inline(always)]
    pub fn keep(&mut self, ended: Activation<'m>)
        requires empty { AreEmpty ended.operands.items ended.room.value.pending.items }
        requires owned { ended.room.value.owned.items ≡ [] }
    {
        let Activation {
            slots,
            operands,
            room,
            ..
        } = ended;
        let _lists = self.lists.push(Lists {
            slots,
            operands,
            room,
        });
    }
}
