//! The generations of one CONTROLLED variable.
ghost use Rattle.std.specs.Prelude.{◌≡◌, ◌∷◌, [], true, false, OnOk, OnErr, MatchOption};
ghost use Rattle.pli_world.specs.Stacks.{counted_in};
ghost use Rattle.pli_world.specs.Storage.{Controlled, whole};
ghost use Rattle.pli_world.specs.World.{World, Yields, made_of, newest_in};
ghost use Rattle.pli_store.specs.answers.Answered.{Answered};
ghost use Rattle.pli_store.specs.views.StorageView.{SameStorage, place_view, with_storage};
ghost use Rattle.pli_stacks.specs.answers.Popped.{IsPopped};
ghost use Rattle.pli_stacks.specs.views.StackView.{next_of, stack_view};

use crate::initial::make_next;
use crate::stack::Stack;
use pli_run::RunError;
use pli_store::{Handle, Made, Place, Storage, StoreFault, reserve_one};
use std::alloc::Global;

/// The greatest number of FIXED BINARY(15).
const COUNT_LIMIT: usize = 32_767;

/// The newest place of a stack; `NoGeneration` where there is none.
pub fn newest_in<'m>(stack: &Stack<'m>) -> Result<Place<'m>, StoreFault>
    ensures { (w : World) → Answered place_view result w w (newest_in (stack_view stack.now).places w) }
{
    match stack.generations.last() {
        Some(newest) => Ok(stack.kind.place(*newest)),
        None => Err(StoreFault::Raised(RunError::NoGeneration)),
    }
}

/// How many places a stack has; `FixedOverflow` where that is no number of FIXED BINARY(15).
pub fn count_of(stack: &Stack<'_>) -> Result<u16, StoreFault>
    ensures { (w : World) → Answered (λ count. count) result w w (counted_in (stack_view stack.now).places w) }
{
    if stack.generations.len() <= COUNT_LIMIT {
        Ok(stack.generations.len() as u16)
    } else {
        Err(StoreFault::Raised(RunError::FixedOverflow))
    }
}

/// Makes a generation of the stack's variable, which is the newest from then on. After an error nothing has changed.
#[inline(always)]
pub fn push_made<'m>(
    alloc: Global,
    stack: &mut Stack<'m>,
    storage: &mut Storage<'m>,
) -> Result<(), StoreFault>
    ensures answer { (w : World) → Answered (λ _. next_of (stack_view stack.old) storage.old) result
        (with_storage storage.old w) (with_storage storage.new w)
        (made_of (stack_view stack.old).variable.description Controlled (stack_view stack.old).variable.initial
        (with_storage storage.old w)) }
    ensures ok { OnOk result (stack_view stack.new ≡ record (stack_view stack.old) {
      places = next_of (stack_view stack.old) storage.old ∷ (stack_view stack.old).places;
    }) }
    ensures same { OnErr result (stack_view stack.new ≡ stack_view stack.old) }
    ensures storage { OnErr result (SameStorage storage.old storage.new) }
{
    reserve_one(&mut stack.generations)?;
    let next = storage.next_handle();
    let made_from: &Stack<'m> = stack;
    make_next(
        alloc,
        storage,
        &made_from.kind,
        Made::Controlled,
        made_from.initial,
        made_from.laid_bytes(),
    )?;
    stack.generations.push_reserved(next);
    Ok(())
}

/// Takes the newest generation off a stack, if it has one.
#[inline(always)]
pub fn pop_newest(stack: &mut Stack<'_>) -> Option<Handle>
    ensures { MatchOption result (((stack_view stack.old).places ≡ []) × (stack_view stack.new ≡ stack_view stack.old))
        (λ newest. stack_view stack.old ≡ record (stack_view stack.new) {
          places = whole newest.number (stack_view stack.new).variable.description
              ∷ (stack_view stack.new).places;
        }) }
{
    stack.generations.pop()
}

/// Makes a generation of the stack's variable, as `push_made` makes it, where that is done at once: all that is needed is
/// at hand. `false` where it is not made, and nothing has changed then.
#[inline(always)]
pub fn push_at_once<'m>(stack: &mut Stack<'m>, storage: &mut Storage<'m>) -> bool
    ensures made { result ≡ true → (w : World) → made_of (stack_view stack.old).variable.description Controlled
        (stack_view stack.old).variable.initial (with_storage storage.old w)
        ≡ Yields (next_of (stack_view stack.old) storage.old) (with_storage storage.new w) }
    ensures pushed { result ≡ true → stack_view stack.new ≡ record (stack_view stack.old) {
      places = next_of (stack_view stack.old) storage.old ∷ (stack_view stack.old).places;
    } }
    ensures same { result ≡ false → stack_view stack.new ≡ stack_view stack.old }
    ensures storage { result ≡ false → SameStorage storage.old storage.new }
{
    if stack.generations.len() == stack.generations.capacity() {
        return false;
    }
    let made_from: &Stack<'m> = stack;
    let Some(laid) = made_from.laid_bytes() else {
        return false;
    };
    let next = storage.next_handle();
    if !storage.make_at_once(&made_from.kind, Made::Controlled, laid) {
        return false;
    }
    stack.generations.push_reserved(next);
    true
}

/// Ends the newest generation of a stack and takes it off, where that is done at once; `false` where it does not
/// end, and nothing has changed then.
#[inline(always)]
pub fn pop_at_once<'m>(stack: &mut Stack<'m>, storage: &mut Storage<'m>) -> bool
    ensures popped { result ≡ true → IsPopped stack.old stack.new storage.old storage.new }
    ensures same { result ≡ false → stack_view stack.new ≡ stack_view stack.old }
    ensures storage { result ≡ false → SameStorage storage.old storage.new }
{
    let Some(last) = stack.generations.len().checked_sub(1) else {
        return false;
    };
    if !storage.end_at_once(stack.generations[last].number) {
        return false;
    }
    let _newest = stack.generations.take_last();
    true
}
