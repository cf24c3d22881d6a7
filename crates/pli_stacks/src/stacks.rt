//! The generations of CONTROLLED variables.
ghost use Rattle.std.specs.Prelude.{◌≡◌, ◌∷◌, ◌++◌, [], length, map, true, false, IfOk, OnOk, OnErr};
ghost use Rattle.pli_map.specs.views.DescriptionView.{description_view};
ghost use Rattle.pli_type_tree.specs.Templates.{variable_of};
ghost use Rattle.pli_type_tree.specs.views.TemplateView.{initial_view};
ghost use Rattle.pli_world.specs.Stacks.{newest, stacked, unstacked, counted};
ghost use Rattle.pli_world.specs.World.{World, Yields};
ghost use Rattle.pli_store.specs.answers.Answered.{Answered};
ghost use Rattle.pli_store.specs.views.StorageView.{SameStorage, place_view, with_storage};

use crate::initial::few_bytes;
use crate::stack::Stack;
use crate::stacking::{count_of, newest_in, pop_at_once, pop_newest, push_at_once, push_made};
use pli_map::Description;
use pli_run::RunError;
use pli_store::{Kind, Place, Storage, StoreFault};
use pli_type_tree::InitialScalar;
use std::alloc::{AllocError, Global};

/// The stacks of CONTROLLED variables: what the generations of each are made from, and the places of those that it has.
/// Stacks are numbered from 0.
#[derive(Drop)]
pub struct Stacks<'m> {
    stacks: Vec<Stack<'m>>,
}

impl<'m> Stacks<'m> {
    ghost use Rattle.pli_stacks.specs.views.StacksView.{stacks_view, with_stacks};

    /// No stacks.
    pub fn new(alloc: Global) -> Stacks<'m>
        ensures { stacks_view result ≡ [] }
    {
        Stacks {
            stacks: Vec::new(alloc),
        }
    }

    /// One stack more, of a variable that has no generation yet and whose generations begin as a template of this
    /// description and of these initial values has it; answers its number. After an error nothing has changed.
    pub fn add(
        &mut self,
        alloc: Global,
        description: &'m Description,
        initial: &'m [InitialScalar],
    ) -> Result<usize, AllocError>
        ensures number { IfOk result (λ number. number ≡ length (stacks_view self.old)) }
        ensures added { OnOk result (stacks_view self.new ≡ stacks_view self.old ++ record {
          variable = variable_of (record {
            description = description_view description.now;
            initial = map initial_view initial.now;
          });
          places = [];
        } ∷ []) }
        ensures err { OnErr result (stacks_view self.new ≡ stacks_view self.old) }
    {
        let number = self.stacks.len();
        let kind = Kind::of(description);
        let laid = few_bytes(alloc, kind.description, initial)?;
        self.stacks.push(Stack {
            kind,
            initial,
            laid,
            generations: Vec::new(alloc),
        })?;
        Ok(number)
    }

    /// The place of the newest generation of a variable. `NoGeneration` where it has none, `NoRule` where no stack has
    /// the number.
    pub fn newest(&self, number: usize) -> Result<Place<'m>, StoreFault>
        ensures { (w : World) → Answered place_view result (with_stacks self.now w) (with_stacks self.now w)
            (newest number (with_stacks self.now w)) }
    {
        match self.stacks.get(number) {
            Some(stack) => newest_in(stack),
            None => Err(StoreFault::NoRule),
        }
    }

    /// How many generations a variable has, a number of FIXED BINARY(15). `FixedOverflow` where it has more than
    /// 32,767,
    /// `NoRule` where no stack has the number.
    pub fn generations(&self, number: usize) -> Result<u16, StoreFault>
        ensures { (w : World) → Answered (λ count. count) result (with_stacks self.now w) (with_stacks self.now w)
            (counted number (with_stacks self.now w)) }
    {
        match self.stacks.get(number) {
            Some(stack) => count_of(stack),
            None => Err(StoreFault::NoRule),
        }
    }

    /// ALLOCATE of a CONTROLLED variable: a new generation, with its initial values, which is its newest from then on.
    /// `NoRule` where no stack has the number; else `StorageLimit` where there is no room for it, or `OutOfMemory`.
    /// After an error nothing has changed.
    #[inline(always)]
    pub fn allocate_controlled(
        &mut self,
        alloc: Global,
        storage: &mut Storage<'m>,
        number: usize,
    ) -> Result<(), StoreFault>
        ensures answer { (w : World) → Answered (λ _. tt) result (with_stacks self.old (with_storage storage.old w))
            (with_stacks self.new (with_storage storage.new w))
            (stacked number (with_stacks self.old (with_storage storage.old w))) }
        ensures stacks { OnErr result (stacks_view self.new ≡ stacks_view self.old) }
        ensures storage { OnErr result (SameStorage storage.old storage.new) }
    {
        if number >= self.stacks.len() {
            return Err(StoreFault::NoRule);
        }
        push_made(alloc, &mut self.stacks[number], storage)?;
        Ok(())
    }

    /// FREE of a CONTROLLED variable: its newest generation ends. `NoGeneration` where it has none, `NoRule` where no
    /// stack has the number; then nothing has changed.
    #[inline(always)]
    pub fn free_controlled(
        &mut self,
        storage: &mut Storage<'m>,
        number: usize,
    ) -> Result<(), StoreFault>
        ensures answer { (w : World) → Answered (λ _. tt) result (with_stacks self.old (with_storage storage.old w))
            (with_stacks self.new (with_storage storage.new w))
            (unstacked number (with_stacks self.old (with_storage storage.old w))) }
        ensures stacks { OnErr result (stacks_view self.new ≡ stacks_view self.old) }
        ensures storage { OnErr result (SameStorage storage.old storage.new) }
    {
        if number >= self.stacks.len() {
            return Err(StoreFault::NoRule);
        }
        let Some(newest) = pop_newest(&mut self.stacks[number]) else {
            return Err(StoreFault::Raised(RunError::NoGeneration));
        };
        storage.end_one(newest.number);
        Ok(())
    }

    /// ALLOCATE of a CONTROLLED variable as `allocate_controlled` makes it, where that is done at once: all that is
    /// needed is at hand. `false` where it is not made, and nothing has changed then.
    #[inline(always)]
    pub fn allocate_at_once(&mut self, storage: &mut Storage<'m>, number: usize) -> bool
        ensures done { result ≡ true → (w : World) → stacked number (with_stacks self.old (with_storage storage.old w))
            ≡ Yields tt (with_stacks self.new (with_storage storage.new w)) }
        ensures stacks { result ≡ false → stacks_view self.new ≡ stacks_view self.old }
        ensures storage { result ≡ false → SameStorage storage.old storage.new }
    {
        if number >= self.stacks.len() {
            return false;
        }
        push_at_once(&mut self.stacks[number], storage)
    }

    /// The same of FREE.
    #[inline(always)]
    pub fn free_at_once(&mut self, storage: &mut Storage<'m>, number: usize) -> bool
        ensures done { result ≡ true → (w : World) → unstacked number (with_stacks self.old (with_storage storage.old w))
            ≡ Yields tt (with_stacks self.new (with_storage storage.new w)) }
        ensures stacks { result ≡ false → stacks_view self.new ≡ stacks_view self.old }
        ensures storage { result ≡ false → SameStorage storage.old storage.new }
    {
        if number >= self.stacks.len() {
            return false;
        }
        pop_at_once(&mut self.stacks[number], storage)
    }
}
