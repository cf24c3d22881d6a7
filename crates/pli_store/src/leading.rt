//! Where places lead among the generations that live.
ghost use Rattle.std.specs.Prelude.{IfSome, MatchOption};
ghost use Rattle.pli_store.specs.answers.Found.{Leads, LeadsTo, LeadsToNone};

use crate::fault::StoreFault;
use crate::part::{GenerationPart, is_part_of};
use crate::place::Place;
use crate::storage::Storage;
use pli_map::stands_near;
use pli_run::RunError;

impl Storage<'_> {
    ghost use Rattle.pli_store.specs.views.StorageView.{place_view, storage_view};

    /// The scalar to which a place leads, if its generation stands where it was made and is that scalar, or an array
    /// of such: no search and no walk is needed then.
    #[inline(always)]
    pub(crate) fn near_part(&self, place: Place<'_>) -> Option<GenerationPart>
        ensures { IfSome result (λ part. LeadsTo (storage_view self.now) (place_view place.entry) part) }
    {
        let at = place.hint as usize;
        let generation = self.generations.get(at)?;
        if generation.number != place.generation || place.position != 0 {
            return None;
        }
        if !stands_near(
            generation.description,
            generation.mark,
            generation.elements,
            generation.bytes.len(),
            place.offset,
            place.description,
        ) {
            return None;
        }
        Some(GenerationPart {
            at,
            offset: place.offset as usize,
        })
    }

    /// The generation and the part of it to which a place outside areas leads. `DeadLocator` where the generation has
    /// ended, `NoRule` where no such part stands there, and for a place in a block.
    #[inline(always)]
    pub(crate) fn part(&self, place: Place<'_>) -> Result<GenerationPart, StoreFault>
        ensures { Leads (storage_view self.now) (place_view place.entry) result }
    {
        match self.near_part(place) {
            Some(part) => Ok(part),
            None => self.walked_part(place),
        }
    }

    /// The same of a place that leads to no scalar alone; `None` where it leads nowhere, and for a place in a block.
    #[inline(never)]
    pub(crate) fn further_part(&self, place: Place<'_>) -> Option<GenerationPart>
        ensures { MatchOption result (LeadsToNone (storage_view self.now) (place_view place.entry))
            (λ part. LeadsTo (storage_view self.now) (place_view place.entry) part) }
    {
        self.part(place).ok()
    }

    /// The part of a place, found by a search and a walk over the description.
    #[inline(never)]
    pub(crate) fn walked_part(&self, place: Place<'_>) -> Result<GenerationPart, StoreFault>
        ensures { Leads (storage_view self.now) (place_view place.entry) result }
    {
        let Some(at) = self.find(place.generation, place.hint as usize) else {
            return Err(StoreFault::Raised(RunError::DeadLocator));
        };
        if place.position != 0 {
            return Err(StoreFault::NoRule);
        }
        let generation = &self.generations[at];
        if !is_part_of(
            generation.description,
            generation.bytes.len(),
            place.offset,
            place.description,
        ) {
            return Err(StoreFault::NoRule);
        }
        Ok(GenerationPart {
            at,
            offset: place.offset as usize,
        })
    }
}
