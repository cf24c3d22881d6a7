//! Characters where they lie in storage.
ghost use Rattle.std.specs.Prelude.{◌≡◌, true, IsTrue, IsFalse, IfSome, MatchOption};
ghost use Rattle.pli_bytes.specs.Changes.{text_fitted};
ghost use Rattle.pli_map.specs.Values.{holds};
ghost use Rattle.pli_map.specs.views.DescriptionView.{description_view};
ghost use Rattle.pli_value.specs.Value.{Characters};
ghost use Rattle.pli_world.specs.World.{World, Yields, held};

use crate::part::{GenerationPart, greatest_length, is_alone_or_element};
use crate::place::Place;
use crate::putting::{lengthen, put_text};
use crate::storage::Storage;
use pli_bytes::text_at;

impl<'m> Storage<'m> {
    ghost use Rattle.pli_store.specs.answers.Found.{LeadsTo, LeadsToNone};
    ghost use Rattle.pli_store.specs.answers.Kinds.{are_characters};
    ghost use Rattle.pli_store.specs.views.StorageView.{place_view, storage_view, with_storage, ValuePut};
    ghost use Rattle.pli_store.specs.views.StorageView.{Appended, CannotAppend};

    /// The scalar to which a place leads, if its generation stands where it was made and is that scalar, or an array of
    /// strings of CHARACTER with it: no search and no walk is needed then.
    #[inline(always)]
    fn near_scalar(&self, place: Place<'_>) -> Option<GenerationPart>
        ensures { IfSome result (λ part. LeadsTo (storage_view self.now) (place_view place.entry) part) }
    {
        let at = place.hint as usize;
        let generation = self.generations.get(at)?;
        if generation.number != place.generation || place.position != 0 {
            return None;
        }
        if !is_alone_or_element(
            generation.description,
            generation.bytes.len(),
            place.offset,
            place.description,
        ) {
            return None;
        }
        Some(GenerationPart {
            at,
            offset: place.offset as usize,
        })
    }

    /// The characters that the place of a scalar holds, found by a search and a walk.
    #[inline(never)]
    fn far_text(&self, place: Place<'_>) -> Option<&[u8]>
        ensures { (w : World) → MatchOption result
            (are_characters (description_view place.entry.description.now) ≡ true
            → LeadsToNone (storage_view self.now) (place_view place.entry))
            (λ text. held (place_view place.entry) (with_storage self.now w)
            ≡ Yields (Characters text.now) (with_storage self.now w)) }
    {
        match self.part(place) {
            Ok(part) => text_at(
                &self.generations[part.at].bytes,
                part.offset,
                place.description,
            ),
            Err(_fault) => None,
        }
    }

    /// The characters that the place of a scalar holds, lent as they lie; `None` where it holds none, or nothing, and
    /// for a place in a block, of which `held` tells. Those of a string alone, or of an element, are found at once.
    #[inline(always)]
    pub fn text_at(&self, place: Place<'_>) -> Option<&[u8]>
        ensures { (w : World) → MatchOption result
            (are_characters (description_view place.entry.description.now) ≡ true
            → LeadsToNone (storage_view self.now) (place_view place.entry))
            (λ text. held (place_view place.entry) (with_storage self.now w)
            ≡ Yields (Characters text.now) (with_storage self.now w)) }
    {
        match self.near_scalar(place) {
            Some(part) => text_at(
                &self.generations[part.at].bytes,
                part.offset,
                place.description,
            ),
            None => self.far_text(place),
        }
    }

    /// Characters put at the part to which a place leads.
    #[inline(always)]
    fn put_text_in(&mut self, place: Place<'_>, part: GenerationPart, text: &[u8]) -> bool
        requires { LeadsTo (storage_view self.old) (place_view place) part }
        ensures put { ValuePut result self.old self.new (place_view place.entry)
            (Characters (text_fitted (description_view place.entry.description.now) text.now)) }
        ensures held { IsTrue result → holds (description_view place.entry.description.now)
            (Characters (text_fitted (description_view place.entry.description.now) text.now)) ≡ true }
    {
        put_text(&mut self.generations, part, place.description, text)
    }

    /// Characters put at the place of a scalar that is found by a search and a walk.
    #[inline(never)]
    fn put_far_text(&mut self, place: Place<'_>, text: &[u8]) -> bool
        ensures put { ValuePut result self.old self.new (place_view place.entry)
            (Characters (text_fitted (description_view place.entry.description.now) text.now)) }
        ensures held { IsTrue result → holds (description_view place.entry.description.now)
            (Characters (text_fitted (description_view place.entry.description.now) text.now)) ≡ true }
    {
        match self.part(place) {
            Ok(part) => self.put_text_in(place, part, text),
            Err(_fault) => false,
        }
    }

    /// Characters put at the place of a scalar of CHARACTER or CHARACTER VARYING, cut on the right or extended there
    /// with blanks to what it holds; where they are not, nothing has changed.
    #[inline(always)]
    pub fn put_text(&mut self, place: Place<'_>, text: &[u8]) -> bool
        ensures put { ValuePut result self.old self.new (place_view place.entry)
            (Characters (text_fitted (description_view place.entry.description.now) text.now)) }
        ensures held { IsTrue result → holds (description_view place.entry.description.now)
            (Characters (text_fitted (description_view place.entry.description.now) text.now)) ≡ true }
    {
        match self.near_scalar(place) {
            Some(part) => self.put_text_in(place, part, text),
            None => self.put_far_text(place, text),
        }
    }

    /// Characters put after those that the place of a scalar of CHARACTER VARYING holds, where both are no more than
    /// it may hold and than the room; where they are not put there, nothing has changed, and `held` and `stored` tell
    /// why.
    #[inline]
    pub fn append(&mut self, place: Place<'_>, more: &[u8], room: usize) -> bool
        ensures put { Appended result self.old self.new (place_view place.entry) more.now room }
        ensures refused { IsFalse result → CannotAppend self.old (place_view place.entry) more.now room }
    {
        let Some(greatest) = greatest_length(place.description) else {
            return false;
        };
        match self.part(place) {
            Ok(part) => lengthen(&mut self.generations, part, greatest, more, room),
            Err(_fault) => false,
        }
    }
}
