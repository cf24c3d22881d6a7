//! Pointers, read and put where places lead to them.
ghost use Rattle.std.specs.Prelude.{◌≡◌, true, IsFalse, IfSome, MatchOption};
ghost use Rattle.pli_map.specs.Description.{Pointer};
ghost use Rattle.pli_map.specs.views.DescriptionView.{description_view};
ghost use Rattle.pli_value.specs.Value.{Located};
ghost use Rattle.pli_world.specs.World.{World, Yields, held};
ghost use Rattle.pli_store.specs.answers.Found.{LeadsTo, LeadsToNone};

use crate::part::{GenerationPart, is_pointer};
use crate::place::Place;
use crate::pointers::{known_pointer, pointer_at};
use crate::putting::put_pointer;
use crate::storage::Storage;
use pli_value::Locator;

/// Where a pointer stands that is found at once: its generation among those that live, and how many bytes after the
/// beginning of that.
#[derive(Clone, Copy)]
pub struct NearPointer {
    pub(crate) at: usize,
    pub(crate) offset: usize,
}

/// The mark of pointers.
const POINTER_MARK: u64 = 5;

/// Whether both of these are 0, which is asked at once.
#[inline(always)]
fn is_at_start(position: u32, offset: u32) -> bool
    ensures { result ≡ true → (position ≡ 0) × (offset ≡ 0) }
{
    u64::from(offset) * 4_294_967_296 + u64::from(position) == 0
}

impl Storage<'_> {
    ghost use Rattle.pli_store.specs.answers.Near.{IsNear};
    ghost use Rattle.pli_store.specs.views.StorageView.{place_view, storage_view, with_storage, ValuePut, CannotPut};

    /// The pointer to which a place leads, if its generation stands where it was made and is a pointer or an array of
    /// such: no search and no walk is needed then.
    #[inline(always)]
    fn pointer_part(&self, place: Place<'_>) -> Option<GenerationPart>
        requires { description_view place.description.now ≡ Pointer }
        ensures { IfSome result (λ part. LeadsTo (storage_view self.now) (place_view place.entry) part) }
    {
        self.near_part(place)
    }

    /// Where the pointer stands to which a place leads, if it is found at once. It is read and put there without another
    /// look-up, as long as nothing ends.
    #[inline(always)]
    pub fn near_pointer(&self, place: Place<'_>) -> Option<NearPointer>
        ensures { IfSome result (λ near. IsNear self.now (place_view place.entry) near) }
    {
        if !is_pointer(place.description) {
            return None;
        }
        let part = self.pointer_part(place)?;
        Some(NearPointer {
            at: part.at,
            offset: part.offset,
        })
    }

    /// The same of a pointer alone: what is done with it is short then.
    #[inline(always)]
    pub fn lone_pointer(&self, place: Place<'_>) -> Option<NearPointer>
        ensures { IfSome result (λ near. IsNear self.now (place_view place.entry) near) }
    {
        if !is_pointer(place.description) {
            return None;
        }
        if !is_at_start(place.position, place.offset) {
            return None;
        }
        let at = place.hint as usize;
        let generation = self.generations.get(at)?;
        if generation.number != place.generation {
            return None;
        }
        if generation.mark != POINTER_MARK {
            return None;
        }
        Some(NearPointer { at, offset: 0 })
    }

    /// The pointer that is found so.
    #[inline(always)]
    pub fn pointer_near(&self, _place: Place<'_>, near: NearPointer) -> Option<Locator>
        requires { IsNear self.now (place_view _place) near }
        ensures { (w : World) → IfSome result (λ l. held (place_view _place.entry) (with_storage self.now w)
            ≡ Yields (Located l) (with_storage self.now w)) }
    {
        Some(known_pointer(&self.generations[near.at].bytes, near.offset))
    }

    /// A pointer put where one is found so, which is held there then; where it is not, nothing has changed.
    #[inline(always)]
    pub fn put_pointer_near(
        &mut self,
        place: Place<'_>,
        near: NearPointer,
        locator: Locator,
    ) -> bool
        requires { IsNear self.old (place_view place) near }
        ensures put { ValuePut result self.old self.new (place_view place.entry) (Located locator) }
        ensures held { result ≡ true → (w : World) → held (place_view place.entry) (with_storage self.new w)
            ≡ Yields (Located locator) (with_storage self.new w) }
    {
        let part = GenerationPart {
            at: near.at,
            offset: near.offset,
        };
        self.put_pointer_in(place, part, locator)
    }

    /// The pointer that the place of a scalar of POINTER holds, found by a walk over the description.
    #[inline(never)]
    fn far_pointer(&self, place: Place<'_>) -> Option<Locator>
        requires { description_view place.description.now ≡ Pointer }
        ensures { (w : World) → MatchOption result (LeadsToNone (storage_view self.now) (place_view place.entry))
            (λ l. held (place_view place.entry) (with_storage self.now w)
            ≡ Yields (Located l) (with_storage self.now w)) }
    {
        match self.part(place) {
            Ok(part) => pointer_at(&self.generations[part.at].bytes, part.offset),
            Err(_fault) => None,
        }
    }

    /// The pointer that the place of a scalar of POINTER holds; `None` where it holds none, or nothing, and for a place
    /// in a block, of which `held` tells. That of a pointer alone, or of one in an array, is found at once.
    #[inline(always)]
    pub fn pointer_at(&self, place: Place<'_>) -> Option<Locator>
        ensures { (w : World) → MatchOption result (description_view place.entry.description.now ≡ Pointer
            → LeadsToNone (storage_view self.now) (place_view place.entry))
            (λ l. held (place_view place.entry) (with_storage self.now w)
            ≡ Yields (Located l) (with_storage self.now w)) }
    {
        if !is_pointer(place.description) {
            return None;
        }
        match self.pointer_part(place) {
            Some(part) => Some(known_pointer(&self.generations[part.at].bytes, part.offset)),
            None => self.far_pointer(place),
        }
    }

    /// A pointer put at the pointer to which a place leads.
    #[inline(always)]
    fn put_pointer_in(&mut self, place: Place<'_>, part: GenerationPart, locator: Locator) -> bool
        requires description { description_view place.description.now ≡ Pointer }
        requires leads { LeadsTo (storage_view self.old) (place_view place) part }
        ensures put { ValuePut result self.old self.new (place_view place.entry) (Located locator) }
        ensures refused { IsFalse result → CannotPut self.old (place_view place.entry) (Located locator) }
        ensures held { result ≡ true → (w : World) → held (place_view place.entry) (with_storage self.new w)
            ≡ Yields (Located locator) (with_storage self.new w) }
    {
        put_pointer(&mut self.generations, part, locator)
    }

    /// A pointer put at the place of a scalar of POINTER that is found by a walk over the description.
    #[inline(never)]
    fn put_far_pointer(&mut self, place: Place<'_>, locator: Locator) -> bool
        requires { description_view place.description.now ≡ Pointer }
        ensures put { ValuePut result self.old self.new (place_view place.entry) (Located locator) }
        ensures refused { IsFalse result → CannotPut self.old (place_view place.entry) (Located locator) }
    {
        match self.part(place) {
            Ok(part) => self.put_pointer_in(place, part, locator),
            Err(_fault) => false,
        }
    }

    /// A pointer put at the place of a scalar of POINTER; where it is not, nothing has changed, and `stored` tells why.
    /// That of a pointer alone, or of one in an array, is found at once.
    #[inline(always)]
    pub fn put_pointer(&mut self, place: Place<'_>, locator: Locator) -> bool
        ensures put { ValuePut result self.old self.new (place_view place.entry) (Located locator) }
        ensures refused { IsFalse result → description_view place.entry.description.now ≡ Pointer
            → CannotPut self.old (place_view place.entry) (Located locator) }
    {
        if !is_pointer(place.description) {
            return false;
        }
        match self.pointer_part(place) {
            Some(part) => self.put_pointer_in(place, part, locator),
            None => self.put_far_pointer(place, locator),
        }
    }
}
