//! Storage: the generations that live.
ghost use Rattle.std.specs.Prelude.{◌≡◌, ◌↔◌, ℕ, ◌≤◌, ◌++◌, List, ◌∷◌, [], length, map, min, true, false, None};
ghost use Rattle.std.specs.Prelude.{IsTrue, IsFalse, IfOk, IfSome, MatchOption, MatchResult, OnErr};
ghost use Rattle.std.specs.Option.{option_map};
ghost use Rattle.pli_bytes.specs.Contents.{values_of};
ghost use Rattle.pli_map.specs.Description as tree;
ghost use Rattle.pli_map.specs.Description.{Bit, FixedBinary};
ghost use Rattle.pli_map.specs.Scalars.{scalars_of};
ghost use Rattle.pli_map.specs.Sizes.{size_of};
ghost use Rattle.pli_map.specs.Values.{are_held, holds};
ghost use Rattle.pli_map.specs.views.DescriptionView.{description_view};
ghost use Rattle.pli_value.specs.Short.{short_view};
ghost use Rattle.pli_value.specs.Value as plain;
ghost use Rattle.pli_value.specs.Value.{Bits, Number, value_view};
ghost use Rattle.pli_world.specs.Storage.{generation_in, live_bytes, whole};
ghost use Rattle.pli_world.specs.Targets.{target_at};
ghost use Rattle.pli_world.specs.World.{World, Yields, held, stored, copied, made_of, dummy_of, in_newest};
ghost use Rattle.pli_store.specs.answers.Answered.{Answered};
ghost use Rattle.pli_store.specs.answers.Begins.{Begins, BeginsWith};
ghost use Rattle.pli_store.specs.answers.Found.{StandsAt, LeadsTo, LeadsToNone};
ghost use Rattle.pli_store.specs.answers.Kept.{rise};
ghost use Rattle.pli_store.specs.views.GenerationView.{generation_view, made_view};

use crate::bits::bit_at;
use crate::blocks::{new_area, whole_at};
use crate::copying::copy_part;
use crate::fault::StoreFault;
use crate::generation::{Generation, Made};
use crate::living::Target;
use crate::numbers::number_within;
use crate::part::{GenerationPart, is_of_bits, is_one_bit, number_precision, short_length};
use crate::place::{Place, digits_of};
use crate::putting::{holds_number, put_bit, put_number, put_short, put_value};
use crate::reserving::reserve_one;
use crate::spare::SpareBytes;
use pli_bytes::{holds, number_at, put_value_at, short_at, value_at};
use pli_map::{
    Description, are_same_scalars, is_area, is_scalar, mark_at_once, mark_of_elements, size_at_once,
};
use pli_run::RunError;
use pli_value::{ShortBits, Value};
use std::alloc::{AllocError, Global};

/// How many bytes may live at once (own).
const BYTE_LIMIT: u32 = 16_777_216;

/// How many generations may ever be made (own).
const GENERATION_LIMIT: u32 = 4_294_967_294;

/// The generations that live, in the order in which they were made.
#[derive(Drop)]
pub struct Storage<'m> {
    pub(crate) alloc: Global,
    pub(crate) generations: Vec<Generation<'m>>,
    /// How many generations were ever made: the number of the next.
    pub(crate) made: u32,
    /// How many bytes live.
    pub(crate) live: u32,
    /// What generations have left that have ended.
    pub(crate) spare: SpareBytes,
    ghost counted: { live ≡ live_bytes (map generation_view generations.items) },
    ghost limited: { live ≤ 16777216 },
    ghost rising: { rise 0 (map generation_view generations.items) made ≡ true },
}

impl<'m> Storage<'m> {
    ghost use Rattle.pli_store.specs.views.StorageView.{place_view, target_view, storage_view, made_count};
    ghost use Rattle.pli_store.specs.views.StorageView.{with_storage, NumberPut, CannotPutNumber, ValuePut, CannotPut};
    ghost use Rattle.pli_store.specs.views.StorageView.{RoomFor, SameStorage};

    /// Storage in which nothing lives, before anything was made.
    pub fn new(alloc: Global) -> Storage<'m>
        ensures storage { storage_view result ≡ [] }
        ensures made { made_count result ≡ 0 }
    {
        Storage {
            alloc,
            generations: Vec::new(alloc),
            made: 0,
            live: 0,
            spare: SpareBytes::new(alloc),
        }
    }

    /// Where the generation of a number stands among those that live; a right guess saves the search.
    #[inline]
    pub(crate) fn find(&self, number: u32, guess: usize) -> Option<usize>
        ensures { MatchOption result (generation_in (storage_view self.now) number ≡ None)
            (StandsAt (storage_view self.now) number) }
    {
        if guess < self.generations.len() && self.generations[guess].number == number {
            return Some(guess);
        }
        self.generations
            .binary_search_by_key(&number, |generation| generation.number)
            .ok()
    }

    /// Where the generation of a number stands, if those that live are spread evenly over their numbers: a guess.
    #[inline]
    fn even_guess(&self, number: u32) -> usize {
        let Some(first) = self.generations.first() else {
            return 0;
        };
        let Some(last) = self.generations.last() else {
            return 0;
        };
        let span = u64::from(last.number.saturating_sub(first.number));
        let ahead = u64::from(number.saturating_sub(first.number));
        let steps = self.generations.len().saturating_sub(1) as u64;
        if span == steps {
            return ahead as usize;
        }
        if span == 0 {
            return 0;
        }
        (ahead.saturating_mul(steps) / span) as usize
    }

    /// Where the generation of a number stands; found at once where the numbers of those that live rise by one, or are
    /// spread evenly.
    #[inline(always)]
    pub(crate) fn find_near(&self, number: u32) -> Option<usize>
        ensures { MatchOption result (generation_in (storage_view self.now) number ≡ None)
            (StandsAt (storage_view self.now) number) }
    {
        match self.found_at_once(number) {
            Some(at) => Some(at),
            None => self.find_far(number),
        }
    }

    /// Where the generation of a number stands, if those before it have all numbers from the first one on.
    #[inline(always)]
    pub(crate) fn found_at_once(&self, number: u32) -> Option<usize>
        ensures { IfSome result (StandsAt (storage_view self.now) number) }
    {
        let guess = self.near_guess(number);
        if guess < self.generations.len() && self.generations[guess].number == number {
            return Some(guess);
        }
        None
    }

    /// Where the generation of a number stands, if those before it have all numbers from the first one on: a guess.
    #[inline(always)]
    fn near_guess(&self, number: u32) -> usize {
        match self.generations.first() {
            Some(first) => number.wrapping_sub(first.number) as usize,
            None => 0,
        }
    }

    /// Where the generation of a number stands among those that live, guessed as if these were spread evenly.
    #[inline(never)]
    fn find_far(&self, number: u32) -> Option<usize>
        ensures { MatchOption result (generation_in (storage_view self.now) number ≡ None)
            (StandsAt (storage_view self.now) number) }
    {
        self.find(number, self.even_guess(number))
    }

    /// What lives at a position of a generation, at 0 the generation; `None` where nothing does. Takes time logarithmic
    /// in the generations.
    #[inline]
    pub fn living(&self, generation: u32, position: u32) -> Option<Target<'m>>
        ensures { option_map target_view result ≡ target_at generation position (storage_view self.now) }
    {
        // as many live at most as were made, so an index has 32 bits
        let _made = self.made;
        let at = self.find_near(generation)?;
        let lives = &self.generations[at];
        if position == 0 {
            let place = Place::of_whole(generation, 0, at as u32, lives.description);
            return Some(Target {
                place,
                made: lives.made,
            });
        }
        let whole = whole_at(lives, position)?;
        Some(Target {
            place: Place::of_whole(generation, position, at as u32, whole),
            made: Made::Based,
        })
    }

    /// Where the generation stands that is a scalar to which a place leads, if it stands where it was made: no search
    /// is needed then.
    #[inline(always)]
    fn lone(&self, place: Place<'_>) -> Option<usize>
        ensures { IfSome result (λ at. LeadsTo (storage_view self.now) (place_view place.entry)
            (record { at = at; offset = 0 })) }
    {
        let at = place.hint as usize;
        let generation = self.generations.get(at)?;
        if generation.number != place.generation || place.position != 0 || place.offset != 0 {
            return None;
        }
        if !are_same_scalars(generation.description, place.description) {
            return None;
        }
        Some(at)
    }

    /// The number of so many binary digits to which a place leads, if its generation stands where it was made and is
    /// that number or an array of such numbers: no search and no walk is needed then.
    #[inline(always)]
    fn number_part(&self, place: Place<'_>, _precision: u8) -> Option<GenerationPart>
        requires { description_view place.description.now ≡ FixedBinary _precision }
        ensures { IfSome result (λ part. LeadsTo (storage_view self.now) (place_view place.entry) part) }
    {
        self.near_part(place)
    }

    /// What the place of a scalar holds. Outside areas only a string takes memory. `DeadLocator` where the generation
    /// has ended or the block, `DescriptionMismatch` where another whole description stands there, `NoRule` where the
    /// place leads to no scalar.
    pub fn held(&self, alloc: Global, place: Place<'_>) -> Result<Value, StoreFault>
        ensures { (w : World) → Answered value_view result (with_storage self.now w) (with_storage self.now w)
            (held (place_view place.entry) (with_storage self.now w)) }
    {
        if place.position != 0 {
            return self.block_held(alloc, place);
        }
        let part = self.part(place)?;
        if !is_scalar(place.description) {
            return Err(StoreFault::NoRule);
        }
        let bytes = &self.generations[part.at].bytes;
        Ok(value_at(alloc, bytes, part.offset, place.description)?)
    }

    /// The number that the place of a number of so many binary digits holds, found by a walk over the description.
    #[inline(never)]
    fn walked_number(&self, place: Place<'_>, precision: u8) -> Option<i64>
        requires { description_view place.description.now ≡ FixedBinary precision }
        ensures { (w : World) → MatchOption result (LeadsToNone (storage_view self.now) (place_view place.entry))
            (λ x. held (place_view place.entry) (with_storage self.now w)
            ≡ Yields (Number x) (with_storage self.now w)) }
    {
        match self.walked_part(place) {
            Ok(part) => number_at(&self.generations[part.at].bytes, part.offset, precision),
            Err(_fault) => None,
        }
    }

    /// The number that the place of a number of so many binary digits holds, which is not alone: in an array it is
    /// found at once, and else by a walk.
    #[inline(never)]
    fn far_number(&self, place: Place<'_>, precision: u8) -> Option<i64>
        requires { description_view place.description.now ≡ FixedBinary precision }
        ensures { (w : World) → MatchOption result (LeadsToNone (storage_view self.now) (place_view place.entry))
            (λ x. held (place_view place.entry) (with_storage self.now w)
            ≡ Yields (Number x) (with_storage self.now w)) }
    {
        match self.number_part(place, precision) {
            Some(part) => number_at(&self.generations[part.at].bytes, part.offset, precision),
            None => self.walked_number(place, precision),
        }
    }

    /// The number that the place of a scalar holds; `None` where it holds none, or nothing, and for a place in a block,
    /// of which `held` tells. That of a number alone is found at once.
    #[inline(always)]
    pub fn number_at(&self, place: Place<'_>) -> Option<i64>
        ensures { (w : World) → MatchOption result ((precision : ℕ)
            → description_view place.entry.description.now ≡ FixedBinary precision
            → LeadsToNone (storage_view self.now) (place_view place.entry))
            (λ x. held (place_view place.entry) (with_storage self.now w)
            ≡ Yields (Number x) (with_storage self.now w)) }
    {
        let precision = number_precision(place.description)?;
        match self.lone(place) {
            Some(at) => number_at(&self.generations[at].bytes, 0, precision),
            None => self.far_number(place, precision),
        }
    }

    /// The number that the place of a scalar holds, as `number_at` finds it, where the place mostly leads to an element
    /// of an array: that is found at once.
    #[inline(always)]
    pub fn element_number(&self, place: Place<'_>) -> Option<i64>
        ensures { (w : World) → MatchOption result ((precision : ℕ)
            → description_view place.entry.description.now ≡ FixedBinary precision
            → LeadsToNone (storage_view self.now) (place_view place.entry))
            (λ x. held (place_view place.entry) (with_storage self.now w)
            ≡ Yields (Number x) (with_storage self.now w)) }
    {
        let precision = number_precision(place.description)?;
        match self.number_part(place, precision) {
            Some(part) => Some(number_within(
                &self.generations[part.at].bytes,
                part.offset,
                precision,
            )),
            None => self.walked_number(place, precision),
        }
    }

    /// The bit that the place of a scalar of BIT of one bit holds; `None` where it holds none, or nothing, and for a
    /// place in a block, of which `held` tells.
    #[inline]
    pub fn bit_at(&self, place: Place<'_>) -> Option<bool>
        ensures { (w : World) → MatchOption result (description_view place.entry.description.now ≡ Bit 1
            → LeadsToNone (storage_view self.now) (place_view place.entry))
            (λ b. held (place_view place.entry) (with_storage self.now w)
            ≡ Yields (Bits (b ∷ [])) (with_storage self.now w)) }
    {
        if !is_one_bit(place.description) {
            return None;
        }
        match self.part(place) {
            Ok(part) => bit_at(&self.generations[part.at].bytes, part.offset),
            Err(_fault) => None,
        }
    }

    /// The bits that the place of a scalar of BIT of so many bits holds, which are few; `None` where it holds none, and
    /// for a place in a block.
    #[inline(always)]
    fn short_in(&self, place: Place<'_>, count: usize) -> Option<ShortBits>
        requires length { description_view place.description.now ≡ Bit count }
        requires few { count ≤ 63 }
        ensures { (w : World) → MatchOption result (LeadsToNone (storage_view self.now) (place_view place.entry))
            (λ s. held (place_view place.entry) (with_storage self.now w)
            ≡ Yields (Bits (short_view s)) (with_storage self.now w)) }
    {
        match self.scalar_part(place) {
            Some(part) => short_at(&self.generations[part.at].bytes, part.offset, count),
            None => None,
        }
    }

    /// The bits that the place of a scalar of BIT of at most 63 bits holds; `None` where it holds none, or nothing, and
    /// for a place in a block, of which `held` tells. Those of a string alone are found at once.
    #[inline(always)]
    pub fn short_at(&self, place: Place<'_>) -> Option<ShortBits>
        ensures { (w : World) → MatchOption result ((count : ℕ) → count ≤ 63
            → description_view place.entry.description.now ≡ Bit count
            → LeadsToNone (storage_view self.now) (place_view place.entry))
            (λ s. held (place_view place.entry) (with_storage self.now w)
            ≡ Yields (Bits (short_view s)) (with_storage self.now w)) }
    {
        match short_length(place.description) {
            Some(count) => self.short_in(place, count),
            None => None,
        }
    }

    /// A value put at the place of a scalar. `DeadLocator` where the generation has ended or the block,
    /// `DescriptionMismatch` where another whole description stands there, `NoRule` where the place leads to no part,
    /// or to one that may not hold the value; then nothing has changed. Only in a block it takes memory.
    #[inline]
    pub fn stored(&mut self, place: Place<'_>, value: Value) -> Result<(), StoreFault>
        ensures answer { (w : World) → Answered (λ _. tt) result (with_storage self.old w) (with_storage self.new w)
            (stored (place_view place.entry) (value_view value) (with_storage self.old w)) }
        ensures err { OnErr result (SameStorage self.old self.new) }
    {
        if place.position != 0 {
            return self.block_stored(place, &value);
        }
        let part = self.part(place)?;
        if !holds(place.description, &value) {
            return Err(StoreFault::NoRule);
        }
        put_value(&mut self.generations, part, place.description, &value);
        Ok(())
    }

    /// A number put at the number of so many binary digits to which a place leads.
    #[inline(always)]
    pub(crate) fn put_number_in(
        &mut self,
        place: Place<'_>,
        part: GenerationPart,
        precision: u8,
        number: i64,
    ) -> bool
        requires precision { description_view place.description.now ≡ FixedBinary precision }
        requires leads { LeadsTo (storage_view self.old) (place_view place) part }
        ensures put { NumberPut result self.old self.new (place_view place.entry) number }
        ensures held { IsTrue result ↔ ((precision ≤ 63) × (holds (FixedBinary precision) (Number number) ≡ true)) }
    {
        if !holds_number(precision, number) {
            return false;
        }
        put_number(&mut self.generations, part, precision, number);
        true
    }

    /// A number put at the place of a number of so many binary digits that is found by a walk over the description.
    #[inline(never)]
    fn put_walked_number(&mut self, place: Place<'_>, precision: u8, number: i64) -> bool
        requires { description_view place.description.now ≡ FixedBinary precision }
        ensures put { NumberPut result self.old self.new (place_view place.entry) number }
        ensures refused { IsFalse result → CannotPutNumber self.old (place_view place.entry) number }
    {
        match self.walked_part(place) {
            Ok(part) => self.put_number_in(place, part, precision, number),
            Err(_fault) => false,
        }
    }

    /// A number put at the place of a number of so many binary digits, which is not alone: in an array it is found at
    /// once, and else by a walk.
    #[inline(never)]
    fn put_far_number(&mut self, place: Place<'_>, precision: u8, number: i64) -> bool
        requires { description_view place.description.now ≡ FixedBinary precision }
        ensures put { NumberPut result self.old self.new (place_view place.entry) number }
        ensures refused { IsFalse result → CannotPutNumber self.old (place_view place.entry) number }
    {
        match self.number_part(place, precision) {
            Some(part) => self.put_number_in(place, part, precision, number),
            None => self.put_walked_number(place, precision, number),
        }
    }

    /// A number put at the place of a scalar of at most 63 binary digits; where it is not, nothing has changed, and
    /// `stored` tells why. That of a number alone is found at once.
    #[inline(always)]
    pub fn put_number(&mut self, place: Place<'_>, number: i64) -> bool
        ensures put { NumberPut result self.old self.new (place_view place.entry) number }
        ensures refused { IsFalse result → CannotPutNumber self.old (place_view place.entry) number }
    {
        let Some(precision) = number_precision(place.description) else {
            return false;
        };
        match self.lone(place) {
            Some(at) => {
                self.put_number_in(place, GenerationPart { at, offset: 0 }, precision, number)
            }
            None => self.put_far_number(place, precision, number),
        }
    }

    /// A number put at the place of a scalar as `put_number` puts it, where the place mostly leads to an element of an
    /// array: that is found at once.
    #[inline(always)]
    pub fn put_element_number(&mut self, place: Place<'_>, number: i64) -> bool
        ensures put { NumberPut result self.old self.new (place_view place.entry) number }
        ensures refused { IsFalse result → CannotPutNumber self.old (place_view place.entry) number }
    {
        let Some(precision) = number_precision(place.description) else {
            return false;
        };
        match self.number_part(place, precision) {
            Some(part) => self.put_number_in(place, part, precision, number),
            None => self.put_walked_number(place, precision, number),
        }
    }

    /// A bit put at the place of a scalar of BIT of one bit; where it is not, nothing has changed, and `stored` tells
    /// why.
    #[inline]
    pub fn put_bit(&mut self, place: Place<'_>, bit: bool) -> bool
        ensures put { ValuePut result self.old self.new (place_view place.entry) (Bits (bit ∷ [])) }
        ensures refused { IsFalse result → CannotPut self.old (place_view place.entry) (Bits (bit ∷ [])) }
    {
        if !is_one_bit(place.description) {
            return false;
        }
        match self.part(place) {
            Ok(part) => put_bit(&mut self.generations, part, bit),
            Err(_fault) => false,
        }
    }

    /// The part that is a scalar to which a place leads, outside areas; one alone is found at once.
    #[inline(always)]
    fn scalar_part(&self, place: Place<'_>) -> Option<GenerationPart>
        ensures { MatchOption result (LeadsToNone (storage_view self.now) (place_view place.entry))
            (λ part. LeadsTo (storage_view self.now) (place_view place.entry) part) }
    {
        match self.lone(place) {
            Some(at) => Some(GenerationPart { at, offset: 0 }),
            None => self.further_part(place),
        }
    }

    /// Bits put at the place of a scalar of BIT of as many; where they are not, nothing has changed, and `stored` tells
    /// why. At a string alone they are put at once.
    #[inline(always)]
    pub fn put_short(&mut self, place: Place<'_>, bits: ShortBits) -> bool
        ensures put { ValuePut result self.old self.new (place_view place.entry) (Bits (short_view bits)) }
        ensures refused { IsFalse result → CannotPut self.old (place_view place.entry) (Bits (short_view bits)) }
    {
        if !is_of_bits(place.description, bits.count) {
            return false;
        }
        match self.scalar_part(place) {
            Some(part) => put_short(&mut self.generations, part, bits),
            None => false,
        }
    }

    /// What one place holds put at another of an equal description; the source is looked at whole, and then the target.
    /// `DeadLocator` where a generation or a block has ended, `DescriptionMismatch` where a block has another whole
    /// description, `NoRule` where a place leads to no part, the source is an area, or the descriptions differ; then
    /// nothing has changed. Takes memory only where a place lies in a block.
    pub fn copied(&mut self, source: Place<'_>, target: Place<'_>) -> Result<(), StoreFault>
        ensures answer { (w : World) → Answered (λ _. tt) result (with_storage self.old w) (with_storage self.new w)
            (copied (place_view source.entry) (place_view target.entry) (with_storage self.old w)) }
        ensures err { OnErr result (SameStorage self.old self.new) }
    {
        if is_area(source.description) {
            return self.refuse_copy(source, target);
        }
        if !source.description.equals(target.description) {
            return self.refuse_copy(source, target);
        }
        if source.position != 0 || target.position != 0 {
            return self.copied_bytes(source, target);
        }
        let from = self.part(source)?;
        let to = self.part(target)?;
        copy_part(&mut self.generations, from, to, target.description);
        Ok(())
    }

    /// Whether there is room for a new generation of so many bytes; 2^32 stands for every greater number.
    #[inline(always)]
    pub(crate) fn has_room_for(&self, size: u64) -> bool
        ensures { (d : tree.Description) → min size 4294967296 ≡ min (size_of d) 4294967296
            → RoomFor result self.now d }
    {
        let room = u64::from(BYTE_LIMIT - self.live);
        self.made < GENERATION_LIMIT && size <= room
    }

    /// How many bytes a new generation of this description takes, if there is room for it.
    #[inline(always)]
    fn size_within(&self, description: &Description) -> Option<usize>
        ensures { MatchOption result (RoomFor false self.now (description_view description.now))
            (λ size. (size ≡ size_of (description_view description.now))
            × RoomFor true self.now (description_view description.now)) }
    {
        let size = size_at_once(description);
        if self.has_room_for(size) {
            Some(size as usize)
        } else {
            None
        }
    }

    /// Whether there is room for a new generation of this description: no more than 4,294,967,294 are ever made, and no
    /// more than 16,777,216 bytes live at once (own).
    #[inline]
    pub fn has_room(&self, description: &Description) -> bool
        ensures { RoomFor result self.now (description_view description.now) }
    {
        self.size_within(description).is_some()
    }

    /// So many bytes, whatever they are, in memory that generations have left that have ended, if there is any.
    #[inline]
    pub fn spare_bytes(&mut self, alloc: Global, size: usize) -> Result<Vec<u8>, AllocError>
        ensures size { IfOk result (λ bytes. length bytes.items ≡ size) }
        ensures same { SameStorage self.old self.new }
    {
        self.spare.take(alloc, size)
    }

    /// A new generation, which begins with these bytes, an area without blocks; without bytes where its scalars may not
    /// hold what they should begin with. `StorageLimit` where there is no room for it; else `NoRule` where there are no
    /// bytes, or `OutOfMemory`. After an error nothing has changed.
    pub fn make(
        &mut self,
        description: &'m Description,
        made: Made,
        initial: Option<Vec<u8>>,
    ) -> Result<Place<'m>, StoreFault>
        requires { IfSome initial (λ bytes. length bytes.items ≡ size_of (description_view description.now)) }
        ensures answer { (w : World) (vs : List plain.Value) → Begins (description_view description.now) initial vs
            → Answered place_view result (with_storage self.old w) (with_storage self.new w)
            (made_of (description_view description.now) (made_view made) vs (with_storage self.old w)) }
        ensures err { OnErr result (SameStorage self.old self.new) }
    {
        if !self.has_room(description) {
            return Err(StoreFault::Raised(RunError::StorageLimit));
        }
        match initial {
            Some(bytes) => self.add(description, made, bytes),
            None => Err(StoreFault::NoRule),
        }
    }

    /// A new generation, which begins with a copy of these bytes, an area without blocks. `StorageLimit` where there is
    /// no room for it, or `OutOfMemory`. After an error nothing has changed. Takes memory only where none is left of
    /// those that have ended.
    #[inline(always)]
    pub fn make_copy(
        &mut self,
        alloc: Global,
        description: &'m Description,
        made: Made,
        bytes: &[u8],
    ) -> Result<Place<'m>, StoreFault>
        requires { length bytes.now ≡ size_of (description_view description.now) }
        ensures answer { (w : World) (vs : List plain.Value) →
            BeginsWith (description_view description.now) bytes.now vs
            → Answered place_view result (with_storage self.old w) (with_storage self.new w)
            (made_of (description_view description.now) (made_view made) vs (with_storage self.old w)) }
        ensures err { OnErr result (SameStorage self.old self.new) }
    {
        let place = self.next_place(description);
        match self.make_next(alloc, description, made, bytes) {
            Ok(()) => Ok(place),
            Err(fault) => Err(fault),
        }
    }

    /// The place of the whole of the generation that is made next, if that is of this description.
    #[inline(always)]
    fn next_place(&self, description: &'m Description) -> Place<'m>
        ensures { place_view result ≡ whole (made_count self.now) (description_view description.now) }
    {
        Place::of_whole(self.made, 0, self.generations.len() as u32, description)
    }

    /// A new generation as `make_copy` makes it, whose place is the next, so that it is not handed back.
    #[inline(always)]
    fn make_next(
        &mut self,
        alloc: Global,
        description: &'m Description,
        made: Made,
        bytes: &[u8],
    ) -> Result<(), StoreFault>
        requires { length bytes.now ≡ size_of (description_view description.now) }
        ensures answer { (w : World) (vs : List plain.Value) →
            BeginsWith (description_view description.now) bytes.now vs
            → Answered (λ _. whole (made_count self.old) (description_view description.now)) result
            (with_storage self.old w) (with_storage self.new w)
            (made_of (description_view description.now) (made_view made) vs (with_storage self.old w)) }
        ensures err { OnErr result (SameStorage self.old self.new) }
    {
        if !self.has_room_for(bytes.len() as u64) {
            return Err(StoreFault::Raised(RunError::StorageLimit));
        }
        let own = self.spare.copied(alloc, bytes)?;
        self.add_next(description, made, own)
    }

    /// A new generation for a dummy argument, which begins with a value, and which the newest activation has to note
    /// among those that it prepares. `NoRule` where the description may not hold the value; else `StorageLimit` where
    /// there is no room for it, or `OutOfMemory`. After an error nothing has changed.
    #[inline(always)]
    pub fn make_dummy(
        &mut self,
        alloc: Global,
        description: &'m Description,
        value: Value,
    ) -> Result<Place<'m>, StoreFault>
        ensures made { (w : World) → MatchResult result
            (λ place. dummy_of (description_view description.now) (value_view value) (with_storage self.old w)
            ≡ Yields (place_view place) (in_newest (λ a. record a { pending = a.pending ++ place.generation ∷ [] })
            (with_storage self.new w)))
            (λ _. Answered place_view result (with_storage self.old w) (with_storage self.new w)
            (dummy_of (description_view description.now) (value_view value) (with_storage self.old w))) }
        ensures err { OnErr result (SameStorage self.old self.new) }
    {
        if !holds(description, &value) {
            return Err(StoreFault::NoRule);
        }
        let Some(size) = self.size_within(description) else {
            return Err(StoreFault::Raised(RunError::StorageLimit));
        };
        let mut bytes = self.spare.take(alloc, size)?;
        put_value_at(&mut bytes, 0, description, &value);
        self.add(description, Made::Dummy, bytes)
    }

    /// A new generation with these bytes, for which there is room. `OutOfMemory` where there is no memory to note it.
    #[inline(always)]
    fn add(
        &mut self,
        description: &'m Description,
        made: Made,
        bytes: Vec<u8>,
    ) -> Result<Place<'m>, StoreFault>
        requires room { RoomFor true self.old (description_view description.now) }
        requires size { length bytes.items ≡ size_of (description_view description.now) }
        ensures answer { (w : World) → are_held (scalars_of (description_view description.now))
            (values_of (description_view description.now) bytes.items) ≡ true
            → Answered place_view result (with_storage self.old w) (with_storage self.new w)
            (made_of (description_view description.now) (made_view made)
            (values_of (description_view description.now) bytes.items)
            (with_storage self.old w)) }
        ensures err { OnErr result (SameStorage self.old self.new) }
    {
        let place = self.next_place(description);
        match self.add_next(description, made, bytes) {
            Ok(()) => Ok(place),
            Err(fault) => Err(fault),
        }
    }

    /// The same, whose place is the next, so that it is not handed back.
    #[inline(always)]
    fn add_next(
        &mut self,
        description: &'m Description,
        made: Made,
        bytes: Vec<u8>,
    ) -> Result<(), StoreFault>
        requires room { RoomFor true self.old (description_view description.now) }
        requires size { length bytes.items ≡ size_of (description_view description.now) }
        ensures answer { (w : World) → are_held (scalars_of (description_view description.now))
            (values_of (description_view description.now) bytes.items) ≡ true
            → Answered (λ _. whole (made_count self.old) (description_view description.now)) result
            (with_storage self.old w) (with_storage self.new w)
            (made_of (description_view description.now) (made_view made)
            (values_of (description_view description.now) bytes.items)
            (with_storage self.old w)) }
        ensures err { OnErr result (SameStorage self.old self.new) }
    {
        let size = bytes.len() as u32;
        let area = new_area(self.alloc, description)?;
        reserve_one(&mut self.generations)?;
        self.generations.push_reserved(Generation {
            number: self.made,
            digits: digits_of(description),
            made,
            elements: mark_of_elements(description),
            mark: mark_at_once(description),
            description,
            bytes,
            area,
        });
        self.made += 1;
        self.live += size;
        Ok(())
    }
}
