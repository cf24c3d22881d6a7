//! Elements of arrays: those of arrays of numbers, of structures and of strings of one bit are found where they stand,
//! without a walk over the description.
ghost use Rattle.std.specs.Prelude.{◌≡◌, ◌*◌, ◌≤◌, ◌≤ℤ◌, ◌-ℤ◌, ◌↔◌, ◌∷◌, [], true, IfSome, IsTrue, unsigned_abs};
ghost use Rattle.pli_map.specs.Description.{Bit, FixedBinary};
ghost use Rattle.pli_map.specs.Values.{holds};
ghost use Rattle.pli_map.specs.views.DescriptionView.{description_view};
ghost use Rattle.pli_value.specs.Value.{Bits, Number};
ghost use Rattle.pli_world.specs.Storage.{field_of};
ghost use Rattle.pli_world.specs.World.{World, Yields, held, led_on};

use crate::bits::bit_at;
use crate::element_place::ElementPlace;
use crate::lone_numbers::USUAL_DIGITS;
use crate::numbers::number_within;
use crate::part::{GenerationPart, is_bit_at, is_number_in_row, is_one_bit, number_precision};
use crate::place::{OFFSET_LIMIT, Place};
use crate::putting::put_bit;
use crate::storage::Storage;
use pli_map::{Description, stands_near};

/// Where a number stands that is an element: its generation among those that live, how many bytes after the beginning of
/// that, and how many binary digits it has.
#[derive(Clone, Copy)]
pub struct RowNumber {
    pub(crate) at: usize,
    pub(crate) offset: usize,
    /// How many binary digits the number has at most.
    pub precision: u8,
}

impl<'m> Place<'m> {
    ghost use Rattle.pli_store.specs.views.StorageView.{place_view};

    /// The same part so many multiples further as a subscript is above the low bound, as `element` leads there, with how
    /// that is. `None` where that is more than 1,000,000 bytes after the beginning.
    #[inline(always)]
    pub fn element_at(self, low: i32, multiplier: u32, subscript: i32) -> Option<ElementPlace<'m>>
        requires { low ≤ℤ subscript }
        ensures { IfSome result (λ e. (w : World) → led_on (unsigned_abs (subscript -ℤ low) * multiplier)
            (description_view self.entry.description.now) (place_view self.entry) w ≡ Yields (place_view e.place) w) }
    {
        let above = subscript.abs_diff(low);
        let passed = u64::from(above) * u64::from(multiplier);
        let place = self.advanced(passed, self.description)?;
        Some(ElementPlace {
            place,
            first: self.offset,
            above,
            stride: multiplier,
        })
    }

    /// The part of this description that stands so many bytes further, and from there as many multiples as a subscript is
    /// above the low bound, as `field` and `element_at` lead there one after the other. `None` where that is more than
    /// 1,000,000 bytes after the beginning.
    #[inline(always)]
    #[tactic(auto, using(pli_world::specs::laws::OperationLaws::led_near))]
    pub fn field_element(
        self,
        offset: u32,
        description: &'m Description,
        low: i32,
        multiplier: u32,
        subscript: i32,
    ) -> Option<ElementPlace<'m>>
        requires { low ≤ℤ subscript }
        ensures begins { IfSome result (λ _. (w : World) → led_on offset (description_view description.now)
            (place_view self.entry) w
            ≡ Yields (field_of offset (description_view description.now) (place_view self.entry)) w) }
        ensures leads { IfSome result (λ e. (w : World) → led_on (unsigned_abs (subscript -ℤ low) * multiplier)
            (description_view description.now)
            (field_of offset (description_view description.now) (place_view self.entry)) w
            ≡ Yields (place_view e.place) w) }
    {
        let above = subscript.abs_diff(low);
        let first = u64::from(self.offset) + u64::from(offset);
        let passed = u64::from(above) * u64::from(multiplier);
        let sum = first.checked_add(passed)?;
        if sum > u64::from(OFFSET_LIMIT) {
            return None;
        }
        let place = Place {
            generation: self.generation,
            position: self.position,
            offset: sum as u32,
            hint: self.hint,
            digits: 0,
            description,
            whole: self.whole,
        };
        Some(ElementPlace {
            place,
            first: first as u32,
            above,
            stride: multiplier,
        })
    }
}

impl Storage<'_> {
    ghost use Rattle.pli_store.specs.answers.Found.{LeadsTo};
    ghost use Rattle.pli_store.specs.answers.Rows.{IsRow};
    ghost use Rattle.pli_store.specs.views.StorageView.{place_view, storage_view, with_storage, NumberPut, ValuePut};

    /// Where the number of an element stands, if its generation stands where it was made and is that number, an array of
    /// such, or an array of structures in which it stands after other scalars: no search and no walk is needed then. It is
    /// read and put there without another look-up, as long as nothing ends.
    #[inline(always)]
    pub fn row_number(&self, element: ElementPlace<'_>) -> Option<RowNumber>
        ensures { IfSome result (IsRow self.now (place_view element.entry.place)) }
    {
        let place = element.place;
        let precision = number_precision(place.description)?;
        let at = place.hint as usize;
        let generation = self.generations.get(at)?;
        if generation.number != place.generation || place.position != 0 {
            return None;
        }
        let size = generation.bytes.len();
        if !is_number_in_row(generation.description, size, &element, precision) {
            return None;
        }
        Some(RowNumber {
            at,
            offset: place.offset as usize,
            precision,
        })
    }

    /// The element of an array of scalars to which a place leads, as `near_part` finds it: no scalar that stands alone is
    /// looked for.
    #[inline(always)]
    fn part_in_row(&self, place: Place<'_>) -> Option<GenerationPart>
        ensures { IfSome result (λ part. LeadsTo (storage_view self.now) (place_view place.entry) part) }
    {
        let at = place.hint as usize;
        let generation = self.generations.get(at)?;
        if generation.number != place.generation || place.position != 0 {
            return None;
        }
        if !stands_near(
            generation.description,
            0,
            generation.elements,
            generation.bytes.len(),
            place.offset,
            place.description,
        ) {
            return None;
        }
        Some(GenerationPart {
            at,
            offset: place.offset as usize,
        })
    }

    /// The same of an element of an array of numbers of as many binary digits as most have: what is done with it is
    /// short then.
    #[inline(always)]
    pub fn usual_row(&self, place: Place<'_>) -> Option<RowNumber>
        ensures { IfSome result (IsRow self.now (place_view place.entry)) }
    {
        let precision = number_precision(place.description)?;
        if precision != USUAL_DIGITS {
            return None;
        }
        let part = self.part_in_row(place)?;
        Some(RowNumber {
            at: part.at,
            offset: part.offset,
            precision: USUAL_DIGITS,
        })
    }

    /// The number that is found so.
    #[inline(always)]
    pub fn number_of_row(&self, _place: Place<'_>, row: RowNumber) -> Option<i64>
        requires { IsRow self.now (place_view _place) row }
        ensures { (w : World) → IfSome result (λ x. held (place_view _place.entry) (with_storage self.now w)
            ≡ Yields (Number x) (with_storage self.now w)) }
    {
        Some(number_within(&self.generations[row.at].bytes, row.offset, row.precision))
    }

    /// A number put where one is found so, unless it does not fit; then nothing has changed.
    #[inline(always)]
    pub fn put_number_of_row(&mut self, place: Place<'_>, row: RowNumber, number: i64) -> bool
        requires { IsRow self.old (place_view place) row }
        ensures put { NumberPut result self.old self.new (place_view place.entry) number }
        ensures fits { IsTrue result ↔ ((row.precision ≤ 63)
            × (holds (FixedBinary row.precision) (Number number) ≡ true)) }
    {
        let part = GenerationPart {
            at: row.at,
            offset: row.offset,
        };
        self.put_number_in(place, part, row.precision, number)
    }

    /// The string of one bit to which a place leads, if its generation stands where it was made and is an array of such.
    #[inline(always)]
    fn bit_in_row(&self, place: Place<'_>) -> Option<GenerationPart>
        requires { description_view place.description.now ≡ Bit 1 }
        ensures { IfSome result (λ part. LeadsTo (storage_view self.now) (place_view place.entry) part) }
    {
        let at = place.hint as usize;
        let generation = self.generations.get(at)?;
        if generation.number != place.generation || place.position != 0 {
            return None;
        }
        let offset = place.offset as usize;
        if !is_bit_at(generation.description, generation.bytes.len(), offset) {
            return None;
        }
        Some(GenerationPart { at, offset })
    }

    /// The bit that the place of a string of one bit holds, found by a walk over the description.
    #[inline(never)]
    fn walked_bit(&self, place: Place<'_>) -> Option<bool>
        ensures { (w : World) → IfSome result (λ b. held (place_view place.entry) (with_storage self.now w)
            ≡ Yields (Bits (b ∷ [])) (with_storage self.now w)) }
    {
        self.bit_at(place)
    }

    /// The bit that an element holds, as `bit_at` finds it, where it mostly is of an array of strings of one bit: that is
    /// found at once.
    #[inline(always)]
    pub fn bit_of_element(&self, place: Place<'_>) -> Option<bool>
        ensures { (w : World) → IfSome result (λ b. held (place_view place.entry) (with_storage self.now w)
            ≡ Yields (Bits (b ∷ [])) (with_storage self.now w)) }
    {
        if !is_one_bit(place.description) {
            return None;
        }
        match self.bit_in_row(place) {
            Some(part) => bit_at(&self.generations[part.at].bytes, part.offset),
            None => self.walked_bit(place),
        }
    }

    /// A bit put at the string of one bit to which a place leads.
    #[inline(always)]
    fn put_bit_in(&mut self, place: Place<'_>, part: GenerationPart, bit: bool) -> bool
        requires one { description_view place.description.now ≡ Bit 1 }
        requires leads { LeadsTo (storage_view self.old) (place_view place) part }
        ensures put { ValuePut result self.old self.new (place_view place.entry) (Bits (bit ∷ [])) }
    {
        put_bit(&mut self.generations, part, bit)
    }

    /// A bit put at the place of a string of one bit that is found by a walk over the description; where it is not,
    /// nothing has changed.
    #[inline(never)]
    fn put_walked_bit(&mut self, place: Place<'_>, bit: bool) -> bool
        ensures put { ValuePut result self.old self.new (place_view place.entry) (Bits (bit ∷ [])) }
    {
        self.put_bit(place, bit)
    }

    /// A bit put at an element as `put_bit` puts it, where it mostly is of an array of strings of one bit: that is found
    /// at once.
    #[inline(always)]
    pub fn put_bit_of_element(&mut self, place: Place<'_>, bit: bool) -> bool
        ensures put { ValuePut result self.old self.new (place_view place.entry) (Bits (bit ∷ [])) }
    {
        if !is_one_bit(place.description) {
            return false;
        }
        match self.bit_in_row(place) {
            Some(part) => self.put_bit_in(place, part, bit),
            None => self.put_walked_bit(place, bit),
        }
    }
}
