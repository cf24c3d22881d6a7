//! Values put into generations.
ghost use Rattle.std.specs.Prelude.{◌≡◌, ◌↔◌, ◌≤◌, ◌∷◌, [], map, true, IsTrue, IsFalse};
ghost use Rattle.pli_bytes.specs.Changes.{text_fitted};
ghost use Rattle.pli_map.specs.Description.{FixedBinary, Varying, Bit, Pointer};
ghost use Rattle.pli_map.specs.Values.{holds};
ghost use Rattle.pli_map.specs.views.DescriptionView.{description_view};
ghost use Rattle.pli_store.specs.answers.Found.{PartStands};
ghost use Rattle.pli_store.specs.answers.Puts.{ValuesPut, ValuesPutOrSame, LengthenedOrSame, IsTooLong};
ghost use Rattle.pli_store.specs.views.GenerationView.{generation_view};
ghost use Rattle.pli_value.specs.Short.{short_view};
ghost use Rattle.pli_value.specs.Value.{value_view, Number, Characters, Bits, Located};

use crate::bits::put_bit_at;
use crate::generation::Generation;
use crate::numbers::put_number_within;
use crate::part::GenerationPart;
use crate::pointers::put_pointer_at;
use pli_bytes::{append_at, put_known_number, put_short_at, put_text_at, put_value_at};
use pli_map::Description;
use pli_value::{Locator, ShortBits, Value, number};

/// Whether a number of so many binary digits may be this; of more than 63 digits none is.
#[inline(always)]
pub fn holds_number(precision: u8, number: i64) -> bool
    ensures { IsTrue result ↔ ((precision ≤ 63) × (holds (FixedBinary precision) (Number number) ≡ true)) }
{
    precision <= 63 && number::fit(number, precision).is_ok()
}

/// Puts a value in the place of the one of a scalar that may hold it.
#[inline]
pub fn put_value(
    generations: &mut Vec<Generation<'_>>,
    part: GenerationPart,
    description: &Description,
    value: &Value,
)
    requires stands { PartStands (map generation_view generations.old.items) part (description_view description.now) }
    requires held { holds (description_view description.now) (value_view value.now) ≡ true }
    ensures { ValuesPut (map generation_view generations.old.items) (map generation_view generations.new.items)
        part (description_view description.now) (value_view value.now ∷ []) }
{
    let generation = &mut generations[part.at];
    put_value_at(&mut generation.bytes, part.offset, description, value);
}

/// The same of a number that may be one of so many binary digits.
#[inline(always)]
pub fn put_number(
    generations: &mut Vec<Generation<'_>>,
    part: GenerationPart,
    precision: u8,
    number: i64,
)
    requires stands { PartStands (map generation_view generations.old.items) part (FixedBinary precision) }
    requires few { precision ≤ 63 }
    requires held { holds (FixedBinary precision) (Number number) ≡ true }
    ensures { ValuesPut (map generation_view generations.old.items) (map generation_view generations.new.items)
        part (FixedBinary precision) (Number number ∷ []) }
{
    let generation = &mut generations[part.at];
    put_number_within(&mut generation.bytes, part.offset, precision, number);
}

/// The same of one that stands alone in its generation.
#[inline(always)]
pub fn put_alone(generations: &mut Vec<Generation<'_>>, at: usize, precision: u8, number: i64)
    requires stands { PartStands (map generation_view generations.old.items) (record { at = at; offset = 0 })
        (FixedBinary precision) }
    requires few { precision ≤ 63 }
    requires held { holds (FixedBinary precision) (Number number) ≡ true }
    ensures { ValuesPut (map generation_view generations.old.items) (map generation_view generations.new.items)
        (record { at = at; offset = 0 }) (FixedBinary precision) (Number number ∷ []) }
{
    let generation = &mut generations[at];
    put_known_number(&mut generation.bytes, precision, number);
}

/// The same of a string of one bit, for which there always is room.
#[inline(always)]
pub fn put_bit(generations: &mut Vec<Generation<'_>>, part: GenerationPart, bit: bool) -> bool
    requires { PartStands (map generation_view generations.old.items) part (Bit 1) }
    ensures put { ValuesPutOrSame result (map generation_view generations.old.items)
        (map generation_view generations.new.items)
        part (Bit 1) (Bits (bit ∷ []) ∷ []) }
    ensures room { IsTrue result }
{
    let generation = &mut generations[part.at];
    put_bit_at(&mut generation.bytes, part.offset, bit)
}

/// The same of a string of few bits, for which there always is room.
#[inline(always)]
pub fn put_short(
    generations: &mut Vec<Generation<'_>>,
    part: GenerationPart,
    bits: ShortBits,
) -> bool
    requires { PartStands (map generation_view generations.old.items) part (Bit bits.count) }
    ensures put { ValuesPutOrSame result (map generation_view generations.old.items)
        (map generation_view generations.new.items)
        part (Bit bits.count) (Bits (short_view bits) ∷ []) }
    ensures room { IsTrue result }
{
    let generation = &mut generations[part.at];
    put_short_at(&mut generation.bytes, part.offset, bits)
}

/// The same of a pointer; `false` for what no scalar of POINTER holds, as an offset.
#[inline(always)]
pub fn put_pointer(
    generations: &mut Vec<Generation<'_>>,
    part: GenerationPart,
    locator: Locator,
) -> bool
    requires { PartStands (map generation_view generations.old.items) part Pointer }
    ensures held { IsTrue result ↔ (holds Pointer (Located locator) ≡ true) }
    ensures put { ValuesPutOrSame result (map generation_view generations.old.items)
        (map generation_view generations.new.items)
        part Pointer (Located locator ∷ []) }
{
    let generation = &mut generations[part.at];
    put_pointer_at(&mut generation.bytes, part.offset, locator)
}

/// Puts characters in the place of those of a string of CHARACTER or CHARACTER VARYING, cut on the right or extended
/// there with blanks to what it holds; `false` under any other description.
#[inline(always)]
pub fn put_text(
    generations: &mut Vec<Generation<'_>>,
    part: GenerationPart,
    description: &Description,
    text: &[u8],
) -> bool
    requires { PartStands (map generation_view generations.old.items) part (description_view description.now) }
    ensures put { ValuesPutOrSame result (map generation_view generations.old.items)
        (map generation_view generations.new.items)
        part (description_view description.now)
        (Characters (text_fitted (description_view description.now) text.now) ∷ []) }
    ensures held { IsTrue result → holds (description_view description.now)
        (Characters (text_fitted (description_view description.now) text.now)) ≡ true }
{
    let generation = &mut generations[part.at];
    put_text_at(&mut generation.bytes, part.offset, description, text)
}

/// Puts characters after those of a string of CHARACTER VARYING of so many at most, where both are no more than that
/// and than the room.
#[inline]
pub fn lengthen(
    generations: &mut Vec<Generation<'_>>,
    part: GenerationPart,
    greatest: u16,
    more: &[u8],
    room: usize,
) -> bool
    requires { PartStands (map generation_view generations.old.items) part (Varying greatest) }
    ensures put { LengthenedOrSame result (map generation_view generations.old.items)
        (map generation_view generations.new.items)
        part greatest more.now room }
    ensures refused { IsFalse result
        → IsTooLong (map generation_view generations.old.items) part greatest more.now room }
{
    let generation = &mut generations[part.at];
    append_at(&mut generation.bytes, part.offset, greatest, more, room)
}
