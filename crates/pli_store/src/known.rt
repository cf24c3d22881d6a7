//! Parts that are known to stand in a whole, found by a pointer to that.
ghost use Rattle.std.specs.Prelude.{◌≡◌, ◌≢◌, ℕ, ◌≤◌, true, false, IfSome, IfNone, MatchOption};
ghost use Rattle.std.specs.Option.{is_some};
ghost use Rattle.pli_map.specs.Marks.{HasMark};
ghost use Rattle.pli_map.specs.Scalars.{first_scalar};
ghost use Rattle.pli_map.specs.Values.{holds};
ghost use Rattle.pli_map.specs.views.DescriptionView.{description_view};
ghost use Rattle.pli_store.specs.answers.Kinds.{are_pointers, digits_in};

use crate::lone_numbers::USUAL_DIGITS;
use crate::numbers::number_within;
use crate::part::{GenerationPart, is_part, is_pointer, number_precision};
use crate::place::OFFSET_LIMIT;
use crate::pointers::known_pointer;
use crate::putting::{holds_number, put_number, put_pointer};
use crate::storage::Storage;
use pli_map::{Description, are_same_marked, mark_of};
use pli_value::Locator;

/// A part of a whole description, of which it is known that it stands there.
#[derive(Clone, Copy)]
pub struct KnownPart<'m> {
    pub whole: &'m Description,
    /// How many bytes it stands after the beginning of the whole.
    pub offset: u32,
    /// Whether it is a number of as many binary digits as most have, and the whole description has a mark.
    pub(crate) usual: bool,
    /// Whether it is a pointer, and the whole description has a mark.
    pub(crate) pointer: bool,
    pub description: &'m Description,
    /// The mark of the whole description, or 0.
    pub mark: u64,
    ghost numeric: { usual ≡ true → (mark ≢ 0) × (digits_in (description_view description.now) ≡ 31) },
    ghost pointing: { pointer ≡ true → (mark ≢ 0) × (are_pointers (description_view description.now) ≡ true) },
    ghost marked: { HasMark (description_view whole.now) mark },
    ghost near: { offset ≤ 1000000 },
    ghost stands: { is_some (first_scalar (description_view whole.now) offset (description_view description.now))
        ≡ true },
}

impl<'m> KnownPart<'m> {
    /// The part of this description so many bytes after the beginning of a whole; `None` where none stands there, and
    /// more than 1,000,000 bytes after it.
    pub fn new(
        whole: &'m Description,
        offset: u32,
        description: &'m Description,
    ) -> Option<KnownPart<'m>>
        ensures whole { IfSome result (λ k. description_view k.whole.now ≡ description_view whole.now) }
        ensures offset { IfSome result (λ k. k.offset ≡ offset) }
        ensures part { IfSome result (λ k. description_view k.description.now ≡ description_view description.now) }
        ensures none { IfNone result (offset ≤ 1000000 →
            is_some (first_scalar (description_view whole.now) offset (description_view description.now)) ≡ false) }
    {
        if offset > OFFSET_LIMIT || !is_part(whole, offset, description) {
            return None;
        }
        let mark = mark_of(whole);
        Some(KnownPart {
            whole,
            offset,
            usual: is_usual(mark, description),
            pointer: is_marked_pointer(mark, description),
            description,
            mark,
        })
    }
}

/// Whether there is a mark, and a description is of numbers of as many binary digits as most have.
fn is_usual(mark: u64, description: &Description) -> bool
    ensures { result ≡ true → (mark ≢ 0) × (digits_in (description_view description.now) ≡ 31) }
{
    match description {
        Description::FixedBinary(precision) => mark != 0 && *precision == USUAL_DIGITS,
        _ => false,
    }
}

/// Whether there is a mark, and a description is of pointers.
fn is_marked_pointer(mark: u64, description: &Description) -> bool
    ensures { result ≡ true → (mark ≢ 0) × (are_pointers (description_view description.now) ≡ true) }
{
    match description {
        Description::Pointer => mark != 0,
        _ => false,
    }
}

/// Whether both descriptions, which have these marks, are known by them to be equal.
#[inline(always)]
fn have_one_mark(_left: &Description, left_mark: u64, _right: &Description, right_mark: u64) -> bool
    requires some { right_mark ≢ 0 }
    requires left { HasMark (description_view _left.now) left_mark }
    requires right { HasMark (description_view _right.now) right_mark }
    ensures { result ≡ true → description_view _left.now ≡ description_view _right.now }
{
    left_mark == right_mark
}

impl<'m> Storage<'m> {
    ghost use Rattle.pli_map.specs.Description.{FixedBinary, Pointer};
    ghost use Rattle.pli_store.specs.answers.Known.{IsOutside, IsNotOutside, PutBy, ReadBy, StandsBy};
    ghost use Rattle.pli_store.specs.views.StorageView.{storage_view};
    ghost use Rattle.pli_value.specs.Value.{Number, Located};

    /// Where the generation stands to which a locator leads, if it leads to the whole of one of which this is a part.
    #[inline(always)]
    fn outside(&self, locator: Locator, part: &KnownPart<'_>) -> Option<usize>
        ensures { MatchOption result (IsNotOutside (storage_view self.now) locator (description_view part.now.whole.now))
            (IsOutside (storage_view self.now) locator (description_view part.now.whole.now)) }
    {
        let Locator::Pointer {
            generation,
            position,
        } = locator
        else {
            return None;
        };
        if position != 0 {
            return None;
        }
        let at = self.find_near(generation)?;
        let generation = &self.generations[at];
        if are_same_marked(
            generation.description,
            generation.mark,
            part.whole,
            part.mark,
        ) {
            Some(at)
        } else {
            None
        }
    }

    /// The same of a generation that is found at once and known by its mark: no search and no walk over its description is
    /// needed then.
    #[inline(always)]
    fn near_outside(&self, locator: Locator, part: &KnownPart<'_>) -> Option<usize>
        requires { part.now.mark ≢ 0 }
        ensures { IfSome result (IsOutside (storage_view self.now) locator (description_view part.now.whole.now)) }
    {
        let Locator::Pointer {
            generation,
            position,
        } = locator
        else {
            return None;
        };
        if position != 0 {
            return None;
        }
        let at = self.found_at_once(generation)?;
        let generation = &self.generations[at];
        if !have_one_mark(
            generation.description,
            generation.mark,
            part.whole,
            part.mark,
        ) {
            return None;
        }
        Some(at)
    }

    /// Where a known part stands of what a locator leads to, if that is a generation of the whole description.
    #[inline(always)]
    fn part_by(&self, locator: Locator, part: &KnownPart<'_>) -> Option<GenerationPart>
        ensures { IfSome result (λ stands. StandsBy self.now locator part.now stands) }
    {
        let at = self.outside(locator, part)?;
        Some(GenerationPart {
            at,
            offset: part.offset as usize,
        })
    }

    /// The same, where it is found at once.
    #[inline(always)]
    fn near_part_by(&self, locator: Locator, part: &KnownPart<'_>) -> Option<GenerationPart>
        requires { part.now.mark ≢ 0 }
        ensures { IfSome result (λ stands. StandsBy self.now locator part.now stands) }
    {
        let at = self.near_outside(locator, part)?;
        Some(GenerationPart {
            at,
            offset: part.offset as usize,
        })
    }

    /// A number put at a known part of what a locator leads to, which stands there.
    #[inline(always)]
    fn put_number_there(
        &mut self,
        _locator: Locator,
        _part: &KnownPart<'_>,
        stands: GenerationPart,
        precision: u8,
        number: i64,
    )
        requires stands { StandsBy self.old _locator _part.now stands }
        requires number { description_view _part.now.description.now ≡ FixedBinary precision }
        requires few { precision ≤ 63 }
        requires held { holds (FixedBinary precision) (Number number) ≡ true }
        ensures { PutBy true self.old self.new _locator _part.now (Number number) }
    {
        put_number(&mut self.generations, stands, precision, number);
    }

    /// The same of a pointer; where it is not put there, nothing has changed.
    #[inline(always)]
    fn put_pointer_there(
        &mut self,
        _locator: Locator,
        _part: &KnownPart<'_>,
        stands: GenerationPart,
        pointer: Locator,
    ) -> bool
        requires stands { StandsBy self.old _locator _part.now stands }
        requires pointer { description_view _part.now.description.now ≡ Pointer }
        ensures { PutBy result self.old self.new _locator _part.now (Located pointer) }
    {
        put_pointer(&mut self.generations, stands, pointer)
    }

    /// A number put at a known part of what a locator leads to; where it is not, nothing has changed.
    #[inline]
    pub fn put_number_by(&mut self, locator: Locator, part: &KnownPart<'_>, number: i64) -> bool
        ensures { PutBy result self.old self.new locator part.now (Number number) }
    {
        let Some(precision) = number_precision(part.description) else {
            return false;
        };
        if !holds_number(precision, number) {
            return false;
        }
        let Some(stands) = self.part_by(locator, part) else {
            return false;
        };
        self.put_number_there(locator, part, stands, precision, number);
        true
    }

    /// The same of a pointer.
    #[inline]
    pub fn put_pointer_by(
        &mut self,
        locator: Locator,
        part: &KnownPart<'_>,
        pointer: Locator,
    ) -> bool
        ensures { PutBy result self.old self.new locator part.now (Located pointer) }
    {
        if !is_pointer(part.description) {
            return false;
        }
        let Some(stands) = self.part_by(locator, part) else {
            return false;
        };
        self.put_pointer_there(locator, part, stands, pointer)
    }

    /// A number put at a known part of as many binary digits as most have, of what a locator leads to, where that is found
    /// at once; where it is not put there, nothing has changed.
    #[inline(always)]
    pub fn put_near_number_by(
        &mut self,
        locator: Locator,
        part: &KnownPart<'_>,
        number: i64,
    ) -> bool
        ensures { PutBy result self.old self.new locator part.now (Number number) }
    {
        if !part.usual {
            return false;
        }
        if !holds_number(USUAL_DIGITS, number) {
            return false;
        }
        let Some(stands) = self.near_part_by(locator, part) else {
            return false;
        };
        self.put_number_there(locator, part, stands, USUAL_DIGITS, number);
        true
    }

    /// The same of a pointer.
    #[inline(always)]
    pub fn put_near_pointer_by(
        &mut self,
        locator: Locator,
        part: &KnownPart<'_>,
        pointer: Locator,
    ) -> bool
        ensures { PutBy result self.old self.new locator part.now (Located pointer) }
    {
        if !part.pointer {
            return false;
        }
        let Some(stands) = self.near_part_by(locator, part) else {
            return false;
        };
        self.put_pointer_there(locator, part, stands, pointer)
    }

    /// The number that a known part holds of the generation there, which is of the whole description.
    #[inline(always)]
    fn number_there(&self, _locator: Locator, part: &KnownPart<'_>, at: usize, precision: u8) -> i64
        requires outside { IsOutside (storage_view self.now) _locator (description_view part.now.whole.now) at }
        requires number { description_view part.now.description.now ≡ FixedBinary precision }
        ensures { ReadBy self.now _locator part.now (Number result) }
    {
        number_within(&self.generations[at].bytes, part.offset as usize, precision)
    }

    /// The same of a pointer.
    #[inline(always)]
    fn pointer_there(&self, _locator: Locator, part: &KnownPart<'_>, at: usize) -> Locator
        requires outside { IsOutside (storage_view self.now) _locator (description_view part.now.whole.now) at }
        requires pointer { description_view part.now.description.now ≡ Pointer }
        ensures { ReadBy self.now _locator part.now (Located result) }
    {
        known_pointer(&self.generations[at].bytes, part.offset as usize)
    }

    /// The number that a known part holds of what a locator leads to; `None` where it holds none, or the locator does
    /// not lead to a generation of the whole description.
    #[inline(always)]
    pub fn number_by(&self, locator: Locator, part: &KnownPart<'_>) -> Option<i64>
        ensures { MatchOption result ((precision : ℕ)
            → description_view part.now.description.now ≡ FixedBinary precision
            → IsNotOutside (storage_view self.now) locator (description_view part.now.whole.now))
            (λ x. ReadBy self.now locator part.now (Number x)) }
    {
        let precision = number_precision(part.description)?;
        let at = self.outside(locator, part)?;
        Some(self.number_there(locator, part, at, precision))
    }

    /// The same of a pointer.
    #[inline(always)]
    pub fn pointer_by(&self, locator: Locator, part: &KnownPart<'_>) -> Option<Locator>
        ensures { MatchOption result (description_view part.now.description.now ≡ Pointer
            → IsNotOutside (storage_view self.now) locator (description_view part.now.whole.now))
            (λ l. ReadBy self.now locator part.now (Located l)) }
    {
        if !is_pointer(part.description) {
            return None;
        }
        let at = self.outside(locator, part)?;
        Some(self.pointer_there(locator, part, at))
    }

    /// The number of as many binary digits as most have that a known part holds of what a locator leads to, where all is
    /// found at once: what is done is short then.
    #[inline(always)]
    pub fn near_number_by(&self, locator: Locator, part: &KnownPart<'_>) -> Option<i64>
        ensures { IfSome result (λ x. ReadBy self.now locator part.now (Number x)) }
    {
        if !part.usual {
            return None;
        }
        let at = self.near_outside(locator, part)?;
        Some(self.number_there(locator, part, at, USUAL_DIGITS))
    }

    /// The same of a pointer.
    #[inline(always)]
    pub fn near_pointer_by(&self, locator: Locator, part: &KnownPart<'_>) -> Option<Locator>
        ensures { IfSome result (λ l. ReadBy self.now locator part.now (Located l)) }
    {
        if !part.pointer {
            return None;
        }
        let at = self.near_outside(locator, part)?;
        Some(self.pointer_there(locator, part, at))
    }
}
