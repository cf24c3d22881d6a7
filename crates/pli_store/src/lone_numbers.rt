//! Numbers that stand alone: found once, they are read and put without another look-up.
ghost use Rattle.std.specs.Prelude.{◌≡◌, ◌≢◌, ◌↔◌, ◌≤◌, true, IfSome, IsTrue, MatchOption};
ghost use Rattle.pli_map.specs.Description.{FixedBinary};
ghost use Rattle.pli_map.specs.Values.{holds};
ghost use Rattle.pli_value.specs.Value.{Number};
ghost use Rattle.pli_world.specs.World.{World, Yields, held};

use crate::place::Place;
use crate::putting::{holds_number, put_alone};
use crate::storage::Storage;
use pli_bytes::known_number;

/// How many binary digits most numbers have.
pub(crate) const USUAL_DIGITS: u8 = 31;

/// How many of the others have.
const SHORT_DIGITS: u8 = 15;

/// Where a number stands that is alone: its generation among those that live, and how many binary digits it has.
#[derive(Clone, Copy)]
pub struct LoneNumber {
    pub(crate) at: usize,
    /// How many binary digits the number has at most.
    pub precision: u8,
}

impl Storage<'_> {
    ghost use Rattle.pli_store.specs.answers.Lone.{IsLone, IsNotLone, HoldsIf};
    ghost use Rattle.pli_store.specs.views.StorageView.{place_view, with_storage, NumberPut};

    /// Where the number alone stands to which a place leads, if its generation stands where it was made. It is read and
    /// put there without another look-up, as long as nothing ends.
    #[inline(always)]
    pub fn lone_number(&self, place: Place<'_>) -> Option<LoneNumber>
        ensures { MatchOption result (IsNotLone self.now place.entry) (IsLone self.now (place_view place.entry)) }
    {
        if place.digits == 0 {
            return None;
        }
        let at = place.hint as usize;
        let generation = self.generations.get(at)?;
        if generation.number != place.generation {
            return None;
        }
        let precision = generation.digits;
        if u64::from(precision) != place.digits {
            return None;
        }
        Some(LoneNumber { at, precision })
    }

    /// The same of a number of so many binary digits, to which a place leads, if it leads to one alone and has as many.
    #[inline(always)]
    fn lone_of(&self, place: Place<'_>, digits: u8) -> Option<LoneNumber>
        requires { digits ≢ 0 }
        ensures { IfSome result (λ n. place.entry.digits ≡ digits → IsLone self.now (place_view place.entry) n) }
    {
        let at = place.hint as usize;
        let generation = self.generations.get(at)?;
        if generation.number != place.generation {
            return None;
        }
        if generation.digits != digits {
            return None;
        }
        Some(LoneNumber {
            at,
            precision: digits,
        })
    }

    /// Where the number alone stands to which a place leads, if it has as many binary digits as most numbers have: what
    /// is done with it is short then.
    #[inline(always)]
    pub fn usual_number(&self, place: Place<'_>) -> Option<LoneNumber>
        ensures { IfSome result (IsLone self.now (place_view place.entry)) }
    {
        if place.digits != u64::from(USUAL_DIGITS) {
            return None;
        }
        self.lone_of(place, USUAL_DIGITS)
    }

    /// The same of half as many. How many the place has is asked last: asked first, it would become one question with
    /// that for the usual number, in which few digits come before many.
    #[inline(always)]
    pub fn short_number(&self, place: Place<'_>) -> Option<LoneNumber>
        ensures { IfSome result (IsLone self.now (place_view place.entry)) }
    {
        let lone = self.lone_of(place, SHORT_DIGITS)?;
        if place.digits != u64::from(SHORT_DIGITS) {
            return None;
        }
        Some(lone)
    }

    /// The number that is found so.
    #[inline(always)]
    pub fn number_alone(&self, _place: Place<'_>, lone: LoneNumber) -> i64
        requires { IsLone self.now (place_view _place) lone }
        ensures { (w : World) → held (place_view _place.entry) (with_storage self.now w)
            ≡ Yields (Number result) (with_storage self.now w) }
    {
        known_number(&self.generations[lone.at].bytes, lone.precision)
    }

    /// A number put where one alone is found, which it then holds, unless it does not fit; then nothing has changed.
    #[inline(always)]
    pub fn put_number_alone(&mut self, place: Place<'_>, lone: LoneNumber, number: i64) -> bool
        requires { IsLone self.old (place_view place) lone }
        ensures put { NumberPut result self.old self.new (place_view place.entry) number }
        ensures held { HoldsIf result self.new (place_view place.entry) number }
        ensures fits { IsTrue result ↔ ((lone.precision ≤ 63)
            × (holds (FixedBinary lone.precision) (Number number) ≡ true)) }
    {
        if !holds_number(lone.precision, number) {
            return false;
        }
        put_alone(&mut self.generations, lone.at, lone.precision, number);
        true
    }

    /// The number that the place of a scalar holds, as `element_number` finds it, where it mostly is alone: that is found
    /// at once.
    #[inline(always)]
    pub fn near_number(&self, place: Place<'_>) -> Option<i64>
        ensures { (w : World) → IfSome result (λ x. held (place_view place.entry) (with_storage self.now w)
            ≡ Yields (Number x) (with_storage self.now w)) }
    {
        match self.lone_number(place) {
            Some(lone) => Some(self.number_alone(place, lone)),
            None => self.element_number(place),
        }
    }

    /// The number that the place of a scalar holds which is not alone.
    #[inline(never)]
    fn further_number(&self, place: Place<'_>) -> Option<i64>
        ensures { (w : World) → IfSome result (λ x. held (place_view place.entry) (with_storage self.now w)
            ≡ Yields (Number x) (with_storage self.now w)) }
    {
        self.element_number(place)
    }

    /// The same of any scalar, which seldom is not alone.
    #[inline(always)]
    pub fn scalar_number(&self, place: Place<'_>) -> Option<i64>
        ensures { (w : World) → IfSome result (λ x. held (place_view place.entry) (with_storage self.now w)
            ≡ Yields (Number x) (with_storage self.now w)) }
    {
        match self.lone_number(place) {
            Some(lone) => Some(self.number_alone(place, lone)),
            None => self.further_number(place),
        }
    }

    /// A number put at the place of a scalar as `put_element_number` puts it, where it mostly is alone.
    #[inline(always)]
    pub fn put_near_number(&mut self, place: Place<'_>, number: i64) -> bool
        ensures { NumberPut result self.old self.new (place_view place.entry) number }
    {
        match self.lone_number(place) {
            Some(lone) => self.put_number_alone(place, lone, number),
            None => self.put_element_number(place, number),
        }
    }
}
