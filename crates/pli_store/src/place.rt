//! Places: where references lead.
ghost use Rattle.std.specs.Prelude.{IfSome, unsigned_abs, ◌*◌, ◌+◌, ◌-ℤ◌, ◌≡◌, ◌≢◌, ◌≤ℤ◌};
ghost use Rattle.pli_map.specs.views.DescriptionView.{description_view};
ghost use Rattle.pli_world.specs.Storage.{whole_at};
ghost use Rattle.pli_world.specs.World.{led_on};
ghost use Rattle.pli_store.specs.answers.Kinds.{digits_in};

use pli_map::{Description, Dimension};

/// How many bytes after the beginning a reference leads at most (own).
pub const OFFSET_LIMIT: u32 = 1_000_000;

/// Where a reference leads: into a generation, there into the block of an area at a position (0 outside areas), so many
/// bytes after its beginning, to a part of this description. The generation or the block had this whole description
/// when the reference was evaluated.
#[derive(Clone, Copy)]
pub struct Place<'m> {
    pub generation: u32,
    pub position: u32,
    pub offset: u32,
    /// Where the generation stood among those that lived when it was made.
    pub(crate) hint: u32,
    /// How many binary digits the number has that the generation is; 0 where this leads to no such number, or where that
    /// is not known. As wide as a word, so that a place is copied by words.
    pub(crate) digits: u64,
    pub description: &'m Description,
    pub whole: &'m Description,
    ghost alone: { digits ≢ 0 →
        (position ≡ 0) × (offset ≡ 0) × (digits ≡ digits_in (description_view description.now)) },
}

/// How many binary digits a number has, where a description is of FIXED BINARY; else 0.
#[inline(always)]
pub(crate) fn digits_of(description: &Description) -> u8
    ensures { result ≡ digits_in (description_view description.now) }
{
    match description {
        Description::FixedBinary(precision) => *precision,
        _ => 0,
    }
}

impl<'m> Place<'m> {
    ghost use Rattle.pli_store.specs.answers.LedOn.{LedOn};
    ghost use Rattle.pli_store.specs.views.StorageView.{place_view};

    /// The whole of what lives at a position of a generation, which stands there among those that live.
    #[inline(always)]
    pub(crate) fn of_whole(
        generation: u32,
        position: u32,
        hint: u32,
        whole: &'m Description,
    ) -> Place<'m>
        ensures { place_view result ≡ whole_at generation position (description_view whole.now) }
    {
        let digits = if position == 0 { digits_of(whole) } else { 0 };
        Place {
            generation,
            position,
            offset: 0,
            hint,
            digits: u64::from(digits),
            description: whole,
            whole,
        }
    }

    /// The whole of a generation that stands there among those that live, and has so many binary digits if it is a
    /// number; else they are 0.
    #[inline(always)]
    pub(crate) fn of_alone(
        generation: u32,
        hint: u32,
        digits: u8,
        whole: &'m Description,
    ) -> Place<'m>
        requires { digits ≡ digits_in (description_view whole.now) }
        ensures { place_view result ≡ whole_at generation 0 (description_view whole.now) }
    {
        Place {
            generation,
            position: 0,
            offset: 0,
            hint,
            digits: u64::from(digits),
            description: whole,
            whole,
        }
    }

    /// The part of this description that stands so many bytes further. `None` where that is more than 1,000,000 bytes
    /// after the beginning.
    #[inline(always)]
    #[tactic(auto, using(pli_world::specs::laws::OperationLaws::led_near, pli_world::specs::laws::OperationLaws::led_too_far))]
    pub(crate) fn advanced(self, offset: u64, description: &'m Description) -> Option<Place<'m>>
        ensures led { LedOn (led_on offset (description_view description.now) (place_view self.entry)) result }
        ensures sum { IfSome result (λ p. p.offset ≡ self.entry.offset + offset) }
    {
        let sum = u64::from(self.offset).checked_add(offset)?;
        if sum > u64::from(OFFSET_LIMIT) {
            return None;
        }
        Some(Place {
            generation: self.generation,
            position: self.position,
            offset: sum as u32,
            hint: self.hint,
            digits: 0,
            description,
            whole: self.whole,
        })
    }

    /// The part of this description that stands so many bytes further. `None` where that is more than 1,000,000 bytes
    /// after the beginning.
    #[inline]
    pub fn field(self, offset: u32, description: &'m Description) -> Option<Place<'m>>
        ensures { LedOn (led_on offset (description_view description.now) (place_view self.entry)) result }
    {
        self.advanced(u64::from(offset), description)
    }

    /// The same part so many multiples further as a subscript is above the low bound. `None` where that is more than
    /// 1,000,000 bytes after the beginning.
    #[inline]
    pub fn element(self, low: i32, multiplier: u32, subscript: i32) -> Option<Place<'m>>
        requires { low ≤ℤ subscript }
        ensures { LedOn (led_on (unsigned_abs (subscript -ℤ low) * multiplier)
            (description_view self.entry.description.now)
            (place_view self.entry)) result }
    {
        let passed = u64::from(subscript.abs_diff(low)) * u64::from(multiplier);
        self.advanced(passed, self.description)
    }

    /// What a dimension of the array that stands here leads on to, so many of its multipliers further as a subscript is
    /// above its low bound. `None` where that is more than 1,000,000 bytes after the beginning.
    #[tactic(auto, using(pli_world::specs::laws::OperationLaws::led_too_far))]
    pub fn along(self, dimension: Dimension<'m>, subscript: i64) -> Option<Place<'m>>
        requires { dimension.bounds.low ≤ℤ subscript }
        ensures { LedOn (led_on (unsigned_abs (subscript -ℤ dimension.entry.bounds.low) * dimension.entry.multiplier)
            (description_view dimension.entry.after.now) (place_view self.entry)) result }
    {
        let above = subscript.abs_diff(i64::from(dimension.bounds.low));
        let passed = above.checked_mul(dimension.multiplier)?;
        self.advanced(passed, dimension.after)
    }
}
