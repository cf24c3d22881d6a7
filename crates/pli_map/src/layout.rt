//! A size with an alignment.
ghost use Rattle.std.specs.Prelude.{◌≡◌, ◌<◌, ◌≤◌, ◌+◌, ◌*◌, max};
ghost use Rattle.std.specs.Int.{next_multiple_of};

/// The greatest size of a description, in bytes.
pub const SIZE_LIMIT: u32 = 1_000_000;

/// A count that is over the limit of bytes whatever is counted.
pub const OVER_LIMIT: u64 = SIZE_LIMIT as u64 + 1;

/// What a description takes: a size in bytes, at most SIZE_LIMIT, and an alignment.
#[derive(Clone, Copy)]
pub struct Layout {
    pub bytes: u32,
    pub alignment: u32,
    ghost in_limit: { bytes ≤ 1000000 },
    ghost positive: { 0 < alignment },
    ghost small: { alignment ≤ 8 },
}

impl Layout {
    ghost use Rattle.pli_map.specs.Layouts.{IsLayout};

    /// The layout of no member: a structure begins with it.
    pub fn empty() -> Layout
        ensures bytes { result.bytes ≡ 0 }
        ensures alignment { result.alignment ≡ 1 }
    {
        Layout {
            bytes: 0,
            alignment: 1,
        }
    }

    /// The layout of this many bytes, or `None` where they are over the limit.
    pub fn of(bytes: u64, alignment: u32) -> Option<Layout>
        requires positive { 0 < alignment }
        requires small { alignment ≤ 8 }
        ensures { IsLayout result bytes alignment }
    {
        if bytes > u64::from(SIZE_LIMIT) {
            return None;
        }
        Some(Layout {
            bytes: bytes as u32,
            alignment,
        })
    }

    /// The layout of members up to here and one more, or `None` where they are over the limit.
    pub fn and(self, member: Layout) -> Option<Layout>
        ensures { IsLayout result (next_multiple_of self.bytes member.alignment + member.bytes)
            (max self.alignment member.alignment) }
    {
        let start = u64::from(self.bytes).next_multiple_of(u64::from(member.alignment));
        Layout::of(
            start + u64::from(member.bytes),
            self.alignment.max(member.alignment),
        )
    }

    /// The layout of an array of so many elements of this layout, or `None` where it is over the limit.
    pub fn times(self, count: u64) -> Option<Layout>
        ensures { IsLayout result (count * next_multiple_of self.bytes self.alignment) self.alignment }
    {
        let counted = count.min(OVER_LIMIT);
        Layout::of(counted * u64::from(self.stride()), self.alignment)
    }

    /// From one element of this layout to the next, in bytes.
    pub fn stride(self) -> u32
        ensures value { result ≡ next_multiple_of self.bytes self.alignment }
        ensures bound { result < self.bytes + self.alignment }
    {
        self.bytes.next_multiple_of(self.alignment)
    }
}
