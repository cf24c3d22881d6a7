//! Random numbers.
ghost use Rattle.std.specs.Prelude.{◌≤◌};

/// Random numbers, the same in each run: the upper halves of a linear congruence.
#[derive(Drop)]
pub(crate) struct Numbers {
    state: u64,
}

impl Numbers {
    pub(crate) fn new(seed: u64) -> Numbers {
        Numbers { state: seed }
    }

    /// Any number.
    pub(crate) fn any(&mut self) -> u32 {
        self.state = self
            .state
            .wrapping_mul(6_364_136_223_846_793_005)
            .wrapping_add(1_442_695_040_888_963_407);
        (self.state >> 32) as u32
    }

    /// A number from 0 to a greatest one.
    pub(crate) fn up_to(&mut self, greatest: u32) -> u32
        ensures { result ≤ greatest }
    {
        (u64::from(self.any()) % (u64::from(greatest) + 1)) as u32
    }

    /// The index of one of so many, or 0.
    pub(crate) fn index(&mut self, count: usize) -> usize {
        self.any() as usize % count.max(1)
    }
}
