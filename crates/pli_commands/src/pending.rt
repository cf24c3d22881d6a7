//! The line that has begun and has not ended.
ghost use Rattle.std.specs.Prelude.{◌≡◌, [], ◌∷◌, ◌++◌, take};
ghost use Rattle.pli_commands.specs.answers.Kept.{kept_limit};

use crate::command::LINE_LIMIT;
use std::marker::Model;

/// As many bytes tell that a line is too long for a command, also where a carriage return stands at their end.
const KEPT_LIMIT: usize = LINE_LIMIT + 2;

/// The first bytes of the line that has begun. Contracts see it as these bytes.
#[derive(Drop)]
pub struct Pending {
    bytes: [u8; KEPT_LIMIT],
    count: usize,
}

impl Model for Pending {
    ghost use Rattle.std.specs.Prelude.{◌≤◌, ℕ, List, take};
    ghost use Rattle.pli_commands.specs.answers.Kept.{kept_limit};

    ghost Value = { List ℕ };

    ghost view = { λ p. take p.count p.bytes };

    ghost invariant = { λ p. p.count ≤ kept_limit };
}

impl Pending {
    /// The line of which nothing has come.
    pub fn new() -> Pending
        ensures { result ≡ [] }
    {
        Pending {
            bytes: [0; KEPT_LIMIT],
            count: 0,
        }
    }

    /// Adds a byte, if there is room.
    pub fn push(&mut self, byte: u8)
        ensures { self.new ≡ take kept_limit (self.old ++ byte ∷ []) }
    {
        if self.count < KEPT_LIMIT {
            self.bytes[self.count] = byte;
            self.count += 1;
        }
    }

    /// Begins the next line.
    pub fn clear(&mut self)
        ensures { self.new ≡ [] }
    {
        self.count = 0;
    }

    /// The bytes of the line so far.
    pub fn bytes(&self) -> &[u8]
        ensures { result.now ≡ self.now }
    {
        &self.bytes[..self.count]
    }
}
