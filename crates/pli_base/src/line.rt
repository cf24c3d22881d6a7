//! Lines of text.
ghost use Rattle.std.specs.Prelude.{◌≡◌, IfOk};

use std::alloc::{AllocError, Global};
use std::marker::Model;

/// A line of a member, without its end. Contracts see it as the list of its bytes.
#[derive(Drop)]
pub struct Line {
    text: Vec<u8>,
}

impl Model for Line {
    ghost use Rattle.std.specs.Prelude.{List, ℕ};

    ghost Value = { List ℕ };

    ghost view = { λ l. l.text.items };
}

impl Line {
    /// A line that says `text`.
    pub fn new(alloc: Global, text: &[u8]) -> Result<Line, AllocError>
        ensures { IfOk result (λ line. line ≡ text.now) }
    {
        Ok(Line {
            text: Vec::from_slice(alloc, text)?,
        })
    }

    /// The bytes of the line.
    pub fn text(&self) -> &[u8]
        ensures { result.now ≡ self.now }
    {
        self.text.as_slice()
    }
}
