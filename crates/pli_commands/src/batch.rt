//! Bytes that are put in large pieces.
ghost use Rattle.std.specs.Prelude.{◌≡◌, ◌+◌, ◌≤◌, [], ◌++◌, length, map, OnOk, OnErr};
ghost use Rattle.pli_commands.specs.answers.Answering.{joined, Writes};
ghost use Rattle.pli_commands.specs.answers.Batches.{Passes, batch_limit};
ghost use Rattle.pli_commands.specs.Runs.{Marked};

use pli_base::{Failed, Sink, put_all};
use std::marker::Model;

/// How many bytes may wait (own).
const BATCH_LIMIT: usize = 4096;

/// Bytes that wait to be put. Contracts see it as these bytes.
#[derive(Drop)]
pub struct Batch {
    bytes: [u8; BATCH_LIMIT],
    count: usize,
}

impl Model for Batch {
    ghost use Rattle.std.specs.Prelude.{◌≤◌, ℕ, List, take};
    ghost use Rattle.pli_commands.specs.answers.Batches.{batch_limit};

    ghost Value = { List ℕ };

    ghost view = { λ b. take b.count b.bytes };

    ghost invariant = { λ b. b.count ≤ batch_limit };
}

impl Batch {
    /// No bytes.
    pub fn new() -> Batch
        ensures { result ≡ [] }
    {
        Batch {
            bytes: [0; BATCH_LIMIT],
            count: 0,
        }
    }

    /// Puts the bytes that wait. Where the writer fails they go on waiting.
    pub fn put<W: Sink>(&mut self, writer: &mut W) -> Result<(), Failed>
        ensures written { Writes (W.contents writer.old) (W.contents writer.new) self.old result }
        ensures none_left { OnOk result (self.new ≡ []) }
        ensures err { OnErr result (self.new ≡ self.old) }
        ensures mark { Marked (W.failed writer.old) (W.failed writer.new) result }
    {
        put_all(writer, &self.bytes[..self.count])?;
        self.count = 0;
        Ok(())
    }

    /// Keeps bytes after those that wait, for which there is room.
    fn keep(&mut self, bytes: &[u8])
        requires { length self.old + length bytes.now ≤ batch_limit }
        ensures { self.new ≡ self.old ++ bytes.now }
    {
        let end = self.count + bytes.len();
        self.bytes[self.count..end].copy_from_slice(bytes);
        self.count = end;
    }

    /// Adds bytes after those that wait, which are put where there is no room for both. Where the writer fails, what
    /// waits is of no more use.
    pub fn add<W: Sink>(&mut self, writer: &mut W, bytes: &[u8]) -> Result<(), Failed>
        ensures passed { Passes (W.contents writer.old) (W.contents writer.new)
            (self.old ++ bytes.now) self.new result }
        ensures mark { Marked (W.failed writer.old) (W.failed writer.new) result }
    {
        if bytes.len() > BATCH_LIMIT - self.count {
            self.put(writer)?;
            if bytes.len() > BATCH_LIMIT {
                return put_all(writer, bytes);
            }
        }
        self.keep(bytes);
        Ok(())
    }

    /// Adds parts, one after another.
    pub fn add_parts<W: Sink>(&mut self, writer: &mut W, parts: &[&[u8]]) -> Result<(), Failed>
        ensures passed { Passes (W.contents writer.old) (W.contents writer.new)
            (self.old ++ joined (map (λ p. p.now) parts.now)) self.new result }
        ensures mark { Marked (W.failed writer.old) (W.failed writer.new) result }
    {
        for part in parts {
            self.add(writer, part)?;
        }
        Ok(())
    }
}
