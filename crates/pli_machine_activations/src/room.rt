//! What an activation has that a call hands on by a pointer.
ghost use Rattle.std.specs.Prelude.{◌≡◌, [], IfOk};

use pli_value::Value;
use std::alloc::{AllocError, Global};

/// The generations and the temporaries of an activation.
#[derive(Drop)]
pub struct Room {
    /// The generations of dummy arguments of calls that are being prepared.
    pub pending: Vec<u32>,
    /// The generations that end with the activation.
    pub owned: Vec<u32>,
    pub temporaries: Vec<Option<Value>>,
}

impl Room {
    /// One in which nothing is yet.
    #[inline(never)]
    pub fn boxed(alloc: Global) -> Result<Box<Room>, AllocError>
        ensures pending { IfOk result (λ room. room.value.pending.items ≡ []) }
        ensures owned { IfOk result (λ room. room.value.owned.items ≡ []) }
    {
        let room = Room {
            pending: Vec::new(alloc),
            owned: Vec::new(alloc),
            temporaries: Vec::new(alloc),
        };
        Ok(Box::new(alloc, room)?)
    }
}
