//! Memory for one element more.
ghost use Rattle.std.specs.Prelude.{◌≡◌, ◌<◌, vec_len, vec_capacity, IfOk};

use pli_store::Place;
use std::alloc::AllocError;

/// The same places, with memory for one more, which a call is made for only where there is none.
#[inline(always)]
pub fn roomy<'m>(places: Vec<Place<'m>>) -> Result<Vec<Place<'m>>, AllocError>
    ensures items { IfOk result (λ list. list.items ≡ places.entry.items) }
    ensures room { IfOk result (λ list. vec_len list < vec_capacity list) }
{
    if places.len() < places.capacity() {
        return Ok(places);
    }
    let larger = grown(places)?;
    Ok(larger)
}

/// The same where there is none.
#[inline(never)]
fn grown<'m>(mut places: Vec<Place<'m>>) -> Result<Vec<Place<'m>>, AllocError>
    ensures items { IfOk result (λ list. list.items ≡ places.entry.items) }
    ensures room { IfOk result (λ list. vec_len list < vec_capacity list) }
{
    places.reserve(1)?;
    Ok(places)
}
