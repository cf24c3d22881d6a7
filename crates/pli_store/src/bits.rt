//! Strings of one bit, in bytes where they lie.
ghost use Rattle.std.specs.Prelude.{◌≡◌, ◌↔◌, ◌≤◌, ◌<◌, ◌∷◌, [], length, IsTrue, MatchOption};
ghost use Rattle.pli_bytes.specs.Changes.{PutOrSame};
ghost use Rattle.pli_bytes.specs.Contents.{value_in, value_of};
ghost use Rattle.pli_map.specs.Description as tree;
ghost use Rattle.pli_value.specs.Value.{Bits};

/// The bit that a scalar of BIT of one bit holds, which lies at an offset of the bytes; `None` where they end before it
/// does.
#[inline(always)]
pub fn bit_at(bytes: &[u8], offset: usize) -> Option<bool>
    ensures { MatchOption result (length bytes.now ≤ offset) (λ b. value_in bytes.now
        (record { offset = offset; description = tree.Bit 1 }) ≡ Bits (b ∷ [])) }
{
    if offset >= bytes.len() {
        return None;
    }
    Some(bytes[offset] >> 7 & 1 == 1)
}

/// The byte of a string of one bit.
#[inline(always)]
fn byte_of(bit: bool) -> u8
    ensures { value_of (tree.Bit 1) (result ∷ []) ≡ Bits (bit ∷ []) }
{
    if bit { 128 } else { 0 }
}

/// A bit put where a scalar of BIT of one bit lies; where the bytes end before it does, nothing changes.
#[inline(always)]
pub fn put_bit_at(bytes: &mut [u8], offset: usize, bit: bool) -> bool
    ensures put { PutOrSame result (tree.Bit 1) (Bits (bit ∷ [])) offset bytes.old bytes.new }
    ensures room { IsTrue result ↔ (offset < length bytes.old) }
{
    if offset >= bytes.len() {
        return false;
    }
    bytes[offset] = byte_of(bit);
    true
}
