//! Bytes in which bits are packed, looked at eight bits at a time.
ghost use Rattle.std.specs.Prelude.{◌≡◌, ℕ, ◌+◌, ◌-◌, ◌/◌, ◌<◌, ◌≤◌, nat_eq, not, slice_index_or};
ghost use Rattle.std.specs.Int.{bit_at};
ghost use Rattle.pli_value.specs.Packing.{packed_bit};

/// How many bytes so many bits need, of which a string has at most 32,767.
#[inline(always)]
pub fn bytes_of(count: usize) -> usize
    requires { count ≤ 32767 }
    ensures { result ≡ (count + 7) / 8 }
{
    (count + 7) / 8
}

/// The byte of a number; 0 after the last one.
#[inline(always)]
pub fn byte_at(bytes: &[u8], number: usize) -> u8
    ensures { result ≡ slice_index_or bytes.now number 0 }
{
    bytes.get(number).copied().unwrap_or(0)
}

/// Eight bits of two bytes side by side, so many bits after the first one's begin.
#[inline(always)]
pub fn across(first: u8, second: u8, shift: usize) -> u8
    requires { shift < 8 }
    ensures front { (i : ℕ) → i < 8 → shift + i < 8 → bit_at result (7 - i) ≡ bit_at first (7 - (shift + i)) }
    ensures back { (i : ℕ) → i < 8 → 8 ≤ shift + i → bit_at result (7 - i) ≡ bit_at second (15 - (shift + i)) }
{
    first << shift | second >> (7 - shift) >> 1
}

/// Eight bits from a place on, the first one highest; zeros after the bytes.
#[inline(always)]
pub fn window(bytes: &[u8], place: usize) -> u8
    ensures { (i : ℕ) → i < 8 → nat_eq (bit_at result (7 - i)) 1 ≡ packed_bit bytes.now (place + i) }
{
    across(
        byte_at(bytes, place / 8),
        byte_at(bytes, place / 8 + 1),
        place % 8,
    )
}

/// The first so many bits of a byte, from the highest on, and zeros in place of the others.
#[inline(always)]
pub fn first_of(byte: u8, count: usize) -> u8
    requires { 0 < count }
    ensures kept { (i : ℕ) → i < 8 → i < count → bit_at result (7 - i) ≡ bit_at byte (7 - i) }
    ensures blank { (i : ℕ) → i < 8 → count ≤ i → bit_at result (7 - i) ≡ 0 }
{
    let kept = count.min(8);
    byte >> (8 - kept) << (8 - kept)
}

/// Each bit of a byte turned.
#[inline(always)]
pub fn turned(byte: u8) -> u8
    ensures { (i : ℕ) → i < 8 → nat_eq (bit_at result (7 - i)) 1 ≡ not (nat_eq (bit_at byte (7 - i)) 1) }
{
    !byte
}
