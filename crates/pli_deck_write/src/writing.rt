//! Numbers, names and lists at the end of bytes.
ghost use Rattle.std.specs.Prelude.{◌≡◌, ◌<◌, ◌++◌, ℕ, List, length, map, OnOk, slice_index};
ghost use Rattle.std.specs.Int.{w32, cast_unsigned};
ghost use Rattle.std.specs.List.{flat_map};
ghost use Rattle.byteorder.specs.Endian.{big_bytes};
ghost use Rattle.pli_deck_write.specs.DeckFields as deck_fields;

use pli_base::Name;
use pli_code::Version;
use pli_code::fields::{put_byte, put_short, put_signed_long, put_word};
use pli_value::bit::Bits;
use std::alloc::AllocError;

/// Puts bytes.
pub fn put_bytes(out: &mut Vec<u8>, bytes: &[u8]) -> Result<(), AllocError>
    ensures put { OnOk result (out.new.items ≡ out.old.items ++ bytes.now) }
    ensures bytes { (place : ℕ) → slice_index bytes.now place < 256 }
{
    out.extend_from_slice(bytes)
}

/// The number that stands for another in four bytes: itself, or in two's complement where it is negative. For those
/// below -2^32, which no deck has, 0 stands.
fn unsigned_word(number: i64) -> u64
    ensures { result ≡ cast_unsigned w32 number }
{
    if number < 0 {
        4_294_967_296u64.saturating_sub(number.unsigned_abs())
    } else {
        number.unsigned_abs()
    }
}

/// Puts a number of at most 31 binary digits as a signed one of four bytes, in two's complement.
#[tactic(auto, using(crate::proofs::LowBytes::low_four))]
fn put_signed_word(out: &mut Vec<u8>, number: i64) -> Result<(), AllocError>
    ensures { OnOk result (out.new.items ≡ out.old.items ++ big_bytes 4 (cast_unsigned w32 number)) }
{
    put_word(out, (unsigned_word(number) % 4_294_967_296) as u32)
}

/// Puts a number as a version has it: in four bytes or in eight.
pub fn put_number(out: &mut Vec<u8>, version: Version, number: i64) -> Result<(), AllocError>
    ensures { OnOk result (out.new.items ≡ out.old.items ++ (deck_fields.integer version).bytes_of number) }
{
    match version {
        Version::First => put_signed_word(out, number),
        Version::Second => put_signed_long(out, number),
        Version::Third => put_signed_long(out, number),
    }
}

/// Puts a count of one byte: no such list of a deck is longer.
#[tactic(auto, using(crate::proofs::LowBytes::lowest))]
pub fn put_small_count(out: &mut Vec<u8>, count: usize) -> Result<(), AllocError>
    ensures { OnOk result (out.new.items ≡ out.old.items ++ big_bytes 1 count) }
{
    put_byte(out, (count % 256) as u8)
}

/// Puts a count of two bytes: no such list of a deck is longer.
#[tactic(auto, using(crate::proofs::LowBytes::low_two))]
pub fn put_count(out: &mut Vec<u8>, count: usize) -> Result<(), AllocError>
    ensures { OnOk result (out.new.items ≡ out.old.items ++ big_bytes 2 count) }
{
    put_short(out, (count % 65_536) as u16)
}

/// Puts a count of four bytes: no such list of a deck is longer.
#[tactic(auto, using(crate::proofs::LowBytes::low_four))]
pub fn put_large_count(out: &mut Vec<u8>, count: usize) -> Result<(), AllocError>
    ensures { OnOk result (out.new.items ≡ out.old.items ++ big_bytes 4 count) }
{
    put_word(out, (count % 4_294_967_296) as u32)
}

/// Puts characters, with a count of two bytes.
#[tactic(auto, unfolding(crate::specs::DeckFields::characters), using(crate::proofs::LowBytes::byte_by_byte))]
pub fn put_characters(out: &mut Vec<u8>, text: &[u8]) -> Result<(), AllocError>
    ensures { OnOk result (out.new.items ≡ out.old.items ++ deck_fields.characters.bytes_of text.now) }
{
    put_count(out, text.len())?;
    put_bytes(out, text)
}

/// Puts a name.
#[tactic(auto, unfolding(crate::specs::DeckFields::name), using(crate::proofs::LowBytes::byte_by_byte))]
pub fn put_name(out: &mut Vec<u8>, name: &Name) -> Result<(), AllocError>
    ensures { OnOk result (out.new.items ≡ out.old.items ++ deck_fields.name.bytes_of name.now) }
{
    let text = name.bytes();
    put_small_count(out, text.len())?;
    put_bytes(out, text)
}

/// Puts bits, eight to a byte, with their count.
#[tactic(auto, unfolding(crate::specs::DeckFields::bit_string))]
pub fn put_bits(out: &mut Vec<u8>, bits: &Bits) -> Result<(), AllocError>
    ensures { OnOk result (out.new.items ≡ out.old.items ++ deck_fields.bit_string.bytes_of bits.now) }
{
    put_count(out, bits.length())?;
    put_bytes(out, bits.bytes())
}

/// Puts 1 for yes and 0 for no.
pub fn put_flag(out: &mut Vec<u8>, flag: bool) -> Result<(), AllocError>
    ensures { OnOk result (out.new.items ≡ out.old.items ++ deck_fields.flag.bytes_of flag) }
{
    if flag {
        put_byte(out, 1)
    } else {
        put_byte(out, 0)
    }
}

/// Puts a number that may be absent.
#[tactic(auto, unfolding(crate::specs::DeckFields::optional))]
pub fn put_optional(out: &mut Vec<u8>, number: Option<u16>) -> Result<(), AllocError>
    ensures { OnOk result (out.new.items ≡ out.old.items ++ deck_fields.optional.bytes_of number) }
{
    match number {
        Some(present) => put_short(out, present),
        None => put_short(out, 65535),
    }
}

/// What puts one value at the end of bytes.
pub trait PutsOne {
    type Value;

    /// The value as definitions speak of it.
    ghost Said: { Type 0 };

    ghost say: { Self.Value → Said };

    /// The bytes that a writer puts for it.
    ghost bytes_of: { Self → Said → List ℕ };

    fn put(&self, out: &mut Vec<u8>, value: &Self::Value) -> Result<(), AllocError>
        ensures { OnOk result (out.new.items ≡ out.old.items ++ bytes_of self.now (say value.now)) };
}

/// Puts values one after another.
pub fn put_all<P: PutsOne>(
    out: &mut Vec<u8>,
    writer: &P,
    values: &[P::Value],
) -> Result<(), AllocError>
    ensures { OnOk result (out.new.items ≡ out.old.items ++ flat_map (P.bytes_of writer.now) (map P.say values.now)) }
{
    for value in values {
        writer.put(out, value)?;
    }
    Ok(())
}

/// Puts a list: how many values there are, in two bytes, and each of them.
pub fn put_list<P: PutsOne>(
    out: &mut Vec<u8>,
    writer: &P,
    values: &[P::Value],
) -> Result<(), AllocError>
    ensures { OnOk result (out.new.items ≡ out.old.items ++ (big_bytes 2 (length values.now)
        ++ flat_map (P.bytes_of writer.now) (map P.say values.now))) }
{
    put_count(out, values.len())?;
    put_all(out, writer, values)
}
