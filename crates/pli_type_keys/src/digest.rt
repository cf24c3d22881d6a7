//! Digests by which tables are searched (own).
ghost use Rattle.std.specs.Prelude.{◌≡◌, map};
ghost use Rattle.pli_value.specs.Value.{value_view};
ghost use Rattle.pli_type_tree.specs.views.TemplateView.{initial_view};
ghost use Rattle.pli_type_keys.specs.answers.Digests.{digest_of_characters, digest_of_bits, digest_of_locator};
ghost use Rattle.pli_type_keys.specs.answers.Digests.{digest_of_value, digest_of_initial};

use pli_map::digest::mixed;
use pli_type_tree::InitialScalar;
use pli_value::bit::Bits;
use pli_value::{Locator, Value};

/// The digest of characters.
fn digest_of_characters(characters: &[u8]) -> u64
    ensures { result ≡ digest_of_characters 1 characters.now }
{
    let mut whole = 1;
    for character in characters {
        whole = mixed(whole, u64::from(*character));
    }
    whole
}

/// The digest of bits.
fn digest_of_bits(bits: &Bits) -> u64
    ensures { result ≡ digest_of_bits 2 bits.now }
{
    let mut whole = 2;
    for place in 0..bits.length() {
        whole = mixed(whole, u64::from(bits.at(place)));
    }
    whole
}

/// The digest of a locator.
fn digest_of_locator(locator: Locator) -> u64
    ensures { result ≡ digest_of_locator locator }
{
    match locator {
        Locator::Null => 3,
        Locator::Pointer {
            generation,
            position,
        } => mixed(u64::from(generation), u64::from(position)),
        Locator::Offset(position) => mixed(4, u64::from(position)),
    }
}

/// The digest of a value.
pub(crate) fn digest_of_value(value: &Value) -> u64
    ensures { result ≡ digest_of_value (value_view value.now) }
{
    match value {
        Value::Number(number) => number.unsigned_abs(),
        Value::Characters(characters) => digest_of_characters(characters),
        Value::Bits(bits) => digest_of_bits(bits),
        Value::Locator(locator) => digest_of_locator(*locator),
    }
}

/// A digest with initial values more.
pub(crate) fn digest_of_initial(digest: u64, scalars: &[InitialScalar]) -> u64
    ensures { result ≡ digest_of_initial digest (map initial_view scalars.now) }
{
    let mut whole = digest;
    for first in scalars {
        whole = mixed(whole, u64::from(first.offset));
        whole = mixed(whole, digest_of_value(&first.value));
    }
    whole
}
