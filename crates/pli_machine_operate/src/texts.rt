//! Strings of characters that are looked at where they stand.
ghost use Rattle.std.specs.Prelude.{◌≡◌, ◌≤◌, ◌∷◌, [], pos, IfSome};
ghost use Rattle.pli_operation.specs.Operations as calculate;
ghost use Rattle.pli_operation.specs.declared.operation.Operation.TheVariants.{LengthOf, Substring, Compare, Index};
ghost use Rattle.pli_operation.specs.Operations.{calculated_from, calculated_with, calculated_by};
ghost use Rattle.pli_value.specs.Value as plain;

use crate::calculation::stands;
use pli_operation::Relation;
use pli_value::character;

/// LENGTH (X3.74).
#[inline]
pub fn text_length(text: &[u8]) -> i64
    ensures { calculate.Calculates (plain.Number result) ≡ calculated_from LengthOf (plain.Characters text.now) }
{
    text.len() as i64
}

/// The number of a place in a string of so many elements, which is 0 or one of them.
#[inline]
pub fn place_number(place: usize, _elements: usize) -> i64
    requires place { place ≤ _elements }
    requires elements { _elements ≤ 9223372036854775807 }
    ensures { result ≡ pos place }
{
    place as i64
}

/// INDEX (X3.74): the first place, from 1 on, at which the sought string stands; 0 where it is nowhere, or where one of
/// the two is empty.
#[inline]
pub fn text_index(text: &[u8], sought: &[u8]) -> i64
    ensures { calculate.Calculates (plain.Number result)
        ≡ calculated_with 31 Index (plain.Characters text.now) (plain.Characters sought.now) }
{
    place_number(character::index(text, sought), text.len())
}

/// SUBSTR with a length (X3.74), which is not copied; none where the part does not lie within the string.
#[inline]
pub fn text_part(text: &[u8], first: i64, count: i64) -> Option<&[u8]>
    ensures { IfSome result (λ part. calculate.Calculates (plain.Characters part.now)
        ≡ calculated_by Substring (plain.Characters text.now) (plain.Number first) (plain.Number count)) }
{
    character::substr(text, first, count)
}

/// Whether two strings stand so, the shorter one extended with blanks (X3.74).
#[inline]
pub fn compare_texts(relation: Relation, left: &[u8], right: &[u8]) -> bool
    ensures { calculate.Calculates (plain.Bits (result ∷ []))
        ≡ calculated_with 31 (Compare relation) (plain.Characters left.now) (plain.Characters right.now) }
{
    stands(relation, character::compare(left, right))
}
