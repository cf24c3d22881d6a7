//! Descriptions, and types with a `*`, at the front of bytes.
ghost use Rattle.std.specs.Prelude.{◌≡◌, ◌≤◌, ◌%◌, map, IfOk};
ghost use Rattle.pli_map.specs.ParameterTypes as types;
ghost use Rattle.pli_map.specs.views.ParameterView.{type_view};
ghost use Rattle.pli_code.specs.Fields.{Answers, Field, made, many, may_begin, ◌⊗◌, list};
ghost use Rattle.pli_code.specs.Instructions as instruction_fields;
ghost use Rattle.pli_deck_write.specs.Descriptions as description_fields;
ghost use Rattle.pli_deck_write.specs.Descriptions.{any_string_tag, description, description_within, described};
ghost use Rattle.pli_deck_write.specs.Descriptions.{element_of, is_element_tag};
ghost use Rattle.pli_base.specs.answers.FailureAnswers.{Gives};

use crate::error::ReadError;
use crate::reading::{ReadsOne, count_within, many_of, short_within};
use crate::structures::structure_of;
use pli_code::fields::{byte_of, byte_within, short_of, signed_within, word_of};
use pli_code::{DeckFault, Version};
use pli_deck_write::LEVELS;
use pli_map::{Bounds, Description, ParameterType, StringForm, array_of};
use std::alloc::Global;

/// The greatest size of an area in bytes (own).
const AREA_LIMIT: u32 = 1_000_000;

/// A bound of an array's dimension.
fn bound_of(bytes: &[u8]) -> Result<(i16, &[u8]), DeckFault>
    ensures { Answers (λ x. (x.0, x.1.now)) result (instruction_fields.bound.read bytes.now) }
{
    let (number, rest) = signed_within(bytes, 32767)?;
    Ok((number as i16, rest))
}

/// Reads the bounds of a dimension.
struct Dimensions;

impl ReadsOne for Dimensions {
    ghost use Rattle.pli_map.specs.declared.description.Bounds.{Bounds};

    type Value = Bounds;

    ghost Said = { Bounds };

    ghost say = { λ b. b };

    ghost field = { λ _. description_fields.bounds };

    fn read<'a>(&self, _alloc: Global, bytes: &'a [u8]) -> Result<(Bounds, &'a [u8]), ReadError> {
        let (low, rest) = bound_of(bytes)?;
        let (high, rest) = bound_of(rest)?;
        if low <= high {
            Ok((Bounds { low, high }, rest))
        } else {
            Err(ReadError::Fault(DeckFault::OutOfRange))
        }
    }
}

/// The bounds of one to eight dimensions.
fn dimensions_of(alloc: Global, bytes: &[u8]) -> Result<(Vec<Bounds>, &[u8]), ReadError>
    ensures { Gives (λ x. (x.0.items, x.1.now)) result (description_fields.dimensions.read bytes.now) }
{
    let (count, rest) = count_within(bytes, 1, 8)?;
    many_of(alloc, &Dimensions, u32::from(count), rest)
}

/// An area's size in bytes, a multiple of 8.
fn area_size_of(bytes: &[u8]) -> Result<(u32, &[u8]), DeckFault>
    ensures read { Answers (λ x. (x.0, x.1.now)) result (description_fields.area_size.read bytes.now) }
    ensures even { IfOk result (λ x. x.0 % 8 ≡ 0) }
{
    let (size, rest) = word_of(bytes)?;
    if 1 <= size && size <= AREA_LIMIT && size % 8 == 0 {
        Ok((size, rest))
    } else {
        Err(DeckFault::OutOfRange)
    }
}

/// The precision of a number of a version.
fn precision_of(version: Version, bytes: &[u8]) -> Result<(u8, &[u8]), DeckFault>
    ensures { Answers (λ x. (x.0, x.1.now)) result ((instruction_fields.precision version).read bytes.now) }
{
    byte_within(bytes, 1, version.greatest_precision())
}

/// The scalar of a tag that is neither an array's nor a structure's, and in which no `*` stands.
#[tactic(auto, unfolding(pli_deck_write::specs::Descriptions::described), using(pli_deck_write::proofs::DescriptionViews::scalars_said))]
fn scalar_of(version: Version, tag: u8, bytes: &[u8]) -> Result<(ParameterType, &[u8]), ReadError>
    requires { (1 ≤ tag) × (tag ≤ 7) }
    ensures { (inner : Field types.ParameterType) →
        Gives (λ x. (type_view x.0, x.1.now)) result (described version inner tag bytes.now) }
{
    match tag {
        1 => {
            let (precision, rest) = precision_of(version, bytes)?;
            Ok((
                ParameterType::Stated(Description::FixedBinary(precision)),
                rest,
            ))
        }
        2 => {
            let (length, rest) = short_within(bytes, 1, 32767)?;
            Ok((ParameterType::Stated(Description::Character(length)), rest))
        }
        3 => {
            let (length, rest) = short_within(bytes, 1, 32767)?;
            Ok((ParameterType::Stated(Description::Varying(length)), rest))
        }
        4 => {
            let (length, rest) = short_within(bytes, 1, 32767)?;
            Ok((ParameterType::Stated(Description::Bit(length)), rest))
        }
        5 => Ok((ParameterType::Stated(Description::Pointer), bytes)),
        6 => Ok((ParameterType::Stated(Description::Offset), bytes)),
        7 => {
            let (size, rest) = area_size_of(bytes)?;
            Ok((ParameterType::Stated(Description::Area(size)), rest))
        }
        _ => Err(ReadError::Fault(DeckFault::OutOfRange)),
    }
}

/// A string of any length, after whose tag nothing stands, in a version that has it.
#[tactic(auto, using(pli_deck_write::proofs::DescriptionViews::types_said))]
fn any_string_of(
    version: Version,
    form: StringForm,
    bytes: &[u8],
) -> Result<(ParameterType, &[u8]), ReadError>
    ensures { (inner : Field types.ParameterType) →
        Gives (λ x. (type_view x.0, x.1.now)) result (described version inner (any_string_tag form) bytes.now) }
{
    if version.has_stars() {
        return Ok((ParameterType::AnyString(form), bytes));
    }
    Err(ReadError::Fault(DeckFault::OutOfRange))
}

/// Whether bytes begin with the tag of a scalar that is no area, if they begin at all.
fn may_begin_element(bytes: &[u8]) -> bool
    ensures { result ≡ may_begin is_element_tag bytes.now }
{
    match bytes {
        [] => true,
        [tag, ..] => (1 <= *tag && *tag <= 6) || (10 <= *tag && *tag <= 12),
    }
}

/// A description or a type in at most so many levels.
#[cycle(description)]
fn description_at<'a>(
    alloc: Global,
    version: Version,
    levels: u16,
    bytes: &'a [u8],
) -> Result<(ParameterType, &'a [u8]), ReadError>
    ensures { Gives (λ x. (type_view x.0, x.1.now)) result ((description_within version levels).read bytes.now) }
{
    let (tag, rest) = byte_of(bytes)?;
    if levels == 0 {
        return Err(ReadError::Fault(DeckFault::OutOfRange));
    }
    match tag {
        1..=7 => scalar_of(version, tag, rest),
        8 => array_at(alloc, version, levels - 1, rest),
        9 => structure_at(alloc, version, levels - 1, rest),
        10 => any_string_of(version, StringForm::Character, rest),
        11 => any_string_of(version, StringForm::Varying, rest),
        12 => any_string_of(version, StringForm::Bit, rest),
        13 => any_array_at(alloc, version, levels - 1, rest),
        _ => Err(ReadError::Fault(DeckFault::OutOfRange)),
    }
}

/// What stands after the tag of an array of stated bounds.
#[cycle(description)]
#[tactic(auto, unfolding(pli_deck_write::specs::Descriptions::described))]
fn array_at<'a>(
    alloc: Global,
    version: Version,
    levels: u16,
    bytes: &'a [u8],
) -> Result<(ParameterType, &'a [u8]), ReadError>
    ensures { Gives (λ x. (type_view x.0, x.1.now)) result (described version
        (description_within version levels) 8 bytes.now) }
{
    let (bounds, rest) = dimensions_of(alloc, bytes)?;
    let (element, rest) = description_at(alloc, version, levels, rest)?;
    let array = array_of(alloc, bounds, element)?;
    Ok((array, rest))
}

/// What stands after a structure's tag.
#[cycle(description)]
#[tactic(auto, unfolding(pli_deck_write::specs::Descriptions::described))]
fn structure_at<'a>(
    alloc: Global,
    version: Version,
    levels: u16,
    bytes: &'a [u8],
) -> Result<(ParameterType, &'a [u8]), ReadError>
    ensures { Gives (λ x. (type_view x.0, x.1.now)) result (described version
        (description_within version levels) 9 bytes.now) }
{
    let (count, rest) = short_within(bytes, 1, 65535)?;
    let (members, rest) = members_at(alloc, version, levels, count, rest)?;
    let structure = structure_of(alloc, members)?;
    Ok((structure, rest))
}

/// What stands after the tag of an array whose bounds are `*`, in a version that has it.
#[cycle(description)]
fn any_array_at<'a>(
    alloc: Global,
    version: Version,
    levels: u16,
    bytes: &'a [u8],
) -> Result<(ParameterType, &'a [u8]), ReadError>
    ensures { Gives (λ x. (type_view x.0, x.1.now)) result (described version
        (description_within version levels) 13 bytes.now) }
{
    if version.has_stars() {
        return open_array_at(alloc, version, levels, bytes);
    }
    Err(ReadError::Fault(DeckFault::OutOfRange))
}

/// The dimensions and the element of an array whose bounds are `*`.
#[cycle(description)]
fn open_array_at<'a>(
    alloc: Global,
    version: Version,
    levels: u16,
    bytes: &'a [u8],
) -> Result<(ParameterType, &'a [u8]), ReadError>
    ensures { Gives (λ x. (type_view x.0, x.1.now)) result
        (made (λ p. types.AnyArray p.0 p.1) (instruction_fields.dimension_number ⊗ element_of
        (description_within version levels)) bytes.now) }
{
    let (dimensions, rest) = byte_within(bytes, 1, 8)?;
    let (element, rest) = element_at(alloc, version, levels, rest)?;
    let array = ParameterType::of_arrays(alloc, dimensions, element)?;
    Ok((array, rest))
}

/// The element of an array whose bounds are `*`: a scalar that is no area.
#[cycle(description)]
fn element_at<'a>(
    alloc: Global,
    version: Version,
    levels: u16,
    bytes: &'a [u8],
) -> Result<(ParameterType, &'a [u8]), ReadError>
    ensures { Gives (λ x. (type_view x.0, x.1.now)) result ((element_of (description_within version levels)).read
        bytes.now) }
{
    if may_begin_element(bytes) {
        return description_at(alloc, version, levels, bytes);
    }
    Err(ReadError::Fault(DeckFault::OutOfRange))
}

/// So many descriptions or types, one after another.
#[cycle(description)]
fn members_at<'a>(
    alloc: Global,
    version: Version,
    levels: u16,
    count: u16,
    bytes: &'a [u8],
) -> Result<(Vec<ParameterType>, &'a [u8]), ReadError>
    ensures { Gives (λ x. (map type_view x.0.items, x.1.now)) result
        (many (description_within version levels).read count bytes.now) }
{
    let mut members = Vec::new(alloc);
    let mut rest = bytes;
    for _ in 0..count {
        let (member, after) = description_at(alloc, version, levels, rest)?;
        members.push(member)?;
        rest = after;
    }
    Ok((members, rest))
}

/// A list of descriptions and types of a version.
pub fn descriptions_of(
    alloc: Global,
    version: Version,
    bytes: &[u8],
) -> Result<(Vec<ParameterType>, &[u8]), ReadError>
    ensures { Gives (λ x. (map type_view x.0.items, x.1.now)) result ((list (description version)).read bytes.now) }
{
    let (count, rest) = short_of(bytes)?;
    members_at(alloc, version, LEVELS, count, rest)
}
