//! Descriptions, and types with a `*`, at the end of bytes.
ghost use Rattle.std.specs.Prelude.{◌≡◌, ◌++◌, map, OnOk};
ghost use Rattle.std.specs.Int.{next_multiple_of};
ghost use Rattle.std.specs.List.{flat_map};
ghost use Rattle.byteorder.specs.Endian.{big_bytes};
ghost use Rattle.pli_map.specs.ParameterTypes.{Stated};
ghost use Rattle.pli_map.specs.views.DescriptionView.{description_view};
ghost use Rattle.pli_map.specs.views.ParameterView.{type_view};
ghost use Rattle.pli_code.specs.Versions.{written};
ghost use Rattle.pli_deck_write.specs.Descriptions as description_fields;
ghost use Rattle.pli_deck_write.specs.Descriptions.{any_string_tag, description, description_within};

use crate::writing::{PutsOne, put_all, put_count, put_large_count, put_small_count};
use pli_code::fields::{put_byte, put_signed, put_with_byte, put_with_short};
use pli_map::{Bounds, Description, ParameterType, StringForm};
use std::alloc::AllocError;

/// In how many levels descriptions may stand within one another (own).
pub const LEVELS: u16 = 512;

/// Puts the bounds of a dimension.
struct Dimensions;

impl PutsOne for Dimensions {
    ghost use Rattle.pli_map.specs.declared.description.Bounds.{Bounds};
    ghost use Rattle.pli_deck_write.specs.Descriptions.{bounds};

    type Value = Bounds;

    ghost Said = { Bounds };

    ghost say = { λ b. b };

    ghost bytes_of = { λ _. bounds.bytes_of };

    fn put(&self, out: &mut Vec<u8>, value: &Bounds) -> Result<(), AllocError> {
        put_signed(out, i32::from(value.low))?;
        put_signed(out, i32::from(value.high))
    }
}

/// Puts the dimensions of an array.
#[tactic(auto, using(crate::proofs::PutLemmas::unmapped))]
fn put_dimensions(out: &mut Vec<u8>, dimensions: &[Bounds]) -> Result<(), AllocError>
    ensures { OnOk result (out.new.items ≡ out.old.items ++ description_fields.dimensions.bytes_of dimensions.now) }
{
    put_small_count(out, dimensions.len())?;
    put_all(out, &Dimensions, dimensions)
}

/// Puts an area's size, which is a multiple of 8.
fn put_area_size(out: &mut Vec<u8>, bytes: u32) -> Result<(), AllocError>
    ensures { OnOk result (out.new.items ≡ out.old.items ++ big_bytes 4 (next_multiple_of bytes 8)) }
{
    put_large_count(out, (bytes as usize).next_multiple_of(8))
}

/// Puts a description in at most so many levels; its bytes are the same in each version. One in more levels has no
/// spelling: a tag that nothing has is put for what is too deep.
#[cycle(put_description)]
fn put_within(out: &mut Vec<u8>, levels: u16, value: &Description) -> Result<(), AllocError>
    ensures { OnOk result (out.new.items ≡ out.old.items ++ (description_within written levels).bytes_of
        (Stated (description_view value.now))) }
{
    if levels == 0 {
        return put_byte(out, 0);
    }
    match value {
        Description::FixedBinary(precision) => put_with_byte(out, 1, *precision),
        Description::Character(length) => put_with_short(out, 2, *length),
        Description::Varying(length) => put_with_short(out, 3, *length),
        Description::Bit(length) => put_with_short(out, 4, *length),
        Description::Pointer => put_byte(out, 5),
        Description::Offset => put_byte(out, 6),
        Description::Area(bytes) => {
            put_byte(out, 7)?;
            put_area_size(out, *bytes)
        }
        Description::Array { bounds, element } => {
            put_byte(out, 8)?;
            put_dimensions(out, bounds)?;
            put_within(out, levels - 1, element)
        }
        Description::Structure(members) => {
            put_byte(out, 9)?;
            put_count(out, members.len())?;
            put_members(out, levels - 1, members)
        }
    }
}

/// Puts descriptions one after another.
#[cycle(put_description)]
fn put_members(out: &mut Vec<u8>, levels: u16, members: &[Description]) -> Result<(), AllocError>
    ensures { OnOk result (out.new.items ≡ out.old.items ++ flat_map
        (λ d. (description_within written levels).bytes_of (Stated d)) (map description_view members.now)) }
{
    for member in members {
        put_within(out, levels, member)?;
    }
    Ok(())
}

/// The tag of a string of any length.
fn any_string_tag(form: StringForm) -> u8
    ensures { result ≡ any_string_tag form }
{
    match form {
        StringForm::Character => 10,
        StringForm::Varying => 11,
        StringForm::Bit => 12,
    }
}

/// Puts a type in at most so many levels.
#[cycle(put_type)]
fn put_type(out: &mut Vec<u8>, levels: u16, value: &ParameterType) -> Result<(), AllocError>
    ensures { OnOk result (out.new.items ≡ out.old.items ++ (description_within written levels).bytes_of
        (type_view value.now)) }
{
    if levels == 0 {
        return put_byte(out, 0);
    }
    match value {
        ParameterType::Stated(description) => put_within(out, levels, description),
        ParameterType::AnyString(form) => put_byte(out, any_string_tag(*form)),
        ParameterType::AnyArray {
            dimensions,
            element,
        } => {
            put_with_byte(out, 13, *dimensions)?;
            put_type(out, levels - 1, element)
        }
        ParameterType::ArrayOf { bounds, element } => {
            put_byte(out, 8)?;
            put_dimensions(out, bounds)?;
            put_type(out, levels - 1, element)
        }
        ParameterType::StructureOf(members) => {
            put_byte(out, 9)?;
            put_count(out, members.len())?;
            put_types(out, levels - 1, members)
        }
    }
}

/// Puts types one after another.
#[cycle(put_type)]
fn put_types(out: &mut Vec<u8>, levels: u16, members: &[ParameterType]) -> Result<(), AllocError>
    ensures { OnOk result (out.new.items ≡ out.old.items ++ flat_map (description_within written levels).bytes_of
        (map type_view members.now)) }
{
    for member in members {
        put_type(out, levels, member)?;
    }
    Ok(())
}

/// Puts a description, or a type with a `*`, which has the same bytes in each version that has it.
pub struct Descriptions;

impl PutsOne for Descriptions {
    ghost use Rattle.pli_map.specs.ParameterTypes as types;

    type Value = ParameterType;

    ghost Said = { types.ParameterType };

    ghost say = { type_view };

    ghost bytes_of = { λ _. (description written).bytes_of };

    fn put(&self, out: &mut Vec<u8>, value: &ParameterType) -> Result<(), AllocError> {
        put_type(out, LEVELS, value)
    }
}
