//! Parts of variables: where they stand, what they are, and the dimensions above them.
ghost use Rattle.std.specs.Prelude.{◌≡◌, ◌<◌, ◌≤◌, ◌+◌, ◌*◌, ◌++◌, [], IfOk, map, option_map, true};
ghost use Rattle.pli_map.specs.Parts as placing;
ghost use Rattle.pli_map.specs.Parts.{part_at};
ghost use Rattle.pli_map.specs.Sizes.{count_of, size_of, stride_of};
ghost use Rattle.pli_map.specs.views.DescriptionView.{description_view};
ghost use Rattle.pli_map.specs.views.PartView.{part_view as placed_view};
ghost use Rattle.pli_type_rules.specs.NamedUnits.{is_stored, may_stand};
ghost use Rattle.pli_type_rules.specs.References.{strides_of};
ghost use Rattle.pli_type_tree.specs.views.TypedView.{stride_view};

use pli_map::{Bounds, Description, PathStep, PlacedPart, place, size};
use pli_type_tree::Stride;
use std::alloc::{AllocError, Global};

/// A part of a variable, or an area as a whole, within the 1,000,000 bytes of the whole.
#[derive(Drop)]
pub struct StridedPart<'a> {
    /// How many bytes after the variable's beginning it stands where all subscripts are the lowest.
    pub offset: u32,
    pub description: &'a Description,
    /// The dimensions above it, of all its levels in turn.
    pub strides: Vec<Stride>,
    ghost plain: { may_stand 63 (description_view description.now) ≡ true },
    ghost within: { offset + size_of (description_view description.now) ≤ 1000000 },
}

/// A dimension, with how many bytes each subscript over the low one leads on.
fn stride(dimension: Bounds, multiplier: u32) -> Stride
    ensures { stride_view result ≡ record { low = dimension.low; high = dimension.high; multiplier = multiplier } }
{
    Stride {
        low: i32::from(dimension.low),
        high: i32::from(dimension.high),
        multiplier,
    }
}

/// The dimensions of an array of so many bytes, after those above it.
fn push_strides(
    strides: &mut Vec<Stride>,
    bounds: &[Bounds],
    element: &Description,
    bytes: u32,
) -> Result<(), AllocError>
    requires elements { 0 < count_of bounds.now }
    requires bytes { bytes ≡ count_of bounds.now * stride_of (description_view element.now) }
    ensures { IfOk result (λ _. map stride_view strides.new.items
        ≡ map stride_view strides.old.items ++ strides_of bounds.now (description_view element.now)) }
{
    let mut left = bytes;
    for dimension in bounds {
        left /= dimension.extent();
        strides.push(stride(*dimension, left))?;
    }
    Ok(())
}

impl<'a> StridedPart<'a> {
    ghost use Rattle.pli_type_rules.specs.References.{element_of, member_of, part_on};
    ghost use Rattle.pli_type_names.specs.views.NameView.{part_view};

    /// A whole variable of its own.
    pub fn whole(alloc: Global, description: &'a Description) -> StridedPart<'a>
        requires { is_stored 63 (description_view description.now) ≡ true }
        ensures { part_view result ≡ record {
          offset = 0;
          description = description_view description.now;
          strides = [];
        } }
    {
        StridedPart {
            offset: 0,
            description,
            strides: Vec::new(alloc),
        }
    }

    /// The same part.
    pub fn copy(&self, alloc: Global) -> Result<StridedPart<'a>, AllocError>
        ensures { IfOk result (λ new. part_view new ≡ part_view self.now) }
    {
        Ok(StridedPart {
            offset: self.offset,
            description: self.description,
            strides: Vec::from_slice(alloc, &self.strides)?,
        })
    }

    /// One element of it, where it is an array, and else the same part.
    pub fn element(&self, alloc: Global) -> Result<StridedPart<'a>, AllocError>
        ensures { IfOk result (λ new. part_view new ≡ element_of (part_view self.now)) }
    {
        self.copy(alloc)?.into_element()
    }

    /// One element of it, where it is an array, and else the part itself.
    pub fn into_element(self) -> Result<StridedPart<'a>, AllocError>
        ensures { IfOk result (λ new. part_view new ≡ element_of (part_view self.entry)) }
    {
        let mut part = self;
        if let Description::Array { bounds, element } = part.description {
            let bytes = size(part.description).unwrap_or(0);
            push_strides(&mut part.strides, bounds, element, bytes)?;
            return Ok(StridedPart {
                offset: part.offset,
                description: element,
                strides: part.strides,
            });
        }
        Ok(part)
    }

    /// The member of this number, counted from 0, of it or of one of its elements; none where there is no such member.
    pub fn into_member(self, number: usize) -> Result<Option<StridedPart<'a>>, AllocError>
        ensures { IfOk result (λ new. option_map part_view new ≡ member_of (part_view self.entry) number) }
    {
        let element = self.into_element()?;
        let Some(member) = member_at(element.description, number) else {
            return Ok(None);
        };
        Ok(Some(element.into_placed(member)))
    }

    /// A member of it that stands there, where it is a structure.
    pub(crate) fn into_placed(self, member: PlacedPart<'a>) -> StridedPart<'a>
        requires plain { may_stand 63 (description_view member.description.now) ≡ true }
        requires within { member.offset + size_of (description_view member.description.now)
            ≤ size_of (description_view self.description.now) }
        ensures { part_view result ≡ record {
          offset = self.entry.offset + member.entry.offset;
          description = description_view member.entry.description.now;
          strides = map stride_view self.entry.strides.items;
        } }
    {
        StridedPart {
            offset: self.offset + member.offset,
            description: member.description,
            strides: self.strides,
        }
    }

    /// The part that the members on a way lead to, each counted from 0; none where one is not there.
    pub fn into_part(self, path: &[usize]) -> Result<Option<StridedPart<'a>>, AllocError>
        ensures { IfOk result (λ new. option_map part_view new ≡ part_on (part_view self.entry) path.now) }
    {
        let mut part = self;
        for number in path {
            let Some(member) = part.into_member(*number)? else {
                return Ok(None);
            };
            part = member;
        }
        Ok(Some(part))
    }
}

/// The member of this number in a structure; none in anything else.
fn member_at(description: &Description, number: usize) -> Option<PlacedPart<'_>>
    requires { size_of (description_view description.now) ≤ 1000000 }
    ensures { option_map placed_view result ≡ part_at (description_view description.now) (placing.Member number) }
{
    place(description, &[PathStep::Member(number)])
}
