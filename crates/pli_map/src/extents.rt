//! Sizes and counts of any description, up to numbers that stand for every greater one (own).
ghost use Rattle.std.specs.Prelude.{◌≡◌, ◌*◌, min};
ghost use Rattle.pli_map.specs.Sizes.{count_of, size_of, stride_of, end_after};
ghost use Rattle.pli_map.specs.views.DescriptionView.{description_view, members_view};

use crate::description::{Bounds, Description};
use crate::sizes::{aligned, alignment, fixed_binary_size};

/// A number of bytes that an offset of 32 bits is below.
pub const FAR: u64 = 4_294_967_296;

/// The size in bytes; FAR stands for every greater one.
#[cycle(far_size)]
pub fn far_size(description: &Description) -> u64
    ensures { result ≡ min (size_of (description_view description.now)) 4294967296 }
{
    match description {
        Description::FixedBinary(precision) => u64::from(fixed_binary_size(u64::from(*precision))),
        Description::Character(length) => u64::from(*length),
        Description::Varying(length) => 2 + u64::from(*length),
        Description::Bit(length) => u64::from(length.div_ceil(8)),
        Description::Pointer => 8,
        Description::Offset => 4,
        Description::Area(bytes) => u64::from(*bytes).next_multiple_of(8).min(FAR),
        Description::Array { bounds, element } => far_array(bounds, element),
        Description::Structure(members) => far_end(members),
    }
}

/// The same; that of a number is found at once.
#[inline(always)]
pub fn size_at_once(description: &Description) -> u64
    ensures { result ≡ min (size_of (description_view description.now)) 4294967296 }
{
    match description {
        Description::FixedBinary(precision) => u64::from(fixed_binary_size(u64::from(*precision))),
        _ => far_size(description),
    }
}

#[cycle(far_size)]
fn far_array(bounds: &[Bounds], element: &Description) -> u64
    ensures { result ≡ min (count_of bounds.now * stride_of (description_view element.now)) 4294967296 }
{
    let stride = aligned(far_size(element), u64::from(alignment(element)));
    every_element(bounds).saturating_mul(stride).min(FAR)
}

#[cycle(far_size)]
fn far_end(members: &[Description]) -> u64
    ensures { result ≡ min (end_after 0 (members_view members.now)) 4294967296 }
{
    let mut end: u64 = 0;
    for member in members {
        let start = aligned(end, u64::from(alignment(member)));
        end = (start + far_size(member)).min(FAR);
    }
    end
}

/// From one element of an array to the next; FAR stands for every greater distance.
pub fn far_stride(element: &Description) -> u64
    ensures { result ≡ min (stride_of (description_view element.now)) 4294967296 }
{
    aligned(far_size(element), u64::from(alignment(element)))
}

/// How many elements an array of these bounds has; 2^64 - 1 stands for every greater number.
#[inline]
pub fn every_element(dimensions: &[Bounds]) -> u64
    ensures { result ≡ min (count_of dimensions.now) 18446744073709551615 }
{
    let mut count: u64 = 1;
    for bounds in dimensions {
        count = u64::from(bounds.extent()).saturating_mul(count);
    }
    count
}
