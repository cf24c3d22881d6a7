//! Dimensions of arrays, where a place is known.
ghost use Rattle.std.specs.Prelude.{◌≡◌, suc, ◌*◌, min};
ghost use Rattle.pli_map.specs.Description.{Array};
ghost use Rattle.pli_map.specs.Dimensions.{bound_of, dimension_at, dimension_before};
ghost use Rattle.pli_map.specs.Sizes.{count_of, stride_of};
ghost use Rattle.pli_map.specs.views.DescriptionView.{description_view};
ghost use Rattle.pli_map.specs.views.DimensionView.{IsDimension, AreDimensions};

use crate::description::{Bounds, Description};
use crate::extents::{FAR, every_element, far_stride};

/// Which of the two bounds of a dimension.
#[derive(Clone, Copy, Debug, PartialEq, Eq)]
pub enum WhichBound {
    Low,
    High,
}

impl WhichBound {
    /// This one of some bounds.
    pub fn of(self, bounds: Bounds) -> i16
        ensures { result ≡ bound_of self bounds }
    {
        match self {
            WhichBound::Low => bounds.low,
            WhichBound::High => bounds.high,
        }
    }
}

/// A dimension of an array.
#[derive(Clone, Copy)]
pub struct Dimension<'d> {
    pub bounds: Bounds,
    /// How many bytes each number over the low bound leads on; 2^32 stands for every greater number.
    pub multiplier: u64,
    /// What a place is after the subscript: an element after the last dimension, else the array still.
    pub after: &'d Description,
}

/// How many bytes so many elements take that each subscript of these dimensions leads to; 2^32 stands for every greater
/// number.
fn far_elements(later: &[Bounds], element: &Description) -> u64
    ensures { result ≡ min (count_of later.now * stride_of (description_view element.now)) 4294967296 }
{
    every_element(later)
        .saturating_mul(far_stride(element))
        .min(FAR)
}

/// The dimension of these bounds, before these later ones.
fn dimension_before<'d>(
    whole: &'d Description,
    own: Bounds,
    later: &[Bounds],
    element: &'d Description,
) -> Dimension<'d>
    ensures { IsDimension (dimension_before (description_view whole.now) (description_view element.now) later.now own)
        result }
{
    Dimension {
        bounds: own,
        multiplier: far_elements(later, element),
        after: match later {
            [] => element,
            _ => whole,
        },
    }
}

/// The dimension of an array that is of this place among its bounds, from 0.
fn dimension_of<'d>(
    whole: &'d Description,
    bounds: &'d [Bounds],
    element: &'d Description,
    at: usize,
) -> Option<Dimension<'d>>
    requires { description_view whole.now ≡ Array bounds.now (description_view element.now) }
    ensures { AreDimensions (dimension_at (description_view whole.now) (suc at)) result }
{
    let own = *bounds.get(at)?;
    Some(dimension_before(whole, own, &bounds[at + 1..], element))
}

/// The dimension of a number, counted from 1, of an array; `None` where it has none of this number, or is no array.
pub fn nth_dimension(whole: &Description, number: u8) -> Option<Dimension<'_>>
    ensures { AreDimensions (dimension_at (description_view whole.now) number) result }
{
    if number == 0 {
        return None;
    }
    match whole {
        Description::Array { bounds, element } => {
            dimension_of(whole, bounds, element, usize::from(number - 1))
        }
        _ => None,
    }
}
