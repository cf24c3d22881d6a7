//! Scalars that stand alone, or in an array of such: found by marks, without a look at the whole.
ghost use Rattle.std.specs.Prelude.{◌≡◌, ◌≢◌, ◌<◌, ◌%◌, true, IfSome};
ghost use Rattle.std.specs.Option.{is_some};
ghost use Rattle.pli_map.specs.Description as tree;
ghost use Rattle.pli_map.specs.Marks.{HasElements, HasMark, scalar_mark};
ghost use Rattle.pli_map.specs.Scalars.{first_scalar};
ghost use Rattle.pli_map.specs.Sizes.{size_of, stride_of};
ghost use Rattle.pli_map.specs.views.DescriptionView.{description_view};

use crate::description::Description;

/// What is known of a scalar: its mark, and how many bytes it is from one such element of an array to the next.
#[derive(Clone, Copy)]
struct ScalarFacts {
    mark: u32,
    stride: u32,
}

/// What is known of a scalar; `None` of what is none.
#[inline(always)]
fn facts_of(description: &Description) -> Option<ScalarFacts>
    ensures mark { IfSome result (λ f. f.mark ≡ scalar_mark (description_view description.now)) }
    ensures some { IfSome result (λ f. f.mark ≢ 0) }
    ensures stride { IfSome result (λ f. f.stride ≡ stride_of (description_view description.now)) }
{
    match description {
        Description::FixedBinary(precision) => Some(ScalarFacts {
            mark: u32::from(*precision) * 8 + 1,
            stride: number_stride(*precision),
        }),
        Description::Character(length) => Some(ScalarFacts {
            mark: u32::from(*length) * 8 + 2,
            stride: u32::from(*length).next_multiple_of(1),
        }),
        Description::Varying(length) => Some(ScalarFacts {
            mark: u32::from(*length) * 8 + 3,
            stride: (2 + u32::from(*length)).next_multiple_of(2),
        }),
        Description::Bit(length) => Some(ScalarFacts {
            mark: u32::from(*length) * 8 + 4,
            stride: u32::from(length.div_ceil(8)).next_multiple_of(1),
        }),
        Description::Pointer => Some(ScalarFacts { mark: 5, stride: 8 }),
        Description::Offset => Some(ScalarFacts {
            mark: 13,
            stride: 4,
        }),
        Description::Area(_) | Description::Array { .. } | Description::Structure(_) => None,
    }
}

/// From one number of so many binary digits to the next.
#[inline(always)]
fn number_stride(precision: u8) -> u32
    ensures { result ≡ stride_of (tree.FixedBinary precision) }
{
    match precision {
        0..=15 => 2,
        16..=31 => 4,
        _ => 8,
    }
}

/// Whether an element begins so many bytes after the beginning of an array.
#[inline(always)]
fn begins_there(offset: u32, stride: u32) -> bool
    ensures positive { result ≡ true → 0 < stride }
    ensures begins { result ≡ true → offset % stride ≡ 0 }
{
    stride != 0 && offset % stride == 0
}

/// Whether a scalar stands so many bytes after the beginning of a whole of so many bytes that is this scalar, or an
/// array of such, as its marks tell; `false` leaves it open.
#[inline(always)]
pub fn stands_near(
    _whole: &Description,
    mark: u64,
    elements: u16,
    size: usize,
    offset: u32,
    part: &Description,
) -> bool
    requires mark { HasMark (description_view _whole.now) mark }
    requires elements { HasElements (description_view _whole.now) elements }
    requires size { size ≡ size_of (description_view _whole.now) }
    ensures { result ≡ true → is_some (first_scalar (description_view _whole.now) offset (description_view part.now))
        ≡ true }
{
    let Some(facts) = facts_of(part) else {
        return false;
    };
    if offset == 0 && mark == u64::from(facts.mark) {
        return true;
    }
    if u32::from(elements) != facts.mark || offset as usize >= size {
        return false;
    }
    begins_there(offset, facts.stride)
}
