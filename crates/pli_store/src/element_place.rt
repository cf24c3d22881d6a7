//! Places of elements, with how the last subscript leads there.
ghost use Rattle.std.specs.Prelude.{◌≡◌, ◌+◌, ◌*◌};

use crate::place::Place;

/// The place of an element, so many strides after that of the low bound.
#[derive(Clone, Copy)]
pub struct ElementPlace<'m> {
    pub place: Place<'m>,
    /// How many bytes after the beginning the element of the low bound stands.
    pub(crate) first: u32,
    /// How far the subscript is above the low bound.
    pub(crate) above: u32,
    pub(crate) stride: u32,
    ghost sum: { place.offset ≡ above * stride + first },
}
