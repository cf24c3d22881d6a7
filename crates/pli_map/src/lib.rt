//! Descriptions of storage, and what they take: sizes, alignments, where the parts of an array or a structure stand,
//! and the bytes of values; and types of parameters, whose extents may be those of the argument. Small
//! descriptions are known to be equal by `marks`.
#![tactic(auto)]

mod description;
pub mod digest;
mod dimension;
mod extents;
mod laws;
mod layout;
mod marks;
mod near;
mod parameter;
mod parts;
mod scalars;
mod sizes;
mod table;

pub use description::{Bounds, Description, are_same_scalars};
pub use dimension::{Dimension, WhichBound, nth_dimension};
pub use extents::{FAR, every_element, far_size, size_at_once};
pub use laws::{
    areas_are_rounded, elements_are_in_row_major_order, elements_are_within_bounds,
    filled_parts_take_bytes, first_values_are_held, four_alignments, marks_differ,
    offsets_are_sums, parts_do_not_meet, parts_have_their_scalars, parts_lie_within,
    parts_of_parts, parts_stand_aligned, same_is_equal, scalars_lie_within, stored_is_loaded,
    worked_examples,
};
pub use layout::{Layout, OVER_LIMIT, SIZE_LIMIT};
pub use marks::{are_same_marked, mark_at_once, mark_of, mark_of_elements, scalar_mark};
pub use near::stands_near;
pub use parameter::{ArrayRef, ParameterType, StringForm, TypeRef, agrees, array_of};
pub use parts::{PathStep, PlacedPart, place};
pub use scalars::{
    first_scalar, is_aggregate, is_area, is_scalar, scalars_in, stands_among, stands_in,
    stands_in_array, stands_in_structure,
};
pub use sizes::{alignment, fixed_binary_size, measure, size};
pub use table::Table;
