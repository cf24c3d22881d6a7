//! Descriptions of storage: types, bounds and structure as a tree. Names do not stand in them.
ghost use Rattle.std.specs.Prelude.{◌≡◌, ◌↔◌, ◌<◌, ◌≤◌, true, IfOk, IfSome, IsTrue};
ghost use Rattle.pli_map.specs.Sizes.{extent_of};
ghost use Rattle.pli_map.specs.Parts.{distance_of};
ghost use Rattle.pli_map.specs.views.DescriptionView.{description_view, members_view};

use std::alloc::{AllocError, Global};

/// The bounds of one dimension of an array, each from -32,767 to 32,767. Where `high` is below `low` there are no
/// subscripts.
#[derive(Clone, Copy, PartialEq, Eq)]
pub struct Bounds {
    pub low: i16,
    pub high: i16,
}

impl Bounds {
    /// How many subscripts there are, from 0 to 65,536.
    pub fn extent(self) -> u32
        ensures value { result ≡ extent_of self }
        ensures bound { result ≤ 65536 }
    {
        if self.low <= self.high {
            u32::from(self.high.abs_diff(self.low)) + 1
        } else {
            0
        }
    }

    /// How far a subscript is above the lower bound, or `None` where it is out of bounds.
    pub fn distance_to(self, subscript: i32) -> Option<u32>
        ensures value { result ≡ distance_of self subscript }
        ensures bound { IfSome result (λ distance. distance < 65536) }
    {
        let low = i32::from(self.low);
        if low <= subscript && subscript <= i32::from(self.high) {
            Some(subscript.abs_diff(low))
        } else {
            None
        }
    }
}

/// What a variable's storage holds.
#[derive(Drop)]
pub enum Description {
    /// FIXED BINARY of a precision from 1 to 63 binary digits.
    FixedBinary(u8),
    /// CHARACTER of a length from 1 to 32,767.
    Character(u16),
    /// CHARACTER VARYING of a greatest length from 1 to 32,767.
    Varying(u16),
    /// BIT of a length from 1 to 32,767.
    Bit(u16),
    Pointer,
    Offset,
    /// AREA of 1 to 1,000,000 bytes. AREA(n) is the same description as AREA(m), where m is n rounded up to a multiple
    /// of 8 (own).
    Area(u32),
    /// One to 8 dimensions, the last varying fastest (X3.74), of an element.
    Array {
        bounds: Vec<Bounds>,
        element: Box<Description>,
    },
    /// A structure of one member or more.
    Structure(Vec<Description>),
}

impl Description {
    /// A copy, which equals the original.
    #[cycle(copy)]
    pub fn copy(&self, alloc: Global) -> Result<Description, AllocError>
        ensures { IfOk result (λ new. description_view new ≡ description_view self.now) }
    {
        match self {
            Description::FixedBinary(precision) => Ok(Description::FixedBinary(*precision)),
            Description::Character(length) => Ok(Description::Character(*length)),
            Description::Varying(length) => Ok(Description::Varying(*length)),
            Description::Bit(length) => Ok(Description::Bit(*length)),
            Description::Pointer => Ok(Description::Pointer),
            Description::Offset => Ok(Description::Offset),
            Description::Area(bytes) => Ok(Description::Area(*bytes)),
            Description::Array { bounds, element } => Ok(Description::Array {
                bounds: Vec::from_slice(alloc, bounds)?,
                element: Box::new(alloc, element.copy(alloc)?)?,
            }),
            Description::Structure(members) => {
                Ok(Description::Structure(copy_all(alloc, members)?))
            }
        }
    }

    /// Whether types, bounds and structure agree; names do not count (own).
    #[cycle(equals)]
    pub fn equals(&self, other: &Description) -> bool
        ensures { IsTrue result ↔ (description_view self.now ≡ description_view other.now) }
    {
        match (self, other) {
            (Description::FixedBinary(left), Description::FixedBinary(right)) => left == right,
            (Description::Character(left), Description::Character(right)) => left == right,
            (Description::Varying(left), Description::Varying(right)) => left == right,
            (Description::Bit(left), Description::Bit(right)) => left == right,
            (Description::Pointer, Description::Pointer) => true,
            (Description::Offset, Description::Offset) => true,
            (Description::Area(left), Description::Area(right)) => {
                left.div_ceil(8) == right.div_ceil(8)
            }
            (
                Description::Array { bounds, element },
                Description::Array {
                    bounds: other_bounds,
                    element: other_element,
                },
            ) => same_bounds(bounds, other_bounds) && element.equals(other_element),
            (Description::Structure(members), Description::Structure(others)) => {
                all_equal(members, others)
            }
            _ => false,
        }
    }
}

impl Description {
    ghost use Rattle.std.specs.Prelude.{◌≡◌, ◌↔◌, IsTrue};
    ghost use Rattle.pli_map.specs.views.DescriptionView.{description_view};

    /// The same as `equals`; scalars, structures of scalars alone and arrays of either take the short way.
    #[inline]
    pub fn is_same(&self, other: &Description) -> bool
        ensures { IsTrue result ↔ (description_view self.now ≡ description_view other.now) }
    {
        if are_same_arrays(self, other) {
            return true;
        }
        self.equals(other)
    }
}

/// Whether both are arrays of the same bounds, whose elements are the same scalars or structures of the same scalars,
/// or are such themselves. All else is left open.
#[inline(always)]
fn are_same_arrays(left: &Description, right: &Description) -> bool
    ensures { result ≡ true → description_view left.now ≡ description_view right.now }
{
    match (left, right) {
        (
            Description::Array { bounds, element },
            Description::Array {
                bounds: other_bounds,
                element: other_element,
            },
        ) => { same_bounds(bounds, other_bounds) && are_same_structures(element, other_element) }
        _ => are_same_structures(left, right),
    }
}

/// Whether both are structures of the same scalars, or the same scalar. All else is left open.
#[inline(always)]
fn are_same_structures(left: &Description, right: &Description) -> bool
    ensures { result ≡ true → description_view left.now ≡ description_view right.now }
{
    match (left, right) {
        (Description::Structure(members), Description::Structure(others)) => {
            are_all_same(members, others)
        }
        _ => are_same_scalars(left, right),
    }
}

/// Whether members are the same scalars, one after another.
#[inline(always)]
fn are_all_same(left: &[Description], right: &[Description]) -> bool
    ensures { result ≡ true → members_view left.now ≡ members_view right.now }
{
    if left.len() != right.len() {
        return false;
    }
    for i in 0..left.len() {
        if !are_same_scalars(&left[i], &right[i]) {
            return false;
        }
    }
    true
}

impl PartialEq for Description {
    ghost use Rattle.std.specs.Cmp.{on_per, partial_equiv_from_equiv};
    ghost use Rattle.std.specs.Ordering.{on};
    ghost use Rattle.pli_map.specs.Same.{same};
    ghost use Rattle.pli_map.specs.laws.SameLaws.{same_equivalence};

    ghost eq = { on description_view same };

    ghost laws = { on_per description_view (partial_equiv_from_equiv same_equivalence) };

    fn eq(&self, other: &Description) -> bool {
        self.equals(other)
    }
}

impl Eq for Description {
    ghost use Rattle.std.specs.Cmp.{on_equiv};
    ghost use Rattle.pli_map.specs.laws.SameLaws.{same_equivalence};

    ghost laws = { on_equiv description_view same_equivalence };
}

/// Whether both are the same scalar: numbers of one precision, strings of one kind and length, pointers or offsets.
/// What is no scalar is left open.
#[inline(always)]
pub fn are_same_scalars(left: &Description, right: &Description) -> bool
    ensures { result ≡ true → description_view left.now ≡ description_view right.now }
{
    match (left, right) {
        (Description::FixedBinary(has), Description::FixedBinary(wanted)) => *has == *wanted,
        (Description::Varying(has), Description::Varying(wanted)) => *has == *wanted,
        (Description::Character(has), Description::Character(wanted)) => *has == *wanted,
        (Description::Bit(has), Description::Bit(wanted)) => *has == *wanted,
        (Description::Pointer, Description::Pointer) => true,
        (Description::Offset, Description::Offset) => true,
        _ => false,
    }
}

/// Whether two arrays have the same bounds.
pub(crate) fn same_bounds(left: &[Bounds], right: &[Bounds]) -> bool
    ensures { IsTrue result ↔ (left.now ≡ right.now) }
{
    left == right
}

#[cycle(equals)]
fn all_equal(left: &[Description], right: &[Description]) -> bool
    ensures { IsTrue result ↔ (members_view left.now ≡ members_view right.now) }
{
    if left.len() != right.len() {
        return false;
    }
    for i in 0..left.len() {
        if !is_equal(&left[i], &right[i]) {
            return false;
        }
    }
    true
}

/// Whether two descriptions are equal, scalars at once.
#[inline(always)]
#[cycle(equals)]
fn is_equal(left: &Description, right: &Description) -> bool
    ensures { IsTrue result ↔ (description_view left.now ≡ description_view right.now) }
{
    if are_same_scalars(left, right) {
        return true;
    }
    left.equals(right)
}

#[cycle(copy)]
fn copy_all(alloc: Global, members: &[Description]) -> Result<Vec<Description>, AllocError>
    ensures { IfOk result (λ new. members_view new.items ≡ members_view members.now) }
{
    let mut copies = Vec::with_capacity(alloc, members.len())?;
    for member in members {
        copies.push(member.copy(alloc)?)?;
    }
    Ok(copies)
}
