//! Types of parameters: a `*` stands for an extent that is the argument's (X3.74).
ghost use Rattle.std.specs.Prelude.{◌≡◌, ◌↔◌, option_map, IfOk, IsTrue};
ghost use Rattle.pli_map.specs.ParameterTypes as tree;
ghost use Rattle.pli_map.specs.ParameterTypes.{stated, string_of, same_form, is_string_of, is_any_string, array_of};
ghost use Rattle.pli_map.specs.ParameterTypes.{array_in, are_bounds_of, agrees, element_type, is_aggregate_type};
ghost use Rattle.pli_map.specs.Same.{same_bounds};
ghost use Rattle.pli_map.specs.views.DescriptionView.{description_view};
ghost use Rattle.pli_map.specs.views.ParameterView.{type_view, types_view, type_seen, array_seen};

use crate::description::{Bounds, Description, same_bounds};
use crate::scalars::is_aggregate;
use std::alloc::{AllocError, Global};

/// What a string is made of, and whether its length may change.
#[derive(Clone, Copy, Debug, PartialEq, Eq)]
pub enum StringForm {
    Character,
    /// CHARACTER VARYING.
    Varying,
    Bit,
}

impl StringForm {
    /// Whether it is this form.
    pub fn is(self, other: StringForm) -> bool
        ensures same { result ≡ same_form self other }
        ensures equal { IsTrue result ↔ (self ≡ other) }
    {
        match (self, other) {
            (StringForm::Character, StringForm::Character) => true,
            (StringForm::Varying, StringForm::Varying) => true,
            (StringForm::Bit, StringForm::Bit) => true,
            _ => false,
        }
    }

    /// The description of a string of this form and length.
    pub fn of_length(self, length: u16) -> Description
        ensures { description_view result ≡ string_of self length }
    {
        match self {
            StringForm::Character => Description::Character(length),
            StringForm::Varying => Description::Varying(length),
            StringForm::Bit => Description::Bit(length),
        }
    }

    /// Whether a description is that of a string of this form, whatever its length is.
    fn is_of(self, description: &Description) -> bool
        ensures { result ≡ is_string_of self (description_view description.now) }
    {
        match (self, description) {
            (StringForm::Character, Description::Character(_)) => true,
            (StringForm::Varying, Description::Varying(_)) => true,
            (StringForm::Bit, Description::Bit(_)) => true,
            _ => false,
        }
    }
}

/// What a parameter is declared as. A type is open where a `*` stands in it.
#[derive(Drop)]
pub enum ParameterType {
    /// A description, in which no `*` stands.
    Stated(Description),
    /// CHARACTER(*), CHARACTER(*) VARYING or BIT(*).
    AnyString(StringForm),
    /// One to 8 dimensions, whose bounds are all `*`, of an element.
    AnyArray {
        dimensions: u8,
        element: Box<ParameterType>,
    },
    /// One to 8 dimensions of stated bounds, of an open element.
    ArrayOf {
        bounds: Vec<Bounds>,
        element: Box<ParameterType>,
    },
    /// A structure, one of whose members is open. No declaration makes one.
    StructureOf(Vec<ParameterType>),
}

/// A type that is lent: a description, or an open type.
#[derive(Clone, Copy)]
pub enum TypeRef<'a> {
    Stated(&'a Description),
    Open(&'a ParameterType),
}

impl ParameterType {
    /// The type of a description, which is stated.
    pub fn of(description: Description) -> ParameterType
        ensures { type_view result ≡ tree.Stated (description_view description) }
    {
        ParameterType::Stated(description)
    }

    /// The type of strings of any length.
    pub fn of_strings(form: StringForm) -> ParameterType
        ensures { type_view result ≡ tree.AnyString form }
    {
        ParameterType::AnyString(form)
    }

    /// The type of arrays of so many dimensions, whatever their bounds.
    pub fn of_arrays(
        alloc: Global,
        dimensions: u8,
        element: ParameterType,
    ) -> Result<ParameterType, AllocError>
        ensures { IfOk result (λ array. type_view array ≡ tree.AnyArray dimensions (type_view element)) }
    {
        Ok(ParameterType::AnyArray {
            dimensions,
            element: Box::new(alloc, element)?,
        })
    }

    /// The type as it is lent.
    pub fn lent(&self) -> TypeRef<'_>
        ensures { type_seen result ≡ type_view self.now }
    {
        match self {
            ParameterType::Stated(description) => TypeRef::Stated(description),
            _ => TypeRef::Open(self),
        }
    }

    /// Its description, if no `*` stands in it.
    #[inline]
    pub fn stated(&self) -> Option<&Description>
        ensures { option_map (λ d. description_view d.now) result ≡ stated (type_view self.now) }
    {
        match self {
            ParameterType::Stated(description) => Some(description),
            _ => None,
        }
    }

    /// A copy, which equals the original.
    #[cycle(copy)]
    pub fn copy(&self, alloc: Global) -> Result<ParameterType, AllocError>
        ensures { IfOk result (λ new. type_view new ≡ type_view self.now) }
    {
        match self {
            ParameterType::Stated(description) => {
                Ok(ParameterType::Stated(description.copy(alloc)?))
            }
            ParameterType::AnyString(form) => Ok(ParameterType::AnyString(*form)),
            ParameterType::AnyArray {
                dimensions,
                element,
            } => Ok(ParameterType::AnyArray {
                dimensions: *dimensions,
                element: Box::new(alloc, element.copy(alloc)?)?,
            }),
            ParameterType::ArrayOf { bounds, element } => Ok(ParameterType::ArrayOf {
                bounds: Vec::from_slice(alloc, bounds)?,
                element: Box::new(alloc, element.copy(alloc)?)?,
            }),
            ParameterType::StructureOf(members) => {
                Ok(ParameterType::StructureOf(copy_all(alloc, members)?))
            }
        }
    }

    /// Whether it is this description.
    fn says(&self, description: &Description) -> bool
        ensures { IsTrue result ↔ (type_view self.now ≡ tree.Stated (description_view description.now)) }
    {
        match self {
            ParameterType::Stated(own) => own.equals(description),
            _ => false,
        }
    }

    /// Whether the types are the same; a `*` is the same as a `*` only.
    #[cycle(equals)]
    pub fn equals(&self, other: &ParameterType) -> bool
        ensures { IsTrue result ↔ (type_view self.now ≡ type_view other.now) }
    {
        match (self, other) {
            (ParameterType::Stated(left), ParameterType::Stated(right)) => left.equals(right),
            (ParameterType::AnyString(left), ParameterType::AnyString(right)) => { left.is(*right) }
            (
                ParameterType::AnyArray {
                    dimensions,
                    element,
                },
                ParameterType::AnyArray {
                    dimensions: other_dimensions,
                    element: other_element,
                },
            ) => dimensions == other_dimensions && element.equals(other_element),
            (
                ParameterType::ArrayOf { bounds, element },
                ParameterType::ArrayOf {
                    bounds: other_bounds,
                    element: other_element,
                },
            ) => same_bounds(bounds, other_bounds) && element.equals(other_element),
            (ParameterType::StructureOf(members), ParameterType::StructureOf(others)) => {
                all_equal(members, others)
            }
            _ => false,
        }
    }

    /// Whether what is of another type may be passed by reference for a parameter of this one.
    #[cycle(agrees)]
    fn takes(&self, argument: TypeRef<'_>) -> bool
        ensures { result ≡ agrees (type_view self.now) (type_seen argument.entry) }
    {
        match self {
            ParameterType::Stated(description) => takes_stated(description, argument),
            ParameterType::AnyString(form) => takes_string(*form, argument),
            ParameterType::AnyArray {
                dimensions,
                element,
            } => takes_any_array(*dimensions, element, argument),
            ParameterType::ArrayOf { bounds, element } => takes_array(bounds, element, argument),
            ParameterType::StructureOf(_) => false,
        }
    }
}

/// An array that is lent.
#[derive(Clone, Copy)]
pub struct ArrayRef<'a> {
    /// How many dimensions it has.
    pub dimensions: usize,
    /// Their bounds, where they are stated.
    pub bounds: Option<&'a [Bounds]>,
    pub element: TypeRef<'a>,
}

impl<'a> TypeRef<'a> {
    /// Its description, if no `*` stands in it.
    pub fn stated(self) -> Option<&'a Description>
        ensures { option_map (λ d. description_view d.now) result ≡ stated (type_seen self.entry) }
    {
        match self {
            TypeRef::Stated(description) => Some(description),
            TypeRef::Open(taken) => taken.stated(),
        }
    }

    /// A copy, which says the same.
    pub fn copy(self, alloc: Global) -> Result<ParameterType, AllocError>
        ensures { IfOk result (λ new. type_view new ≡ type_seen self.entry) }
    {
        match self {
            TypeRef::Stated(description) => Ok(ParameterType::Stated(description.copy(alloc)?)),
            TypeRef::Open(taken) => taken.copy(alloc),
        }
    }

    /// Whether the types are the same; a `*` is the same as a `*` only.
    pub fn equals(self, other: TypeRef<'_>) -> bool
        ensures { IsTrue result ↔ (type_seen self.entry ≡ type_seen other.entry) }
    {
        match (self, other) {
            (TypeRef::Stated(left), TypeRef::Stated(right)) => left.equals(right),
            (TypeRef::Stated(left), TypeRef::Open(right)) => is_said(left, right),
            (TypeRef::Open(left), TypeRef::Stated(right)) => left.says(right),
            (TypeRef::Open(left), TypeRef::Open(right)) => left.equals(right),
        }
    }

    /// The array, if it is one.
    pub fn array(self) -> Option<ArrayRef<'a>>
        ensures { option_map array_seen result ≡ array_in (type_seen self.entry) }
    {
        match self {
            TypeRef::Stated(description) => described_array(description),
            TypeRef::Open(taken) => open_array(taken),
        }
    }

    /// The element of an open array of so many dimensions.
    pub fn element(self, dimensions: usize) -> Option<TypeRef<'a>>
        ensures { option_map type_seen result ≡ element_type dimensions (type_seen self.entry) }
    {
        match self {
            TypeRef::Stated(_) => None,
            TypeRef::Open(taken) => open_element(taken, dimensions),
        }
    }

    /// Whether it is an array or a structure.
    pub fn is_aggregate(self) -> bool
        ensures { result ≡ is_aggregate_type (type_seen self.entry) }
    {
        match self {
            TypeRef::Stated(description) => is_aggregate(description),
            TypeRef::Open(taken) => is_open_aggregate(taken),
        }
    }
}

/// Whether what is of one type may be passed by reference for a parameter of another: a `*` of the parameter agrees
/// with any extent, a `*` too; a `*` of the argument with a `*` only. Takes no memory.
pub fn agrees(parameter: TypeRef<'_>, argument: TypeRef<'_>) -> bool
    ensures { result ≡ agrees (type_seen parameter.entry) (type_seen argument.entry) }
{
    match parameter {
        TypeRef::Stated(description) => takes_stated(description, argument),
        TypeRef::Open(taken) => taken.takes(argument),
    }
}

/// An array of these bounds, which is stated where its element is.
pub fn array_of(
    alloc: Global,
    bounds: Vec<Bounds>,
    element: ParameterType,
) -> Result<ParameterType, AllocError>
    ensures { IfOk result (λ array. type_view array ≡ array_of bounds.items (type_view element)) }
{
    match element {
        ParameterType::Stated(description) => Ok(ParameterType::Stated(Description::Array {
            bounds,
            element: Box::new(alloc, description)?,
        })),
        taken => Ok(ParameterType::ArrayOf {
            bounds,
            element: Box::new(alloc, taken)?,
        }),
    }
}

/// Whether a type is an array or a structure.
fn is_open_aggregate(taken: &ParameterType) -> bool
    ensures { result ≡ is_aggregate_type (type_view taken.now) }
{
    match taken {
        ParameterType::Stated(description) => is_aggregate(description),
        ParameterType::AnyString(_) => false,
        _ => true,
    }
}

/// Whether a description is what a type says.
fn is_said(description: &Description, by: &ParameterType) -> bool
    ensures { IsTrue result ↔ (tree.Stated (description_view description.now) ≡ type_view by.now) }
{
    match by {
        ParameterType::Stated(said) => description.equals(said),
        _ => false,
    }
}

/// Whether a parameter of a description takes an argument of a type.
fn takes_stated(description: &Description, argument: TypeRef<'_>) -> bool
    ensures { result ≡ agrees (tree.Stated (description_view description.now)) (type_seen argument.entry) }
{
    match argument.stated() {
        Some(other) => description.equals(other),
        None => false,
    }
}

/// Whether a parameter that is a string of any length takes it.
fn takes_string(form: StringForm, argument: TypeRef<'_>) -> bool
    ensures { result ≡ is_any_string form (type_seen argument.entry) }
{
    match argument {
        TypeRef::Stated(description) => form.is_of(description),
        TypeRef::Open(taken) => is_open_string(form, taken),
    }
}

/// Whether a type is that of a string of this form, whatever its length is.
fn is_open_string(form: StringForm, taken: &ParameterType) -> bool
    ensures { result ≡ is_any_string form (type_view taken.now) }
{
    match taken {
        ParameterType::Stated(description) => form.is_of(description),
        ParameterType::AnyString(other) => form.is(*other),
        _ => false,
    }
}

/// The array that a description is.
fn described_array(description: &Description) -> Option<ArrayRef<'_>>
    ensures { option_map array_seen result ≡ array_in (tree.Stated (description_view description.now)) }
{
    match description {
        Description::Array { bounds, element } => Some(ArrayRef {
            dimensions: bounds.len(),
            bounds: Some(bounds),
            element: TypeRef::Stated(element),
        }),
        _ => None,
    }
}

/// The array that a type is.
fn open_array(taken: &ParameterType) -> Option<ArrayRef<'_>>
    ensures { option_map array_seen result ≡ array_in (type_view taken.now) }
{
    match taken {
        ParameterType::Stated(description) => described_array(description),
        ParameterType::AnyArray {
            dimensions,
            element,
        } => Some(ArrayRef {
            dimensions: usize::from(*dimensions),
            bounds: None,
            element: element.lent(),
        }),
        ParameterType::ArrayOf { bounds, element } => Some(ArrayRef {
            dimensions: bounds.len(),
            bounds: Some(bounds),
            element: element.lent(),
        }),
        _ => None,
    }
}

/// The element of an open array of so many dimensions.
fn open_element(taken: &ParameterType, dimensions: usize) -> Option<TypeRef<'_>>
    ensures { option_map type_seen result ≡ element_type dimensions (type_view taken.now) }
{
    match taken {
        ParameterType::AnyArray {
            dimensions: own,
            element,
        } if usize::from(*own) == dimensions => Some(element.lent()),
        ParameterType::ArrayOf { bounds, element } if bounds.len() == dimensions => {
            Some(element.lent())
        }
        _ => None,
    }
}

/// Whether a parameter of so many dimensions, whose bounds are `*`, takes an argument of a type.
#[cycle(agrees)]
fn takes_any_array(dimensions: u8, element: &ParameterType, argument: TypeRef<'_>) -> bool
    ensures { result ≡ agrees (tree.AnyArray dimensions (type_view element.now)) (type_seen argument.entry) }
{
    match argument.array() {
        Some(array) => {
            array.dimensions == usize::from(dimensions) && element.takes(array.element)
        }
        None => false,
    }
}

/// Whether a parameter of these bounds takes an argument of a type.
#[cycle(agrees)]
fn takes_array(bounds: &[Bounds], element: &ParameterType, argument: TypeRef<'_>) -> bool
    ensures { result ≡ agrees (tree.ArrayOf bounds.now (type_view element.now)) (type_seen argument.entry) }
{
    match argument.array() {
        Some(array) => are_bounds_of(bounds, array.bounds) && element.takes(array.element),
        None => false,
    }
}

/// Whether bounds are stated, and these.
fn are_bounds_of(bounds: &[Bounds], stated: Option<&[Bounds]>) -> bool
    ensures { result ≡ are_bounds_of bounds.now (option_map (λ b. b.now) stated.entry) }
{
    match stated {
        Some(others) => are_same_bounds(bounds, others),
        None => false,
    }
}

/// Whether each dimension has the same bounds.
fn are_same_bounds(left: &[Bounds], right: &[Bounds]) -> bool
    ensures { result ≡ same_bounds left.now right.now }
{
    left == right
}

/// Whether there are as many members, and each is the same.
#[cycle(equals)]
fn all_equal(left: &[ParameterType], right: &[ParameterType]) -> bool
    ensures { IsTrue result ↔ (types_view left.now ≡ types_view right.now) }
{
    if left.len() != right.len() {
        return false;
    }
    for i in 0..left.len() {
        if !left[i].equals(&right[i]) {
            return false;
        }
    }
    true
}

#[cycle(copy)]
fn copy_all(alloc: Global, members: &[ParameterType]) -> Result<Vec<ParameterType>, AllocError>
    ensures { IfOk result (λ new. types_view new.items ≡ types_view members.now) }
{
    let mut copies = Vec::with_capacity(alloc, members.len())?;
    for member in members {
        copies.push(member.copy(alloc)?)?;
    }
    Ok(copies)
}
