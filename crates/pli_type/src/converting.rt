//! Which conversions a value goes through where it is assigned or printed.
ghost use Rattle.std.specs.Prelude.{◌≡◌, ◌++◌, ◌∷◌, [], IfOk, map, option_map};
ghost use Rattle.pli_map.specs.ParameterTypes as types;
ghost use Rattle.pli_map.specs.views.DescriptionView.{description_view};
ghost use Rattle.pli_map.specs.views.ParameterView.{type_seen, type_view};
ghost use Rattle.pli_type_rules.specs.ExpressionTypes as spec;
ghost use Rattle.pli_type.specs.views.ValueView.{value_view};
ghost use Rattle.pli_type_tree.specs.TypedTree.{ByOperations, Fit, ToPlace};
ghost use Rattle.pli_type_tree.specs.views.TypedView.{conversion_view, expression_view, operation_view};

use crate::locators::{as_offset, as_pointer, null_offset};
use crate::typed_value::{TypedValue, with_one};
use pli_map::{Description, ParameterType, StringForm, TypeRef};
use pli_operation::Operation;
use pli_type_rules::{Beginning, ExpressionType};
use pli_type_tree::{Conversion, TypedExpression, TypedOperation};
use std::alloc::{AllocError, Global};

/// A number as characters, at the right of as many columns as its type has; none of anything else.
fn number_as_characters(
    alloc: Global,
    value: TypedValue,
) -> Result<Option<TypedExpression>, AllocError>
    ensures { IfOk result (λ made. option_map expression_view made
        ≡ spec.number_as_characters (expression_view value.expression) (spec.width_of value.kind)) }
{
    match value.kind.width() {
        Some(width) => {
            let operation = TypedOperation::Operate(Operation::ToCharacters { width });
            let made = with_one(alloc, operation, value.expression)?;
            Ok(Some(made))
        }
        None => {
            drop(value);
            Ok(None)
        }
    }
}

/// A string or a number as characters.
fn as_characters(alloc: Global, value: TypedValue) -> Result<Option<TypedExpression>, AllocError>
    ensures { IfOk result (λ made. option_map expression_view made
        ≡ spec.as_characters (expression_view value.expression) value.kind) }
{
    match value.kind {
        ExpressionType::Characters => Ok(Some(value.expression)),
        ExpressionType::Bits => {
            let operation = TypedOperation::Operate(Operation::FromBits);
            let made = with_one(alloc, operation, value.expression)?;
            Ok(Some(made))
        }
        _ => number_as_characters(alloc, value),
    }
}

/// What stands where a string of a form is assigned, which is fitted where it is put; none of what does not suit.
pub fn suited_to_form(
    alloc: Global,
    form: StringForm,
    value: TypedValue,
) -> Result<Option<TypedExpression>, AllocError>
    ensures { IfOk result (λ made. option_map expression_view made
        ≡ spec.suited_to_form form (expression_view value.expression) value.kind) }
{
    match (form, value.kind) {
        (StringForm::Character | StringForm::Varying, _) => as_characters(alloc, value),
        (StringForm::Bit, ExpressionType::Bits) => Ok(Some(value.expression)),
        (StringForm::Bit, _) => {
            drop(value);
            Ok(None)
        }
    }
}

/// What stands where a variable of this description is assigned, not fitted yet.
fn suited(
    alloc: Global,
    greatest: u8,
    description: &Description,
    value: TypedValue,
) -> Result<Option<TypedExpression>, AllocError>
    ensures { IfOk result (λ made. option_map expression_view made
        ≡ spec.suited greatest (description_view description.now) (expression_view value.expression) value.kind) }
{
    match (description, value.kind) {
        (Description::FixedBinary(_), kind) => match kind.precision(greatest) {
            Some(_) => Ok(Some(value.expression)),
            None => {
                drop(value);
                Ok(None)
            }
        },
        (Description::Character(_) | Description::Varying(_), _) => as_characters(alloc, value),
        (Description::Bit(_), ExpressionType::Bits) => Ok(Some(value.expression)),
        _ => {
            drop(value);
            Ok(None)
        }
    }
}

/// A value fitted to a description, where it suits that.
fn fitted(
    alloc: Global,
    description: &Description,
    value: Option<TypedExpression>,
) -> Result<Option<TypedExpression>, AllocError>
    ensures { IfOk result (λ made. option_map expression_view made
        ≡ option_map (spec.with_one (Fit (description_view description.now))) (option_map expression_view value)) }
{
    let Some(expression) = value else {
        return Ok(None);
    };
    let description = match description.copy(alloc) {
        Ok(description) => description,
        Err(error) => {
            drop(expression);
            return Err(error);
        }
    };
    let made = with_one(alloc, TypedOperation::Fit(description), expression)?;
    Ok(Some(made))
}

/// A value as a variable of this description holds it, whose declaration names this area if it is an OFFSET, or none
/// where it does not suit: FIXED is assigned from FIXED, BIT from BIT, CHARACTER from CHARACTER, BIT and FIXED, POINTER
/// from POINTER, NULL and an OFFSET that names an area, OFFSET from OFFSET and NULL, and from POINTER where it names an
/// area (X3.74; areas own).
pub fn converted(
    alloc: Global,
    greatest: u8,
    area: Option<Beginning>,
    description: &Description,
    value: TypedValue,
) -> Result<Option<TypedExpression>, AllocError>
    ensures { IfOk result (λ made. option_map expression_view made
        ≡ spec.converted greatest area (description_view description.now) (value_view value)) }
{
    match description {
        Description::Pointer => as_pointer(alloc, value),
        Description::Offset => as_offset(alloc, area, value),
        _ => {
            let suited = suited(alloc, greatest, description, value)?;
            fitted(alloc, description, suited)
        }
    }
}

/// What PUT prints: characters and bits as they stand, a number as characters; no locator and no area (X3.74).
pub fn printed(alloc: Global, value: TypedValue) -> Result<Option<TypedExpression>, AllocError>
    ensures { IfOk result (λ made. option_map expression_view made ≡ spec.printed (value_view value)) }
{
    match value.kind {
        ExpressionType::Characters | ExpressionType::Bits => Ok(Some(value.expression)),
        _ => number_as_characters(alloc, value),
    }
}

/// The conversions to characters: none for characters; none at all for what does not become characters.
fn string_conversions(
    alloc: Global,
    kind: ExpressionType,
) -> Result<Option<Vec<TypedOperation>>, AllocError>
    ensures { IfOk result (λ made. option_map (λ v. map operation_view v.items) made ≡ spec.string_conversions kind) }
{
    match kind {
        ExpressionType::Characters => Ok(Some(Vec::new(alloc))),
        ExpressionType::Bits => Ok(Some(vec![in alloc;
            TypedOperation::Operate(Operation::FromBits),
        ]?)),
        _ => match kind.width() {
            Some(width) => {
                let operation = TypedOperation::Operate(Operation::ToCharacters { width });
                Ok(Some(vec![in alloc; operation]?))
            }
            None => Ok(None),
        },
    }
}

/// The conversions of a value of a type to what suits a description, not fitted yet.
fn suiting(
    alloc: Global,
    greatest: u8,
    description: &Description,
    kind: ExpressionType,
) -> Result<Option<Vec<TypedOperation>>, AllocError>
    ensures { IfOk result (λ made. option_map (λ v. map operation_view v.items) made
        ≡ spec.suiting greatest (description_view description.now) kind) }
{
    match (description, kind) {
        (Description::FixedBinary(_), kind) => match kind.precision(greatest) {
            Some(_) => Ok(Some(Vec::new(alloc))),
            None => Ok(None),
        },
        (Description::Character(_) | Description::Varying(_), _) => string_conversions(alloc, kind),
        (Description::Bit(_), ExpressionType::Bits) => Ok(Some(Vec::new(alloc))),
        _ => Ok(None),
    }
}

/// The conversions of a value of a type to a string of a form; none at all for what does not suit.
fn form_conversions(
    alloc: Global,
    form: StringForm,
    kind: ExpressionType,
) -> Result<Option<Vec<TypedOperation>>, AllocError>
    ensures { IfOk result (λ made. option_map (λ v. map operation_view v.items) made
        ≡ spec.form_conversions form kind) }
{
    match (form, kind) {
        (StringForm::Character | StringForm::Varying, _) => string_conversions(alloc, kind),
        (StringForm::Bit, ExpressionType::Bits) => Ok(Some(Vec::new(alloc))),
        (StringForm::Bit, _) => Ok(None),
    }
}

/// What makes a pointer of a value of a type; none of what is no locator, or an OFFSET without an area.
fn pointer_conversion(alloc: Global, kind: ExpressionType) -> Option<Conversion>
    ensures { option_map conversion_view result ≡ spec.pointer_conversion kind }
{
    match kind {
        ExpressionType::Pointer | ExpressionType::Null => {
            Some(Conversion::ByOperations(Vec::new(alloc)))
        }
        ExpressionType::Offset { area: Some(area) } => Some(Conversion::AsPointerIn(area.whole())),
        _ => None,
    }
}

/// What makes an offset of this area of a value of a type; none of what is no locator, or a POINTER where no area is
/// named.
fn offset_conversion(
    alloc: Global,
    area: Option<Beginning>,
    kind: ExpressionType,
) -> Option<Conversion>
    ensures { option_map conversion_view result ≡ spec.offset_conversion area kind }
{
    match (kind, area) {
        (ExpressionType::Offset { .. } | ExpressionType::Null, _) => {
            Some(Conversion::ByOperations(Vec::new(alloc)))
        }
        (ExpressionType::Pointer, Some(area)) => Some(Conversion::AsOffsetIn(area.whole())),
        _ => None,
    }
}

/// What makes a value of a type suit a variable of this description, which is no locator, and fits it to that; none
/// where it does not suit.
fn fitting(
    alloc: Global,
    greatest: u8,
    description: &Description,
    kind: ExpressionType,
) -> Result<Option<Conversion>, AllocError>
    ensures { IfOk result (λ made. option_map conversion_view made
        ≡ option_map (λ operations. ByOperations (operations ++ Fit (description_view description.now) ∷ []))
        (spec.suiting greatest (description_view description.now) kind)) }
{
    let Some(mut made) = suiting(alloc, greatest, description, kind)? else {
        return Ok(None);
    };
    made.push(TypedOperation::Fit(description.copy(alloc)?))?;
    Ok(Some(Conversion::ByOperations(made)))
}

/// What converts a value of a type to a variable of this description, whose declaration names this area if it is an
/// OFFSET, or none where it does not suit: what `converted` puts round an expression. A locator is not fitted.
fn conversion(
    alloc: Global,
    greatest: u8,
    area: Option<Beginning>,
    description: &Description,
    kind: ExpressionType,
) -> Result<Option<Conversion>, AllocError>
    ensures { IfOk result (λ made. option_map conversion_view made
        ≡ spec.conversion greatest area (description_view description.now) kind) }
{
    match description {
        Description::Pointer => Ok(pointer_conversion(alloc, kind)),
        Description::Offset => Ok(offset_conversion(alloc, area, kind)),
        _ => fitting(alloc, greatest, description, kind),
    }
}

/// What converts a value of a type to a string of any length, which is then fitted to its place.
fn conversion_to_form(
    alloc: Global,
    form: StringForm,
    kind: ExpressionType,
) -> Result<Option<Conversion>, AllocError>
    ensures { IfOk result (λ made. option_map conversion_view made
        ≡ option_map ToPlace (spec.form_conversions form kind)) }
{
    match form_conversions(alloc, form, kind)? {
        Some(operations) => Ok(Some(Conversion::ToPlace(operations))),
        None => Ok(None),
    }
}

/// What converts a value of a type to a variable of this type.
fn conversion_to_type(
    alloc: Global,
    greatest: u8,
    area: Option<Beginning>,
    taken: &ParameterType,
    kind: ExpressionType,
) -> Result<Option<Conversion>, AllocError>
    ensures { IfOk result (λ made. option_map conversion_view made
        ≡ spec.conversion_to greatest area (type_view taken.now) kind) }
{
    match taken {
        ParameterType::Stated(description) => {
            conversion(alloc, greatest, area, description, kind)
        }
        ParameterType::AnyString(form) => conversion_to_form(alloc, *form, kind),
        _ => Ok(None),
    }
}

/// What converts a value of a type to a variable of a type, whose declaration names this area if it is an OFFSET, or
/// none where it does not suit: a string of any length is fitted at its place.
pub fn conversion_to(
    alloc: Global,
    greatest: u8,
    area: Option<Beginning>,
    taken: TypeRef<'_>,
    kind: ExpressionType,
) -> Result<Option<Conversion>, AllocError>
    ensures { IfOk result (λ made. option_map conversion_view made
        ≡ spec.conversion_to greatest area (type_seen taken.entry) kind) }
{
    match taken {
        TypeRef::Stated(description) => conversion(alloc, greatest, area, description, kind),
        TypeRef::Open(taken) => conversion_to_type(alloc, greatest, area, taken, kind),
    }
}

/// A value that is kept before it is converted to a variable of this description.
fn unconverted_for(description: &Description, value: TypedValue) -> TypedExpression
    ensures { expression_view result
        ≡ spec.unconverted (types.Stated (description_view description.now)) (value_view value) }
{
    match description {
        Description::Offset => match value.kind {
            ExpressionType::Null => {
                drop(value);
                null_offset()
            }
            _ => value.expression,
        },
        _ => value.expression,
    }
}

/// The same for a variable of this type.
fn unconverted_for_type(taken: &ParameterType, value: TypedValue) -> TypedExpression
    ensures { expression_view result ≡ spec.unconverted (type_view taken.now) (value_view value) }
{
    match taken {
        ParameterType::Stated(description) => unconverted_for(description, value),
        _ => value.expression,
    }
}

/// A value that is kept before it is converted to a variable of this type: NULL is an offset where that is an OFFSET,
/// and anything else stands as it is.
pub fn unconverted(taken: TypeRef<'_>, value: TypedValue) -> TypedExpression
    ensures { expression_view result ≡ spec.unconverted (type_seen taken.entry) (value_view value) }
{
    match taken {
        TypeRef::Stated(description) => unconverted_for(description, value),
        TypeRef::Open(taken) => unconverted_for_type(taken, value),
    }
}
