//! Locators as pointers and as offsets of areas.
ghost use Rattle.std.specs.Prelude.{◌≡◌, IfOk, option_map};
ghost use Rattle.pli_type_rules.specs.Beginnings.{whole_at};
ghost use Rattle.pli_type_rules.specs.ExpressionTypes as spec;
ghost use Rattle.pli_type_tree.specs.TypedTree as tree;
ghost use Rattle.pli_type_tree.specs.views.TypedView.{expression_view};

use crate::typed_value::TypedValue;
use pli_type_rules::{Beginning, ExpressionType};
use pli_type_tree::TypedExpression;
use pli_value::{Locator, Value};
use std::alloc::{AllocError, Global};

/// The null offset.
pub fn null_offset() -> TypedExpression
    ensures { expression_view result ≡ spec.null_offset }
{
    TypedExpression::Literal(Value::Locator(Locator::Offset(0)))
}

/// An offset as a pointer into an area.
#[tactic(auto, using(pli_type_tree::specs::laws::TypedTreeLaws::as_pointer_made))]
pub fn pointer_into(
    alloc: Global,
    area: Beginning,
    offset: TypedExpression,
) -> Result<TypedExpression, AllocError>
    ensures { IfOk result (λ made. expression_view made ≡ tree.AsPointer (whole_at area) (expression_view offset)) }
{
    let offset = Box::new(alloc, offset)?;
    Ok(TypedExpression::AsPointer {
        area: area.whole(),
        offset,
    })
}

/// A pointer as an offset of an area.
#[tactic(auto, using(pli_type_tree::specs::laws::TypedTreeLaws::as_offset_made))]
pub fn offset_of(
    alloc: Global,
    area: Beginning,
    pointer: TypedExpression,
) -> Result<TypedExpression, AllocError>
    ensures { IfOk result (λ made. expression_view made ≡ tree.AsOffset (whole_at area) (expression_view pointer)) }
{
    let pointer = Box::new(alloc, pointer)?;
    Ok(TypedExpression::AsOffset {
        area: area.whole(),
        pointer,
    })
}

/// A locator as a pointer: an OFFSET is one in the area that it names; none of anything else.
pub(crate) fn as_pointer(
    alloc: Global,
    value: TypedValue,
) -> Result<Option<TypedExpression>, AllocError>
    ensures { IfOk result (λ made. option_map expression_view made
        ≡ spec.as_pointer (expression_view value.expression) value.kind) }
{
    match value.kind {
        ExpressionType::Pointer | ExpressionType::Null => Ok(Some(value.expression)),
        ExpressionType::Offset { area: Some(area) } => {
            let made = pointer_into(alloc, area, value.expression)?;
            Ok(Some(made))
        }
        _ => {
            drop(value);
            Ok(None)
        }
    }
}

/// A locator as an offset of this area; a POINTER becomes none where no area is named, and neither does anything else.
pub(crate) fn as_offset(
    alloc: Global,
    area: Option<Beginning>,
    value: TypedValue,
) -> Result<Option<TypedExpression>, AllocError>
    ensures { IfOk result (λ made. option_map expression_view made
        ≡ spec.as_offset area (expression_view value.expression) value.kind) }
{
    match (value.kind, area) {
        (ExpressionType::Offset { .. }, _) => Ok(Some(value.expression)),
        (ExpressionType::Null, _) => {
            drop(value);
            Ok(Some(null_offset()))
        }
        (ExpressionType::Pointer, Some(area)) => {
            let made = offset_of(alloc, area, value.expression)?;
            Ok(Some(made))
        }
        _ => {
            drop(value);
            Ok(None)
        }
    }
}
