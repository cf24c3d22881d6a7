//! Copies of expressions and references.
ghost use Rattle.std.specs.Prelude.{◌≡◌, IfOk};
ghost use Rattle.pli_base.specs.Syntax as tree;
ghost use Rattle.pli_base.specs.views.SyntaxView.{expression_view, reference_view, expressions_view, arguments_view};
ghost use Rattle.pli_base.specs.views.SyntaxView.{joined_view};
ghost use Rattle.pli_base.specs.declared.syntax.ConstantValue as constant;
ghost use Rattle.pli_copy.specs.views.PartView.{part_view};

use crate::copied::Copied;
use pli_base::syntax::{ConstantValue, Expression, JoinedPart, Part, Reference};
use std::alloc::{AllocError, Global};

impl Copied for ConstantValue {
    ghost View = { constant.ConstantValue };

    ghost view = { λ value. value };

    fn copy(&self, alloc: Global) -> Result<ConstantValue, AllocError> {
        Ok(match self {
            ConstantValue::Decimal { value, digits } => ConstantValue::Decimal {
                value: *value,
                digits: *digits,
            },
            ConstantValue::Binary { value, digits } => ConstantValue::Binary {
                value: *value,
                digits: *digits,
            },
            ConstantValue::Characters(string) => ConstantValue::Characters(string.copy(alloc)?),
            ConstantValue::Bits(string) => ConstantValue::Bits(string.copy(alloc)?),
        })
    }
}

impl Copied for Expression {
    ghost View = { tree.Expression };

    ghost view = { expression_view };

    fn copy(&self, alloc: Global) -> Result<Expression, AllocError> {
        copied_expression(alloc, self)
    }
}

impl Copied for Reference {
    ghost View = { tree.Reference };

    ghost view = { reference_view };

    fn copy(&self, alloc: Global) -> Result<Reference, AllocError> {
        copied_reference(alloc, self)
    }
}

/// Copies an expression.
#[cycle(copied)]
fn copied_expression(alloc: Global, expression: &Expression) -> Result<Expression, AllocError>
    ensures { IfOk result (λ copied. expression_view copied ≡ expression_view expression.now) }
{
    match expression {
        Expression::Reference(reference) => {
            Ok(Expression::Reference(copied_reference(alloc, reference)?))
        }
        Expression::Constant { at, value } => Ok(Expression::Constant {
            at: *at,
            value: value.copy(alloc)?,
        }),
        Expression::Parenthesized { at, inner } => Ok(Expression::Parenthesized {
            at: *at,
            inner: Box::new(alloc, copied_expression(alloc, inner)?)?,
        }),
        Expression::Prefix {
            operator,
            at,
            operand,
        } => Ok(Expression::Prefix {
            operator: *operator,
            at: *at,
            operand: Box::new(alloc, copied_expression(alloc, operand)?)?,
        }),
        Expression::Infix {
            operator,
            at,
            left,
            right,
        } => Ok(Expression::Infix {
            operator: *operator,
            at: *at,
            left: Box::new(alloc, copied_expression(alloc, left)?)?,
            right: Box::new(alloc, copied_expression(alloc, right)?)?,
        }),
    }
}

/// Copies a reference.
#[cycle(copied)]
fn copied_reference(alloc: Global, reference: &Reference) -> Result<Reference, AllocError>
    ensures { IfOk result (λ copied. reference_view copied ≡ reference_view reference.now) }
{
    let first = copied_part(alloc, &reference.first)?;
    let joined = copied_parts(alloc, reference.joined.as_slice())?;
    Ok(Reference { first, joined })
}

/// Copies the parts that are joined to the first.
#[cycle(copied)]
fn copied_parts(alloc: Global, parts: &[JoinedPart]) -> Result<Vec<JoinedPart>, AllocError>
    ensures { IfOk result (λ copied. joined_view copied.items ≡ joined_view parts.now) }
{
    let mut copied = Vec::new(alloc);
    for part in parts {
        copied.push(copied_joined(alloc, part)?)?;
    }
    Ok(copied)
}

/// Copies one of them.
#[cycle(copied)]
fn copied_joined(alloc: Global, joined: &JoinedPart) -> Result<JoinedPart, AllocError>
    ensures { IfOk result (λ copied. part_view copied ≡ part_view joined.now) }
{
    Ok(JoinedPart {
        joining: joined.joining,
        part: copied_part(alloc, &joined.part)?,
    })
}

/// Copies a name and the list after it.
#[cycle(copied)]
fn copied_part(alloc: Global, part: &Part) -> Result<Part, AllocError>
    ensures name { IfOk result (λ copied. copied.name ≡ part.now.name) }
    ensures arguments { IfOk result (λ copied. arguments_view copied.arguments ≡ arguments_view part.now.arguments) }
{
    let arguments = match &part.arguments {
        None => None,
        Some(list) => Some(copied_expressions(alloc, list.as_slice())?),
    };
    Ok(Part {
        name: part.name,
        arguments,
    })
}

/// Copies the expressions of such a list.
#[cycle(copied)]
pub(crate) fn copied_expressions(
    alloc: Global,
    expressions: &[Expression],
) -> Result<Vec<Expression>, AllocError>
    ensures { IfOk result (λ copied. expressions_view copied.items ≡ expressions_view expressions.now) }
{
    let mut copied = Vec::new(alloc);
    for expression in expressions {
        copied.push(copied_expression(alloc, expression)?)?;
    }
    Ok(copied)
}
