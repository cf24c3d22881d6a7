//! The walk over expressions and references.
ghost use Rattle.std.specs.Prelude.{◌≡◌, map, []};
ghost use Rattle.pli_base.specs.Syntax.{Given};
ghost use Rattle.pli_base.specs.views.SyntaxView as syntax;
ghost use Rattle.pli_type_rules.specs.Typing as typing;
ghost use Rattle.pli_type.specs.views.ValueView.{value_view};
ghost use Rattle.pli_type_operands.specs.Operated as operated;
ghost use Rattle.pli_type_expression.specs.Segments.{next_segment, last_segment, function_typed};
ghost use Rattle.pli_type_names.specs.UnitNaming.{naming_in};
ghost use Rattle.pli_base.specs.answers.FailureAnswers.{Gives};
ghost use Rattle.pli_type_operands.specs.views.TypingView.{argument_view, denoted_view, meant_view};
ghost use Rattle.pli_type_expression.specs.views.SegmentView.{locator_view, segment_view};
ghost use Rattle.pli_type_operands.specs.views.TypingView.{role_view};
ghost use Rattle.pli_type_tree.specs.views.TypedView.{expression_view};

use crate::locator::{LocatorBefore, as_locator};
use crate::names::greatest;
use crate::procedure::procedure_called;
use crate::segment::{Segment, begun_alone, is_call};
use pli_base::syntax::{
    Expression, InfixOperator, JoinedPart, Joining, Part, PrefixOperator, Reference,
};
use pli_base::{Code, fault};
use pli_declare::BuiltInFunction;
use pli_type::TypedValue;
use pli_type_names::{NamedAs, Naming};
use pli_type_operands::{
    Argument, Denoted, ExpressionMeaning, Role, TypeError, constant, function_called, infix,
    number_written, prefix_denoted, role_at, roles_of, subscript,
};
use pli_type_tree::TypedExpression;
use std::alloc::Global;

/// What an expression is in its role, or its first fault of types.
pub fn meant<'a>(
    alloc: Global,
    naming: &Naming<'a>,
    role: Role,
    expression: &Expression,
) -> Result<ExpressionMeaning<'a>, TypeError>
    ensures { Gives meant_view result (typing.meant (naming_in naming.now) (role_view role)
        (syntax.expression_view expression.now)) }
{
    let denoted = denoted(alloc, naming, role, expression)?;
    Ok(denoted.as_expression())
}

/// The arguments of a call, from left to right, which may be whole aggregates.
pub fn arguments<'a>(
    alloc: Global,
    naming: &Naming<'a>,
    list: &[Expression],
) -> Result<Vec<Argument<'a>>, TypeError>
    ensures { Gives (λ v. map argument_view v.items) result
        (typing.all_arguments (naming_in naming.now) [] (syntax.expressions_view list.now)) }
{
    all_arguments(alloc, naming, &[], list)
}

/// One value of an expression: T2 at its first token where it is an aggregate.
#[cycle(typed)]
pub fn value_of(
    alloc: Global,
    naming: &Naming<'_>,
    expression: &Expression,
) -> Result<TypedValue, TypeError>
    ensures { Gives value_view result (typing.value_of (naming_in naming.now) (syntax.expression_view expression.now)) }
{
    match expression {
        Expression::Infix {
            operator,
            at,
            left,
            right,
        } => infixed(alloc, naming, *operator, *at, left, right),
        _ => value_denoted(alloc, naming, expression),
    }
}

/// The one value of what an expression denotes.
#[cycle(typed)]
#[inline(never)]
fn value_denoted(
    alloc: Global,
    naming: &Naming<'_>,
    expression: &Expression,
) -> Result<TypedValue, TypeError>
    ensures { Gives value_view result (typing.value_of (naming_in naming.now) (syntax.expression_view expression.now)) }
{
    let denoted = denoted(alloc, naming, Role::Value, expression)?;
    denoted.as_expression().one_value(expression)
}

/// What an expression denotes in its role, or its first fault of types: operands from left to right, then their
/// operator (own). It calls itself as deep as parentheses and operators nest.
#[cycle(typed)]
pub fn denoted<'a>(
    alloc: Global,
    naming: &Naming<'a>,
    role: Role,
    expression: &Expression,
) -> Result<Denoted<'a>, TypeError>
    ensures { Gives denoted_view result (typing.denoted (naming_in naming.now) (role_view role)
        (syntax.expression_view expression.now)) }
{
    match expression {
        Expression::Reference(reference) => referred(alloc, naming, role, reference),
        Expression::Constant { value, .. } => {
            let literal = constant(alloc, greatest(naming), value)?;
            Ok(Denoted::Result(literal))
        }
        Expression::Parenthesized { inner, .. } => {
            let value = value_of(alloc, naming, inner)?;
            Ok(Denoted::Result(value))
        }
        Expression::Prefix {
            operator,
            at,
            operand,
        } => prefixed(alloc, naming, *operator, *at, operand),
        Expression::Infix {
            operator,
            at,
            left,
            right,
        } => {
            let left_value = value_of(alloc, naming, left)?;
            let right_value = match value_of(alloc, naming, right) {
                Ok(value) => value,
                Err(error) => {
                    drop(left_value);
                    return Err(error);
                }
            };
            let combined = infix(
                alloc,
                greatest(naming),
                *operator,
                *at,
                left_value,
                right_value,
            )?;
            Ok(Denoted::Result(combined))
        }
    }
}

/// What a prefix operator denotes. Apart from `denoted`, so that each level of an expression takes little stack.
#[cycle(typed)]
#[inline(never)]
fn prefixed<'a>(
    alloc: Global,
    naming: &Naming<'a>,
    operator: PrefixOperator,
    at: u32,
    operand: &Expression,
) -> Result<Denoted<'a>, TypeError>
    ensures { Gives denoted_view result (operated.prefixed (naming_in naming.now) operator at
        (syntax.expression_view operand.now)) }
{
    let value = value_of(alloc, naming, operand)?;
    prefix_denoted(alloc, greatest(naming), operator, at, value)
}

/// What an infix operator makes of its operands, where a value is wanted. Operators nest a thousand deep there, so a
/// level of them is this function and `value_of` alone. `denoted` has the same steps: with two callers `infix`, whose
/// work takes much stack, is a call of its own to either compiler.
#[cycle(typed)]
#[inline(never)]
fn infixed(
    alloc: Global,
    naming: &Naming<'_>,
    operator: InfixOperator,
    at: u32,
    left: &Expression,
    right: &Expression,
) -> Result<TypedValue, TypeError>
    ensures { Gives value_view result
        (operated.infixed (naming_in naming.now) operator at (syntax.expression_view left.now)
        (syntax.expression_view right.now)) }
{
    let first = value_of(alloc, naming, left)?;
    match value_of(alloc, naming, right) {
        Ok(second) => infix(alloc, greatest(naming), operator, at, first, second),
        Err(error) => {
            drop(first);
            Err(error)
        }
    }
}

/// What a reference denotes in its role, which is that of its last part, all before an arrow being a locator; or its
/// first fault of types: a locator's, then each subscript's, then the reference's own (own).
#[cycle(typed)]
pub fn referred<'a>(
    alloc: Global,
    naming: &Naming<'a>,
    role: Role,
    reference: &Reference,
) -> Result<Denoted<'a>, TypeError>
    ensures { Gives denoted_view result (typing.referred (naming_in naming.now) (role_view role)
        (syntax.reference_view reference.now)) }
{
    let joined = reference.joined.as_slice();
    let call = is_call(role, joined);
    let first = begun(
        alloc,
        naming,
        call,
        LocatorBefore::NotLocated,
        &reference.first,
    )?;
    let last = continued(alloc, naming, first, joined)?;
    last.ended(alloc, naming, role)
}

/// The last segment of a reference.
#[cycle(typed)]
fn continued(
    alloc: Global,
    naming: &Naming<'_>,
    first: Segment,
    joined: &[JoinedPart],
) -> Result<Segment, TypeError>
    ensures { Gives (segment_view (naming_in naming.now)) result
        (last_segment (naming_in naming.now) (segment_view (naming_in naming.now) first)
        (syntax.joined_view joined.now)) }
{
    let mut segment = first;
    for part in joined {
        segment = with_part(alloc, naming, segment, part)?;
    }
    Ok(segment)
}

/// A segment with a part that is joined to it.
#[cycle(typed)]
fn with_part(
    alloc: Global,
    naming: &Naming<'_>,
    segment: Segment,
    joined: &JoinedPart,
) -> Result<Segment, TypeError>
    ensures { Gives (segment_view (naming_in naming.now)) result
        (next_segment (naming_in naming.now) (segment_view (naming_in naming.now) segment) joined.now.joining
        joined.now.part.name
        (syntax.arguments_view joined.now.part.arguments)) }
{
    match joined.joining {
        Joining::Member => {
            let more = match subscripts_in(alloc, naming, &joined.part) {
                Ok(more) => more,
                Err(error) => {
                    drop(segment);
                    return Err(error);
                }
            };
            let longer = segment.with_more(more)?;
            Ok(longer)
        }
        Joining::Located => {
            let denoted = segment.ended(alloc, naming, Role::Locator)?;
            let locator = as_locator(alloc, denoted)?;
            begun(alloc, naming, false, locator, &joined.part)
        }
    }
}

/// A segment by what its first name means, with the parentheses after that: subscripts of a variable, else arguments.
#[cycle(typed)]
fn begun(
    alloc: Global,
    naming: &Naming<'_>,
    call: bool,
    locator: LocatorBefore,
    part: &Part,
) -> Result<Segment, TypeError>
    ensures { Gives (segment_view (naming_in naming.now)) result
        (typing.begun (naming_in naming.now) ((naming_in naming.now).meaning part.now.name.at) call
        (locator_view locator) part.now.name.at
        (syntax.arguments_view part.now.arguments)) }
{
    let at = part.name.at;
    match &part.arguments {
        None => Ok(begun_alone(alloc, naming, call, locator, at)),
        Some(list) => begun_with(alloc, naming, call, locator, at, list.as_slice()),
    }
}

/// A segment that begins with a name and a list in parentheses.
#[cycle(typed)]
fn begun_with(
    alloc: Global,
    naming: &Naming<'_>,
    call: bool,
    locator: LocatorBefore,
    at: u32,
    list: &[Expression],
) -> Result<Segment, TypeError>
    ensures { Gives (segment_view (naming_in naming.now)) result
        (typing.begun (naming_in naming.now) ((naming_in naming.now).meaning at) call (locator_view locator) at
        (Given (syntax.expressions_view list.now))) }
{
    match naming.meaning(at) {
        NamedAs::Variable(_) => {
            let subscripts = all_subscripts(alloc, naming, list)?;
            Ok(Segment::Named {
                locator,
                at,
                subscripts,
            })
        }
        NamedAs::Function(function) => {
            if call {
                let value = called(alloc, naming, function, at, list)?;
                return Ok(Segment::given(function, value));
            }
            all_arguments(alloc, naming, &[], list)?;
            Ok(Segment::named(alloc, LocatorBefore::NotLocated, at))
        }
        NamedAs::Procedure(procedure) => {
            let arguments = all_arguments(alloc, naming, &[], list)?;
            if call {
                return procedure_called(alloc, naming, procedure, at, arguments);
            }
            Ok(Segment::named(alloc, LocatorBefore::NotLocated, at))
        }
        NamedAs::Label(_) | NamedAs::Untyped => {
            all_arguments(alloc, naming, &[], list)?;
            Ok(Segment::named(alloc, LocatorBefore::NotLocated, at))
        }
    }
}

/// A call of a built-in function: T6 at its name where the number of arguments is wrong, after all their faults.
#[cycle(typed)]
fn called(
    alloc: Global,
    naming: &Naming<'_>,
    function: BuiltInFunction,
    at: u32,
    list: &[Expression],
) -> Result<TypedValue, TypeError>
    ensures { Gives value_view result (function_typed (naming_in naming.now) function at
        (syntax.expressions_view list.now)) }
{
    let Some(roles) = roles_of(function, list.len()) else {
        all_arguments(alloc, naming, &[], list)?;
        return Err(fault(Code::WrongNumberOfArguments, at));
    };
    let arguments = all_arguments(alloc, naming, roles, list)?;
    function_called(alloc, greatest(naming), function, at, arguments)
}

/// The subscripts in the parentheses after a member, from left to right.
#[cycle(typed)]
fn subscripts_in(
    alloc: Global,
    naming: &Naming<'_>,
    part: &Part,
) -> Result<Vec<TypedExpression>, TypeError>
    ensures { Gives (λ v. map expression_view v.items) result
        (typing.subscripts_in (naming_in naming.now) (syntax.arguments_view part.now.arguments)) }
{
    match &part.arguments {
        None => Ok(Vec::new(alloc)),
        Some(list) => all_subscripts(alloc, naming, list.as_slice()),
    }
}

/// Subscripts from left to right.
#[cycle(typed)]
fn all_subscripts(
    alloc: Global,
    naming: &Naming<'_>,
    list: &[Expression],
) -> Result<Vec<TypedExpression>, TypeError>
    ensures { Gives (λ v. map expression_view v.items) result
        (typing.all_subscripts (naming_in naming.now) (syntax.expressions_view list.now)) }
{
    let mut subscripts = Vec::new(alloc);
    for expression in list {
        let value = value_of(alloc, naming, expression)?;
        let one = subscript(greatest(naming), expression, value)?;
        subscripts.push(one)?;
    }
    Ok(subscripts)
}

/// Arguments from left to right, in their roles; those without a role may be whole aggregates.
#[cycle(typed)]
fn all_arguments<'a>(
    alloc: Global,
    naming: &Naming<'a>,
    roles: &[Role],
    list: &[Expression],
) -> Result<Vec<Argument<'a>>, TypeError>
    ensures { Gives (λ v. map argument_view v.items) result
        (typing.all_arguments (naming_in naming.now) (map role_view roles.now) (syntax.expressions_view list.now)) }
{
    let mut arguments = Vec::new(alloc);
    for (place, expression) in list.iter().enumerate() {
        let role = role_at(roles, place);
        let argument = denoted(alloc, naming, role, expression)?;
        arguments.push(Argument {
            denoted: argument,
            written: number_written(expression),
        })?;
    }
    Ok(arguments)
}
