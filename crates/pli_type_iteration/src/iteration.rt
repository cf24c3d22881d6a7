//! Groups with a control variable.
ghost use Rattle.std.specs.Prelude.{◌≡◌, ℕ, Option, option_map, IfOk};
ghost use Rattle.std.specs.List.{list_any};
ghost use Rattle.pli_base.specs.views.StatementView.{range_view};
ghost use Rattle.pli_base.specs.views.SyntaxView as syntax;
ghost use Rattle.pli_map.specs.ParameterTypes as types;
ghost use Rattle.pli_map.specs.views.DescriptionView.{description_view};
ghost use Rattle.pli_map.specs.views.ParameterView.{type_seen, type_view};
ghost use Rattle.pli_type_rules.specs.declared.beginning.Beginning.{Beginning};
ghost use Rattle.pli_type_rules.specs.StatementTyping as spec;
ghost use Rattle.pli_type.specs.views.ValueView.{value_view};
ghost use Rattle.pli_type_rules.specs.TypingSteps as steps;
ghost use Rattle.pli_base.specs.answers.FailureAnswers.{Gives};
ghost use Rattle.pli_type_operands.specs.views.TypingView.{denoted_view, referent_view};
ghost use Rattle.pli_type_names.specs.UnitNaming.{naming_in};
ghost use Rattle.pli_type_iteration.specs.Iterations.{is_arrow, iteration_of, iteration_with, may_control};
ghost use Rattle.pli_type_tree.specs.views.TypedView as typed;

use crate::conditions::condition;
use pli_base::statement::Range;
use pli_base::syntax::{Expression, JoinedPart, Joining, Reference};
use pli_base::{Code, fault};
use pli_map::{Description, ParameterType, StringForm, TypeRef};
use pli_type::{TypedValue, conversion_to, converted, suited_to_form, unconverted};
use pli_type_expression::{referred, value_of};
use pli_type_names::Naming;
use pli_type_operands::{Denoted, Referent, Role, TypeError, first_token, own_token};
use pli_type_rules::{Beginning, is_area_type};
use pli_type_tree::{Conversion, Iteration, TypedExpression, TypedRange, TypedReference};
use std::alloc::{AllocError, Global};

/// TO or BY, which takes a number: T4 at its first token where it has none (X3.74).
fn limit(
    alloc: Global,
    naming: &Naming<'_>,
    expression: &Expression,
) -> Result<TypedExpression, TypeError>
    ensures { Gives typed.expression_view result
        (spec.limit (naming_in naming.now) (syntax.expression_view expression.now)) }
{
    let value = value_of(alloc, naming, expression)?;
    match value.kind.precision(naming.greatest()) {
        Some(_) => Ok(value.expression),
        None => {
            drop(value);
            Err(fault(Code::WrongOperandType, first_token(expression)))
        }
    }
}

/// The second of them, if it stands there.
fn possible_limit(
    alloc: Global,
    naming: &Naming<'_>,
    expression: &Option<Expression>,
) -> Result<Option<TypedExpression>, TypeError>
    ensures { Gives (option_map typed.expression_view) result
        (steps.possible_limit (naming_in naming.now) (option_map syntax.expression_view expression.now)) }
{
    match expression {
        None => Ok(None),
        Some(expression) => Ok(Some(limit(alloc, naming, expression)?)),
    }
}

/// TO and BY as they stand; what REPEAT says comes later.
fn limits(
    alloc: Global,
    naming: &Naming<'_>,
    range: &Option<Range>,
) -> Result<TypedRange, TypeError>
    ensures { Gives typed.range_view result (spec.limits (naming_in naming.now) (option_map range_view range.now)) }
{
    match range {
        Some(Range::To { to, by }) => {
            let to = Box::new(alloc, limit(alloc, naming, to)?)?;
            let by = possible_limit(alloc, naming, by)?;
            Ok(TypedRange::ToBy {
                to: Box::into_inner(to),
                by,
            })
        }
        Some(Range::By { by, to }) => {
            let by = Box::new(alloc, limit(alloc, naming, by)?)?;
            let to = possible_limit(alloc, naming, to)?;
            Ok(TypedRange::ByTo {
                by: Box::into_inner(by),
                to,
            })
        }
        Some(Range::Repeat(_)) | None => Ok(TypedRange::Once),
    }
}

/// Whether a reference has no subscripts.
fn is_without_subscripts(reference: &TypedReference) -> bool
    ensures { result ≡ spec.without_subscripts (typed.reference_view reference.now) }
{
    match reference {
        TypedReference::Whole(_) => true,
        TypedReference::Part { subscripts, .. } => subscripts.is_empty(),
        TypedReference::ElementOf { .. } => false,
    }
}

/// Whether a variable of this description can count: it is a number where TO or BY stands.
fn described_suits(description: &Description, range: &TypedRange) -> bool
    ensures { result ≡ spec.suits_range (types.Stated (description_view description.now)) (typed.range_view range.now) }
{
    match range {
        TypedRange::Once => true,
        _ => matches!(description, Description::FixedBinary(_)),
    }
}

/// The same of a variable of this type.
fn type_suits(taken: &ParameterType, range: &TypedRange) -> bool
    ensures { result ≡ spec.suits_range (type_view taken.now) (typed.range_view range.now) }
{
    match taken {
        ParameterType::Stated(description) => described_suits(description, range),
        _ => matches!(range, TypedRange::Once),
    }
}

/// Whether a variable of a type can count: it is a number where TO or BY stands.
fn suits_range(taken: TypeRef<'_>, range: &TypedRange) -> bool
    ensures { result ≡ spec.suits_range (type_seen taken.entry) (typed.range_view range.now) }
{
    match taken {
        TypeRef::Stated(description) => described_suits(description, range),
        TypeRef::Open(taken) => type_suits(taken, range),
    }
}

/// Whether a part of a reference stands after an arrow.
fn is_arrow(part: &JoinedPart) -> bool
    ensures { result ≡ is_arrow part.now.joining }
{
    part.joining == Joining::Located
}

/// Whether one of the parts does.
fn any_arrow(joined: &[JoinedPart]) -> bool
    ensures { result ≡ list_any (λ part. is_arrow part.joining) joined.now }
{
    joined.iter().any(|part| is_arrow(part))
}

/// Whether a locator stands in front of a name of a reference.
#[tactic(auto, using(pli_base::specs::laws::SyntaxLaws::reference_out, crate::proofs::Arrows::arrows_joined))]
fn has_locator(reference: &Reference) -> bool
    ensures { result ≡ spec.has_locator (syntax.reference_view reference.now) }
{
    let located = any_arrow(reference.joined.as_slice());
    located
}

/// Whether a variable may control a group, whatever limits that: it has no subscripts and no locator before it, and is
/// no area.
fn may_control(is_located: bool, variable: &Referent<'_>) -> bool
    ensures { result ≡ may_control is_located (referent_view variable.now) }
{
    is_without_subscripts(&variable.reference) && !is_located && !is_area_type(variable.description)
}

/// The control variable at the token `at`: a variable without subscripts and without a locator before it, no area, and
/// a number where TO or BY stands; T12 there where it is not (X3.74; that subscripts, locators and areas are refused,
/// own).
fn controls<'a>(
    alloc: Global,
    at: u32,
    is_located: bool,
    range: &TypedRange,
    variable: Denoted<'a>,
) -> Result<Box<Referent<'a>>, TypeError>
    ensures { Gives (λ r. referent_view r.value) result (spec.controls at is_located (typed.range_view range.now)
        (denoted_view variable.entry)) }
{
    let Denoted::Variable(referent) = variable else {
        drop(variable);
        return Err(fault(Code::NotAVariable, at));
    };
    if !may_control(is_located, &referent) {
        drop(referent);
        return Err(fault(Code::BadControlVariable, at));
    }
    if !suits_range(referent.description, range) {
        drop(referent);
        return Err(fault(Code::BadControlVariable, at));
    }
    Ok(Box::new(alloc, referent)?)
}

/// WHILE after them, if it stands there.
fn possible_condition(
    alloc: Global,
    naming: &Naming<'_>,
    expression: &Option<Expression>,
) -> Result<Option<Box<TypedExpression>>, TypeError>
    ensures { Gives (option_map (λ x. typed.expression_view x.value)) result
        (steps.possible_condition (naming_in naming.now) (option_map syntax.expression_view expression.now)) }
{
    match expression {
        None => Ok(None),
        Some(expression) => Ok(Some(condition(alloc, naming, expression)?)),
    }
}

/// What REPEAT gives a variable of this description, whose declaration names this area if it is an OFFSET; none where
/// it does not suit.
fn described_turn(
    alloc: Global,
    greatest: u8,
    area: Option<Beginning>,
    description: &Description,
    value: TypedValue,
) -> Result<Option<Box<TypedRange>>, AllocError>
    ensures { IfOk result (λ made. option_map (λ range. typed.range_view range.value) made
        ≡ spec.turned greatest area (value_view value) (types.Stated (description_view description.now))) }
{
    match converted(alloc, greatest, area, description, value)? {
        Some(next) => Ok(Some(Box::new(alloc, TypedRange::Repeated(next))?)),
        None => Ok(None),
    }
}

/// What REPEAT gives a string of any length, to which it is fitted at its place; none where it does not suit.
fn string_turn(
    alloc: Global,
    form: StringForm,
    value: TypedValue,
) -> Result<Option<Box<TypedRange>>, AllocError>
    ensures { IfOk result (λ made. (greatest : ℕ) (area : Option Beginning) →
        option_map (λ range. typed.range_view range.value) made
        ≡ spec.turned greatest area (value_view value) (types.AnyString form)) }
{
    match suited_to_form(alloc, form, value)? {
        Some(next) => Ok(Some(Box::new(alloc, TypedRange::RepeatedString(next))?)),
        None => Ok(None),
    }
}

/// What REPEAT gives a variable of this type.
fn type_turn(
    alloc: Global,
    greatest: u8,
    area: Option<Beginning>,
    taken: &ParameterType,
    value: TypedValue,
) -> Result<Option<Box<TypedRange>>, AllocError>
    ensures { IfOk result (λ made. option_map (λ range. typed.range_view range.value) made
        ≡ spec.turned greatest area (value_view value) (type_view taken.now)) }
{
    match taken {
        ParameterType::Stated(description) => {
            described_turn(alloc, greatest, area, description, value)
        }
        ParameterType::AnyString(form) => string_turn(alloc, *form, value),
        _ => {
            drop(value);
            Ok(None)
        }
    }
}

/// What REPEAT gives a variable of a type, whose declaration names this area if it is an OFFSET; none where it does not
/// suit.
fn turned(
    alloc: Global,
    greatest: u8,
    area: Option<Beginning>,
    taken: TypeRef<'_>,
    value: TypedValue,
) -> Result<Option<Box<TypedRange>>, AllocError>
    ensures { IfOk result (λ made. option_map (λ range. typed.range_view range.value) made
        ≡ spec.turned greatest area (value_view value) (type_seen taken.entry)) }
{
    match taken {
        TypeRef::Stated(description) => described_turn(alloc, greatest, area, description, value),
        TypeRef::Open(taken) => type_turn(alloc, greatest, area, taken, value),
    }
}

/// REPEAT: T5 at its expression's first token where that does not suit the variable (X3.74).
fn next_value(
    alloc: Global,
    naming: &Naming<'_>,
    control: &Referent<'_>,
    expression: &Expression,
) -> Result<Box<TypedRange>, TypeError>
    ensures { Gives (λ range. typed.range_view range.value) result
        (spec.next_value (naming_in naming.now) (referent_view control.now) (syntax.expression_view expression.now)) }
{
    let value = value_of(alloc, naming, expression)?;
    match turned(
        alloc,
        naming.greatest(),
        control.area,
        control.description,
        value,
    )? {
        Some(range) => Ok(range),
        None => Err(fault(Code::CannotAssign, first_token(expression))),
    }
}

/// What limits or continues a group, with REPEAT if it stands there.
fn with_repeat(
    alloc: Global,
    naming: &Naming<'_>,
    control: &Referent<'_>,
    kept: Box<TypedRange>,
    range: &Option<Range>,
) -> Result<Box<TypedRange>, TypeError>
    ensures { Gives (λ range. typed.range_view range.value) result
        (spec.with_repeat (naming_in naming.now) (referent_view control.now) (typed.range_view kept.value)
        (option_map range_view range.now)) }
{
    match range {
        Some(Range::Repeat(next)) => next_value(alloc, naming, control, next),
        _ => Ok(kept),
    }
}

/// What `DO v = a ..` says.
#[derive(Clone, Copy)]
pub(crate) struct IterationText<'s> {
    pub variable: &'s Reference,
    /// The token of `=`.
    pub equals: u32,
    pub first: &'s Expression,
    pub range: &'s Option<Range>,
    pub condition: &'s Option<Expression>,
}

/// A condition, if it stands there, out of its box.
fn unboxed(condition: Option<Box<TypedExpression>>) -> Option<TypedExpression>
    ensures { option_map typed.expression_view result
        ≡ option_map (λ x. typed.expression_view x.value) condition }
{
    match condition {
        Some(condition) => Some(Box::into_inner(condition)),
        None => None,
    }
}

/// A group with a control variable of its parts.
fn of_parts(
    variable: Box<Referent<'_>>,
    conversion: Box<Conversion>,
    start: Box<TypedValue>,
    range: Box<TypedRange>,
    condition: Option<Box<TypedExpression>>,
    temporary: usize,
) -> Iteration
    ensures { typed.iteration_view result
        ≡ iteration_of (referent_view variable.entry.value) (typed.conversion_view conversion.value)
        (value_view start.value)
        (typed.range_view range.value) (option_map (λ x. typed.expression_view x.value) condition) temporary }
{
    let variable = Box::into_inner(variable);
    let start = unconverted(variable.description, Box::into_inner(start));
    Iteration {
        control: variable.reference,
        conversion: Box::into_inner(conversion),
        start,
        range: Box::into_inner(range),
        condition: unboxed(condition),
        temporary,
    }
}

/// The group of its first value, what limits it and its variable: T5 at `=` where the value does not suit the variable,
/// then the faults of WHILE, and those of REPEAT (own).
fn iterated(
    alloc: Global,
    naming: &Naming<'_>,
    temporary: usize,
    text: IterationText<'_>,
    start: Box<TypedValue>,
    kept: Box<TypedRange>,
    variable: Box<Referent<'_>>,
) -> Result<Iteration, TypeError>
    ensures { Gives typed.iteration_view result
        (iteration_with (naming_in naming.now) temporary text.entry.equals (value_view start.value)
        (typed.range_view kept.value) (referent_view variable.entry.value) (option_map range_view text.entry.range.now)
        (option_map syntax.expression_view text.entry.condition.now)) }
{
    let converts = conversion_to(
        alloc,
        naming.greatest(),
        variable.area,
        variable.description,
        start.kind,
    )?;
    let Some(conversion) = converts else {
        return Err(fault(Code::CannotAssign, text.equals));
    };
    let conversion = Box::new(alloc, conversion)?;
    let condition = possible_condition(alloc, naming, text.condition)?;
    let range = with_repeat(alloc, naming, &variable, kept, text.range)?;
    Ok(of_parts(variable, conversion, start, range, condition, temporary))
}

/// What `DO v = a ..` says, whose temporaries begin with this one, or its first fault: those of a, of TO and BY, of v,
/// then T12 at v's first name after its last arrow, T5 at `=`, those of WHILE, and those of REPEAT (own).
pub(crate) fn iteration(
    alloc: Global,
    naming: &Naming<'_>,
    temporary: usize,
    text: IterationText<'_>,
) -> Result<Iteration, TypeError>
    ensures { Gives typed.iteration_view result
        (spec.iteration (naming_in naming.now) temporary (syntax.reference_view text.entry.variable.now)
        text.entry.equals
        (syntax.expression_view text.entry.first.now) (option_map range_view text.entry.range.now)
        (option_map syntax.expression_view text.entry.condition.now)) }
{
    let first = value_of(alloc, naming, text.first)?;
    let start = Box::new(alloc, first)?;
    let range = limits(alloc, naming, text.range)?;
    let kept = Box::new(alloc, range)?;
    let variable = referred(alloc, naming, Role::Locator, text.variable)?;
    let is_located = has_locator(text.variable);
    let at = own_token(text.variable);
    let variable = controls(alloc, at, is_located, &kept, variable)?;
    iterated(alloc, naming, temporary, text, start, kept, variable)
}
