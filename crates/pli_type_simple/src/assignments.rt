//! Assignments.
ghost use Rattle.std.specs.Prelude.{◌≡◌, option_map};
ghost use Rattle.pli_base.specs.views.SyntaxView as syntax;
ghost use Rattle.pli_map.specs.ParameterTypes as types;
ghost use Rattle.pli_map.specs.views.DescriptionView.{description_view};
ghost use Rattle.pli_map.specs.views.ParameterView.{type_seen, type_view};
ghost use Rattle.pli_type_rules.specs.Beginnings.{whole_at};
ghost use Rattle.pli_type_rules.specs.StatementTyping as spec;
ghost use Rattle.pli_base.specs.answers.FailureAnswers.{Gives};
ghost use Rattle.pli_type_operands.specs.views.TypingView.{denoted_view, meant_view, referent_view};
ghost use Rattle.pli_type_names.specs.UnitNaming.{naming_in};
ghost use Rattle.pli_type_tree.specs.TypedTree as tree;
ghost use Rattle.pli_type_tree.specs.views.TypedView.{form_view};

use pli_base::syntax::{Expression, Reference};
use pli_base::{Code, fault};
use pli_map::{Description, ParameterType, StringForm, TypeRef, is_area};
use pli_type::{converted, suited_to_form};
use pli_type_expression::{denoted, meant, referred, value_of};
use pli_type_names::Naming;
use pli_type_operands::{Denoted, ExpressionMeaning, Referent, Role, TypeError};
use pli_type_rules::{Beginning, area_meant};
use pli_type_tree::Form;
use std::alloc::Global;

/// Whether two types are the same, and no `*` stands in them.
#[tactic(auto, using(crate::proofs::AlikeLemmas::alike, crate::proofs::AlikeLemmas::first_open, crate::proofs::AlikeLemmas::second_open))]
fn are_alike(one: TypeRef<'_>, other: TypeRef<'_>) -> bool
    ensures { result ≡ spec.are_alike (type_seen one.entry) (type_seen other.entry) }
{
    let Some(one) = one.stated() else {
        return false;
    };
    let Some(other) = other.stated() else {
        return false;
    };
    *one == *other
}

/// An aggregate assigned to one of equal description: types, bounds and structure agree, and are known (X3.74).
/// Anything else is T5 at `=`.
fn aggregate_assigned(
    equals: u32,
    target: Box<Referent<'_>>,
    source: ExpressionMeaning<'_>,
) -> Result<Form, TypeError>
    ensures { Gives form_view result
        (spec.aggregate_assigned equals (referent_view target.entry.value) (meant_view source.entry)) }
{
    let ExpressionMeaning::Aggregate(source) = source else {
        drop(source);
        return Err(fault(Code::CannotAssign, equals));
    };
    if are_alike(target.description, source.description) {
        let target = Box::into_inner(target);
        Ok(Form::AssignAggregate {
            target: target.reference,
            source: source.reference,
        })
    } else {
        drop(source);
        Err(fault(Code::CannotAssign, equals))
    }
}

/// One value assigned to a scalar of this description: T5 at `=` where it does not suit, T2 where it is an aggregate
/// (X3.74).
fn scalar_assigned(
    alloc: Global,
    naming: &Naming<'_>,
    equals: u32,
    target: Box<Referent<'_>>,
    description: &Description,
    value: &Expression,
) -> Result<Form, TypeError>
    ensures { Gives form_view result
        (spec.scalar_assigned (naming_in naming.now) equals (referent_view target.entry.value)
        (description_view description.now) (syntax.expression_view value.now)) }
{
    let value = value_of(alloc, naming, value)?;
    match converted(alloc, naming.greatest(), target.area, description, value)? {
        Some(value) => {
            let target = Box::into_inner(target);
            Ok(Form::Assign {
                target: target.reference,
                value,
            })
        }
        None => Err(fault(Code::CannotAssign, equals)),
    }
}

/// A string assigned to one of any length, to which it is fitted at its place: T5 at `=` where the value does not suit,
/// T2 where it is an aggregate.
fn string_assigned(
    alloc: Global,
    naming: &Naming<'_>,
    equals: u32,
    target: Box<Referent<'_>>,
    form: StringForm,
    value: &Expression,
) -> Result<Form, TypeError>
    ensures { Gives form_view result
        (spec.string_assigned (naming_in naming.now) equals (referent_view target.entry.value) form
        (syntax.expression_view value.now)) }
{
    let value = value_of(alloc, naming, value)?;
    match suited_to_form(alloc, form, value)? {
        Some(value) => {
            let target = Box::into_inner(target);
            Ok(Form::AssignString {
                target: target.reference,
                value,
            })
        }
        None => Err(fault(Code::CannotAssign, equals)),
    }
}

/// The blocks of an area assigned to another, if there is one.
fn area_copied(target: Beginning, source: Option<Beginning>) -> Option<Form>
    ensures { option_map form_view result
        ≡ option_map (λ area. tree.AssignArea (whole_at target) (whole_at area)) source }
{
    match source {
        Some(source) => Some(Form::AssignArea {
            target: target.whole(),
            source: source.whole(),
        }),
        None => None,
    }
}

/// What is put into an area: another one, or EMPTY, but nothing in parentheses.
fn area_put(target: Option<Beginning>, source: &Denoted<'_>) -> Option<Form>
    ensures { option_map form_view result ≡ spec.area_put target (denoted_view source.now) }
{
    let Some(target) = target else {
        return None;
    };
    match source {
        Denoted::Empty => Some(Form::EmptyArea(target.whole())),
        Denoted::Variable(_) | Denoted::Result(_) => area_copied(target, source.area()),
    }
}

/// What is assigned to an area: T2 where it is an aggregate, T5 at `=` where it is neither an area nor EMPTY (own).
fn area_assigned(
    alloc: Global,
    naming: &Naming<'_>,
    equals: u32,
    target: Option<Beginning>,
    value: &Expression,
) -> Result<Form, TypeError>
    ensures { Gives form_view result
        (spec.area_assigned (naming_in naming.now) equals target (syntax.expression_view value.now)) }
{
    let source = denoted(alloc, naming, Role::Value, value)?;
    let form = area_put(target, &source);
    drop(source);
    match form {
        Some(form) => Ok(form),
        None => Err(fault(Code::CannotAssign, equals)),
    }
}

/// What is assigned to an area or a scalar of this description.
fn described_assigned<'a>(
    alloc: Global,
    naming: &Naming<'a>,
    equals: u32,
    target: Box<Referent<'a>>,
    description: &Description,
    value: &Expression,
) -> Result<Form, TypeError>
    ensures { Gives form_view result
        (spec.one_assigned (naming_in naming.now) equals (referent_view target.entry.value)
        (types.Stated (description_view description.now)) (syntax.expression_view value.now)) }
{
    if is_area(description) {
        let area = area_meant(&target.reference, TypeRef::Stated(description));
        drop(target);
        area_assigned(alloc, naming, equals, area, value)
    } else {
        scalar_assigned(alloc, naming, equals, target, description, value)
    }
}

/// What is assigned to what is of this type, and no aggregate.
fn open_assigned<'a>(
    alloc: Global,
    naming: &Naming<'a>,
    equals: u32,
    target: Box<Referent<'a>>,
    taken: &ParameterType,
    value: &Expression,
) -> Result<Form, TypeError>
    ensures { Gives form_view result
        (spec.one_assigned (naming_in naming.now) equals (referent_view target.entry.value) (type_view taken.now)
        (syntax.expression_view value.now)) }
{
    match taken {
        ParameterType::Stated(description) => {
            described_assigned(alloc, naming, equals, target, description, value)
        }
        ParameterType::AnyString(form) => {
            string_assigned(alloc, naming, equals, target, *form, value)
        }
        _ => {
            drop(target);
            Err(fault(Code::CannotAssign, equals))
        }
    }
}

/// What is assigned to a variable, by what that is: an aggregate, an area, or a scalar.
fn variable_assigned<'a>(
    alloc: Global,
    naming: &Naming<'a>,
    equals: u32,
    target: Box<Referent<'a>>,
    value: &Expression,
) -> Result<Form, TypeError>
    ensures { Gives form_view result
        (spec.variable_assigned (naming_in naming.now) equals (referent_view target.entry.value)
        (syntax.expression_view value.now)) }
{
    if target.description.is_aggregate() {
        let source = meant(alloc, naming, Role::Argument, value)?;
        return aggregate_assigned(equals, target, source);
    }
    match target.description {
        TypeRef::Stated(description) => {
            described_assigned(alloc, naming, equals, target, description, value)
        }
        TypeRef::Open(taken) => open_assigned(alloc, naming, equals, target, taken, value),
    }
}

/// What is assigned to what a target denotes; what a function gives, EMPTY too, is T1 at the statement.
fn assigned<'a>(
    alloc: Global,
    naming: &Naming<'a>,
    at: u32,
    equals: u32,
    target: Denoted<'a>,
    value: &Expression,
) -> Result<Form, TypeError>
    ensures { Gives form_view result
        (spec.assigned (naming_in naming.now) at equals (denoted_view target.entry)
        (syntax.expression_view value.now)) }
{
    let Denoted::Variable(target) = target else {
        drop(target);
        return Err(fault(Code::NotAVariable, at));
    };
    let target = Box::new(alloc, target)?;
    variable_assigned(alloc, naming, equals, target, value)
}

/// An assignment, or its first fault: the target's, the expression's, and then that at `=` (own). The statement begins
/// at the token `at`.
pub fn assignment(
    alloc: Global,
    naming: &Naming<'_>,
    at: u32,
    target: &Reference,
    equals: u32,
    value: &Expression,
) -> Result<Form, TypeError>
    ensures { Gives form_view result
        (spec.assignment (naming_in naming.now) at (syntax.reference_view target.now) equals
        (syntax.expression_view value.now)) }
{
    let target = referred(alloc, naming, Role::Target, target)?;
    assigned(alloc, naming, at, equals, target, value)
}
