//! Arguments as procedures and functions of the program take them, and what these give.
ghost use Rattle.std.specs.Prelude.{◌≡◌, ℕ, length, map, option_map, None, IfOk};
ghost use Rattle.pli_map.specs.ParameterTypes as types;
ghost use Rattle.pli_map.specs.views.DescriptionView.{description_view};
ghost use Rattle.pli_map.specs.views.ParameterView.{type_seen, type_view};
ghost use Rattle.pli_type_rules.specs.FunctionCalls.{meant_as, meant_by};
ghost use Rattle.pli_type_rules.specs.ProcedureCalls as spec;
ghost use Rattle.pli_type.specs.views.ValueView.{value_view};
ghost use Rattle.pli_type_rules.specs.TypingSteps as steps;
ghost use Rattle.pli_base.specs.answers.FailureAnswers.{Gives};
ghost use Rattle.pli_type_operands.specs.views.TypingView.{argument_view, denoted_view, meant_view, referent_view};
ghost use Rattle.pli_type_tree.specs.TypedTree as tree;
ghost use Rattle.pli_type_tree.specs.views.TypedView.{argument_before, arguments_view, callee_view, reference_view};

use crate::answer::TypeError;
use crate::argument::Argument;
use crate::meaning::{Denoted, ExpressionMeaning, Referent};
use pli_base::{Code, fault};
use pli_map::{Description, ParameterType, StringForm, TypeRef, agrees};
use pli_type::{TypedValue, converted, empty_value, suited_to_form};
use pli_type_rules::{Beginning, ExpressionType, area_meant, is_area_type};
use pli_type_tree::{Callee, TypedArgument, TypedExpression};
use std::alloc::{AllocError, Global};

/// A value as a dummy argument of the parameter's description, to which it is converted; none where it does not suit.
fn dummy(
    alloc: Global,
    greatest: u8,
    description: &Description,
    meant: ExpressionMeaning<'_>,
) -> Result<Option<TypedArgument>, AllocError>
    ensures { IfOk result (λ passed. (more : tree.TypedArguments) → option_map (λ a. argument_before a more) passed
        ≡ spec.passed (types.Stated (description_view description.now)) None
        (spec.passed_value greatest (types.Stated (description_view description.now)) (meant_view meant.entry)) more) }
{
    let ExpressionMeaning::Value(value) = meant else {
        return Ok(None);
    };
    match converted(alloc, greatest, None, description, value)? {
        Some(value) => {
            let description = match description.copy(alloc) {
                Ok(description) => description,
                Err(error) => {
                    drop(value);
                    return Err(error);
                }
            };
            Ok(Some(TypedArgument::ByDummy { description, value }))
        }
        None => Ok(None),
    }
}

/// A value as a dummy argument of its own length, for a parameter that is a string of any length; none where it does
/// not suit.
fn string_dummy(
    alloc: Global,
    form: StringForm,
    meant: ExpressionMeaning<'_>,
) -> Result<Option<TypedArgument>, AllocError>
    ensures { IfOk result (λ passed. (greatest : ℕ) (more : tree.TypedArguments) →
        option_map (λ a. argument_before a more) passed
        ≡ spec.passed (types.AnyString form) None
        (spec.passed_value greatest (types.AnyString form) (meant_view meant.entry)) more) }
{
    let ExpressionMeaning::Value(value) = meant else {
        return Ok(None);
    };
    match suited_to_form(alloc, form, value)? {
        Some(value) => Ok(Some(TypedArgument::ByString { form, value })),
        None => Ok(None),
    }
}

/// A value as a dummy argument for a parameter of this type; an array takes none.
fn dummy_of_type(
    alloc: Global,
    greatest: u8,
    taken: &ParameterType,
    meant: ExpressionMeaning<'_>,
) -> Result<Option<TypedArgument>, AllocError>
    ensures { IfOk result (λ passed. (more : tree.TypedArguments) → option_map (λ a. argument_before a more) passed
        ≡ spec.passed (type_view taken.now) None
        (spec.passed_value greatest (type_view taken.now) (meant_view meant.entry)) more) }
{
    match taken {
        ParameterType::Stated(description) => dummy(alloc, greatest, description, meant),
        ParameterType::AnyString(form) => string_dummy(alloc, *form, meant),
        _ => {
            drop(meant);
            Ok(None)
        }
    }
}

/// A value as a dummy argument for a parameter, to whose type it is converted; none where it does not suit.
fn dummy_for(
    alloc: Global,
    greatest: u8,
    taken: TypeRef<'_>,
    meant: ExpressionMeaning<'_>,
) -> Result<Option<TypedArgument>, AllocError>
    ensures { IfOk result (λ passed. (more : tree.TypedArguments) → option_map (λ a. argument_before a more) passed
        ≡ spec.passed (type_seen taken.entry) None
        (spec.passed_value greatest (type_seen taken.entry) (meant_view meant.entry)) more) }
{
    match taken {
        TypeRef::Stated(description) => dummy(alloc, greatest, description, meant),
        TypeRef::Open(taken) => dummy_of_type(alloc, greatest, taken, meant),
    }
}

/// What denotes a variable that agrees with the parameter is handed over as its place, an area where it is a whole one;
/// anything else is none that suits, or a dummy argument.
fn handed(
    alloc: Global,
    greatest: u8,
    taken: TypeRef<'_>,
    referent: Referent<'_>,
) -> Result<Option<TypedArgument>, AllocError>
    ensures { IfOk result (λ passed. (more : tree.TypedArguments) → option_map (λ a. argument_before a more) passed
        ≡ spec.passed (type_seen taken.entry)
        (spec.place_of (reference_view referent.entry.reference) (type_seen referent.entry.description))
        (spec.passed_value greatest (type_seen taken.entry) (meant_by (referent_view referent.entry))) more) }
{
    if !is_area_type(referent.description) {
        return Ok(Some(TypedArgument::ByPlace(referent.reference)));
    }
    match area_meant(&referent.reference, referent.description) {
        Some(area) => {
            drop(referent);
            Ok(Some(TypedArgument::ByPlace(area.whole())))
        }
        None => dummy_for(alloc, greatest, taken, referent.as_expression()),
    }
}

/// What denotes a variable that agrees with the parameter is handed over as its place, anything else as a dummy
/// argument; none where it does not suit (X3.74).
fn passed(
    alloc: Global,
    greatest: u8,
    taken: TypeRef<'_>,
    denoted: Denoted<'_>,
) -> Result<Option<TypedArgument>, AllocError>
    ensures { IfOk result (λ passed. (more : tree.TypedArguments) → option_map (λ a. argument_before a more) passed
        ≡ spec.passed (type_seen taken.entry)
        (spec.passed_place (type_seen taken.entry) (denoted_view denoted.entry))
        (spec.passed_value greatest (type_seen taken.entry) (meant_as (denoted_view denoted.entry))) more) }
{
    match denoted {
        Denoted::Variable(referent) => {
            if agrees(taken, referent.description) {
                return handed(alloc, greatest, taken, referent);
            }
            dummy_for(alloc, greatest, taken, referent.as_expression())
        }
        Denoted::Result(value) => {
            dummy_for(alloc, greatest, taken, ExpressionMeaning::Value(value))
        }
        Denoted::Empty => dummy_for(
            alloc,
            greatest,
            taken,
            ExpressionMeaning::Value(empty_value()),
        ),
    }
}

/// As many arguments as parameters; none where one does not suit its parameter.
pub fn all_passed(
    alloc: Global,
    greatest: u8,
    parameters: &[TypeRef<'_>],
    arguments: Vec<Argument<'_>>,
) -> Result<Option<Vec<TypedArgument>>, AllocError>
    requires { length arguments.items ≡ length parameters.now }
    ensures { IfOk result (λ all. option_map (λ v. arguments_view v.items) all
        ≡ spec.all_passed greatest (map type_seen parameters.now) (map argument_view arguments.entry.items)) }
{
    let mut made = Vec::new(alloc);
    for (taken, argument) in parameters.iter().zip(arguments) {
        let Some(one) = passed(alloc, greatest, *taken, argument.denoted)? else {
            return Ok(None);
        };
        made.push(one)?;
    }
    Ok(Some(made))
}

/// What a function gives, in whose RETURNS OFFSET names this area: T8 at the called name of what is none.
#[tactic(auto, using(pli_type_tree::specs::laws::TypedTreeLaws::called_made))]
pub fn result_of(
    at: u32,
    callee: Callee,
    arguments: Vec<TypedArgument>,
    returned: Option<&Description>,
    area: Option<Beginning>,
) -> Result<TypedValue, TypeError>
    ensures { Gives value_view result (spec.result_of at (callee_view callee) (arguments_view arguments.items)
        (steps.type_returned area (option_map (λ d. description_view d.now) returned.entry))) }
{
    let Some(description) = returned else {
        return Err(fault(Code::NotCallableHere, at));
    };
    match ExpressionType::of(description, area) {
        Some(kind) => Ok(TypedValue {
            expression: TypedExpression::Called { callee, arguments },
            kind,
        }),
        None => Err(fault(Code::NotCallableHere, at)),
    }
}
