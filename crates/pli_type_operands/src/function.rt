//! Calls of built-in functions.
ghost use Rattle.std.specs.Prelude.{◌≡◌, ◌<◌, ◌-◌, ℕ, true, map, option_map, slice_get, IfOk};
ghost use Rattle.pli_map.specs.ParameterTypes as types;
ghost use Rattle.pli_map.specs.views.DescriptionView.{description_view};
ghost use Rattle.pli_map.specs.views.ParameterView.{type_seen, type_view};
ghost use Rattle.pli_type_rules.specs.FunctionCalls as spec;
ghost use Rattle.pli_type.specs.views.ValueView.{value_view};
ghost use Rattle.pli_type_rules.specs.TypingSteps as steps;
ghost use Rattle.pli_type_operands.specs.Bounded.{bound_given, dimension_given, if_dimension, is_bound, which_bound};
ghost use Rattle.pli_type_operands.specs.Quotients.{precision_written, quotient_of};
ghost use Rattle.pli_base.specs.answers.FailureAnswers.{Gives};
ghost use Rattle.pli_type_tree.specs.TypedTree as tree;
ghost use Rattle.pli_type_tree.specs.views.TypedView.{reference_view};
ghost use Rattle.pli_type_operands.specs.views.TypingView.{argument_view, denoted_view, meant_view, role_view};

use crate::answer::TypeError;
use crate::argument::Argument;
use crate::meaning::{Denoted, ExpressionMeaning};
use crate::role::Role;
use crate::within::{LocatorFunction, located_called};
use pli_base::{Code, fault};
use pli_declare::BuiltInFunction;
use pli_map::{Bounds, Description, ParameterType, TypeRef, WhichBound};
use pli_type::{
    TypedValue, address, bound_there, call, empty_value, generations, null_value, quotient,
};
use pli_type_rules::ExpressionType;
use pli_type_tree::{TypedExpression, TypedReference};
use pli_value::Value;
use std::alloc::{AllocError, Global};

/// The precision of LBOUND and HBOUND (own).
const BOUND_PRECISION: u8 = 15;

/// For what the arguments of a built-in function stand, where it may have so many: SUBSTR has two or three, NULL and
/// EMPTY none. The array of LBOUND and HBOUND and the variable of ALLOCATION are not evaluated, and the number of a
/// dimension and the precision of DIVIDE are constants (X3.74).
pub fn roles_of(function: BuiltInFunction, given: usize) -> Option<&'static [Role]>
    ensures { option_map (λ roles. map role_view roles.now) result ≡ spec.roles_of function given }
{
    let roles: &'static [Role] = match function {
        BuiltInFunction::Abs | BuiltInFunction::Sign | BuiltInFunction::Length => &[Role::Value],
        BuiltInFunction::Substring if given == 3 => &[Role::Value, Role::Value, Role::Value],
        BuiltInFunction::Max
        | BuiltInFunction::Min
        | BuiltInFunction::Mod
        | BuiltInFunction::Index
        | BuiltInFunction::Substring
        | BuiltInFunction::Pointer
        | BuiltInFunction::Offset => &[Role::Value, Role::Value],
        BuiltInFunction::Divide => &[Role::Value, Role::Value, Role::Argument],
        BuiltInFunction::LowBound | BuiltInFunction::HighBound => &[Role::Argument, Role::Argument],
        BuiltInFunction::Allocation | BuiltInFunction::Address => &[Role::Argument],
        BuiltInFunction::Null | BuiltInFunction::Empty => &[],
    };
    if given == roles.len() {
        Some(roles)
    } else {
        None
    }
}

/// The one value that an argument is.
fn value_in(meant: ExpressionMeaning<'_>) -> Option<TypedValue>
    ensures { option_map value_view result ≡ spec.value_in (meant_view meant.entry) }
{
    match meant {
        ExpressionMeaning::Value(value) => Some(value),
        ExpressionMeaning::Aggregate(_) => None,
    }
}

/// The values that arguments are, where each is one value.
pub(crate) fn values_in(
    alloc: Global,
    arguments: Vec<Argument<'_>>,
) -> Result<Option<Vec<TypedValue>>, AllocError>
    ensures { IfOk result (λ values. option_map (λ v. map value_view v.items) values
        ≡ spec.values_in (map argument_view arguments.entry.items)) }
{
    let mut values = Vec::new(alloc);
    for argument in arguments {
        let Some(value) = value_in(argument.denoted.as_expression()) else {
            return Ok(None);
        };
        values.push(value)?;
    }
    Ok(Some(values))
}

/// What a built-in function gives of values.
fn of_values(
    alloc: Global,
    greatest: u8,
    function: BuiltInFunction,
    values: Vec<TypedValue>,
) -> Result<Option<TypedValue>, AllocError>
    ensures { IfOk result (λ given. option_map value_view given
        ≡ spec.of_values greatest function (map value_view values.items)) }
{
    let mut kinds = Vec::new(alloc);
    let mut operands = Vec::new(alloc);
    for value in values {
        operands.push(value.expression)?;
        kinds.push(value.kind)?;
    }
    Ok(call(greatest, function, kinds.as_slice(), operands))
}

/// What DIVIDE gives of two values, and of the precision that is written.
fn quotient_of(
    alloc: Global,
    greatest: u8,
    values: Vec<TypedValue>,
    written: Option<u64>,
) -> Result<Option<TypedValue>, AllocError>
    ensures { IfOk result (λ given. option_map value_view given
        ≡ quotient_of greatest (map value_view values.items) written) }
{
    let mut values = values.into_iter();
    let Some(left) = values.next() else {
        return Ok(None);
    };
    let Some(right) = values.next() else {
        drop(left);
        return Ok(None);
    };
    quotient(alloc, greatest, left, right, written)
}

/// The number that the third of three arguments is, if it is one.
fn precision_written(arguments: &[Argument<'_>]) -> Option<Option<u64>>
    ensures { result ≡ precision_written (map argument_view arguments.now) }
{
    let [_left, _right, precision] = arguments else {
        return None;
    };
    Some(precision.written)
}

/// A number that LBOUND or HBOUND gives.
fn bound_value(bound: i16) -> TypedValue
    ensures { value_view result ≡ spec.bound_value bound }
{
    TypedValue {
        expression: TypedExpression::Literal(Value::Number(i64::from(bound))),
        kind: ExpressionType::FixedBinary {
            precision: BOUND_PRECISION,
        },
    }
}

/// The dimension of this number, from 1.
fn dimension(bounds: &[Bounds], number: u64) -> Option<Bounds>
    requires { 0 < number }
    ensures { result ≡ slice_get bounds.now (number - 1) }
{
    bounds.get(number as usize - 1).copied()
}

/// A bound of the dimension of this number, from 1, of an array of these bounds.
#[tactic(auto, using(crate::proofs::CallLemmas::bound_found, crate::proofs::CallLemmas::no_dimension))]
fn bound_among(which: WhichBound, bounds: &[Bounds], number: u64) -> Option<TypedValue>
    ensures { option_map value_view result ≡ spec.bound_among which number bounds.now }
{
    if number == 0 {
        return None;
    }
    let own = dimension(bounds, number)?;
    Some(bound_value(which.of(own)))
}

/// A bound of the dimension of this number, from 1, of an array of a description.
fn bound_described(which: WhichBound, description: &Description, number: u64) -> Option<TypedValue>
    ensures { (reference : tree.TypedReference) → option_map value_view result
        ≡ spec.bound_in which number reference (types.Stated (description_view description.now)) }
{
    match description {
        Description::Array { bounds, .. } => bound_among(which, bounds, number),
        _ => None,
    }
}

/// A bound of the dimension of this number, from 1, of an array of so many dimensions that is known where it runs.
#[tactic(auto, using(crate::proofs::CallLemmas::known_there, crate::proofs::CallLemmas::known_nowhere))]
fn bound_known(
    which: WhichBound,
    dimensions: u8,
    number: u64,
    reference: TypedReference,
) -> Option<TypedValue>
    ensures { option_map value_view result ≡ if_dimension number dimensions
        (spec.bound_there which number (reference_view reference)) }
{
    if number == 0 || number > u64::from(dimensions) {
        drop(reference);
        return None;
    }
    Some(bound_there(which, number as u8, reference))
}

/// A bound of the dimension of this number, from 1, of an array of this type, to which a reference leads.
fn bound_of_type(
    which: WhichBound,
    taken: &ParameterType,
    number: u64,
    reference: TypedReference,
) -> Option<TypedValue>
    ensures { option_map value_view result ≡ spec.bound_in which number (reference_view reference)
        (type_view taken.now) }
{
    match taken {
        ParameterType::AnyArray { dimensions, .. } => {
            bound_known(which, *dimensions, number, reference)
        }
        ParameterType::ArrayOf { bounds, .. } => {
            drop(reference);
            bound_among(which, bounds, number)
        }
        ParameterType::Stated(description) => {
            drop(reference);
            bound_described(which, description, number)
        }
        _ => {
            drop(reference);
            None
        }
    }
}

/// A bound of the dimension of this number, from 1, of an array that is meant as a whole, to which a reference leads: a
/// constant where it is stated.
fn bound_in(
    which: WhichBound,
    taken: TypeRef<'_>,
    number: u64,
    reference: TypedReference,
) -> Option<TypedValue>
    ensures { option_map value_view result
        ≡ spec.bound_in which number (reference_view reference) (type_seen taken.entry) }
{
    match taken {
        TypeRef::Stated(description) => {
            drop(reference);
            bound_described(which, description, number)
        }
        TypeRef::Open(taken) => bound_of_type(which, taken, number, reference),
    }
}

/// A bound of an array that is denoted, in the dimension whose number is written.
#[tactic(auto, using(crate::proofs::CallLemmas::bound_unwritten))]
fn bound_of(which: WhichBound, denoted: Denoted<'_>, written: Option<u64>) -> Option<TypedValue>
    ensures { option_map value_view result
        ≡ spec.the_bound which (spec.meant_as (denoted_view denoted.entry)) written }
{
    let Some(number) = written else {
        drop(denoted);
        return None;
    };
    match denoted.as_expression() {
        ExpressionMeaning::Aggregate(referent) => {
            bound_in(which, referent.description, number, referent.reference)
        }
        ExpressionMeaning::Value(value) => {
            drop(value);
            None
        }
    }
}

/// The number of a dimension that the second of two arguments is, if it is one.
fn dimension_given(arguments: &[Argument<'_>]) -> Option<Option<u64>>
    ensures { result ≡ dimension_given (map argument_view arguments.now) }
{
    let [_array, number] = arguments else {
        return None;
    };
    Some(number.written)
}

/// A bound of the first of these arguments.
fn bound_given(
    which: WhichBound,
    arguments: Vec<Argument<'_>>,
    written: Option<u64>,
) -> Option<TypedValue>
    ensures { option_map value_view result ≡ bound_given which (map argument_view arguments.entry.items) written }
{
    let mut arguments = arguments.into_iter();
    let Some(array) = arguments.next() else {
        return None;
    };
    bound_of(which, array.denoted, written)
}

/// Which bound a function gives.
fn which_bound(function: BuiltInFunction) -> WhichBound
    ensures { result ≡ which_bound function }
{
    match function {
        BuiltInFunction::HighBound => WhichBound::High,
        _ => WhichBound::Low,
    }
}

/// What LBOUND or HBOUND gives of an array and the number of a dimension.
fn bound_called(function: BuiltInFunction, arguments: Vec<Argument<'_>>) -> Option<TypedValue>
    requires { is_bound function ≡ true }
    ensures { (greatest : ℕ) → option_map value_view result
        ≡ spec.of_arguments greatest function (map argument_view arguments.entry.items) }
{
    let Some(written) = dimension_given(arguments.as_slice()) else {
        return None;
    };
    bound_given(which_bound(function), arguments, written)
}

/// How many generations a whole CONTROLLED variable has that is denoted; none of anything else.
fn generations_of(denoted: &Denoted<'_>) -> Option<TypedValue>
    ensures { option_map value_view result ≡ spec.generations_of (denoted_view denoted.now) }
{
    match denoted {
        Denoted::Variable(referent) => generations(&referent.reference),
        Denoted::Result(_) | Denoted::Empty => None,
    }
}

/// What ALLOCATION gives of its argument.
fn allocation_called(arguments: &[Argument<'_>]) -> Option<TypedValue>
    ensures { (greatest : ℕ) → option_map value_view result
        ≡ spec.of_arguments greatest BuiltInFunction.Allocation (map argument_view arguments.now) }
{
    let [variable] = arguments else {
        return None;
    };
    generations_of(&variable.denoted)
}

/// A pointer to a whole variable that is denoted, and is no parameter; none of anything else.
fn address_of(denoted: Denoted<'_>) -> Option<TypedValue>
    ensures { option_map value_view result ≡ spec.address_of (denoted_view denoted.entry) }
{
    match denoted {
        Denoted::Variable(referent) => address(referent.reference, referent.is_parameter),
        Denoted::Result(value) => {
            drop(value);
            None
        }
        Denoted::Empty => None,
    }
}

/// What ADDR gives of its argument.
fn address_called(arguments: Vec<Argument<'_>>) -> Option<TypedValue>
    ensures { (greatest : ℕ) → option_map value_view result
        ≡ spec.of_arguments greatest BuiltInFunction.Address (map argument_view arguments.entry.items) }
{
    let mut arguments = arguments;
    let Some(variable) = arguments.pop() else {
        return None;
    };
    if arguments.is_empty() {
        address_of(variable.denoted)
    } else {
        drop(variable);
        None
    }
}

/// What NULL gives of no arguments.
#[tactic(auto, using(crate::proofs::CallLemmas::no_null))]
fn null_called(arguments: &[Argument<'_>]) -> Option<TypedValue>
    ensures { (greatest : ℕ) → option_map value_view result
        ≡ spec.of_arguments greatest BuiltInFunction.Null (map argument_view arguments.now) }
{
    match arguments {
        [] => Some(null_value()),
        _ => None,
    }
}

/// What EMPTY gives of no arguments.
#[tactic(auto, using(crate::proofs::CallLemmas::no_empty))]
fn empty_called(arguments: &[Argument<'_>]) -> Option<TypedValue>
    ensures { (greatest : ℕ) → option_map value_view result
        ≡ spec.of_arguments greatest BuiltInFunction.Empty (map argument_view arguments.now) }
{
    match arguments {
        [] => Some(empty_value()),
        _ => None,
    }
}

/// What DIVIDE gives of its arguments.
fn divide_called(
    alloc: Global,
    greatest: u8,
    arguments: Vec<Argument<'_>>,
) -> Result<Option<TypedValue>, AllocError>
    ensures { IfOk result (λ given. option_map value_view given
        ≡ spec.of_arguments greatest BuiltInFunction.Divide (map argument_view arguments.entry.items)) }
{
    let Some(written) = precision_written(arguments.as_slice()) else {
        return Ok(None);
    };
    let mut arguments = arguments;
    arguments.truncate(2);
    match values_in(alloc, arguments)? {
        Some(values) => quotient_of(alloc, greatest, values, written),
        None => Ok(None),
    }
}

/// What a built-in function gives of arguments, or none where it does not take them (X3.74).
fn of_arguments(
    alloc: Global,
    greatest: u8,
    function: BuiltInFunction,
    arguments: Vec<Argument<'_>>,
) -> Result<Option<TypedValue>, AllocError>
    ensures { IfOk result (λ given. option_map value_view given
        ≡ spec.of_arguments greatest function (map argument_view arguments.entry.items)) }
{
    match function {
        BuiltInFunction::Divide => divide_called(alloc, greatest, arguments),
        BuiltInFunction::LowBound | BuiltInFunction::HighBound => {
            Ok(bound_called(function, arguments))
        }
        BuiltInFunction::Allocation => Ok(allocation_called(arguments.as_slice())),
        BuiltInFunction::Address => Ok(address_called(arguments)),
        BuiltInFunction::Null => Ok(null_called(arguments.as_slice())),
        BuiltInFunction::Empty => Ok(empty_called(arguments.as_slice())),
        BuiltInFunction::Pointer => {
            let given = located_called(alloc, LocatorFunction::Pointer, arguments)?;
            Ok(given)
        }
        BuiltInFunction::Offset => {
            let given = located_called(alloc, LocatorFunction::Offset, arguments)?;
            Ok(given)
        }
        _ => match values_in(alloc, arguments)? {
            Some(values) => of_values(alloc, greatest, function, values),
            None => Ok(None),
        },
    }
}

/// What a built-in function gives of as many arguments as it may have: T13 at its name where it does not take them.
pub fn function_called(
    alloc: Global,
    greatest: u8,
    function: BuiltInFunction,
    at: u32,
    arguments: Vec<Argument<'_>>,
) -> Result<TypedValue, TypeError>
    ensures { Gives value_view result (steps.or_bad_argument at
        (spec.of_arguments greatest function (map argument_view arguments.entry.items))) }
{
    match of_arguments(alloc, greatest, function, arguments)? {
        Some(value) => Ok(value),
        None => Err(fault(Code::WrongBuiltInArgument, at)),
    }
}
