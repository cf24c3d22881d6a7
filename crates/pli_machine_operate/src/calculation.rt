//! Operations on values: operators, built-in functions and conversions.
ghost use Rattle.std.specs.Prelude.{◌≡◌, ◌≤◌, ◌∷◌, [], ℕ, min, pos, Result, IfOk, None, Some};
ghost use Rattle.pli_map.specs.views.DescriptionView.{description_view};
ghost use Rattle.pli_operation.specs.Operations as calculate;
ghost use Rattle.pli_operation.specs.Operations.{calculated_from, calculated_with, calculated_by, are_comparable};
ghost use Rattle.pli_operation.specs.Operations.{as_number, compared, stands, fitted_to, string_fitted_to, widest};
ghost use Rattle.std.specs.Option.{option_copied};
ghost use Rattle.pli_value.specs.Numbers.{within, quotient};
ghost use Rattle.pli_value.specs.Strings.{concatenation};
ghost use Rattle.pli_value.specs.Value as plain;
ghost use Rattle.pli_value.specs.Value.{value_view};
ghost use Rattle.pli_machine_operate.specs.views.CalculationView.{calculation_view, immediate_view};

use crate::texts::place_number;
use pli_map::Description;
use pli_operation::{Operation, Relation};
use pli_value::bit::{self, Bits};
use pli_value::character::{self, STRING_LIMIT};
use pli_value::number::{self, Raised};
use pli_value::{Locator, Value};
use std::alloc::{AllocError, Global};
use std::cmp::Ordering;

/// The greatest precision of sums, differences and products that are found before their instruction is performed (own).
/// No module has a lesser one, so they are the same in each; those of more binary digits are left to the instruction.
pub const FAST_PRECISION: u8 = 31;

/// How many binary digits each number of 64 bits has at most, but for the least one, which has one more.
const WIDEST_PRECISION: u8 = 63;

/// The most bits of a string (own).
const BIT_LIMIT: u16 = 32_767;

/// What an operation comes to: a value, or a bit; a condition; a string over the limit, or a part that a string has
/// not; or nothing, where operands are not of its kinds.
#[derive(Drop)]
pub enum Calculation {
    Gives(Value),
    GivesBit(bool),
    RaisesCondition(Raised),
    OutOfString,
    Misfits,
}

/// What an operation comes to that takes no memory and holds none: a number, or a bit; a condition; or nothing, where
/// operands are not of its kinds.
#[derive(Clone, Copy)]
pub enum Immediate {
    Number(i64),
    Bit(bool),
    Raises(Raised),
    Misfits,
}

/// A number, or the condition that is raised.
#[inline]
fn as_number(number: Result<i64, Raised>) -> Immediate
    ensures { immediate_view result ≡ as_number number }
{
    match number {
        Ok(number) => Immediate::Number(number),
        Err(raised) => Immediate::Raises(raised),
    }
}

/// The same as any operation comes to it.
#[inline]
fn as_calculation(immediate: Immediate) -> Calculation
    ensures { calculation_view result ≡ immediate_view immediate }
{
    match immediate {
        Immediate::Number(number) => Calculation::Gives(Value::Number(number)),
        Immediate::Bit(bit) => Calculation::GivesBit(bit),
        Immediate::Raises(raised) => Calculation::RaisesCondition(raised),
        Immediate::Misfits => Calculation::Misfits,
    }
}

/// Characters, where there are any.
fn as_characters(alloc: Global, text: Option<&[u8]>) -> Result<Calculation, AllocError>
    ensures { IfOk result (λ c. calculation_view c ≡ calculate.as_characters (option_copied text.entry)) }
{
    match text {
        Some(text) => Ok(Calculation::Gives(Value::Characters(Vec::from_slice(alloc, text)?))),
        None => Ok(Calculation::OutOfString),
    }
}

/// Whether an order is the one that is asked for.
#[inline]
pub fn stands(relation: Relation, order: Ordering) -> bool
    ensures { result ≡ stands relation order }
{
    match (relation, order) {
        (Relation::Equal, Ordering::Less) => false,
        (Relation::Equal, Ordering::Equal) => true,
        (Relation::Equal, Ordering::Greater) => false,
        (Relation::Unequal, Ordering::Less) => true,
        (Relation::Unequal, Ordering::Equal) => false,
        (Relation::Unequal, Ordering::Greater) => true,
        (Relation::Less, Ordering::Less) => true,
        (Relation::Less, Ordering::Equal) => false,
        (Relation::Less, Ordering::Greater) => false,
        (Relation::AtMost, Ordering::Less) => true,
        (Relation::AtMost, Ordering::Equal) => true,
        (Relation::AtMost, Ordering::Greater) => false,
        (Relation::Greater, Ordering::Less) => false,
        (Relation::Greater, Ordering::Equal) => false,
        (Relation::Greater, Ordering::Greater) => true,
        (Relation::AtLeast, Ordering::Less) => false,
        (Relation::AtLeast, Ordering::Equal) => true,
        (Relation::AtLeast, Ordering::Greater) => true,
    }
}

/// A number held against a precision, also against one that no number passes.
#[inline]
fn fitted(precision: u8, number: i64) -> Result<i64, Raised>
    ensures { result ≡ within precision number }
{
    if precision > WIDEST_PRECISION {
        Ok(number)
    } else {
        number::fit(number, precision)
    }
}

/// A place in a string of so many elements, which is 0 or one of them.
#[inline]
fn as_place(place: usize, elements: usize) -> Calculation
    requires place { place ≤ elements }
    requires elements { elements ≤ 9223372036854775807 }
    ensures { calculation_view result ≡ calculate.Calculates (plain.Number (pos place)) }
{
    Calculation::Gives(Value::Number(place_number(place, elements)))
}

/// A quotient of at most so many binary digits, and at most 63.
#[inline]
fn divide(left: i64, right: i64, precision: u8) -> Immediate
    ensures { immediate_view result ≡ as_number (quotient (min precision widest) left right) }
{
    let precision = if precision > WIDEST_PRECISION {
        WIDEST_PRECISION
    } else {
        precision
    };
    as_number(number::divide(left, right, precision))
}

/// A number at the right of so many columns, where they hold it.
fn in_columns(alloc: Global, width: u8, number: i64) -> Result<Calculation, AllocError>
    ensures { IfOk result (λ c. calculation_view c ≡ calculate.in_columns width number) }
{
    let width = width as usize;
    if character::is_held(number, width) {
        Ok(Calculation::Gives(Value::Characters(character::to_char(alloc, number, width)?)))
    } else {
        Ok(Calculation::Misfits)
    }
}

/// An operation on a number.
fn of_number(alloc: Global, operation: Operation, number: i64) -> Result<Calculation, AllocError>
    ensures { IfOk result (λ c. calculation_view c ≡ calculated_from operation (plain.Number number)) }
{
    match operation {
        Operation::Negate if number == i64::MIN => {
            Ok(Calculation::RaisesCondition(Raised::Overflow))
        }
        Operation::Negate => Ok(Calculation::Gives(Value::Number(number::negate(number)))),
        Operation::Absolute if number == i64::MIN => {
            Ok(Calculation::RaisesCondition(Raised::Overflow))
        }
        Operation::Absolute => Ok(Calculation::Gives(Value::Number(number::absolute(number)))),
        Operation::Sign => Ok(Calculation::Gives(Value::Number(number::sign(number)))),
        Operation::ToCharacters { width } => in_columns(alloc, width, number),
        _ => Ok(Calculation::Misfits),
    }
}

/// An operation on bits.
fn of_bits(alloc: Global, operation: Operation, bits: &Bits) -> Result<Calculation, AllocError>
    ensures { IfOk result (λ c. calculation_view c ≡ calculated_from operation (plain.Bits bits.now)) }
{
    match operation {
        Operation::Not => Ok(Calculation::Gives(Value::Bits(bit::not(alloc, bits)?))),
        Operation::LengthOf => Ok(Calculation::Gives(Value::Number(bits.length() as i64))),
        Operation::FromBits => Ok(Calculation::Gives(Value::Characters(bit::bits_to_char(
            alloc, bits,
        )?))),
        _ => Ok(Calculation::Misfits),
    }
}

/// An operation on characters.
fn of_characters(operation: Operation, text: &Vec<u8>) -> Calculation
    ensures { calculation_view result ≡ calculated_from operation (plain.Characters text.now.items) }
{
    match operation {
        Operation::LengthOf => Calculation::Gives(Value::Number(text.len() as i64)),
        _ => Calculation::Misfits,
    }
}

/// An operation on one value.
#[tactic(auto, using(crate::proofs::LocatorLemmas::none_of_one))]
pub fn calculate_from(
    alloc: Global,
    operation: Operation,
    value: &Value,
) -> Result<Calculation, AllocError>
    ensures { IfOk result (λ c. calculation_view c ≡ calculated_from operation (value_view value.now)) }
{
    match value {
        Value::Number(number) => of_number(alloc, operation, *number),
        Value::Characters(text) => Ok(of_characters(operation, text)),
        Value::Bits(bits) => of_bits(alloc, operation, bits),
        Value::Locator(_) => Ok(Calculation::Misfits),
    }
}

/// A number fitted to a description.
#[inline]
pub fn fit_number(description: &Description, number: i64) -> Immediate
    ensures { immediate_view result ≡ fitted_to (description_view description.now) (plain.Number number) }
{
    match description {
        Description::FixedBinary(precision) => as_number(fitted(*precision, number)),
        _ => Immediate::Misfits,
    }
}

/// Characters fitted to a description. Takes memory only where they are extended.
fn fit_text(description: &Description, mut text: Vec<u8>) -> Result<Calculation, AllocError>
    ensures { IfOk result (λ c. calculation_view c ≡ fitted_to (description_view description.now)
        (plain.Characters text.items)) }
{
    match description {
        Description::Character(size) => {
            let size = *size as usize;
            text.truncate(size);
            text.resize(size, b' ')?;
            Ok(Calculation::Gives(Value::Characters(text)))
        }
        Description::Varying(size) => {
            text.truncate(*size as usize);
            Ok(Calculation::Gives(Value::Characters(text)))
        }
        _ => Ok(Calculation::Misfits),
    }
}

/// Bits fitted to a description, of at most 32,767 bits. Takes no memory where there are so many.
fn fit_bits(alloc: Global, description: &Description, bits: Bits) -> Result<Calculation, AllocError>
    ensures { IfOk result (λ c. calculation_view c ≡ fitted_to (description_view description.now) (plain.Bits bits)) }
{
    match description {
        Description::Bit(size) if *size > BIT_LIMIT => Ok(Calculation::OutOfString),
        Description::Bit(size) => {
            Ok(Calculation::Gives(Value::Bits(bit::fit_whole(alloc, bits, *size as usize)?)))
        }
        _ => Ok(Calculation::Misfits),
    }
}

/// A value fitted to a description.
#[tactic(auto, using(crate::proofs::LocatorLemmas::none_fitted))]
pub fn fit(
    alloc: Global,
    description: &Description,
    value: Value,
) -> Result<Calculation, AllocError>
    ensures { IfOk result (λ c. calculation_view c ≡ fitted_to (description_view description.now) (value_view value)) }
{
    match value {
        Value::Number(number) => Ok(as_calculation(fit_number(description, number))),
        Value::Characters(text) => fit_text(description, text),
        Value::Bits(bits) => fit_bits(alloc, description, bits),
        Value::Locator(_) => Ok(Calculation::Misfits),
    }
}

/// A string fitted to the description of a string; a description of anything else takes none.
pub fn fit_string(
    alloc: Global,
    description: &Description,
    value: Value,
) -> Result<Calculation, AllocError>
    ensures { IfOk result (λ c. calculation_view c ≡ string_fitted_to (description_view description.now)
        (value_view value)) }
{
    match description {
        Description::Character(_) => fit(alloc, description, value),
        Description::Varying(_) => fit(alloc, description, value),
        Description::Bit(_) => fit(alloc, description, value),
        _ => Ok(Calculation::Misfits),
    }
}

/// An operation on two numbers. A sum, a difference or a product has at most as many binary digits as the greatest
/// precision says, from 0 to 63. It takes no memory.
#[inline]
pub fn calculate_numbers(
    operation: Operation,
    left: i64,
    right: i64,
    greatest: u8,
) -> Result<Immediate, AllocError>
    requires { greatest ≤ 63 }
    ensures { IfOk result (λ i. immediate_view i
        ≡ calculated_with greatest operation (plain.Number left) (plain.Number right)) }
{
    match operation {
        Operation::Add => Ok(as_number(number::add(left, right, greatest))),
        Operation::Subtract => Ok(as_number(number::subtract(left, right, greatest))),
        Operation::Multiply => Ok(as_number(number::multiply(left, right, greatest))),
        Operation::Modulo => Ok(as_number(number::modulo(left, right))),
        Operation::Greatest => Ok(Immediate::Number(number::greatest(left, right))),
        Operation::Least => Ok(Immediate::Number(number::least(left, right))),
        Operation::Divide { precision } => Ok(divide(left, right, precision)),
        Operation::Compare(relation) => Ok(Immediate::Bit(stands(
            relation,
            number::compare(left, right),
        ))),
        _ => Ok(Immediate::Misfits),
    }
}

/// An operation on two strings of characters, whatever the greatest precision is.
fn of_texts(
    alloc: Global,
    operation: Operation,
    left: &Vec<u8>,
    right: &Vec<u8>,
) -> Result<Calculation, AllocError>
    ensures { (greatest : ℕ) → IfOk result (λ c. calculation_view c
        ≡ calculated_with greatest operation (plain.Characters left.now.items) (plain.Characters right.now.items)) }
{
    match operation {
        Operation::Compare(relation) => {
            Ok(Calculation::GivesBit(stands(relation, character::compare(left, right))))
        }
        Operation::Concatenate => match character::concat(alloc, left, right)? {
            Some(both) => Ok(Calculation::Gives(Value::Characters(both))),
            None => Ok(Calculation::OutOfString),
        },
        Operation::Index => Ok(as_place(character::index(left, right), left.len())),
        _ => Ok(Calculation::Misfits),
    }
}

/// An operation on two strings of bits, whatever the greatest precision is.
fn of_bit_strings(
    alloc: Global,
    operation: Operation,
    left: &Bits,
    right: &Bits,
) -> Result<Calculation, AllocError>
    ensures { (greatest : ℕ) → IfOk result (λ c. calculation_view c
        ≡ calculated_with greatest operation (plain.Bits left.now) (plain.Bits right.now)) }
{
    match operation {
        Operation::Compare(relation) => Ok(Calculation::GivesBit(stands(
            relation,
            bit::compare(left, right),
        ))),
        Operation::Concatenate => match bit::concat(alloc, left, right)? {
            Some(both) => Ok(Calculation::Gives(Value::Bits(both))),
            None => Ok(Calculation::OutOfString),
        },
        Operation::And => Ok(Calculation::Gives(Value::Bits(bit::and(alloc, left, right)?))),
        Operation::Or => Ok(Calculation::Gives(Value::Bits(bit::or(alloc, left, right)?))),
        Operation::Index => Ok(as_place(bit::index(left, right), left.length())),
        _ => Ok(Calculation::Misfits),
    }
}

/// One string of characters after another, where they are short enough together. The first is extended.
fn join(mut left: Vec<u8>, right: &Vec<u8>) -> Result<Calculation, AllocError>
    ensures { IfOk result (λ c. calculation_view c
        ≡ calculate.as_characters (concatenation left.items right.now.items)) }
{
    if left.len() + right.len() > STRING_LIMIT {
        return Ok(Calculation::OutOfString);
    }
    left.extend_from_slice(right)?;
    Ok(Calculation::Gives(Value::Characters(left)))
}

/// An operation on characters and another value, whatever the greatest precision is.
fn with_text(
    alloc: Global,
    operation: Operation,
    left: Vec<u8>,
    right: &Value,
) -> Result<Calculation, AllocError>
    ensures { (greatest : ℕ) → IfOk result (λ c. calculation_view c
        ≡ calculated_with greatest operation (plain.Characters left.items) (value_view right.now)) }
{
    match (operation, right) {
        (Operation::Concatenate, Value::Characters(right)) => join(left, right),
        (_, Value::Characters(right)) => of_texts(alloc, operation, &left, right),
        (Operation::Rest, Value::Number(first)) => {
            as_characters(alloc, character::rest(&left, *first))
        }
        _ => Ok(Calculation::Misfits),
    }
}

/// An operation on bits and another value, whatever the greatest precision is.
fn with_bits(
    alloc: Global,
    operation: Operation,
    left: &Bits,
    right: &Value,
) -> Result<Calculation, AllocError>
    ensures { (greatest : ℕ) → IfOk result (λ c. calculation_view c
        ≡ calculated_with greatest operation (plain.Bits left.now) (value_view right.now)) }
{
    match (operation, right) {
        (_, Value::Bits(right)) => of_bit_strings(alloc, operation, left, right),
        (Operation::Rest, Value::Number(first)) => match bit::rest(alloc, left, *first)? {
            Some(part) => Ok(Calculation::Gives(Value::Bits(part))),
            None => Ok(Calculation::OutOfString),
        },
        _ => Ok(Calculation::Misfits),
    }
}

/// Whether both are pointers, or both are offsets.
fn are_comparable(left: Locator, right: Locator) -> bool
    ensures { result ≡ are_comparable left right }
{
    match (left, right) {
        (Locator::Offset(_), Locator::Offset(_)) => true,
        (Locator::Offset(_), Locator::Null) => false,
        (Locator::Offset(_), Locator::Pointer { .. }) => false,
        (Locator::Null, Locator::Offset(_)) => false,
        (Locator::Null, Locator::Null) => true,
        (Locator::Null, Locator::Pointer { .. }) => true,
        (Locator::Pointer { .. }, Locator::Offset(_)) => false,
        (Locator::Pointer { .. }, Locator::Null) => true,
        (Locator::Pointer { .. }, Locator::Pointer { .. }) => true,
    }
}

/// A comparison of two locators.
#[tactic(auto, using(crate::proofs::LocatorLemmas::none_compared))]
pub fn compare_locators(relation: Relation, left: Locator, right: Locator) -> Calculation
    ensures { calculation_view result ≡ compared relation left right }
{
    if !are_comparable(left, right) {
        return Calculation::Misfits;
    }
    match relation {
        Relation::Equal => Calculation::GivesBit(left.equals(right)),
        Relation::Unequal => Calculation::GivesBit(!left.equals(right)),
        Relation::Less => Calculation::Misfits,
        Relation::AtMost => Calculation::Misfits,
        Relation::Greater => Calculation::Misfits,
        Relation::AtLeast => Calculation::Misfits,
    }
}

/// An operation on a locator and another value, whatever the greatest precision is.
fn with_locator(operation: Operation, left: Locator, right: &Value) -> Calculation
    ensures { (greatest : ℕ) → calculation_view result
        ≡ calculated_with greatest operation (plain.Located left) (value_view right.now) }
{
    match (operation, right) {
        (Operation::Compare(relation), Value::Locator(right)) => {
            compare_locators(relation, left, *right)
        }
        _ => Calculation::Misfits,
    }
}

/// An operation on two values, on numbers with a greatest precision from 0 to 63. The left value is extended where it
/// may be.
pub fn calculate_with(
    alloc: Global,
    operation: Operation,
    left: Value,
    right: &Value,
    greatest: u8,
) -> Result<Calculation, AllocError>
    requires { greatest ≤ 63 }
    ensures { IfOk result (λ c. calculation_view c
        ≡ calculated_with greatest operation (value_view left) (value_view right.now)) }
{
    match left {
        Value::Number(left) => match right {
            Value::Number(right) => Ok(as_calculation(calculate_numbers(
                operation, left, *right, greatest,
            )?)),
            _ => Ok(Calculation::Misfits),
        },
        Value::Characters(left) => with_text(alloc, operation, left, right),
        Value::Bits(left) => with_bits(alloc, operation, &left, right),
        Value::Locator(left) => Ok(with_locator(operation, left, right)),
    }
}

/// SUBSTR with a length.
fn substring(
    alloc: Global,
    string: &Value,
    first: &Value,
    count: &Value,
) -> Result<Calculation, AllocError>
    ensures { IfOk result (λ c. calculation_view c
        ≡ calculated_by Operation.Substring (value_view string.now) (value_view first.now) (value_view count.now)) }
{
    let (Value::Number(first), Value::Number(count)) = (first, count) else {
        return Ok(Calculation::Misfits);
    };
    match string {
        Value::Number(_) => Ok(Calculation::Misfits),
        Value::Locator(_) => Ok(Calculation::Misfits),
        Value::Characters(text) => as_characters(alloc, character::substr(text, *first, *count)),
        Value::Bits(bits) => match bit::substr(alloc, bits, *first, *count)? {
            Some(part) => Ok(Calculation::Gives(Value::Bits(part))),
            None => Ok(Calculation::OutOfString),
        },
    }
}

/// Whether a number has not passed a limit: it is at most the limit where the step is not negative, else at least.
#[inline]
pub fn is_within(number: i64, limit: i64, step: i64) -> bool
    ensures { calculate.Calculates (plain.Bits (result ∷ []))
        ≡ calculated_by Operation.Within (plain.Number number) (plain.Number limit) (plain.Number step) }
{
    if step >= 0 {
        number <= limit
    } else {
        limit <= number
    }
}

/// The same of values.
fn within_limit(number: &Value, limit: &Value, step: &Value) -> Calculation
    ensures { calculation_view result
        ≡ calculated_by Operation.Within (value_view number.now) (value_view limit.now) (value_view step.now) }
{
    match (number, limit, step) {
        (Value::Number(number), Value::Number(limit), Value::Number(step)) => {
            Calculation::GivesBit(is_within(*number, *limit, *step))
        }
        _ => Calculation::Misfits,
    }
}

/// An operation on three values.
pub fn calculate_by(
    alloc: Global,
    operation: Operation,
    first: &Value,
    second: &Value,
    third: &Value,
) -> Result<Calculation, AllocError>
    ensures { IfOk result (λ c. calculation_view c
        ≡ calculated_by operation (value_view first.now) (value_view second.now) (value_view third.now)) }
{
    match operation {
        Operation::Substring => substring(alloc, first, second, third),
        Operation::Within => Ok(within_limit(first, second, third)),
        _ => Ok(Calculation::Misfits),
    }
}
