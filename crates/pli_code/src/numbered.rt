//! The numbers that stand in bytes for errors, relations, conditions, bounds and forms of strings, and what they stand
//! for.
ghost use Rattle.std.specs.Prelude.{◌≡◌};
ghost use Rattle.pli_code.specs.Numbered.{condition_number, error_number, relation_number};
ghost use Rattle.pli_code.specs.NumberReaders.{condition_of, error_of};
ghost use Rattle.pli_code.specs.NumberReaders.{relation_of};
ghost use Rattle.pli_code.specs.Numbered.{bound_number, string_number};
ghost use Rattle.pli_code.specs.NumberReaders.{string_form_of, which_of};

use pli_base::statement::Condition;
use pli_map::{StringForm, WhichBound};
use pli_operation::Relation;
use pli_run::RunError;

/// The number of an error.
pub fn error_number(error: RunError) -> u8
    ensures { result ≡ error_number error }
{
    match error {
        RunError::SubscriptRange => 1,
        RunError::StringRange => 2,
        RunError::NullLocator => 3,
        RunError::DeadLocator => 4,
        RunError::DescriptionMismatch => 5,
        RunError::NoGeneration => 6,
        RunError::OutsideArea => 7,
        RunError::NoReturnedValue => 8,
        RunError::FixedOverflow => 9,
        RunError::ZeroDivide => 10,
        RunError::Area => 11,
        RunError::StorageLimit => 12,
        RunError::TooManyActivations => 13,
    }
}

/// The number of a relation.
pub fn relation_number(relation: Relation) -> u8
    ensures { result ≡ relation_number relation }
{
    match relation {
        Relation::Equal => 0,
        Relation::Unequal => 1,
        Relation::Less => 2,
        Relation::AtMost => 3,
        Relation::Greater => 4,
        Relation::AtLeast => 5,
    }
}

/// The number of a condition.
pub fn condition_number(condition: Condition) -> u8
    ensures { result ≡ condition_number condition }
{
    match condition {
        Condition::FixedOverflow => 0,
        Condition::ZeroDivide => 1,
        Condition::Area => 2,
    }
}

/// The number of a bound.
pub fn bound_number(which: WhichBound) -> u8
    ensures { result ≡ bound_number which }
{
    match which {
        WhichBound::Low => 0,
        WhichBound::High => 1,
    }
}

/// The number of a form of strings, which is the tag of its descriptions.
pub fn string_number(form: StringForm) -> u8
    ensures { result ≡ string_number form }
{
    match form {
        StringForm::Character => 2,
        StringForm::Varying => 3,
        StringForm::Bit => 4,
    }
}

/// The error of a number from 1 to 13.
pub fn error_of(number: u8) -> RunError
    ensures { result ≡ error_of number }
{
    match number {
        1 => RunError::SubscriptRange,
        2 => RunError::StringRange,
        3 => RunError::NullLocator,
        4 => RunError::DeadLocator,
        5 => RunError::DescriptionMismatch,
        6 => RunError::NoGeneration,
        7 => RunError::OutsideArea,
        8 => RunError::NoReturnedValue,
        9 => RunError::FixedOverflow,
        10 => RunError::ZeroDivide,
        11 => RunError::Area,
        12 => RunError::StorageLimit,
        _ => RunError::TooManyActivations,
    }
}

/// The relation of a number from 0 to 5.
pub fn relation_of(number: u8) -> Relation
    ensures { result ≡ relation_of number }
{
    match number {
        0 => Relation::Equal,
        1 => Relation::Unequal,
        2 => Relation::Less,
        3 => Relation::AtMost,
        4 => Relation::Greater,
        _ => Relation::AtLeast,
    }
}

/// The condition of a number from 0 to 2.
pub fn condition_of(number: u8) -> Condition
    ensures { result ≡ condition_of number }
{
    match number {
        0 => Condition::FixedOverflow,
        1 => Condition::ZeroDivide,
        _ => Condition::Area,
    }
}

/// The bound of a number, 0 or 1.
pub fn which_of(number: u8) -> WhichBound
    ensures { result ≡ which_of number }
{
    match number {
        0 => WhichBound::Low,
        _ => WhichBound::High,
    }
}

/// The form of strings of a number from 2 to 4.
pub fn string_form_of(number: u8) -> StringForm
    ensures { result ≡ string_form_of number }
{
    match number {
        2 => StringForm::Character,
        3 => StringForm::Varying,
        _ => StringForm::Bit,
    }
}
