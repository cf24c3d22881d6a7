//! Typed values, with their conversions and operations, by the rules of types.
#![tactic(auto)]

mod converting;
mod function_calls;
mod locators;
mod operators;
mod typed_value;

pub use converting::{conversion_to, converted, printed, suited_to_form, unconverted};
pub use function_calls::{
    address, bound_there, call, call_type, empty_value, generations, null_value, offset_within,
    operation_of, pointer_within, quotient, quotient_type,
};
pub use locators::pointer_into;
pub use operators::{infix_value, prefix_value};
pub use typed_value::TypedValue;
