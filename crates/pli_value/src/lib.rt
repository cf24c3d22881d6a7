//! Values of the language and the operations on them: numbers, strings of characters and of bits, and locators.
#![tactic(auto)]

pub mod bit;
pub mod character;
mod laws;
mod locator;
pub mod number;
mod packing;
pub mod part;
pub mod short;
mod short_bits;
mod value;

pub use laws::{
    index_is_the_first_place, number_examples, remainders_are_least, same_locator_is_equal,
    string_examples,
};
pub use locator::Locator;
pub use short_bits::ShortBits;
pub use value::Value;
