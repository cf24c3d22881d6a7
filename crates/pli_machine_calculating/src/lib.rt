//! What is made of given numbers, bits and characters, where it comes of them in every module.
#![tactic(auto)]

mod bounds;
mod calculating;

pub use bounds::bounded;
pub use calculating::{
    bit_in, bit_of, both_bits, characters_in, copied, element_at, element_of, fit, fit_bit, fitted,
    locator_in, locators_bit, near_number_of, null_bit, number_in, number_of, number_of_text,
    number_of_texts, numbers_stand, of_one, of_part, of_two, part_of, rest_of, result_of,
    takes_digits, texts_bit, turned, with_text, within_of,
};
