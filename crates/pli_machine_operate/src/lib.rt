//! Operations on values as the machine performs them, and the operands that it works on.
#![tactic(auto)]

mod calculation;
mod operand;
mod texts;

pub use calculation::{
    Calculation, FAST_PRECISION, Immediate, calculate_by, calculate_from, calculate_numbers,
    calculate_with, compare_locators, fit, fit_number, fit_string, is_within, stands,
};
pub use operand::{
    Operand, Taken, TakenPlace, newest_place, pop_locator, pop_number, pop_three, pop_truth,
    pop_two, pop_value, push, push_dummy, push_place, take_place, take_three_numbers,
    take_two_numbers, take_value,
};
pub use texts::{compare_texts, text_index, text_length, text_part};
