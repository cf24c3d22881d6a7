//! Calls, with what they give.

mod bits;
mod bytes;
mod characters;
mod extents;
mod layouts;
mod marks;
mod numbers;
mod operations;
mod scopes;
mod stored;
mod tables;

use pli_value::{
    index_is_the_first_place, number_examples, remainders_are_least, same_locator_is_equal,
    string_examples,
};

/// Calls of laws, and of worked examples of definitions.
#[test]
fn laws_of_values() {
    number_examples();
    string_examples();
    remainders_are_least();
    index_is_the_first_place();
    same_locator_is_equal();
}
