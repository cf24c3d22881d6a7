//! Calls, with what they give.

mod bytes;
mod calls;
mod damaged;
mod decks;
mod devices;
mod exact;
mod found;
mod machine;
mod outcome;
mod recorded;
mod rows;
mod serving;
mod stars;
mod statuses;
mod versions;
mod written;

use std::process::Abort;

/// Fails with the number of a row of a table, unless it is as it should be.
fn at_row(rt: &impl Abort, row: usize, is: bool) {
    assert!(rt; is, "row {row}");
}

/// Calls of laws, and of worked examples of definitions.
#[test]
fn laws() {
    pli_run::worked_examples();
    pli_gen::worked_examples();
    pli_gen::code_is_looked_up();
    pli_link::names_are_sorted();
    pli_link::worked_examples();
}
