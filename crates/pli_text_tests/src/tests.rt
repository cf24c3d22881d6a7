//! Calls, with what they give.

mod attributes;
mod inclusion;
mod members;
mod tokens;
mod trees;
mod units;
mod vocabulary;

use pli_base::Name;
use std::process::Abort;

/// The name of these bytes.
fn name(rt: &impl Abort, text: &str) -> Name {
    Name::read(text.as_bytes()).expect(rt, "a name")
}

/// Calls of laws, and of worked examples of definitions.
#[test]
fn laws() {
    pli_base::one_code();
    pli_base::code_order();
    pli_members::next_is_new();
    pli_members::runs_keep();
    pli_members::edit_gives_next();
    pli_members::edit_keeps_others();
    pli_members::deletion_takes();
    pli_members::deletion_keeps_others();
    pli_members::worked_examples();
    pli_include::level_is_never_met();
    pli_include::texts_have_origins();
    pli_include::trace_decides();
    pli_include::worked_examples();
}

/// The same of texts that are read and of declared names.
#[test]
fn laws_of_units() {
    pli_parse::worked_examples();
    pli_declare_tables::owners_stand_before();
    pli_declare_attributes::sets_are_of_what_stands();
    pli_declare_attributes::types_are_within_limits();
    pli_declare_attributes::worked_examples();
    pli_declare::faults_are_least_codes();
    pli_declare::worked_examples();
    pli_declare::resolved_examples();
    pli_resolve::blocks_are_of_the_tree();
    pli_resolve::uses_have_meanings();
    pli_resolve::jumps_mean_labels();
    pli_resolve::members_are_parts();
}
