//! The members of a workbench: a finite map from names to lines of text, with versions.
#![tactic(auto)]

mod entry;
mod kind;
mod laws;
mod lines;
mod members;
mod names;
mod refusal;

pub use entry::NamedMember;
pub use kind::MemberKind;
pub use laws::{
    deletion_keeps_others, deletion_takes, edit_gives_next, edit_keeps_others, next_is_new,
    runs_keep, worked_examples,
};
pub use members::Members;
pub use names::NamesLeft;
pub use refusal::{EditError, Refusal};
