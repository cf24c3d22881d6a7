//! Commands of the workbench: what a line of text commands, how the lines of an input are served, and how answers are
//! written.
#![tactic(auto)]

mod answer;
mod batch;
mod command;
mod dumping;
mod listing;
mod pending;
mod serving;

pub use answer::{put_ending, put_parts, put_refusal};
pub use command::{Command, MemberName, read_command};
pub use dumping::put_dump;
pub use listing::{put_lines, put_members};
pub use serving::{AfterCommand, Interpreter, ServeFault, WriteFailed, serve};
