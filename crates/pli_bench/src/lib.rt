//! The workbench: commands on members of text, which build and run the program that they hold; and its command line
//! over any reader and writers: the words, the status with which it ends, and what it tells where it does not serve.
#![tactic(auto)]

mod arguments;
mod bench;
mod laws;
mod serving;
mod work;

pub use arguments::ArgumentsError;
pub use bench::Bench;
pub use laws::worked_examples;
pub use pli_commands::{AfterCommand, ServeFault, WriteFailed};
pub use serving::{go, refuse, serve};
