//! Operands with their types, and what constants, operators, built-in functions and parameters make of them.
#![tactic(auto)]

mod answer;
mod argument;
mod constants;
mod function;
mod meaning;
mod operator;
mod passing;
mod role;
mod subscripts;
mod token;
mod within;

pub use answer::TypeError;
pub use argument::{Argument, number_written};
pub use constants::constant;
pub use function::{function_called, roles_of};
pub use meaning::{Denoted, ExpressionMeaning, Referent};
pub use operator::{infix, prefix_denoted};
pub use passing::{all_passed, result_of};
pub use role::{Role, role_at};
pub use subscripts::subscript;
pub use token::{first_token, own_token};
