//! What the names of a resolved unit mean where types are asked for, and what its variables are made from.
#![tactic(auto)]

mod around;
mod descriptions;
mod entries;
mod level;
mod levels;
mod meanings;
mod naming;
mod order;
mod own_variable;
mod own_variables;
mod parameters;
mod part;
mod passed_members;
mod place;
mod seen;
mod storage;

pub use descriptions::{GREATEST, is_plain, is_stored, is_valued};
pub use naming::{NamedAs, NamedProcedure, NamedVariable, Naming, name_unit};
pub use part::StridedPart;
pub use storage::{NamedLocator, NamedStorage};
