//! The rules of declarations and names, as definitions: which faults there are, and what a unit without faults
//! declares and its names mean; with the types of what the passes find.
#![tactic(auto)]

mod block;
mod block_numbers;
mod built_in;
mod completed;
mod declaration;
mod laws;
mod place;
mod resolved;
mod symbol;

pub use block::{BlockDeclarations, Target, Use};
pub use block_numbers::{BlockRegion, ResolvedBlockKind};
pub use built_in::{BuiltInFunction, function_named, is_built_in};
pub use completed::{Completed, DeclaredStorage, ScopeAttribute, Variable};
pub use declaration::{Declaration, DeclaredKind};
pub use laws::{faults_are_least_codes, resolved_examples, worked_examples};
pub use place::{ItemPlace, Position};
pub use resolved::{NamedMeanings, Resolved, UnitMeanings};
pub use symbol::{NameMeaning, StorageClass, Symbol, SymbolKey, SymbolKind};
