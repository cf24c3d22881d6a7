//! Keys of tables: descriptions and types with a `*`, templates and values, which are found again by what they say.
#![tactic(auto)]

mod digest;
mod key;

pub use key::{DescriptionKey, TemplateKey, ValueKey};
