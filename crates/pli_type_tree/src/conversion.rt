//! What converts a value to a variable that gets it.

use crate::expression::{TypedOperation, TypedReference};

/// A conversion of a value that is evaluated already (X3.74).
#[derive(Drop)]
pub enum Conversion {
    /// Operations, one after the other; none where the variable holds the value as it is.
    ByOperations(Vec<TypedOperation>),
    /// An offset becomes a pointer into this area.
    AsPointerIn(TypedReference),
    /// A pointer becomes an offset of this area.
    AsOffsetIn(TypedReference),
    /// Operations, one after the other, which give a string; it is then fitted to the description of the place that
    /// gets it.
    ToPlace(Vec<TypedOperation>),
}
