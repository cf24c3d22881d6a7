//! Faults of globals.

/// What may be wrong with a global of a unit.
#[derive(Clone, Copy)]
pub enum GlobalFault {
    /// An entry: no unit has a procedure of its name. A CONTROLLED external variable, since none is resolved yet.
    Unresolved,
    /// An entry: the procedure of its name takes or gives something else. A STATIC external variable: it has a
    /// procedure's name, or the first variable of its name has another description or other initial values.
    Mismatch,
}
