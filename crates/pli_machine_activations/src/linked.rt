//! Globals of units.

use pli_store::Place;

/// What a global of a unit leads to.
#[derive(Clone, Copy)]
pub enum LinkedGlobal<'m> {
    /// A STATIC variable, of the unit's own or one that units share: where it lies.
    Variable(Place<'m>),
    /// A CONTROLLED variable, of the unit's own or one that units share: the number of the stack of its generations.
    ControlledVariable(usize),
    /// The external procedure of the unit of this number.
    EntryPoint(u16),
}
