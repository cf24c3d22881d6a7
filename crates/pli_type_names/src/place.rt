//! Where variables begin.

use pli_declare::SymbolKey;

/// Where a variable begins, seen from its own block.
#[derive(Clone, Copy)]
pub(crate) enum Location {
    /// In a slot of the block's activation, counted from 0: an AUTOMATIC variable, after the parameters.
    InBlock {
        slot: usize,
    },
    /// In a slot of the block's activation: a parameter.
    Passed {
        slot: usize,
    },
    /// Under this number among the globals of the unit, in the order of the text; it is static.
    BeforeProgram {
        number: usize,
    },
    /// At the newest generation of a CONTROLLED variable that has this number among the globals.
    NewestOf {
        number: usize,
    },
    /// Wherever a locator leads: a BASED variable, by its number among those of the block, counted from 0, with the
    /// locator that BASED names, if it names one.
    Based {
        number: usize,
        locator: Option<SymbolKey>,
    },
}
