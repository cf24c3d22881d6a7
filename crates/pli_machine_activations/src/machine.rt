//! The machine: its activations, storage and output.
ghost use Rattle.std.specs.Prelude.{◌≤◌, length};
ghost use Rattle.pli_machine_activations.specs.views.DisplayView.{IsDisplay};

use crate::display::Display;
use crate::on_units::OnUnits;
use crate::room::Room;
use crate::spare::Spare;
use pli_machine_operate::Operand;
use pli_run::RunError;
use pli_stacks::Stacks;
use pli_store::{Place, Storage};

/// Why a run stops: the main procedure ended, no step is left, an error, or no rule fits.
#[derive(Clone, Copy)]
pub enum Stop {
    Ended,
    OutOfSteps,
    Raised(RunError),
    Fault,
}

/// An activation of a block, with what its code works on.
#[derive(Drop)]
pub struct Activation<'m> {
    /// The unit's number.
    pub unit: usize,
    /// The block's number.
    pub block: u16,
    /// The statement that is being executed.
    pub statement: u32,
    /// The height of the activation that outer names mean, from 1 on; 0 for none.
    pub link: u32,
    /// Where parameters and AUTOMATIC variables are.
    pub slots: Vec<Place<'m>>,
    /// The next instruction.
    pub next: usize,
    /// The newest operand is the last.
    pub operands: Vec<Operand<'m>>,
    /// Its generations and temporaries.
    pub room: Box<Room>,
    /// How many backward jumps were made since the step of the number `stamp`.
    pub jumps: u32,
    pub stamp: u64,
    /// Its own ON-units.
    pub on_units: OnUnits,
    /// Of one that waits, whether it waits for an ON-unit after which it executes its next instruction again.
    pub again: bool,
}

/// A run between two instructions.
#[derive(Drop)]
pub struct Machine<'m> {
    /// The newest activation.
    pub here: Activation<'m>,
    /// The activations that wait, the newest last.
    pub waiting: Vec<Activation<'m>>,
    pub storage: Storage<'m>,
    /// The generations of CONTROLLED variables.
    pub stacks: Stacks<'m>,
    /// What is printed and not yet put.
    pub output: Vec<u8>,
    /// The next column, from 1 to 121.
    pub column: u32,
    /// How many steps were taken.
    pub steps: u64,
    /// How many steps may be taken.
    pub limit: u64,
    /// Up to how many are taken together before it is seen whether output is to be put.
    pub pause: u64,
    /// What activations have left that have ended.
    pub(crate) spare: Spare<'m>,
    /// Where those stand that wait and are outward from the newest one.
    pub(crate) display: Display,
    ghost on_line: { column ≤ 121 },
    ghost paused: { pause ≤ limit },
    ghost few: { length waiting.items ≤ 1000 },
    ghost displayed: { IsDisplay waiting.items display.link display.places.items },
}
