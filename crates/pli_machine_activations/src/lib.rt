//! The machine between two instructions: its activations and storage, how blocks are entered and left, how conditions
//! are raised, and what there is before the first instruction.
#![tactic(auto)]

mod arguments;
mod at_once;
mod calling;
mod conditions;
mod display;
mod dummies;
mod entering;
mod external;
mod globals;
mod leaving;
mod linked;
mod loaded;
mod machine;
mod numbered;
mod on_units;
mod ready;
mod reserving;
mod room;
mod spare;
mod starting;
mod stops;
mod unit;
mod variables;
mod walk;

pub use at_once::{
    call_alone, call_with_number, call_with_place, call_with_place_and_number, call_with_places,
    make_dummy_at_once,
};
pub use calling::{block_at, call, call_found, enter_begin};
pub use conditions::{condition_of, establish, raise, revert};
pub use dummies::{call_with_dummy, dummy_of_number, make_dummy, make_string_dummy, use_up};
pub use external::call_entry;
pub use globals::{static_place, static_stack, unit_at};
pub use leaving::{end_at_once, give_back, give_number, leave, return_from, return_value};
pub use linked::LinkedGlobal;
pub use loaded::Loaded;
pub use machine::{Activation, Machine, Stop};
pub use numbered::linked_at;
pub use on_units::OnUnits;
pub use room::Room;
pub use starting::{Beginning, begin};
pub use stops::stop_at;
pub use unit::ActiveUnit;
pub use variables::{laid_in, template_of};
pub use walk::outer_place;
