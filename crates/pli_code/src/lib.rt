//! The code of a unit, with the tables that its instructions name; the bytes of instructions; and modules of units.
#![tactic(auto)]

mod code;
mod copying;
mod decoding;
mod encoding;
mod fault;
pub mod fields;
mod instruction;
mod laws;
mod module;
mod numbered;
mod operands;
mod version;

pub use code::{Block, BlockKind, Code, CodedGlobal, CodedSignature, CodedTemplate, Deck};
pub use copying::copied_deck;
pub use decoding::decode;
pub use encoding::encode;
pub use fault::DeckFault;
pub use instruction::{Instruction, stands_in};
pub use laws::{instructions_both_ways, worked_instructions, worked_naming};
pub use module::{External, LentMember, LentModule, Member, Module};
pub use version::Version;
