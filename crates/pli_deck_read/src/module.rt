//! Modules from bytes.
ghost use Rattle.std.specs.Prelude.{◌≡◌, ◌<◌, ℕ, Ok, IfOk, slice_index};
ghost use Rattle.pli_code.specs.Modules as plain;
ghost use Rattle.pli_code.specs.views.CodeView.{module_view};
ghost use Rattle.pli_deck_write.specs.ModuleSpelling.{SpellsModule, module_fault, module_read};
ghost use Rattle.pli_deck_write.specs.Whole.{whole};
ghost use Rattle.pli_base.specs.answers.FailureAnswers.{Gives};

use crate::error::ReadError;
use crate::modules::module_at;
use pli_code::{DeckFault, Module};
use pli_deck_faults::module_fault;
use std::alloc::Global;

/// A module, if no bytes stand after it and it has no fault.
#[tactic(auto, using(crate::proofs::WholeReading::more_left, crate::proofs::WholeReading::none_left))]
fn whole(alloc: Global, program: Module, rest: &[u8]) -> Result<Module, ReadError>
    ensures { Gives module_view result (whole module_fault (module_view program) rest.now) }
{
    if !rest.is_empty() {
        return Err(ReadError::Fault(DeckFault::Trailing));
    }
    match module_fault(alloc, &program)? {
        None => Ok(program),
        Some(fault) => Err(ReadError::Fault(fault)),
    }
}

/// The module that bytes are, or the first fault.
#[tactic(auto, unfolding(pli_deck_write::specs::ModuleSpelling::module_read))]
fn read(alloc: Global, bytes: &[u8]) -> Result<Module, ReadError>
    ensures exact { Gives module_view result (module_read bytes.now) }
    ensures bytes { (place : ℕ) → slice_index bytes.now place < 256 }
{
    match module_at(alloc, bytes) {
        Ok((program, rest)) => whole(alloc, program, rest),
        Err(error) => Err(error),
    }
}

/// The module that bytes spell, in any version; each deck is read whole where it stands, and has the module's
/// version. An error is the first fault, or that memory ran out. Takes memory in proportion to the bytes, and no call
/// is deeper than the 512 levels of descriptions.
pub fn read_module(alloc: Global, bytes: &[u8]) -> Result<Module, ReadError>
    // What is read is spelled so.
    ensures read { IfOk result (λ m. SpellsModule bytes.now (module_view m)) }
    // What is spelled so is read, unless memory runs out.
    ensures spelled { (m : plain.Module) → SpellsModule bytes.now m → Gives module_view result (Ok m) }
    // Which fault it is.
    ensures exact { Gives module_view result (module_read bytes.now) }
{
    read(alloc, bytes)
}
