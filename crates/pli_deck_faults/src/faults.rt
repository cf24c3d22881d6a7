//! The first fault of a deck or a module as a whole.
ghost use Rattle.std.specs.Prelude.{◌≡◌, IfOk};
ghost use Rattle.pli_deck_write.specs.DeckFaults as faults;
ghost use Rattle.pli_deck_write.specs.ModuleSpelling as spelling;
ghost use Rattle.pli_code.specs.views.CodeView.{deck_view, module_view};

use crate::extent::module_within;
use crate::limits::within_limits;
use crate::links::links_stand;
use crate::standing::{all_stand, jumps_stand};
use pli_code::{Deck, DeckFault, Module};
use std::alloc::{AllocError, Global};

/// The first of the faults that are looked for once a deck is read: a jump to no instruction, a number of no entry, or
/// a limit that is passed. An error comes where memory runs out.
pub fn deck_fault(alloc: Global, deck: &Deck) -> Result<Option<DeckFault>, AllocError>
    ensures { IfOk result (λ fault. fault ≡ faults.fault_of (deck_view deck.now)) }
{
    if !jumps_stand(&deck.code) {
        return Ok(Some(DeckFault::BadJump));
    }
    if !all_stand(&deck.code) {
        return Ok(Some(DeckFault::BadNumber));
    }
    if !within_limits(alloc, &deck.code)? {
        return Ok(Some(DeckFault::OverLimit));
    }
    Ok(None)
}

/// The first of the faults that are looked for once a module is read: what an external name stands for is not there, or
/// a limit is passed. Its decks are looked at by themselves. An error comes where memory runs out.
pub fn module_fault(alloc: Global, program: &Module) -> Result<Option<DeckFault>, AllocError>
    ensures { IfOk result (λ fault. fault ≡ spelling.module_fault (module_view program.now)) }
{
    if !links_stand(program) {
        return Ok(Some(DeckFault::BadNumber));
    }
    if !module_within(alloc, program)? {
        return Ok(Some(DeckFault::OverLimit));
    }
    Ok(None)
}
