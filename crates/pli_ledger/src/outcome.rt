//! What a build gives by what is kept of its units.
ghost use Rattle.std.specs.Prelude.{◌≡◌, [], map, option_map, IfOk};
ghost use Rattle.std.specs.Option.{option_to_list};
ghost use Rattle.pli_ledger.specs.Told.{kept_text, kept_units, told};
ghost use Rattle.pli_ledger.specs.answers.Built.{IsBuilt, IsStanding};
ghost use Rattle.pli_ledger.specs.answers.Lending.{decks_of, given_units};
ghost use Rattle.pli_link.specs.views.UnitView.{compiled_view};
ghost use Rattle.pli_meaning.specs.MemberParts.{all_text, all_units, units_of};

use crate::kept::KeptUnit;
use crate::stored::{StoredModule, stored};
use crate::told::{diagnostics, link_text};
use pli_deck::Compiled;
use pli_link::{LinkError, NamedUnit, link};
use pli_link_laws::linking_keeps_decks;
use pli_members::Members;
use std::alloc::{AllocError, Global};

/// What a build gives: the bytes of a module, or the text of its diagnostics.
#[derive(Drop)]
pub enum Outcome {
    Module(StoredModule),
    Diagnostics(String),
}

/// The result of a unit that has one, where its last expansion has no fault.
fn good_result(unit: &KeptUnit) -> Option<&Compiled>
    ensures { given_units unit.now.0 (option_map (λ c. c.now) result) ≡ units_of (told unit.now) }
{
    let expansion = unit.expansion()?;
    if expansion.fault().is_some() {
        return None;
    }
    unit.compiled()
}

/// A unit that has a deck, to be lent to the linker.
fn lent(unit: &KeptUnit) -> Option<NamedUnit<'_>>
    ensures { option_to_list (option_map compiled_view result) ≡ units_of (told unit.now) }
{
    let deck = good_result(unit)?.deck()?;
    Some(NamedUnit {
        unit: unit.name(),
        deck,
    })
}

/// The units that have a deck, to be lent to the linker.
fn lent_units(alloc: Global, units: &[KeptUnit]) -> Result<Vec<NamedUnit<'_>>, AllocError>
    ensures { IfOk result (λ lent. map compiled_view lent.items ≡ kept_units units.now) }
{
    let mut all = Vec::new(alloc);
    for unit in units {
        if let Some(unit) = lent(unit) {
            if all.push(unit).is_err() {
                return Err(AllocError);
            }
        }
    }
    Ok(all)
}

/// The bytes of a unit's deck, if it has one.
fn lent_deck(unit: &KeptUnit) -> Option<&[u8]>
    ensures { option_to_list (option_map (λ bytes. bytes.now) result) ≡ decks_of (units_of (told unit.now)) }
{
    good_result(unit)?.bytes()
}

/// The bytes of the decks of the units that have one.
fn lent_decks(alloc: Global, units: &[KeptUnit]) -> Result<Vec<&[u8]>, AllocError>
    ensures { IfOk result (λ lent. map (λ bytes. bytes.now) lent.items ≡ decks_of (kept_units units.now)) }
{
    let mut all = Vec::new(alloc);
    for unit in units {
        if let Some(bytes) = lent_deck(unit) {
            if all.push(bytes).is_err() {
                return Err(AllocError);
            }
        }
    }
    Ok(all)
}

/// The module of units that have no diagnostics, or the lines of the faults of linking. Of units that did not change
/// the bytes of their decks are there, and are copied.
#[tactic(auto, unfolding(pli_meaning::specs::Scratch::scratch), using(crate::proofs::ModulesStored::is_of_members))]
fn linked(alloc: Global, units: &[KeptUnit], members: &Members) -> Result<Outcome, AllocError>
    requires text { all_text members.now.entries members.now.entries ≡ [] }
    requires units { kept_units units.now ≡ all_units members.now.entries members.now.entries }
    ensures { IfOk result (IsBuilt members.now.entries) }
{
    members.are_few();
    linking_keeps_decks();
    let lent = lent_units(alloc, units)?;
    let decks = lent_decks(alloc, units)?;
    match link(alloc, &lent) {
        Ok(linked) => Ok(Outcome::Module(stored(alloc, &linked, &decks)?)),
        Err(LinkError::Fault(faults)) => Ok(Outcome::Diagnostics(link_text(alloc, &faults)?)),
        Err(LinkError::OutOfMemory) => Err(AllocError),
    }
}

/// What a build of the members gives, where their expansions and results are kept: their module, where it stands still.
#[tactic(auto, unfolding(pli_meaning::specs::Scratch::scratch))]
pub fn outcome_of(
    alloc: Global,
    units: &[KeptUnit],
    members: &Members,
    standing: Option<StoredModule>,
) -> Result<Outcome, AllocError>
    requires stands { IsStanding members.now.entries standing }
    requires text { kept_text units.now ≡ all_text members.now.entries members.now.entries }
    requires units { kept_units units.now ≡ all_units members.now.entries members.now.entries }
    ensures { IfOk result (IsBuilt members.now.entries) }
{
    if let Some(module) = standing {
        return Ok(Outcome::Module(module));
    }
    let text = diagnostics(alloc, units)?;
    if !text.is_empty() {
        return Ok(Outcome::Diagnostics(text));
    }
    linked(alloc, units, members)
}
