//! Modules at the front of bytes.
ghost use Rattle.std.specs.Prelude.{◌≡◌, None, length, map};
ghost use Rattle.std.specs.List.{filter};
ghost use Rattle.pli_code.specs.Fields.{Answers, followed, from_to, made, shaped, u1};
ghost use Rattle.pli_deck_write.specs.DeckFields as deck_fields;
ghost use Rattle.pli_code.specs.Modules as plain;
ghost use Rattle.pli_code.specs.views.CodeView.{deck_view, external_view, global_view, kind_number, member_view};
ghost use Rattle.pli_code.specs.views.CodeView.{module_view};
ghost use Rattle.pli_deck_write.specs.ModuleFields as module_fields;
ghost use Rattle.pli_deck_read.specs.Earlier.{last_of};
ghost use Rattle.pli_base.specs.answers.FailureAnswers.{Gives};

use crate::error::ReadError;
use crate::read::read;
use crate::reading::{ReadsOne, many_of, name_text_of, short_within, upper_name};
use crate::tables::numbers_of;
use crate::whole::{after_prefix, version_of};
use pli_base::Name;
use pli_code::fields::{byte_within, short_of, word_of};
use pli_code::{CodedGlobal, Deck, DeckFault, External, Member, Module, Version};
use pli_deck_faults::is_external;
use pli_program::VariableKind;
use std::alloc::Global;
use std::cmp::Ordering;

/// What an external variable is: 2 for static, 3 for controlled.
fn kind_of(bytes: &[u8]) -> Result<(VariableKind, &[u8]), DeckFault>
    ensures { Answers (λ x. (kind_number x.0, x.1.now)) result ((from_to 2 3 u1).read bytes.now) }
{
    let (number, rest) = byte_within(bytes, 2, 3)?;
    let kind = if number == 2 {
        VariableKind::Static
    } else {
        VariableKind::Controlled
    };
    Ok((kind, rest))
}

/// Whether a name stands after that of the last external so far, if there is one.
#[tactic(auto, using(crate::proofs::LoopAfterLemmas::none_before, crate::proofs::LoopAfterLemmas::last_before))]
fn comes_after(earlier: &[External], name: &Name) -> bool
    ensures { result ≡ module_fields.comes_after (last_of (map external_view earlier.now)) name.now }
{
    let count = earlier.len();
    if count == 0 {
        return true;
    }
    matches!(earlier[count - 1].name.cmp(name), Ordering::Less)
}

/// An external, whose name stands after that of the one before it.
#[tactic(auto, unfolding(pli_deck_write::specs::ModuleFields::external_after, pli_deck_write::specs::DeckFields::name))]
fn external_of<'a>(earlier: &[External], bytes: &'a [u8]) -> Result<(External, &'a [u8]), ReadError>
    ensures { Gives (λ x. (external_view x.0, x.1.now)) result
        ((module_fields.external_after (last_of (map external_view earlier.now))).read bytes.now) }
{
    let (text, rest) = name_text_of(bytes)?;
    let Some(name) = upper_name(text) else {
        return Err(ReadError::Fault(DeckFault::OutOfRange));
    };
    if !comes_after(earlier, &name) {
        return Err(ReadError::Fault(DeckFault::OutOfRange));
    }
    let (kind, rest) = kind_of(rest)?;
    let (unit, rest) = short_of(rest)?;
    let (global, rest) = short_of(rest)?;
    Ok((
        External {
            name,
            kind,
            unit,
            global,
        },
        rest,
    ))
}

/// So many externals in the order of their names.
fn externals_at(
    alloc: Global,
    count: u16,
    bytes: &[u8],
) -> Result<(Vec<External>, &[u8]), ReadError>
    ensures { Gives (λ x. (map external_view x.0.items, x.1.now)) result
        (module_fields.many_after module_fields.external_after None count bytes.now) }
{
    let mut externals: Vec<External> = Vec::new(alloc);
    let mut rest = bytes;
    for _ in 0..count {
        match external_of(&externals, rest) {
            Ok((external, after)) => {
                externals.push(external)?;
                rest = after;
            }
            Err(error) => return Err(error),
        }
    }
    Ok((externals, rest))
}

/// A list of externals.
fn externals_of(alloc: Global, bytes: &[u8]) -> Result<(Vec<External>, &[u8]), ReadError>
    ensures { Gives (λ x. (map external_view x.0.items, x.1.now)) result
        ((module_fields.chain module_fields.external_after).read bytes.now) }
{
    let (count, rest) = short_of(bytes)?;
    externals_at(alloc, count, rest)
}

/// A deck of this version with the number of its bytes before it, read whole.
#[tactic(auto, unfolding(pli_deck_write::specs::ModuleFields::deck_in))]
fn sized_deck_of(alloc: Global, version: Version, bytes: &[u8]) -> Result<(Deck, &[u8]), ReadError>
    ensures { Gives (λ x. (deck_view x.0, x.1.now)) result ((module_fields.sized_deck version).read bytes.now) }
{
    let (count, rest) = word_of(bytes)?;
    let count = count as usize;
    if rest.len() < count {
        return Err(ReadError::Fault(DeckFault::Truncated));
    }
    let (front, rest) = rest.split_at(count);
    let deck = read(alloc, Some(version), front)?;
    Ok((deck, rest))
}

/// How many globals are known by external names.
fn externals_in(globals: &[CodedGlobal]) -> usize
    ensures { result ≡ length (filter module_fields.is_external (map global_view globals.now)) }
{
    let mut count = 0;
    for global in globals {
        if is_external(global) {
            count += 1;
        }
    }
    count
}

/// What the external globals of a deck stand for, just one number for each.
fn links_of<'a>(
    alloc: Global,
    deck: &Deck,
    bytes: &'a [u8],
) -> Result<(Vec<u16>, &'a [u8]), ReadError>
    ensures { Gives (λ x. (x.0.items, x.1.now)) result ((module_fields.links_of (deck_view deck.now)).read bytes.now) }
{
    let (count, rest) = short_of(bytes)?;
    if usize::from(count) != externals_in(&deck.code.globals) {
        return Err(ReadError::Fault(DeckFault::OutOfRange));
    }
    numbers_of(alloc, u32::from(count), rest)
}

/// Reads a unit of a module of a version.
#[derive(Clone, Copy)]
struct Members {
    version: Version,
}

impl ReadsOne for Members {
    type Value = Member;

    ghost Said = { plain.Member };

    ghost say = { member_view };

    ghost field = { λ r. module_fields.member r.version };

    #[tactic(auto, unfolding(pli_deck_write::specs::ModuleFields::member, pli_deck_write::specs::DeckFields::name))]
    fn read<'a>(&self, alloc: Global, bytes: &'a [u8]) -> Result<(Member, &'a [u8]), ReadError> {
        let (text, rest) = name_text_of(bytes)?;
        let Some(name) = upper_name(text) else {
            return Err(ReadError::Fault(DeckFault::OutOfRange));
        };
        let (deck, rest) = sized_deck_of(alloc, self.version, rest)?;
        let (links, rest) = links_of(alloc, &deck, rest)?;
        Ok((Member { name, deck, links }, rest))
    }
}

/// What a module of this version has after its version.
fn contents_of(alloc: Global, version: Version, bytes: &[u8]) -> Result<(Module, &[u8]), ReadError>
    ensures { Gives (λ x. (module_view x.0, x.1.now)) result
        (made (λ p. module_fields.module_of (version, p)) (module_fields.module_contents version) bytes.now) }
{
    let (count, rest) = short_within(bytes, 1, 999)?;
    let (main, rest) = short_of(rest)?;
    let (externals, rest) = externals_of(alloc, rest)?;
    let (units, rest) = many_of(alloc, &Members { version }, u32::from(count), rest)?;
    Ok((
        Module {
            version,
            main,
            externals,
            units,
        },
        rest,
    ))
}

/// The version, and what a module has after it.
fn versioned_of(alloc: Global, bytes: &[u8]) -> Result<(Module, &[u8]), ReadError>
    ensures { Gives (λ x. (module_view x.0, x.1.now)) result
        ((shaped module_fields.module_of module_fields.module_parts
        (followed (deck_fields.version_in deck_fields.any_version) module_fields.module_contents)).read
        bytes.now) }
{
    let (version, rest) = version_of(bytes, None)?;
    contents_of(alloc, version, rest)
}

/// A module.
#[tactic(auto, unfolding(pli_deck_write::specs::ModuleFields::module_field))]
pub fn module_at(alloc: Global, bytes: &[u8]) -> Result<(Module, &[u8]), ReadError>
    ensures { Gives (λ x. (module_view x.0, x.1.now)) result (module_fields.module_field.read bytes.now) }
{
    match after_prefix(bytes, b"PLIM") {
        Some(rest) => versioned_of(alloc, rest),
        None => Err(ReadError::Fault(DeckFault::BadMagic)),
    }
}
