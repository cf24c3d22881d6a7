//! Whole decks at the front of bytes.
ghost use Rattle.std.specs.Prelude.{◌≡◌, option_map};
ghost use Rattle.pli_code.specs.Fields.{Answers, followed, made, shaped};
ghost use Rattle.pli_deck_write.specs.DeckFields as deck_fields;
ghost use Rattle.pli_code.specs.views.CodeView.{code_view, deck_view};
ghost use Rattle.pli_base.specs.answers.FailureAnswers.{Gives};
ghost use Rattle.pli_deck_read.specs.Wanted.{wanted_version};

use crate::constants::{Constants, Templates, are_same};
use crate::described::descriptions_of;
use crate::error::ReadError;
use crate::reading::{flag_of, list_at, name_text_of, upper_name};
use crate::tables::{Blocks, Globals, Instructions, signature_of};
use pli_code::fields::byte_of;
use pli_code::{Code, Deck, DeckFault, Version};
use std::alloc::Global;

/// The code of a unit in a version: its signature, its tables, each with its count, and its instructions.
#[tactic(auto, unfolding(pli_deck_write::specs::DeckFields::code))]
fn code_of(alloc: Global, version: Version, bytes: &[u8]) -> Result<(Code, &[u8]), ReadError>
    ensures { Gives (λ x. (code_view x.0, x.1.now)) result ((deck_fields.code version).read bytes.now) }
{
    let (signature, rest) = signature_of(alloc, bytes)?;
    let (descriptions, rest) = descriptions_of(alloc, version, rest)?;
    let (templates, rest) = list_at(alloc, &Templates { version }, rest)?;
    let (values, rest) = list_at(alloc, &Constants { version }, rest)?;
    let (globals, rest) = list_at(alloc, &Globals, rest)?;
    let (blocks, rest) = list_at(alloc, &Blocks, rest)?;
    let (instructions, rest) = list_at(alloc, &Instructions { version }, rest)?;
    Ok((
        Code {
            signature,
            descriptions,
            templates,
            values,
            globals,
            blocks,
            instructions,
        },
        rest,
    ))
}

/// The bytes after those that stand in front of all decks, if they do.
#[tactic(auto, using(crate::proofs::HeadingLemmas::too_few, crate::proofs::HeadingLemmas::after_front))]
pub fn after_prefix<'a>(bytes: &'a [u8], front: &[u8]) -> Option<&'a [u8]>
    ensures { deck_fields.after_prefix front.now bytes.now ≡ option_map (λ rest. rest.now) result }
{
    if bytes.len() < front.len() {
        return None;
    }
    let (first, rest) = bytes.split_at(front.len());
    if are_same(front, first) {
        Some(rest)
    } else {
        None
    }
}

/// Whether a version may stand in bytes: the one that is wanted, or any where none is.
fn may_stand(wanted: Option<Version>, version: Version) -> bool
    ensures { result ≡ wanted_version wanted version }
{
    match wanted {
        None => true,
        Some(one) => one.is(version),
    }
}

/// A version, if it may stand in bytes.
fn if_it_may(wanted: Option<Version>, version: Version) -> Option<Version>
    ensures { deck_fields.if_it_may (wanted_version wanted) version ≡ result }
{
    if may_stand(wanted, version) {
        Some(version)
    } else {
        None
    }
}

/// The version of a number, if one has it that may stand there.
fn version_among(wanted: Option<Version>, number: u8) -> Option<Version>
    ensures { deck_fields.version_among (wanted_version wanted) number ≡ result }
{
    if number == 1 {
        if_it_may(wanted, Version::First)
    } else if number == 2 {
        if_it_may(wanted, Version::Second)
    } else if number == 3 {
        if_it_may(wanted, Version::Third)
    } else {
        None
    }
}

/// The version of a deck or a module: the one that is wanted, or any where none is.
pub fn version_of(bytes: &[u8], wanted: Option<Version>) -> Result<(Version, &[u8]), DeckFault>
    ensures { Answers (λ x. (x.0, x.1.now)) result ((deck_fields.version_in (wanted_version wanted)).read bytes.now) }
{
    let (number, rest) = byte_of(bytes)?;
    match version_among(wanted, number) {
        Some(version) => Ok((version, rest)),
        None => Err(DeckFault::BadVersion),
    }
}

/// The contents of a deck of this version: its name, whether it is the main one, and its code.
#[tactic(auto, unfolding(pli_deck_write::specs::DeckFields::contents, pli_deck_write::specs::DeckFields::name))]
fn contents_of(alloc: Global, version: Version, bytes: &[u8]) -> Result<(Deck, &[u8]), ReadError>
    ensures { Gives (λ x. (deck_view x.0, x.1.now)) result
        (made (λ p. deck_fields.deck_of (version, p)) (deck_fields.contents version) bytes.now) }
{
    let (text, rest) = name_text_of(bytes)?;
    let Some(name) = upper_name(text) else {
        return Err(ReadError::Fault(DeckFault::OutOfRange));
    };
    let (is_main, rest) = flag_of(rest)?;
    let (code, rest) = code_of(alloc, version, rest)?;
    Ok((
        Deck {
            version,
            name,
            is_main,
            code,
        },
        rest,
    ))
}

/// The version, and the contents of a deck.
fn versioned_of(
    alloc: Global,
    wanted: Option<Version>,
    bytes: &[u8],
) -> Result<(Deck, &[u8]), ReadError>
    ensures { Gives (λ x. (deck_view x.0, x.1.now)) result
        ((shaped deck_fields.deck_of deck_fields.deck_parts (followed
        (deck_fields.version_in (wanted_version wanted)) deck_fields.contents)).read bytes.now) }
{
    let (version, rest) = version_of(bytes, wanted)?;
    contents_of(alloc, version, rest)
}

/// A deck of the wanted version, or of any where none is wanted.
#[tactic(auto, unfolding(pli_deck_write::specs::DeckFields::deck_in_versions))]
pub fn deck_at(
    alloc: Global,
    wanted: Option<Version>,
    bytes: &[u8],
) -> Result<(Deck, &[u8]), ReadError>
    ensures { Gives (λ x. (deck_view x.0, x.1.now)) result ((deck_fields.deck_in_versions (wanted_version wanted)).read
        bytes.now) }
{
    match after_prefix(bytes, b"PLID") {
        Some(rest) => versioned_of(alloc, wanted, rest),
        None => Err(ReadError::Fault(DeckFault::BadMagic)),
    }
}
