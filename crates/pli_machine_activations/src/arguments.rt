//! Arguments of calls.
ghost use Rattle.std.specs.Prelude.{◌≡◌, not, nat_eq, ℕ, suc, true, List, [], ◌∷◌, ◌++◌, length, None, Some};
ghost use Rattle.std.specs.Prelude.{map};
ghost use Rattle.std.specs.Prelude.{IfOk, MatchOption};
ghost use Rattle.std.specs.List.{filter, list_all, list_any};
ghost use Rattle.pli_world.specs.Storage as plain;
ghost use Rattle.pli_world.specs.World.{is_given};
ghost use Rattle.pli_store.specs.views.StorageView.{place_view};
ghost use Rattle.pli_machine_step.specs.Machine as step;
ghost use Rattle.pli_machine_step.specs.Machine.{places_off};
ghost use Rattle.pli_machine_operate.specs.views.OperandView.{operand_view, stack};

use crate::reserving::roomy;
use pli_machine_operate::{Operand, take_place};
use pli_store::{Place, reserve_one};
use std::alloc::{AllocError, Global};
use std::mem;

/// Where an operand leads, if it is a place, also that of a dummy argument.
#[inline(always)]
pub(crate) fn place_of<'l, 'm>(operand: &'l Operand<'m>) -> Option<&'l Place<'m>>
    ensures { (count : ℕ) (after : List plain.Place) (rest : List step.Operand) → MatchOption result
        (places_off (suc count) after (operand_view operand.now ∷ rest) ≡ None)
        (λ p. places_off (suc count) after (operand_view operand.now ∷ rest)
        ≡ places_off count (place_view p.now ∷ after) rest) }
{
    match operand {
        Operand::AtPlace(place) => Some(place),
        Operand::AtDummy(place) => Some(place),
        Operand::OfValue(_) => None,
        Operand::OfConstant(_) => None,
        Operand::OneBit(_) => None,
    }
}

/// Takes the newest operand, where it is a place.
#[inline(always)]
fn pop_place<'m>(operands: &mut Vec<Operand<'m>>) -> Option<Place<'m>>
    ensures { (count : ℕ) (after : List plain.Place) → MatchOption result
        (places_off (suc count) after (stack operands.old.items) ≡ None)
        (λ p. places_off (suc count) after (stack operands.old.items)
        ≡ places_off count (place_view p ∷ after) (stack operands.new.items)) }
{
    let newest = operands.last()?;
    let found = place_of(newest)?;
    let place = *found;
    let _newest = operands.pop();
    Some(place)
}

/// Takes the newest operand, where it is a place, and puts it where there are none yet; `None` where it is none.
#[inline(always)]
fn pop_one<'m>(
    places: Vec<Place<'m>>,
    operands: &mut Vec<Operand<'m>>,
) -> Result<Option<Vec<Place<'m>>>, AllocError>
    requires { places.items ≡ [] }
    ensures { IfOk result (λ o. MatchOption o (places_off 1 [] (stack operands.old.items) ≡ None)
        (λ ps. places_off 1 [] (stack operands.old.items) ≡ Some (map place_view ps.items, stack operands.new.items))) }
{
    let Some(place) = pop_place(operands) else {
        return Ok(None);
    };
    let mut places = roomy(places)?;
    places.push_reserved(place);
    Ok(Some(places))
}

/// The same of the newest two.
#[inline(always)]
fn pop_two<'m>(
    places: Vec<Place<'m>>,
    operands: &mut Vec<Operand<'m>>,
) -> Result<Option<Vec<Place<'m>>>, AllocError>
    requires { places.items ≡ [] }
    ensures { IfOk result (λ o. MatchOption o (places_off 2 [] (stack operands.old.items) ≡ None)
        (λ ps. places_off 2 [] (stack operands.old.items) ≡ Some (map place_view ps.items, stack operands.new.items))) }
{
    let Some(second) = pop_place(operands) else {
        return Ok(None);
    };
    let Some(first) = pop_place(operands) else {
        return Ok(None);
    };
    let mut places = roomy(places)?;
    places.push_reserved(first);
    let mut both = roomy(places)?;
    both.push_reserved(second);
    Ok(Some(both))
}

/// The same of so many.
#[inline(never)]
fn pop_more<'m>(
    mut places: Vec<Place<'m>>,
    operands: &mut Vec<Operand<'m>>,
    count: u8,
) -> Result<Option<Vec<Place<'m>>>, AllocError>
    requires { places.items ≡ [] }
    ensures { IfOk result (λ o. MatchOption o (places_off count [] (stack operands.old.items) ≡ None)
        (λ ps. places_off count [] (stack operands.old.items)
        ≡ Some (map place_view ps.items, stack operands.new.items))) }
{
    for _taken in 0..count {
        let Some(taken) = take_place(operands) else {
            return Ok(None);
        };
        places.push(taken.place())?;
    }
    places.reverse();
    Ok(Some(places))
}

/// Takes so many operands, where they are places, also those of dummy arguments: the oldest is the first. They are put
/// where there are none yet. `None` where one is no place.
#[inline(always)]
pub fn pop_places<'m>(
    places: Vec<Place<'m>>,
    operands: &mut Vec<Operand<'m>>,
    count: u8,
) -> Result<Option<Vec<Place<'m>>>, AllocError>
    requires { places.items ≡ [] }
    ensures { IfOk result (λ o. MatchOption o (places_off count [] (stack operands.old.items) ≡ None)
        (λ ps. places_off count [] (stack operands.old.items)
        ≡ Some (map place_view ps.items, stack operands.new.items))) }
{
    match count {
        0 => Ok(Some(places)),
        1 => pop_one(places, operands),
        2 => pop_two(places, operands),
        _ => {
            let more = pop_more(places, operands, count)?;
            match more {
                Some(places) => Ok(Some(places)),
                None => Ok(None),
            }
        }
    }
}

/// Whether a generation is that of one of these places.
#[inline]
fn is_given(places: &[Place], generation: u32) -> bool
    ensures { result ≡ list_any (λ p. nat_eq p.generation generation) places.now }
{
    places.iter().any(|place| place.generation == generation)
}

/// Whether there is one generation alone, and it is that of the last of these places.
#[inline(always)]
fn is_last_given(places: &[Place], generations: &[u32]) -> bool
    ensures alone { result ≡ true → length generations.now ≡ 1 }
    ensures given { result ≡ true
        → list_all (λ g. list_any (λ p. nat_eq p.generation g) places.now) generations.now ≡ true }
{
    if generations.len() != 1 || places.is_empty() {
        return false;
    }
    places[places.len() - 1].generation == generations[0]
}

/// Whether each of these generations is that of one of these places.
#[inline]
fn are_given(places: &[Place], generations: &[u32]) -> bool
    ensures { result ≡ list_all (λ g. list_any (λ p. nat_eq p.generation g) places.now) generations.now }
{
    generations
        .iter()
        .all(|generation| is_given(places, *generation))
}

/// Those of pending dummy arguments that are among these places, and the others.
#[inline(never)]
fn hand_some_over(
    alloc: Global,
    pending: &[u32],
    places: &[Place],
) -> Result<(Vec<u32>, Vec<u32>), AllocError>
    ensures { IfOk result (λ parts. (parts.0.items ≡ filter (is_given (map place_view places.now)) pending.now)
        × (parts.1.items ≡ filter (λ g. not (is_given (map place_view places.now) g)) pending.now)) }
{
    let mut handed = Vec::new(alloc);
    let mut others = Vec::new(alloc);
    for generation in pending {
        if is_given(places, *generation) {
            handed.push(*generation)?;
        } else {
            others.push(*generation)?;
        }
    }
    Ok((handed, others))
}

/// Hands over those of pending dummy arguments that are among these places; the others stay. Takes no memory where all
/// are among them, but for the first that an activation receives.
#[inline(always)]
pub fn hand_over(
    alloc: Global,
    pending: &mut Vec<u32>,
    places: &[Place],
    handed: &mut Vec<u32>,
) -> Result<(), AllocError>
    requires { handed.old.items ≡ [] }
    ensures handed { IfOk result (λ _. handed.new.items
        ≡ filter (is_given (map place_view places.now)) pending.old.items) }
    ensures others { IfOk result (λ _. pending.new.items
        ≡ filter (λ g. not (is_given (map place_view places.now) g)) pending.old.items) }
{
    if pending.is_empty() {
        return Ok(());
    }
    if is_last_given(places, &*pending) {
        reserve_one(handed)?;
        handed.push_reserved(pending.take_last());
        return Ok(());
    }
    if are_given(places, &*pending) {
        mem::swap(pending, handed);
        return Ok(());
    }
    let (given, others) = hand_some_over(alloc, &*pending, places)?;
    *handed = given;
    *pending = others;
    Ok(())
}

/// The same where some are being prepared already.
#[inline(never)]
fn hand_further(
    alloc: Global,
    pending: &mut Vec<u32>,
    places: &[Place],
    handed: &mut Vec<u32>,
    last: u32,
) -> Result<(), AllocError>
    requires { handed.old.items ≡ [] }
    ensures handed { IfOk result (λ _. handed.new.items
        ≡ filter (is_given (map place_view places.now)) (pending.old.items ++ last ∷ [])) }
    ensures others { IfOk result (λ _. pending.new.items
        ≡ filter (λ g. not (is_given (map place_view places.now) g)) (pending.old.items ++ last ∷ [])) }
{
    pending.push(last)?;
    hand_over(alloc, pending, places, handed)
}

/// The same of those and one more, which is among these places. Where no other is pending, it is not noted there.
#[inline(always)]
pub fn hand_with_last(
    alloc: Global,
    pending: &mut Vec<u32>,
    places: &[Place],
    handed: &mut Vec<u32>,
    last: u32,
) -> Result<(), AllocError>
    requires none { handed.old.items ≡ [] }
    requires given { is_given (map place_view places.now) last ≡ true }
    ensures handed { IfOk result (λ _. handed.new.items
        ≡ filter (is_given (map place_view places.now)) (pending.old.items ++ last ∷ [])) }
    ensures others { IfOk result (λ _. pending.new.items
        ≡ filter (λ g. not (is_given (map place_view places.now) g)) (pending.old.items ++ last ∷ [])) }
{
    if !pending.is_empty() {
        return hand_further(alloc, pending, places, handed, last);
    }
    reserve_one(handed)?;
    handed.push_reserved(last);
    Ok(())
}
