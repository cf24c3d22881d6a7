//! Which variables are too large. What the items take goes from the last to the first, so that no tree is built, and
//! nothing recurs as deep as structures nest.
ghost use Rattle.std.specs.Prelude.{◌≡◌, ◌<◌, ◌+◌, ◌++◌, ◌∷◌, [], ◌&&◌, not, false, map, length, get_or, set, Some};
ghost use Rattle.std.specs.Prelude.{Option, option_map, OnOk, IfOk, ℕ};
ghost use Rattle.std.specs.Option.{is_none};
ghost use Rattle.pli_map.specs.Description.{Description, Structure, Members};
ghost use Rattle.pli_declare.specs.Extents.{all_bounds, are_bad_bounds};
ghost use Rattle.pli_declare.specs.Faults.{with_bounds, described_scalar};
ghost use Rattle.pli_declare.specs.Sets.{outermost};
ghost use Rattle.pli_declare.specs.answers.Owners.{AreAfterOwners};
ghost use Rattle.pli_declare.specs.Tables.{numbers_from};
ghost use Rattle.pli_declare_tables.specs.views.TableView.{entry_view, entries_view};
ghost use Rattle.pli_declare.specs.Descriptions.{is_of_shape, described, inside, members_made, member_then};
ghost use Rattle.pli_declare.specs.Descriptions.{is_large, is_starred, is_large_at, ShapesAreSound};
ghost use Rattle.pli_declare_variables.specs.answers.Measures.{of_layout, IsMeasured, AreMeasured, IsFront};
ghost use Rattle.pli_declare.specs.Places as places;
ghost use Rattle.pli_declare.specs.Places.{item_in, members_of};
ghost use Rattle.pli_declare_variables.specs.declared.sizes.Measured.TheVariants as variants;

use crate::items::{dimensions, is_starred, is_variable, layout};
use pli_base::Code;
use pli_base::declaration::WrittenBounds;
use pli_declare_attributes::array_layout;
use pli_declare_tables::Entry;
use pli_map::Layout;
use std::alloc::{AllocError, Global};

/// What an item takes, as far as it is known.
#[derive(Clone, Copy)]
pub(crate) enum Measured {
    /// It, or an item in it, has one of A3 to A7.
    Unknown,
    /// Over 1,000,000 bytes.
    TooLarge,
    Takes(Layout),
}

impl Measured {
    /// A layout, or none where it is over the limit.
    fn of(layout: Option<Layout>) -> Measured
        ensures { result ≡ of_layout layout }
    {
        match layout {
            Some(layout) => Measured::Takes(layout),
            None => Measured::TooLarge,
        }
    }

    /// Members up to here and one more.
    fn and(self, member: Measured) -> Measured
        ensures { (d : Option Description) (others whole : Option Members) → IsMeasured member d →
            IsFront self (member_then d others) whole
            → IsFront result others whole }
    {
        match (self, member) {
            (Measured::Unknown, _) | (_, Measured::Unknown) => Measured::Unknown,
            (Measured::Takes(before), Measured::Takes(member)) => Measured::of(before.and(member)),
            _ => Measured::TooLarge,
        }
    }

    /// An array of these dimensions, which are good, or the element itself where there are none.
    fn with_dimensions(self, dimensions: &[WrittenBounds]) -> Measured
        requires { are_bad_bounds dimensions.now ≡ false }
        ensures { (d : Option Description) → IsMeasured self d →
            IsMeasured result (option_map (with_bounds (all_bounds dimensions.now)) d) }
    {
        if dimensions.is_empty() {
            return self;
        }
        match self {
            Measured::Takes(element) => Measured::of(array_layout(element, dimensions)),
            _ => self,
        }
    }

    /// Whether it is known to be over the limit.
    fn is_too_large(self) -> bool
        ensures { (d : Option Description) → IsMeasured self d → result ≡ is_large d }
    {
        matches!(self, Measured::TooLarge)
    }
}

/// What the item of a number takes.
fn measured_at(measured: &[Measured], number: usize) -> Measured
    ensures { result ≡ get_or measured.now number variants.Unknown }
{
    match measured.get(number) {
        Some(known) => *known,
        None => Measured::Unknown,
    }
}

/// What a structure of these members takes.
fn structure(members: &[usize], measured: &[Measured]) -> Measured
    ensures { (describe : ℕ → Option Description) → AreMeasured describe measured.now members.now
        → IsMeasured result (option_map Structure (members_made describe members.now)) }
{
    let mut whole = Measured::Takes(Layout::empty());
    for number in members {
        whole = whole.and(measured_at(measured, *number));
    }
    whole
}

/// What an item takes whose bounds are good, with these members.
fn measure(entry: &Entry, members: &[usize], measured: &[Measured]) -> Measured
    requires { are_bad_bounds (item_in (entry_view entry.now).entity).dimensions ≡ false }
    ensures { let item = item_in (entry_view entry.now).entity in
        (describe : ℕ → Option Description) → AreMeasured describe measured.now members.now
        → IsMeasured result (option_map (with_bounds (all_bounds item.dimensions))
        (inside describe (described_scalar (map outermost item.attributes)) members.now)) }
{
    let inside = if members.is_empty() {
        Measured::of(layout(entry))
    } else {
        structure(members, measured)
    };
    inside.with_dimensions(dimensions(entry))
}

/// Whether the item of a number has one of A3 to A7.
pub(crate) fn has_bad_shape(codes: &[Option<Code>], number: usize) -> bool
    ensures { result ≡ is_of_shape (get_or codes.now number None) }
{
    match codes.get(number) {
        Some(Some(code)) => *code <= Code::BadBounds,
        _ => false,
    }
}

/// Adds a member to its owner's.
fn add(members: &mut Vec<Vec<usize>>, owner: usize, number: usize) -> Result<(), AllocError>
    requires { owner < length members.old.items }
    ensures { OnOk result (map (λ v. v.items) members.new.items
        ≡ set (map (λ v. v.items) members.old.items) owner (get_or (map (λ v. v.items) members.old.items) owner []
        ++ number ∷ [])) }
{
    members[owner].push(number)?;
    Ok(())
}

/// The members of each item.
pub(crate) fn members_by_owner(
    alloc: Global,
    entries: &[Entry],
) -> Result<Vec<Vec<usize>>, AllocError>
    requires { AreAfterOwners (entries_view entries.now) }
    ensures { IfOk result (λ members. map (λ v. v.items) members.items
        ≡ map (members_of (entries_view entries.now)) (numbers_from 0 (length entries.now))) }
{
    let mut members = Vec::with_capacity(alloc, entries.len())?;
    for _ in 0..entries.len() {
        members.push(Vec::new(alloc))?;
    }
    for number in 0..entries.len() {
        let entry = &entries[number];
        if let Some(owner) = entry.owner {
            add(&mut members, owner, number)?;
        }
    }
    Ok(members)
}

/// What each item takes: each after its members, which stand after it.
fn measure_all(
    alloc: Global,
    entries: &[Entry],
    codes: &[Option<Code>],
) -> Result<Vec<Measured>, AllocError>
    requires owners { AreAfterOwners (entries_view entries.now) }
    requires sound { ShapesAreSound (entries_view entries.now) codes.now }
    ensures { IfOk result (λ measured. (n : ℕ) → n < length entries.now
        → IsMeasured (get_or measured.items n variants.Unknown)
        (described (length entries.now) (entries_view entries.now) codes.now n)) }
{
    let members = members_by_owner(alloc, entries)?;
    let mut measured = vec![in alloc; Measured::Unknown; entries.len()]?;
    for done in 0..entries.len() {
        let number = entries.len() - 1 - done;
        let taken = if has_bad_shape(codes, number) {
            Measured::Unknown
        } else {
            measure(&entries[number], &members[number], &measured)
        };
        measured[number] = taken;
    }
    Ok(measured)
}

/// Whether an entry is a variable of its own, and over the limit; no `*` stands in it.
fn is_large_variable(entry: &Entry, is_over: bool) -> bool
    ensures { result ≡ (is_none (entry_view entry.now).owner && places.is_variable (entry_view entry.now).entity
        && is_over
        && not (is_starred (item_in (entry_view entry.now).entity))) }
{
    entry.owner.is_none() && is_variable(entry) && is_over && !is_starred(entry)
}

/// For each entry whether it is a variable of its own that is too large, where its size is known.
pub(crate) fn too_large(
    alloc: Global,
    entries: &[Entry],
    codes: &[Option<Code>],
) -> Result<Vec<bool>, AllocError>
    requires owners { AreAfterOwners (entries_view entries.now) }
    requires sound { ShapesAreSound (entries_view entries.now) codes.now }
    ensures { IfOk result (λ large. large.items ≡ map (is_large_at (entries_view entries.now) codes.now)
        (numbers_from 0 (length entries.now))) }
{
    let measured = measure_all(alloc, entries, codes)?;
    let mut large = Vec::with_capacity(alloc, entries.len())?;
    for number in 0..entries.len() {
        let is_over = measured_at(&measured, number).is_too_large();
        large.push(is_large_variable(&entries[number], is_over))?;
    }
    Ok(large)
}
