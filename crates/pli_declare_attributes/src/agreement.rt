//! Which attributes agree, and which are missing.
ghost use Rattle.std.specs.Prelude.{◌≡◌, [], ◌∷◌};
ghost use Rattle.std.specs.Int.RustNames.{bit_and};
ghost use Rattle.pli_declare.specs.Sets.{fixed, binary, automatic, static, based, controlled, internal};
ghost use Rattle.pli_declare.specs.Sets.{external, is_one_of, data_attributes, storage_attributes};
ghost use Rattle.pli_declare.specs.Sets.{scope_attributes};
ghost use Rattle.pli_declare.specs.Agreement.{is_at_level_one, may_have_members, excluded_at, data_types};
ghost use Rattle.pli_declare.specs.Agreement.{is_plain, agrees_as_entry, agrees_as_built_in};
ghost use Rattle.pli_declare.specs.Agreement.{agrees_as_variable, set_agrees, is_missing};

use crate::set::AttributeSet;
use bitflags::Flags;
use pli_declare::{ItemPlace, Position};

/// Whether the data attributes are those of one data type. Of FIXED and BINARY one may be missing, and so may all:
/// these are faults of their own.
fn has_one_data_type(set: AttributeSet) -> bool
    ensures { result ≡ is_one_of (bit_and set.0 data_attributes) data_types }
{
    set.has_one_of(
        AttributeSet::DATA,
        &[
            AttributeSet::empty(),
            AttributeSet::FIXED,
            AttributeSet::BINARY,
            AttributeSet::FIXED_BINARY,
            AttributeSet::CHARACTER,
            AttributeSet::VARYING_CHARACTER,
            AttributeSet::BIT,
            AttributeSet::POINTER,
            AttributeSet::OFFSET,
            AttributeSet::AREA,
        ],
    )
}

/// Whether there is at most one storage class.
fn has_one_storage(set: AttributeSet) -> bool
    ensures { result ≡ is_one_of (bit_and set.0 storage_attributes)
        (0 ∷ automatic ∷ static ∷ based ∷ controlled ∷ []) }
{
    set.has_one_of(
        AttributeSet::STORAGE,
        &[
            AttributeSet::empty(),
            AttributeSet::AUTOMATIC,
            AttributeSet::STATIC,
            AttributeSet::BASED,
            AttributeSet::CONTROLLED,
        ],
    )
}

/// Whether there is at most one scope.
fn has_one_scope(set: AttributeSet) -> bool
    ensures { result ≡ is_one_of (bit_and set.0 scope_attributes) (0 ∷ internal ∷ external ∷ []) }
{
    set.has_one_of(
        AttributeSet::SCOPE,
        &[
            AttributeSet::empty(),
            AttributeSet::INTERNAL,
            AttributeSet::EXTERNAL,
        ],
    )
}

/// What may not stand at a position.
fn excluded(position: Position) -> AttributeSet
    ensures { result.0 ≡ excluded_at position }
{
    match position {
        Position::AtLevelOne => AttributeSet::empty(),
        Position::Member => AttributeSet::STORAGE.and(AttributeSet::SCOPE),
        Position::Parameter => AttributeSet::STORAGE
            .and(AttributeSet::SCOPE)
            .and(AttributeSet::INITIAL),
        Position::Result => AttributeSet::STORAGE
            .and(AttributeSet::SCOPE)
            .and(AttributeSet::INITIAL)
            .and(AttributeSet::AREA),
    }
}

fn takes_members(position: Position) -> bool
    ensures { result ≡ may_have_members position }
{
    match position {
        Position::AtLevelOne | Position::Member => true,
        Position::Parameter | Position::Result => false,
    }
}

/// Whether a name of level 1 is neither an array nor a structure.
fn plain(place: ItemPlace, array: bool) -> bool
    ensures { result ≡ is_plain place array }
{
    let at_level_one = matches!(place.position, Position::AtLevelOne);
    at_level_one && !place.has_members && !array
}

/// ENTRY with RETURNS and EXTERNAL only.
fn entry_agrees(place: ItemPlace, array: bool, set: AttributeSet) -> bool
    ensures { result ≡ agrees_as_entry place array set.0 }
{
    let allowed = AttributeSet::ENTRY
        .and(AttributeSet::RETURNS)
        .and(AttributeSet::EXTERNAL);
    plain(place, array) && set.has(AttributeSet::ENTRY) && set.is_within(allowed)
}

/// BUILTIN alone, on the name of a built-in function.
fn built_in_agrees(place: ItemPlace, array: bool, set: AttributeSet) -> bool
    ensures { result ≡ agrees_as_built_in place array set.0 }
{
    plain(place, array) && place.built_in_name && set == AttributeSet::BUILTIN
}

/// What makes a variable, a member, a parameter or a result.
fn variable_agrees(place: ItemPlace, set: AttributeSet) -> bool
    ensures { result ≡ agrees_as_variable place set.0 }
{
    let other = AttributeSet::ENTRY.and(AttributeSet::BUILTIN);
    let not_external = AttributeSet::AUTOMATIC.and(AttributeSet::BASED);
    let no_data = set.has_none_of(AttributeSet::DATA);
    set.has_none_of(other)
        && has_one_data_type(set)
        && has_one_storage(set)
        && has_one_scope(set)
        && (set.has_none_of(AttributeSet::EXTERNAL) || set.has_none_of(not_external))
        && (set.has_none_of(AttributeSet::RETURNS) || no_data && !place.has_members)
        && set.has_none_of(excluded(place.position))
        && (!place.has_members || takes_members(place.position) && no_data)
}

/// Whether attributes that stand once each agree.
#[tactic(auto, unfolding(pli_declare::specs::Agreement::set_agrees))]
pub(crate) fn agree(place: ItemPlace, array: bool, set: AttributeSet) -> bool
    ensures { result ≡ set_agrees place array set.0 }
{
    entry_agrees(place, array, set)
        || built_in_agrees(place, array, set)
        || variable_agrees(place, set)
}

/// Whether the data attributes are none, or one of FIXED and BINARY.
fn lacks_data(set: AttributeSet) -> bool
    ensures { result ≡ is_one_of (bit_and set.0 data_attributes) (0 ∷ fixed ∷ binary ∷ []) }
{
    set.has_one_of(
        AttributeSet::DATA,
        &[
            AttributeSet::empty(),
            AttributeSet::FIXED,
            AttributeSet::BINARY,
        ],
    )
}

/// Whether an attribute is missing.
#[tactic(auto, unfolding(pli_declare::specs::Agreement::is_missing))]
pub(crate) fn missing(place: ItemPlace, set: AttributeSet) -> bool
    ensures { result ≡ is_missing place set.0 }
{
    let other = AttributeSet::ENTRY.and(AttributeSet::BUILTIN);
    set.has(AttributeSet::RETURNS) && set.has_none_of(AttributeSet::ENTRY)
        || !place.has_members && set.has_none_of(other) && lacks_data(set)
}
