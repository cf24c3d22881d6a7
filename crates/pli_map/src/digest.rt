//! Digests of descriptions, by which tables are searched (own).
ghost use Rattle.std.specs.Prelude.{◌≡◌};
ghost use Rattle.std.specs.Hash as fed;
ghost use Rattle.std.proofs.Common.{ap};
ghost use Rattle.pli_map.specs.Digests.{mixed, digest_of, digest_of_bounds, digest_of_members, digest_of_form};
ghost use Rattle.pli_map.specs.Digests.{digest_of_type, digest_of_types};
ghost use Rattle.pli_map.specs.laws.SameLaws.{same_decides};
ghost use Rattle.pli_map.specs.views.DescriptionView.{description_view, members_view};
ghost use Rattle.pli_map.specs.views.ParameterView.{type_view, types_view, type_seen};

use crate::description::{Bounds, Description};
use crate::parameter::{ParameterType, StringForm, TypeRef};
use std::hash::{Hash, Hasher};

/// A digest with a number more.
pub fn mixed(digest: u64, number: u64) -> u64
    ensures { result ≡ mixed digest number }
{
    digest.wrapping_mul(1_099_511_628_211).wrapping_add(number)
}

/// A digest with the bounds of an array more.
fn digest_of_bounds(digest: u64, bounds: &[Bounds]) -> u64
    ensures { result ≡ digest_of_bounds digest bounds.now }
{
    let mut whole = digest;
    for dimension in bounds {
        whole = mixed(whole, u64::from(dimension.low.unsigned_abs()));
        whole = mixed(whole, u64::from(dimension.high.unsigned_abs()));
    }
    whole
}

/// The digest of a description.
#[cycle(digest)]
pub fn digest_of(description: &Description) -> u64
    ensures { result ≡ digest_of (description_view description.now) }
{
    match description {
        Description::FixedBinary(precision) => mixed(1, u64::from(*precision)),
        Description::Character(length) => mixed(2, u64::from(*length)),
        Description::Varying(length) => mixed(3, u64::from(*length)),
        Description::Bit(length) => mixed(4, u64::from(*length)),
        Description::Pointer => 5,
        Description::Offset => 6,
        Description::Area(bytes) => mixed(7, u64::from(*bytes).next_multiple_of(8)),
        Description::Array { bounds, element } => {
            mixed(digest_of_bounds(8, bounds), digest_of(element))
        }
        Description::Structure(members) => digest_of_members(members),
    }
}

/// The digest of a structure.
#[cycle(digest)]
fn digest_of_members(members: &[Description]) -> u64
    ensures { result ≡ digest_of_members 9 (members_view members.now) }
{
    let mut whole = 9;
    for member in members {
        whole = mixed(whole, digest_of(member));
    }
    whole
}

/// The digest of a form of strings.
fn digest_of_form(form: StringForm) -> u64
    ensures { result ≡ digest_of_form form }
{
    match form {
        StringForm::Character => 10,
        StringForm::Varying => 11,
        StringForm::Bit => 12,
    }
}

/// The digest of a type that stands in memory of its own.
#[cycle(type_digest)]
fn digest_of_open(taken: &ParameterType) -> u64
    ensures { result ≡ digest_of_type (type_view taken.now) }
{
    match taken {
        ParameterType::Stated(description) => digest_of(description),
        ParameterType::AnyString(form) => digest_of_form(*form),
        ParameterType::AnyArray {
            dimensions,
            element,
        } => mixed(mixed(13, u64::from(*dimensions)), digest_of_open(element)),
        ParameterType::ArrayOf { bounds, element } => {
            mixed(digest_of_bounds(14, bounds), digest_of_open(element))
        }
        ParameterType::StructureOf(members) => digest_of_types(members),
    }
}

/// The digest of an open structure.
#[cycle(type_digest)]
fn digest_of_types(members: &[ParameterType]) -> u64
    ensures { result ≡ digest_of_types 15 (types_view members.now) }
{
    let mut whole = 15;
    for member in members {
        whole = mixed(whole, digest_of_open(member));
    }
    whole
}

/// The digest of a type.
pub fn digest_of_type(taken: TypeRef<'_>) -> u64
    ensures { result ≡ digest_of_type (type_seen taken.entry) }
{
    match taken {
        TypeRef::Stated(description) => digest_of(description),
        TypeRef::Open(taken) => digest_of_open(taken),
    }
}

impl Hash for Description {
    ghost hash_input = { λ d. fed.u64 (digest_of (description_view d)) };

    ghost respects_eq = { λ d e h. ap (λ f. fed.u64 (digest_of f))
        ((same_decides (description_view d) (description_view e)).0 h) };

    fn hash<H: Hasher>(&self, state: &mut H) {
        state.write_u64(digest_of(self));
    }
}
