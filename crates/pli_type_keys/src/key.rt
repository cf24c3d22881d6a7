//! Entries of tables, which are compared by what they say.
ghost use Rattle.std.specs.Prelude.{◌≡◌, map};
ghost use Rattle.std.specs.Bool.{beq};
ghost use Rattle.std.specs.Cmp.{on_per, on_equiv, partial_equiv_from_equiv};
ghost use Rattle.std.specs.Ordering.{on};
ghost use Rattle.std.specs.Hash as fed;
ghost use Rattle.std.proofs.Common.{ap};
ghost use Rattle.pli_map.specs.ParameterTypes.{same_type};
ghost use Rattle.pli_map.specs.laws.ParameterLaws.{same_type_equivalence, same_type_decides};
ghost use Rattle.pli_map.specs.views.ParameterView.{type_seen};
ghost use Rattle.pli_value.specs.Value.{value_view};
ghost use Rattle.pli_type_tree.specs.views.TemplateView.{initial_view};
ghost use Rattle.std.specs.Cmp.Lexicographic.{pointwise};
ghost use Rattle.pli_type_keys.specs.Same.{same_value, same_initial, same_template};
ghost use Rattle.pli_type_keys.specs.laws.KeyLaws.{value_decides, template_decides};
ghost use Rattle.pli_type_keys.specs.laws.KeyLaws.{same_value_equivalence, same_template_equivalence};
ghost use Rattle.pli_map.specs.Digests.{digest_of_type};
ghost use Rattle.pli_type_keys.specs.answers.Digests.{digest_of_template, digest_of_value};
ghost use Rattle.pli_type_keys.specs.views.KeyView.{described, templated, valued};

use crate::digest::{digest_of_initial, digest_of_value};
use pli_map::digest::{digest_of, digest_of_type};
use pli_map::{Description, TypeRef};
use pli_type_tree::InitialScalar;
use pli_value::Value;
use pli_value::bit::Bits;
use std::hash::{Hash, Hasher};

/// A description, or a type with a `*`, as a key of a table: equal types are one key, and a `*` equals a `*` only
/// (own).
#[derive(Clone, Copy)]
pub struct DescriptionKey<'a> {
    pub of: TypeRef<'a>,
}

/// Whether types are equal.
fn are_same_types(left: TypeRef<'_>, right: TypeRef<'_>) -> bool
    ensures { result ≡ same_type (type_seen left.entry) (type_seen right.entry) }
{
    left.equals(right)
}

impl PartialEq for DescriptionKey<'_> {
    ghost eq = { on described same_type };

    ghost laws = { on_per described (partial_equiv_from_equiv same_type_equivalence) };

    fn eq(&self, other: &Self) -> bool {
        are_same_types(self.of, other.of)
    }
}

impl Eq for DescriptionKey<'_> {
    ghost laws = { on_equiv described same_type_equivalence };
}

impl Hash for DescriptionKey<'_> {
    ghost hash_input = { λ k. fed.u64 (digest_of_type (described k)) };

    ghost respects_eq = { λ x y e. ap (λ t. fed.u64 (digest_of_type t))
        ((same_type_decides (described x) (described y)).0 e) };

    fn hash<H: Hasher>(&self, state: &mut H) {
        state.write_u64(digest_of_type(self.of));
    }
}

/// A template as a key of a table: templates of equal descriptions, with the same initial values, are one key (own).
#[derive(Clone, Copy)]
pub struct TemplateKey<'a> {
    pub description: &'a Description,
    pub initial: &'a [InitialScalar],
}

/// Whether bits are equal.
fn are_same_bits(left: &Bits, right: &Bits) -> bool
    ensures { result ≡ pointwise beq left.now right.now }
{
    if left.length() != right.length() {
        return false;
    }
    for place in 0..left.length() {
        if left.at(place) != right.at(place) {
            return false;
        }
    }
    true
}

/// Whether values are equal.
fn are_same_values(left: &Value, right: &Value) -> bool
    ensures { result ≡ same_value (value_view left.now) (value_view right.now) }
{
    match (left, right) {
        (Value::Number(left), Value::Number(right)) => left == right,
        (Value::Characters(left), Value::Characters(right)) => left == right,
        (Value::Bits(left), Value::Bits(right)) => are_same_bits(left, right),
        (Value::Locator(left), Value::Locator(right)) => left.equals(*right),
        _ => false,
    }
}

/// Whether one initial value equals another, of the same scalar.
fn is_same_initial(left: &InitialScalar, right: &InitialScalar) -> bool
    ensures { result ≡ same_initial (initial_view left.now) (initial_view right.now) }
{
    left.offset == right.offset && are_same_values(&left.value, &right.value)
}

/// Whether initial values are equal.
fn are_same_initial(left: &[InitialScalar], right: &[InitialScalar]) -> bool
    ensures { result ≡ pointwise same_initial (map initial_view left.now) (map initial_view right.now) }
{
    if left.len() != right.len() {
        return false;
    }
    for i in 0..left.len() {
        if !is_same_initial(&left[i], &right[i]) {
            return false;
        }
    }
    true
}

impl PartialEq for TemplateKey<'_> {
    ghost eq = { on templated same_template };

    ghost laws = { on_per templated (partial_equiv_from_equiv same_template_equivalence) };

    fn eq(&self, other: &Self) -> bool {
        *self.description == *other.description && are_same_initial(self.initial, other.initial)
    }
}

impl Eq for TemplateKey<'_> {
    ghost laws = { on_equiv templated same_template_equivalence };
}

impl Hash for TemplateKey<'_> {
    ghost hash_input = { λ k. fed.u64 (digest_of_template (templated k)) };

    ghost respects_eq = { λ x y e. ap (λ t. fed.u64 (digest_of_template t))
        ((template_decides (templated x) (templated y)).0 e) };

    fn hash<H: Hasher>(&self, state: &mut H) {
        state.write_u64(digest_of_initial(digest_of(self.description), self.initial));
    }
}

/// A value as a key of a table: equal values are one key (own).
#[derive(Clone, Copy)]
pub struct ValueKey<'a> {
    pub value: &'a Value,
}

impl PartialEq for ValueKey<'_> {
    ghost eq = { on valued same_value };

    ghost laws = { on_per valued (partial_equiv_from_equiv same_value_equivalence) };

    fn eq(&self, other: &Self) -> bool {
        are_same_values(self.value, other.value)
    }
}

impl Eq for ValueKey<'_> {
    ghost laws = { on_equiv valued same_value_equivalence };
}

impl Hash for ValueKey<'_> {
    ghost hash_input = { λ k. fed.u64 (digest_of_value (valued k)) };

    ghost respects_eq = { λ x y e. ap (λ v. fed.u64 (digest_of_value v)) ((value_decides (valued x) (valued y)).0 e) };

    fn hash<H: Hasher>(&self, state: &mut H) {
        state.write_u64(digest_of_value(self.value));
    }
}
