//! Templates of units, and whether kinds of variables and signatures of two units are alike.
ghost use Rattle.std.specs.Prelude.{◌≡◌, Some, map, option_map};
ghost use Rattle.std.specs.Cmp.Lexicographic.{pointwise};
ghost use Rattle.std.specs.Option.{option_eq};
ghost use Rattle.pli_map.specs.ParameterTypes.{same_type};
ghost use Rattle.pli_map.specs.views.ParameterView.{type_view};
ghost use Rattle.pli_code.specs.CodeTables as tables;
ghost use Rattle.pli_code.specs.views.CodeView.{code_view, coded_template_view, signature_view};
ghost use Rattle.pli_link.specs.Alike as spec;
ghost use Rattle.pli_type_keys.specs.views.KeyView.{templated};

use pli_code::{Code, CodedSignature, CodedTemplate};
use pli_map::ParameterType;
use pli_program::VariableKind;
use pli_type_keys::{DescriptionKey, TemplateKey};

/// Whether variables are both STATIC, or both CONTROLLED.
pub(crate) fn is_same_kind(left: VariableKind, right: VariableKind) -> bool
    ensures { result ≡ spec.same_kind left right }
{
    match (left, right) {
        (VariableKind::Static, VariableKind::Static)
        | (VariableKind::Controlled, VariableKind::Controlled) => true,
        (VariableKind::Static, VariableKind::Controlled)
        | (VariableKind::Controlled, VariableKind::Static) => false,
    }
}

/// The description of this number, or the type with a `*`, if the table has it.
fn type_at(code: &Code, number: u16) -> Option<&ParameterType>
    ensures { option_map (λ t. type_view t.now) result ≡ spec.description_at (code_view code.now) number }
{
    code.descriptions.get(usize::from(number))
}

/// A template of a unit, if the tables have its description.
fn found_template<'a>(code: &'a Code, template: &'a CodedTemplate) -> Option<TemplateKey<'a>>
    ensures { option_map templated result ≡ tables.with_description (code_view code.now)
        (Some (coded_template_view template.now)) }
{
    Some(TemplateKey {
        description: code.description(template.description)?,
        initial: template.initial.as_slice(),
    })
}

/// The template of this number, if the tables have it.
pub(crate) fn template_at(code: &Code, number: u16) -> Option<TemplateKey<'_>>
    ensures { option_map templated result ≡ tables.template_at (code_view code.now) number }
{
    let template = code.templates.get(usize::from(number))?;
    found_template(code, template)
}

/// Whether types are equal; a `*` equals a `*` only.
fn are_same_types(left: &ParameterType, right: &ParameterType) -> bool
    ensures { result ≡ same_type (type_view left.now) (type_view right.now) }
{
    let left = DescriptionKey { of: left.lent() };
    let right = DescriptionKey { of: right.lent() };
    left == right
}

/// Whether types of these numbers are equal.
fn is_same_description(left: &Code, left_number: u16, right: &Code, right_number: u16) -> bool
    ensures { result ≡ spec.same_found (spec.description_at (code_view left.now) left_number)
        (spec.description_at (code_view right.now) right_number) }
{
    match (type_at(left, left_number), type_at(right, right_number)) {
        (None, None) => true,
        (Some(left), Some(right)) => are_same_types(left, right),
        _ => false,
    }
}

/// Whether lists of numbers have equal types.
fn are_same_descriptions(
    left: &Code,
    left_numbers: &[u16],
    right: &Code,
    right_numbers: &[u16],
) -> bool
    ensures { result ≡ pointwise spec.same_found (map (spec.description_at (code_view left.now)) left_numbers.now)
        (map (spec.description_at (code_view right.now)) right_numbers.now) }
{
    if left_numbers.len() != right_numbers.len() {
        return false;
    }
    for i in 0..left_numbers.len() {
        if !is_same_description(left, left_numbers[i], right, right_numbers[i]) {
            return false;
        }
    }
    true
}

/// Whether results are equal, or both absent.
fn is_same_result(
    left: &Code,
    left_result: Option<u16>,
    right: &Code,
    right_result: Option<u16>,
) -> bool
    ensures { result ≡ option_eq spec.same_found (option_map (spec.description_at (code_view left.now)) left_result)
        (option_map (spec.description_at (code_view right.now)) right_result) }
{
    match (left_result, right_result) {
        (None, None) => true,
        (Some(left_number), Some(right_number)) => {
            is_same_description(left, left_number, right, right_number)
        }
        _ => false,
    }
}

/// Whether signatures have the same parameters, and the same result or none.
pub(crate) fn is_same_signature(
    left: &Code,
    left_signature: &CodedSignature,
    right: &Code,
    right_signature: &CodedSignature,
) -> bool
    ensures { result ≡ spec.same_signature (spec.signature_at (code_view left.now) (signature_view left_signature.now))
        (spec.signature_at (code_view right.now) (signature_view right_signature.now)) }
{
    are_same_descriptions(
        left,
        &left_signature.parameters,
        right,
        &right_signature.parameters,
    ) && is_same_result(left, left_signature.result, right, right_signature.result)
}
