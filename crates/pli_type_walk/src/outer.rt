//! What the external procedure takes and gives, and whether a program may begin with it.
ghost use Rattle.std.specs.Prelude.{◌≡◌, IfOk, map, option_map};
ghost use Rattle.std.specs.List.{list_any};
ghost use Rattle.pli_base.specs.views.StatementView.{option_view, unit_view};
ghost use Rattle.pli_map.specs.views.DescriptionView.{description_view};
ghost use Rattle.pli_map.specs.views.ParameterView.{type_seen, type_view};
ghost use Rattle.pli_type_rules.specs.Checked as spec;
ghost use Rattle.pli_type_parts.specs.Parts.{unit_named};
ghost use Rattle.pli_type_tree.specs.views.GlobalView.{signature_view};

use pli_base::statement::{Procedure, ProcedureOption};
use pli_map::{Description, ParameterType, TypeRef};
use pli_type_names::Naming;
use pli_type_tree::Signature;
use std::alloc::{AllocError, Global};

/// Copies of types.
fn copies(alloc: Global, types: &[TypeRef<'_>]) -> Result<Vec<ParameterType>, AllocError>
    ensures { IfOk result (λ made. map type_view made.items ≡ map type_seen types.now) }
{
    let mut made = Vec::new(alloc);
    for taken in types {
        made.push(taken.copy(alloc)?)?;
    }
    Ok(made)
}

/// A copy of a description, if there is one.
fn copy_of(
    alloc: Global,
    description: Option<&Description>,
) -> Result<Option<Description>, AllocError>
    ensures { IfOk result (λ made. option_map description_view made
        ≡ option_map (λ d. description_view d.now) description.entry) }
{
    match description {
        Some(description) => Ok(Some(description.copy(alloc)?)),
        None => Ok(None),
    }
}

/// What the external procedure of a unit takes, and what it gives if it is a function.
#[tactic(auto, using(crate::proofs::Units::signature_found))]
pub fn outer_signature(alloc: Global, naming: &Naming<'_>) -> Result<Signature, AllocError>
    ensures { IfOk result (λ made. signature_view made ≡ spec.outer_signature (unit_named naming.now.unit)) }
{
    let outer = naming.procedure(0);
    let parameters = copies(alloc, outer.parameters)?;
    let result = copy_of(alloc, outer.returned)?;
    Ok(Signature { parameters, result })
}

/// Whether a procedure takes nothing and gives nothing.
fn takes_nothing(signature: &Signature) -> bool
    ensures { result ≡ spec.takes_nothing (signature_view signature.now) }
{
    match signature.parameters.as_slice() {
        [] => signature.result.is_none(),
        _ => false,
    }
}

/// Whether an option is OPTIONS(MAIN).
fn is_main_option(option: &ProcedureOption) -> bool
    ensures { result ≡ spec.is_main_option (option_view option.now) }
{
    matches!(option, ProcedureOption::Main)
}

/// Whether one of the options is OPTIONS(MAIN).
fn any_main(options: &[ProcedureOption]) -> bool
    ensures { result ≡ list_any (λ option. spec.is_main_option (option_view option)) options.now }
{
    options.iter().any(|option| is_main_option(option))
}

/// Whether a unit has OPTIONS(MAIN).
#[tactic(auto, using(crate::proofs::Units::main_unit))]
fn is_main(unit: &Procedure) -> bool
    ensures { result ≡ spec.is_main (unit_view unit.now) }
{
    any_main(unit.options.as_slice())
}

/// Whether a program may begin with a unit, whose external procedure takes and gives this.
pub(crate) fn may_begin(unit: &Procedure, signature: &Signature) -> bool
    ensures { result ≡ spec.may_begin (unit_view unit.now) (signature_view signature.now) }
{
    is_main(unit) && takes_nothing(signature)
}
