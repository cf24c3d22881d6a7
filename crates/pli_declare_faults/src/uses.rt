//! What the names that a unit uses mean, and their faults: each is looked up once.
ghost use Rattle.std.specs.Prelude.{◌≡◌, ℕ, ◌++◌, [], ◌∷◌, IfOk, OnOk};
ghost use Rattle.pli_declare_outline.specs.Outlines.{Outline as Outlined};
ghost use Rattle.pli_declare_outline.specs.views.OutlineView.{outline_view};
ghost use Rattle.pli_declare_scopes.specs.Scopes.{meant};
ghost use Rattle.pli_declare.specs.Tables.{scope_of};
ghost use Rattle.pli_declare.specs.Resolution.{names_of, reference_code, jump_code, is_function};
ghost use Rattle.pli_declare.specs.Resolved.{used_as, function_use};
ghost use Rattle.pli_declare_faults.specs.answers.Answers.{IsLookedUp};
ghost use Rattle.pli_declare_faults.specs.answers.Targets.{target_uses};

use crate::jumps::target_code;
use crate::look_up::{Looked, look_up, table_at};
use crate::scopes::Scopes;
use pli_base::syntax::Identifier;
use pli_base::{Code, Name};
use pli_declare::{Target, Use, is_built_in};
use std::alloc::{AllocError, Global};

/// What a name that is used means, if it means anything, and its fault.
#[derive(Clone, Copy)]
pub(crate) struct Used {
    pub target: Option<Target>,
    pub code: Option<Code>,
}

/// Whether names are one name that is a built-in function's.
fn is_function(names: &[Identifier]) -> bool
    ensures { result ≡ is_function names.now }
{
    match names {
        [name] => is_built_in(name.name),
        _ => false,
    }
}

/// The names of identifiers.
fn names_of(alloc: Global, identifiers: &[Identifier]) -> Result<Vec<Name>, AllocError>
    ensures { IfOk result (λ names. names.items ≡ names_of identifiers.now) }
{
    identifiers
        .iter()
        .map(|identifier| identifier.name)
        .collect(alloc)
}

/// What a reference means, of whose names this was found, and its fault. Ambiguous names mean nothing.
fn reference_with(names: &[Identifier], looked: Looked) -> Used
    ensures code { (o : Outlined) (here : ℕ) → IsLookedUp looked o here (names_of names.now) →
        result.code ≡ reference_code names.now (meant (scope_of o here) (names_of names.now)) }
    ensures target { (o : Outlined) (here at : ℕ) → IsLookedUp looked o here (names_of names.now)
        → target_uses at result.target ≡ used_as o here at (function_use at names.now)
        (meant (scope_of o here) (names_of names.now)) }
{
    match looked {
        Looked::Found { block, number } => Used {
            target: Some(Target::Name { block, number }),
            code: None,
        },
        Looked::Ambiguous => Used {
            target: None,
            code: Some(Code::Ambiguous),
        },
        Looked::NotDeclared if is_function(names) => Used {
            target: Some(Target::Function),
            code: None,
        },
        Looked::NotDeclared => Used {
            target: None,
            code: Some(Code::NotDeclared),
        },
    }
}

/// What names that are joined mean in a region. For one name no memory is taken.
fn meant_by(
    alloc: Global,
    scopes: &Scopes,
    here: usize,
    names: &[Identifier],
) -> Result<Looked, AllocError>
    ensures { IfOk result (λ looked. IsLookedUp looked (outline_view scopes.now.outline.now) here
        (names_of names.now)) }
{
    match names {
        [name] => Ok(look_up(scopes, here, &[name.name])),
        _ => {
            let joined = names_of(alloc, names)?;
            Ok(look_up(scopes, here, &joined))
        }
    }
}

/// What a reference in a region means, and its fault.
pub(crate) fn reference(
    alloc: Global,
    scopes: &Scopes,
    here: usize,
    names: &[Identifier],
) -> Result<Used, AllocError>
    ensures code { IfOk result (λ used. used.code ≡ reference_code names.now
        (meant (scope_of (outline_view scopes.now.outline.now) here) (names_of names.now))) }
    ensures target { IfOk result (λ used. (at : ℕ) → target_uses at used.target
        ≡ used_as (outline_view scopes.now.outline.now) here at (function_use at names.now)
        (meant (scope_of (outline_view scopes.now.outline.now) here) (names_of names.now))) }
{
    let looked = meant_by(alloc, scopes, here, names)?;
    Ok(reference_with(names, looked))
}

/// What the label of a GOTO in a region means, and its fault.
pub(crate) fn jump(scopes: &Scopes, here: usize, label: Name) -> Used
    ensures code { result.code ≡ jump_code (outline_view scopes.now.outline.now) here
        (meant (scope_of (outline_view scopes.now.outline.now) here) (label ∷ [])) }
    ensures target { (at : ℕ) → target_uses at result.target
        ≡ used_as (outline_view scopes.now.outline.now) here at []
        (meant (scope_of (outline_view scopes.now.outline.now) here) (label ∷ [])) }
{
    match look_up(scopes, here, &[label]) {
        Looked::Found { block, number } => {
            let entry = &table_at(scopes.outline, scopes.tables, block).entries[number];
            Used {
                target: Some(Target::Name { block, number }),
                code: target_code(scopes.outline, scopes.nesting, here, entry.entity),
            }
        }
        Looked::Ambiguous => Used {
            target: None,
            code: Some(Code::Ambiguous),
        },
        Looked::NotDeclared => Used {
            target: None,
            code: Some(Code::NotDeclared),
        },
    }
}

/// What the name at a token means, if it means anything, after other uses.
pub(crate) fn add_use(
    uses: &mut Vec<Use>,
    at: u32,
    target: Option<Target>,
) -> Result<(), AllocError>
    ensures { OnOk result (uses.new.items ≡ uses.old.items ++ target_uses at target) }
{
    if let Some(target) = target {
        uses.push(Use { at, target })?;
    }
    Ok(())
}
