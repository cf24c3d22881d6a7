//! Groups of globals that stand in a row and are alike.
ghost use Rattle.std.specs.Prelude.{◌≡◌, ◌≤◌, ◌∷◌, ◌++◌, IfOk, OnOk, length, map, option_map, take, true};
ghost use Rattle.std.specs.List.{All};
ghost use Rattle.std.specs.Option.{option_to_list};
ghost use Rattle.pli_map.specs.views.DescriptionView.{description_view};
ghost use Rattle.pli_map.specs.views.ParameterView.{type_view};
ghost use Rattle.pli_type_templates.specs.Globals.{IsLike, name_in, names_in};
ghost use Rattle.pli_type_templates.specs.views.NumberView.{marks_of};
ghost use Rattle.pli_type_templates.specs.views.PlacedView.{HasGlobalItem, global_view, unit_global_view};
ghost use Rattle.pli_type_tree.specs.views.GlobalView.{global_group_view, globals_view, signature_view};

use crate::groups::{is_made_alike, variable_group, variable_template};
use crate::item_numbers::ItemNumbers;
use crate::placed_globals::{PlacedGlobal, UnitGlobal};
use pli_base::Name;
use pli_map::{Description, ParameterType};
use pli_type_tree::{GlobalGroup, Signature};
use std::alloc::{AllocError, Global};

/// Copies of types.
fn copies(alloc: Global, types: &[ParameterType]) -> Result<Vec<ParameterType>, AllocError>
    ensures { IfOk result (λ made. map type_view made.items ≡ map type_view types.now) }
{
    let mut made = Vec::new(alloc);
    for taken in types {
        made.push(taken.copy(alloc)?)?;
    }
    Ok(made)
}

/// What an entry says that an external procedure takes and gives.
fn entry_signature(
    alloc: Global,
    parameters: &[ParameterType],
    returned: Option<&Description>,
) -> Result<Signature, AllocError>
    ensures { IfOk result (λ made. signature_view made ≡ record {
      parameters = map type_view parameters.now;
      result = option_map (λ d. description_view d.now) returned.entry;
    }) }
{
    let parameters = copies(alloc, parameters)?;
    let result = match returned {
        Some(description) => Some(description.copy(alloc)?),
        None => None,
    };
    Ok(Signature { parameters, result })
}

/// Whether globals are of one kind, and are made from one template or take and give the same.
fn is_alike(items: &ItemNumbers<'_>, left: &PlacedGlobal<'_>, right: &PlacedGlobal<'_>) -> bool
    ensures { result ≡ true → HasGlobalItem (marks_of items.now) left.now → HasGlobalItem (marks_of items.now) right.now
        → IsLike (global_view left.now) (global_view right.now) }
{
    match (&left.global, &right.global) {
        (
            UnitGlobal::OwnVariable { kind, made },
            UnitGlobal::OwnVariable {
                kind: other,
                made: further,
            },
        ) => kind == other && is_made_alike(items, made, further),
        (
            UnitGlobal::ExternalVariable { kind, made, .. },
            UnitGlobal::ExternalVariable {
                kind: other,
                made: further,
                ..
            },
        ) => kind == other && is_made_alike(items, made, further),
        (UnitGlobal::EntryPoint { .. }, UnitGlobal::EntryPoint { .. }) => {
            items.are_of_one(left.at, right.at)
        }
        _ => false,
    }
}

/// How many globals, from the first on, are like this one.
fn alike_after(
    items: &ItemNumbers<'_>,
    first: &PlacedGlobal<'_>,
    more: &[PlacedGlobal<'_>],
) -> usize
    ensures within { result ≤ length more.now }
    ensures alike { HasGlobalItem (marks_of items.now) first.now → All (HasGlobalItem (marks_of items.now)) more.now
        → All (λ p. IsLike (global_view first.now) (global_view p)) (take result more.now) }
{
    for count in 0..more.len() {
        if !is_alike(items, first, &more[count]) {
            return count;
        }
    }
    more.len()
}

/// Puts the name of a global, if it has one beyond its unit.
fn put_name(global: &UnitGlobal<'_>, names: &mut Vec<Name>) -> Result<(), AllocError>
    ensures { OnOk result (names.new.items ≡ names.old.items
        ++ option_to_list (name_in (unit_global_view global.now))) }
{
    match global {
        UnitGlobal::OwnVariable { .. } => Ok(()),
        UnitGlobal::ExternalVariable { name, .. } | UnitGlobal::EntryPoint { name, .. } => {
            names.push(*name)?;
            Ok(())
        }
    }
}

/// This name, and those of globals after it.
fn names_of(alloc: Global, first: Name, more: &[PlacedGlobal<'_>]) -> Result<Vec<Name>, AllocError>
    ensures { IfOk result (λ names. names.items ≡ first ∷ names_in (map global_view more.now)) }
{
    let mut names = Vec::new(alloc);
    names.push(first)?;
    for placed in more {
        put_name(&placed.global, &mut names)?;
    }
    Ok(names)
}

/// A group of globals that are like the first.
fn group_of(
    alloc: Global,
    first: &PlacedGlobal<'_>,
    more: &[PlacedGlobal<'_>],
) -> Result<GlobalGroup, AllocError>
    requires { All (λ p. IsLike (global_view first.now) (global_view p)) more.now }
    ensures { IfOk result (λ group. global_group_view group ≡ global_view first.now ∷ map global_view more.now) }
{
    match &first.global {
        UnitGlobal::OwnVariable { kind, made } => {
            let variables = variable_group(alloc, more.len() + 1, made)?;
            Ok(GlobalGroup::OwnVariables {
                kind: *kind,
                variables,
            })
        }
        UnitGlobal::ExternalVariable { name, kind, made } => {
            let names = names_of(alloc, *name, more)?;
            let template = variable_template(alloc, made)?;
            Ok(GlobalGroup::ExternalVariables {
                names,
                kind: *kind,
                template,
            })
        }
        UnitGlobal::EntryPoint {
            name,
            parameters,
            returned,
        } => {
            let names = names_of(alloc, *name, more)?;
            let signature = entry_signature(alloc, parameters, *returned)?;
            Ok(GlobalGroup::EntryPoints { names, signature })
        }
    }
}

/// Groups of globals that stand in a row and are alike.
pub(crate) fn groups(
    alloc: Global,
    items: &ItemNumbers<'_>,
    globals: &[PlacedGlobal<'_>],
) -> Result<Vec<GlobalGroup>, AllocError>
    requires { All (HasGlobalItem (marks_of items.now)) globals.now }
    ensures { IfOk result (λ groups. globals_view groups.items ≡ map global_view globals.now) }
{
    let mut groups = Vec::new(alloc);
    let mut at = 0;
    while at < globals.len() {
        let first = &globals[at];
        let more = &globals[at + 1..];
        let count = alike_after(items, first, more);
        groups.push(group_of(alloc, first, &more[..count])?)?;
        at += count + 1;
    }
    Ok(groups)
}
