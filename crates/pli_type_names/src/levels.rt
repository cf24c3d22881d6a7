//! The parts of variables in the order of the text: each member is found after the one before it.
ghost use Rattle.std.specs.Prelude.{◌≡◌, IfOk, List, None, Option, get_or, map, option_map};
ghost use Rattle.std.specs.List.{All};
ghost use Rattle.pli_map.specs.Description.{Structure};
ghost use Rattle.pli_map.specs.Parts.{member_after};
ghost use Rattle.pli_map.specs.views.DescriptionView.{description_view, members_view};
ghost use Rattle.pli_type_names.specs.OnWays.{IsLevel, SameStructure, part_in, placed_in};
ghost use Rattle.pli_type_names.specs.OwnVariables as spec;
ghost use Rattle.pli_type_names.specs.views.NameView.{part_view};
ghost use Rattle.pli_type_names.specs.views.VariableView.{own_view};

use crate::level::StructureLevel;
use crate::own_variable::OwnVariable;
use crate::part::StridedPart;
use crate::passed_members::PassedMembers;
use pli_map::Description;
use std::alloc::{AllocError, Global};

/// The variable that is the symbol of this number, if it is one.
pub(crate) fn variable_at<'a>(
    variables: &[Option<OwnVariable<'a>>],
    number: usize,
) -> Option<OwnVariable<'a>>
    ensures { option_map own_view result ≡ get_or (map (option_map own_view) variables.now) number None }
{
    let Some(variable) = variables.get(number) else {
        return None;
    };
    *variable
}

/// The member of this number of a structure, counted from 0; none where there is no such member. Takes time for the
/// members between the one that was found last and this one alone.
fn member<'a>(
    alloc: Global,
    level: &mut StructureLevel<'a>,
    number: usize,
) -> Result<Option<StridedPart<'a>>, AllocError>
    requires { description_view level.old.element.description.now
        ≡ Structure (members_view level.old.passed.members.now.items) }
    ensures same { IfOk result (λ _. SameStructure level.new level.old) }
    ensures part { IfOk result (λ part. option_map part_view part ≡ option_map (placed_in (part_view level.old.element))
        (member_after 0 (members_view level.old.passed.members.now.items) number)) }
{
    if number >= level.passed.members.len() {
        return Ok(None);
    }
    level.passed = level.passed.up_to(number);
    let element = level.element.copy(alloc)?;
    Ok(Some(element.into_placed(level.passed.next())))
}

/// The part of a variable that the members on a way lead to, each counted from 0, found from the variable on.
fn part_from_whole<'a>(
    alloc: Global,
    variables: &[Option<OwnVariable<'a>>],
    root: usize,
    path: &[usize],
) -> Result<Option<StridedPart<'a>>, AllocError>
    ensures { IfOk result (λ part. option_map part_view part
        ≡ part_in (map (option_map own_view) variables.now) root path.now) }
{
    let Some(variable) = variable_at(variables, root) else {
        return Ok(None);
    };
    StridedPart::whole(alloc, variable.description).into_part(path)
}

/// The same, found after the member before it, where the structure that it is in is one to which the way still leads.
/// Those inside which it is not are taken out.
fn part_after<'a>(
    alloc: Global,
    variables: &[Option<OwnVariable<'a>>],
    root: usize,
    path: &[usize],
    levels: &mut Vec<StructureLevel<'a>>,
) -> Result<Option<StridedPart<'a>>, AllocError>
    requires { All (IsLevel (map (option_map own_view) variables.now)) levels.old.items }
    ensures part { IfOk result (λ part. option_map part_view part
        ≡ part_in (map (option_map own_view) variables.now) root path.now) }
    ensures levels { IfOk result (λ _. All (IsLevel (map (option_map own_view) variables.now)) levels.new.items) }
{
    let Some((number, way)) = path.split_last() else {
        return part_from_whole(alloc, variables, root, path);
    };
    while let Some(found) = levels.pop() {
        let mut level = found;
        if level.root == root && level.way == way {
            let part = member(alloc, &mut level, *number)?;
            levels.push(level)?;
            return Ok(part);
        }
    }
    part_from_whole(alloc, variables, root, path)
}

/// Notes the structure that a part is, or one element of it, as one to which the way leads.
fn note<'a>(
    alloc: Global,
    root: usize,
    way: &'a [usize],
    part: &Option<StridedPart<'a>>,
    levels: &mut Vec<StructureLevel<'a>>,
) -> Result<(), AllocError>
    ensures { IfOk result (λ _. (variables : List (Option spec.OwnVariable)) →
        option_map part_view part.now ≡ part_in variables root way.now
        → All (IsLevel variables) levels.old.items → All (IsLevel variables) levels.new.items) }
{
    let Some(part) = part else {
        return Ok(());
    };
    let element = part.element(alloc)?;
    let Description::Structure(members) = element.description else {
        return Ok(());
    };
    levels.push(StructureLevel {
        root,
        way,
        element,
        passed: PassedMembers::none(members),
    })?;
    Ok(())
}

/// The part of a variable that the members on a way lead to, each counted from 0; none where one is not there. Where
/// ways come in the order of the text it takes time for the part alone.
pub(crate) fn part_on_way<'a>(
    alloc: Global,
    variables: &[Option<OwnVariable<'a>>],
    root: usize,
    path: &'a [usize],
    levels: &mut Vec<StructureLevel<'a>>,
) -> Result<Option<StridedPart<'a>>, AllocError>
    requires { All (IsLevel (map (option_map own_view) variables.now)) levels.old.items }
    ensures part { IfOk result (λ part. option_map part_view part
        ≡ part_in (map (option_map own_view) variables.now) root path.now) }
    ensures levels { IfOk result (λ _. All (IsLevel (map (option_map own_view) variables.now)) levels.new.items) }
{
    let part = part_after(alloc, variables, root, path, levels)?;
    note(alloc, root, path, &part, levels)?;
    Ok(part)
}
