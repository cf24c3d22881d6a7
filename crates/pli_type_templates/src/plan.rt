//! Plans: where the scalars of a description stand, laid out once, so that those of a member are found without a look
//! at the members before it.
ghost use Rattle.std.specs.Int.{next_multiple_of};
ghost use Rattle.std.specs.Prelude.{◌≡◌, ◌<◌, ◌≤◌, ◌+◌, ◌*◌, ◌++◌, IfOk, option_map, slice_get, true};
ghost use Rattle.pli_map.specs.Sizes.{alignment_of, count_of, end_after, size_of, stride_of};
ghost use Rattle.pli_map.specs.views.DescriptionView.{description_view, members_view};
ghost use Rattle.pli_type_rules.specs.NamedUnits.{all_plain, is_plain, is_stored};
ghost use Rattle.pli_type_templates.specs.Plans as planned;
ghost use Rattle.pli_type_templates.specs.Plans.{plan_from, plans_from, leaf_in, levels_in};
ghost use Rattle.pli_type_templates.specs.views.PlanView.{leaf_view, plan_view};

use pli_map::{Bounds, Description, alignment, far_size, is_area};
use std::alloc::{AllocError, Global};

/// An array above a scalar: how many elements it has, and how many bytes each of them leads on.
#[derive(Clone, Copy)]
pub(crate) struct ArrayLevel {
    pub count: u32,
    pub distance: u32,
}

/// A scalar, and the byte on which it begins where all subscripts above it are the lowest.
#[derive(Clone, Copy)]
pub(crate) struct Leaf<'a> {
    pub first: u32,
    pub description: &'a Description,
}

/// Where the scalars of a description stand.
#[derive(Drop)]
pub(crate) enum Plan<'a> {
    Scalar(Leaf<'a>),
    Array {
        level: ArrayLevel,
        element: Box<Plan<'a>>,
    },
    Structure(Vec<Plan<'a>>),
}

/// A plan, and the byte after the last of its description.
#[derive(Drop)]
pub(crate) struct Planned<'a> {
    pub plan: Plan<'a>,
    pub end: u32,
}

/// Where a description stands after so many bytes.
fn aligned(ended: u32, description: &Description) -> u32
    requires { next_multiple_of ended (alignment_of (description_view description.now)) ≤ 1000000 }
    ensures { result ≡ next_multiple_of ended (alignment_of (description_view description.now)) }
{
    ended.next_multiple_of(alignment(description))
}

/// The byte after a description that begins on this byte.
fn end_of(first: u32, description: &Description) -> u32
    requires { first + size_of (description_view description.now) ≤ 1000000 }
    ensures { result ≡ first + size_of (description_view description.now) }
{
    first + far_size(description) as u32
}

/// The plan of an area, which has no scalars.
fn no_scalars<'a>(alloc: Global) -> Plan<'a>
    ensures { plan_view result ≡ planned.OfStructure planned.NoPlans }
{
    Plan::Structure(Vec::new(alloc))
}

/// How many elements an array of these bounds has.
fn count_of(bounds: &[Bounds]) -> u32
    requires some { 0 < count_of bounds.now }
    requires few { count_of bounds.now ≤ 1000000 }
    ensures { result ≡ count_of bounds.now }
{
    let mut count: u32 = 1;
    for dimension in bounds {
        count *= dimension.extent();
    }
    count
}

/// The plan of a description that begins on this byte, of a variable of values and of 1,000,000 bytes at most.
#[cycle(plan_from)]
fn plan_from<'a>(
    alloc: Global,
    description: &'a Description,
    first: u32,
) -> Result<Planned<'a>, AllocError>
    requires plain { is_plain 63 (description_view description.now) ≡ true }
    requires room { first + size_of (description_view description.now) ≤ 1000000 }
    ensures { IfOk result (λ made. (plan_view made.plan ≡ plan_from first (description_view description.now))
        × (made.end ≡ first + size_of (description_view description.now))) }
{
    match description {
        Description::Array { bounds, element } => array_from(alloc, bounds, element, first),
        Description::Structure(members) => members_from(alloc, members, first),
        Description::Area(_) => {
            let end = end_of(first, description);
            let plan = no_scalars(alloc);
            Ok(Planned { plan, end })
        }
        _ => {
            let end = end_of(first, description);
            Ok(Planned {
                plan: Plan::Scalar(Leaf { first, description }),
                end,
            })
        }
    }
}

#[cycle(plan_from)]
fn array_from<'a>(
    alloc: Global,
    bounds: &[Bounds],
    element: &'a Description,
    first: u32,
) -> Result<Planned<'a>, AllocError>
    requires elements { 0 < count_of bounds.now }
    requires plain { is_plain 63 (description_view element.now) ≡ true }
    requires room { first + count_of bounds.now * stride_of (description_view element.now) ≤ 1000000 }
    ensures { IfOk result (λ made. (plan_view made.plan
        ≡ planned.OfArray (record { count = count_of bounds.now; distance = stride_of (description_view element.now) })
        (plan_from first (description_view element.now)))
        × (made.end ≡ first + count_of bounds.now * stride_of (description_view element.now))) }
{
    let count = count_of(bounds);
    let planned = plan_from(alloc, element, first)?;
    let distance = aligned(planned.end - first, element);
    let element = Box::new(alloc, planned.plan)?;
    let end = first + count * distance;
    let level = ArrayLevel { count, distance };
    Ok(Planned {
        plan: Plan::Array { level, element },
        end,
    })
}

#[cycle(plan_from)]
fn members_from<'a>(
    alloc: Global,
    members: &'a [Description],
    first: u32,
) -> Result<Planned<'a>, AllocError>
    requires plain { all_plain 63 (members_view members.now) ≡ true }
    requires room { first + end_after 0 (members_view members.now) ≤ 1000000 }
    ensures { IfOk result (λ made. (plan_view made.plan ≡ planned.OfStructure
        (plans_from first 0 (members_view members.now)))
        × (made.end ≡ first + end_after 0 (members_view members.now))) }
{
    let mut plans = Vec::with_capacity(alloc, members.len())?;
    let mut end = first;
    for member in members {
        let at = first + aligned(end - first, member);
        let planned = plan_from(alloc, member, at)?;
        plans.push(planned.plan)?;
        end = planned.end;
    }
    Ok(Planned {
        plan: Plan::Structure(plans),
        end,
    })
}

/// The plan of a variable, which may be an area.
#[tactic(auto, using(crate::proofs::StoredPlans::area_plan, crate::proofs::StoredPlans::stored_plain, crate::proofs::StoredPlans::stored_room))]
pub(crate) fn variable_plan<'a>(
    alloc: Global,
    description: &'a Description,
) -> Result<Plan<'a>, AllocError>
    requires { is_stored 63 (description_view description.now) ≡ true }
    ensures { IfOk result (λ made. plan_view made ≡ plan_from 0 (description_view description.now)) }
{
    if is_area(description) {
        return Ok(no_scalars(alloc));
    }
    let planned = plan_from(alloc, description, 0)?;
    Ok(planned.plan)
}

/// The plan of a member, if there is one of this number.
fn member_at<'p, 'a>(members: &'p [Plan<'a>], number: usize) -> Option<&'p Plan<'a>>
    ensures { option_map (λ p. p.now) result ≡ slice_get members.now number }
{
    members.get(number)
}

/// The scalar to which the members on a way lead, with the arrays above it, the outermost first; none where the way
/// ends at a structure.
#[cycle(find_leaf)]
pub(crate) fn find_leaf<'a>(
    plan: &Plan<'a>,
    path: &[usize],
    levels: &mut Vec<ArrayLevel>,
) -> Result<Option<Leaf<'a>>, AllocError>
    ensures leaf { IfOk result (λ found. option_map leaf_view found ≡ leaf_in (plan_view plan.now) path.now) }
    ensures levels { IfOk result (λ _. levels.new.items ≡ levels.old.items ++ levels_in (plan_view plan.now) path.now) }
{
    match plan {
        Plan::Scalar(found) => Ok(Some(*found)),
        Plan::Array { level, element } => {
            levels.push(*level)?;
            find_leaf(element, path, levels)
        }
        Plan::Structure(members) => {
            let Some((number, inner)) = path.split_first() else {
                return Ok(None);
            };
            match member_at(members, *number) {
                Some(member) => find_leaf(member, inner, levels),
                None => Ok(None),
            }
        }
    }
}
