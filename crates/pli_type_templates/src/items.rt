//! Items with INITIAL: which initial values their scalars have.
ghost use Rattle.std.specs.Prelude.{◌≡◌, ◌++◌, IfOk, map, true};
ghost use Rattle.pli_map.specs.views.DescriptionView.{description_view};
ghost use Rattle.pli_type_rules.specs.InitialScalars.{as_held, each_with, values_written};
ghost use Rattle.pli_type_templates.specs.Items.{all_with, item_scalars, value_of};
ghost use Rattle.pli_type_templates.specs.Plans.{IsStoredPlan, is_compiled_scalar, placed_as};
ghost use Rattle.pli_type_templates.specs.views.ItemView.{item_view};
ghost use Rattle.pli_type_templates.specs.views.PlanView.{plan_view};
ghost use Rattle.pli_type_tree.specs.views.TemplateView.{initial_view};
ghost use Rattle.pli_value.specs.Value.{value_view};

use crate::offsets::put_offsets;
use crate::plan::{Plan, find_leaf};
use crate::values::{elements, elements_written, held};
use pli_base::declaration::InitialValue;
use pli_map::Description;
use pli_type_tree::InitialScalar;
use pli_value::Value;
use std::alloc::{AllocError, Global};

/// A variable or a member of one: the members on the way to it, each counted from 0, and the values in its INITIAL.
#[derive(Clone, Copy)]
pub(crate) struct ValuedItem<'a> {
    pub path: &'a [usize],
    pub values: &'a [InitialValue],
}

/// Puts the same value for scalars on these bytes.
fn put_copies(
    alloc: Global,
    value: &Value,
    offsets: &[u32],
    scalars: &mut Vec<InitialScalar>,
) -> Result<(), AllocError>
    ensures { IfOk result (λ _. map initial_view scalars.new.items
        ≡ map initial_view scalars.old.items ++ all_with (value_view value.now) offsets.now) }
{
    for offset in offsets {
        let value = value.copy(alloc)?;
        scalars.push(InitialScalar {
            offset: *offset,
            value,
        })?;
    }
    Ok(())
}

/// Puts a value in INITIAL for scalars of one description on these bytes. It is fitted once, if there are any.
fn put_value(
    alloc: Global,
    description: &Description,
    written: &InitialValue,
    offsets: &[u32],
    scalars: &mut Vec<InitialScalar>,
) -> Result<(), AllocError>
    requires { is_compiled_scalar (description_view description.now) ≡ true }
    ensures { IfOk result (λ _. map initial_view scalars.new.items
        ≡ map initial_view scalars.old.items
        ++ all_with (as_held (description_view description.now) (value_of written.now)) offsets.now) }
{
    if offsets.is_empty() {
        return Ok(());
    }
    let value = held(alloc, description, written)?;
    put_copies(alloc, &value, offsets, scalars)?;
    Ok(())
}

/// Puts values for scalars of one description on these bytes, as long as there are both.
fn put_values(
    alloc: Global,
    description: &Description,
    offsets: &[u32],
    values: &[InitialValue],
    scalars: &mut Vec<InitialScalar>,
) -> Result<(), AllocError>
    requires { is_compiled_scalar (description_view description.now) ≡ true }
    ensures { IfOk result (λ _. map initial_view scalars.new.items
        ≡ map initial_view scalars.old.items
        ++ each_with (placed_as (description_view description.now) offsets.now) (values_written values.now)) }
{
    let mut used = 0;
    for written in values {
        let count = (elements(written) as usize).min(offsets.len() - used);
        let given = &offsets[used..used + count];
        put_value(alloc, description, written, given, scalars)?;
        used += count;
    }
    Ok(())
}

/// Puts the initial values of an item. No more bytes of scalars are told than values are written, and without values
/// nothing is looked for.
pub(crate) fn put_item(
    alloc: Global,
    plan: &Plan<'_>,
    item: ValuedItem<'_>,
    scalars: &mut Vec<InitialScalar>,
) -> Result<(), AllocError>
    requires { IsStoredPlan (plan_view plan.now) }
    ensures { IfOk result (λ _. map initial_view scalars.new.items
        ≡ map initial_view scalars.old.items ++ item_scalars (plan_view plan.now) (item_view item.entry)) }
{
    if item.values.is_empty() {
        return Ok(());
    }
    let wanted = elements_written(item.values);
    let mut levels = Vec::new(alloc);
    let Some(found) = find_leaf(plan, item.path, &mut levels)? else {
        return Ok(());
    };
    let mut offsets = Vec::new(alloc);
    put_offsets(&levels, found.first, wanted, &mut offsets)?;
    put_values(alloc, found.description, &offsets, item.values, scalars)?;
    Ok(())
}
