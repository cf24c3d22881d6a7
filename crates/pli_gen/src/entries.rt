//! The entries of a unit's tables, copied, with the numbers of what they name. Each function appends to a list of its
//! caller's, so that none has a list to drop where memory runs out.
ghost use Rattle.std.specs.Prelude.{◌≡◌, ◌++◌, map, replicate, IfOk, OnOk};
ghost use Rattle.pli_map.specs.views.ParameterView.{type_view};
ghost use Rattle.pli_value.specs.Value.{value_view};
ghost use Rattle.pli_type_tree.specs.views.TemplateView.{initial_view, groups_view};
ghost use Rattle.pli_code.specs.views.CodeView.{coded_template_view};
ghost use Rattle.pli_gen_emit.specs.Encoding.{template_code, template_number};
ghost use Rattle.pli_gen_emit.specs.views.TableView.{tables_view};

use crate::numbers::Numbers;
use pli_code::CodedTemplate;
use pli_gen_emit::{NumberedTables, template_key};
use pli_map::ParameterType;
use pli_type_tree::{InitialScalar, VariableGroup};
use pli_value::Value;
use std::alloc::{AllocError, Global};

/// Appends copies of the types in the table of descriptions.
pub(crate) fn copy_types(
    alloc: Global,
    tables: &NumberedTables<'_>,
    copied: &mut Vec<ParameterType>,
) -> Result<(), AllocError>
    ensures { OnOk result
        (map type_view copied.new.items ≡ map type_view copied.old.items ++ (tables_view tables.now).descriptions) }
{
    for key in tables.descriptions.as_slice() {
        copied.push(key.of.copy(alloc)?)?;
    }
    Ok(())
}

/// Appends copies of the values of a table.
pub(crate) fn copy_values(
    alloc: Global,
    tables: &NumberedTables<'_>,
    copied: &mut Vec<Value>,
) -> Result<(), AllocError>
    ensures { OnOk result
        (map value_view copied.new.items ≡ map value_view copied.old.items ++ (tables_view tables.now).values) }
{
    for key in tables.values.as_slice() {
        copied.push(key.value.copy(alloc)?)?;
    }
    Ok(())
}

/// Copies of initial values.
fn copy_initial(alloc: Global, scalars: &[InitialScalar]) -> Result<Vec<InitialScalar>, AllocError>
    ensures { IfOk result (λ copied. map initial_view copied.items ≡ map initial_view scalars.now) }
{
    let mut copied = Vec::new(alloc);
    for initial in scalars {
        let value = initial.value.copy(alloc)?;
        copied.push(InitialScalar {
            offset: initial.offset,
            value,
        })?;
    }
    Ok(copied)
}

/// Appends the templates of a table with the numbers of their descriptions.
pub(crate) fn encode_templates(
    alloc: Global,
    numbers: Numbers<'_, '_>,
    coded: &mut Vec<CodedTemplate>,
) -> Result<(), AllocError>
    ensures { let tables = tables_view numbers.entry.tables.now in
        OnOk result
        (map coded_template_view coded.new.items ≡ map coded_template_view coded.old.items
        ++ map (template_code tables) tables.templates) }
{
    for key in numbers.tables.templates.as_slice() {
        let initial = copy_initial(alloc, key.initial)?;
        coded.push(CodedTemplate {
            description: numbers.description(key.description),
            initial,
        })?;
    }
    Ok(())
}

/// Appends a number so many times.
fn put_times(list: &mut Vec<u16>, number: u16, count: usize) -> Result<(), AllocError>
    ensures { OnOk result (list.new.items ≡ list.old.items ++ replicate count number) }
{
    for _ in 0..count {
        list.push(number)?;
    }
    Ok(())
}

/// Appends the numbers of the templates of variables.
pub(crate) fn encode_variables<'a>(
    numbers: Numbers<'_, 'a>,
    groups: &'a [VariableGroup],
    list: &mut Vec<u16>,
) -> Result<(), AllocError>
    ensures { let number = template_number (tables_view numbers.entry.tables.now) in
        OnOk result (list.new.items ≡ list.old.items ++ map number (groups_view groups.now)) }
{
    for group in groups {
        let number = numbers.template(template_key(&group.template));
        put_times(list, number, group.count)?;
    }
    Ok(())
}
