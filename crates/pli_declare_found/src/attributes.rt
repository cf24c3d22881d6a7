//! The references in attributes.
ghost use Rattle.std.specs.Prelude.{◌≡◌};

use crate::references::remember;
use pli_base::declaration::{
    Attribute, DescribedAttribute, Item, ParameterDescription, SimpleAttribute,
};
use pli_base::statement::ProcedureOption;
use pli_declare_constructs::Nesting;
use pli_declare_tables::Table;
use std::alloc::{AllocError, Global};

/// Remembers the locator that an attribute names.
fn remember_simple(
    alloc: Global,
    nesting: &Nesting,
    tables: &mut Vec<Table>,
    region: usize,
    attribute: &SimpleAttribute,
) -> Result<(), AllocError>
    ensures { tables.new.items ≡ tables.old.items }
{
    match attribute {
        SimpleAttribute::Based(Some(names)) => {
            remember(alloc, nesting, tables, region, names.as_slice())
        }
        _ => Ok(()),
    }
}

/// Remembers the locators that the attributes of a description or of a result name.
fn remember_described(
    alloc: Global,
    nesting: &Nesting,
    tables: &mut Vec<Table>,
    region: usize,
    attributes: &[DescribedAttribute],
) -> Result<(), AllocError>
    ensures { tables.new.items ≡ tables.old.items }
{
    for attribute in attributes {
        if let DescribedAttribute::Simple(attribute) = attribute {
            remember_simple(alloc, nesting, tables, region, attribute)?;
        }
    }
    Ok(())
}

/// Remembers the locators that descriptions of parameters name.
fn remember_descriptions(
    alloc: Global,
    nesting: &Nesting,
    tables: &mut Vec<Table>,
    region: usize,
    descriptions: &[ParameterDescription],
) -> Result<(), AllocError>
    ensures { tables.new.items ≡ tables.old.items }
{
    for description in descriptions {
        let attributes = description.attributes.as_slice();
        remember_described(alloc, nesting, tables, region, attributes)?;
    }
    Ok(())
}

/// Remembers the locators that an attribute of an item names.
fn remember_attribute(
    alloc: Global,
    nesting: &Nesting,
    tables: &mut Vec<Table>,
    region: usize,
    attribute: &Attribute,
) -> Result<(), AllocError>
    ensures { tables.new.items ≡ tables.old.items }
{
    match attribute {
        Attribute::Simple(attribute) => remember_simple(alloc, nesting, tables, region, attribute),
        Attribute::Entry(None) => Ok(()),
        Attribute::Entry(Some(descriptions)) => {
            remember_descriptions(alloc, nesting, tables, region, descriptions.as_slice())
        }
        Attribute::Returns(attributes) => {
            remember_described(alloc, nesting, tables, region, attributes.as_slice())
        }
    }
}

/// Remembers the locators that the attributes of an item name.
fn remember_item(
    alloc: Global,
    nesting: &Nesting,
    tables: &mut Vec<Table>,
    region: usize,
    item: &Item,
) -> Result<(), AllocError>
    ensures { tables.new.items ≡ tables.old.items }
{
    for attribute in item.attributes.as_slice() {
        remember_attribute(alloc, nesting, tables, region, attribute)?;
    }
    Ok(())
}

/// Remembers the locators that the attributes of items name.
pub(crate) fn remember_items(
    alloc: Global,
    nesting: &Nesting,
    tables: &mut Vec<Table>,
    region: usize,
    items: &[Item],
) -> Result<(), AllocError>
    ensures { tables.new.items ≡ tables.old.items }
{
    for item in items {
        remember_item(alloc, nesting, tables, region, item)?;
    }
    Ok(())
}

/// Remembers the locators that the RETURNS of a procedure names.
pub(crate) fn remember_options(
    alloc: Global,
    nesting: &Nesting,
    tables: &mut Vec<Table>,
    region: usize,
    options: &[ProcedureOption],
) -> Result<(), AllocError>
    ensures { tables.new.items ≡ tables.old.items }
{
    for option in options {
        if let ProcedureOption::Returns(attributes) = option {
            remember_described(alloc, nesting, tables, region, attributes.as_slice())?;
        }
    }
    Ok(())
}
