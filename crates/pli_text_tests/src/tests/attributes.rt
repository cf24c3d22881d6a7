ghost use Rattle.std.specs.Prelude.{◌≤◌, length};

use crate::tests::tokens::tokens_of;
use pli_base::declaration::Item;
use pli_base::{Code, TokenText};
use pli_declare::{Completed, ItemPlace, Position};
use pli_declare_attributes::{
    ItemFacts, Named, array_layout, completed_item, completed_result, elements_within, item_fault,
    lesser, result_fault, scalar_layout,
};
use pli_map::{Description, ParameterType, StringForm};
use pli_parse_declaration::{declaration_at, returned_at};
use std::alloc::Global;
use std::process::Abort;
use std::test::*;

/// A variable of its own.
const ALONE: ItemPlace = ItemPlace {
    position: Position::AtLevelOne,
    has_members: false,
    in_array: false,
    elements_above: Some(1),
    built_in_name: false,
};

/// Whether an item is an array of numbers.
fn is_array(rt: &impl Abort, alloc: Global, facts: &ItemFacts<'_>) -> bool {
    if item_fault(ALONE, facts).is_some() {
        return false;
    }
    match completed_item(alloc, ALONE, facts).expect(rt, "memory") {
        Completed::Variable(variable) => variable.bounds.len() == 1 && variable.initial.len() == 2,
        _ => false,
    }
}

/// Whether an item is known as an array of three halfwords.
fn is_known(rt: &impl Abort, alloc: Global, item: &Item) -> bool {
    let facts = ItemFacts::of(alloc, item).expect(rt, "memory");
    let named = Named::of_item(&facts);
    let is_free = item_fault(ALONE, &facts).is_none();
    is_free && named.is_variable && !named.is_area && is_array(rt, alloc, &facts)
}

/// How many bytes an element of an item takes, as an array without dimensions has it.
#[tactic(auto, unfolding(pli_declare::specs::Extents::are_bad_bounds))]
fn size_of(item: &Item) -> Option<u32> {
    let element = scalar_layout(&item.attributes)?;
    Some(array_layout(element, &[])?.bytes)
}

/// Whether an item is known as that, has elements of two bytes, and twice as many of them in an array of two.
fn is_right(rt: &impl Abort, alloc: Global, item: &Item) -> bool {
    is_known(rt, alloc, item)
        && size_of(item) == Some(2)
        && elements_within(Some(2), &item.dimensions) == Some(6)
}

/// Whether the one item of a declaration is.
fn is_declared(rt: &impl Abort, alloc: Global, tokens: &[TokenText]) -> bool
    requires { length tokens.now ≤ 200000 }
{
    let read = declaration_at(alloc, 0, tokens).ok().expect(rt, "items");
    match read.value.as_slice() {
        [item] => is_right(rt, alloc, item),
        _ => false,
    }
}

#[test]
fn items(rt: HostRuntime) {
    let tokens = tokens_of(&rt, rt.alloc(), "X(3) FIXED BIN INIT(1, -2);");
    let is_right = is_declared(&rt, rt.alloc(), &tokens);
    drop(tokens);
    let (less, more) = (Some(Code::AttributesConflict), Some(Code::BadBounds));
    assert!(rt; is_right && lesser(more, less) == less && lesser(None, more) == more);
}

/// A parameter.
const PASSED: ItemPlace = ItemPlace {
    position: Position::Parameter,
    has_members: false,
    in_array: false,
    elements_above: Some(1),
    built_in_name: false,
};

/// Whether a type is that of arrays of one dimension, of any bounds, of strings of any length.
fn is_any_row(taken: &ParameterType) -> bool {
    let strings = ParameterType::of_strings(StringForm::Character);
    match taken {
        ParameterType::AnyArray {
            dimensions,
            element,
        } => *dimensions == 1 && element.equals(&strings),
        _ => false,
    }
}

/// Whether a parameter is of such a type, and what is no parameter may not be.
fn is_open(rt: &impl Abort, alloc: Global, item: &Item) -> bool {
    let facts = ItemFacts::of(alloc, item).expect(rt, "memory");
    if item_fault(PASSED, &facts).is_some() {
        return false;
    }
    let completed = completed_item(alloc, PASSED, &facts).expect(rt, "memory");
    let is_taken = match &completed {
        Completed::Variable(variable) => match &variable.taken {
            Some(taken) => is_any_row(taken),
            None => false,
        },
        _ => false,
    };
    is_taken && facts.has_star() && item_fault(ALONE, &facts) == Some(Code::BadLength)
}

/// Whether the one item of a declaration is open.
fn is_declared_open(rt: &impl Abort, alloc: Global, tokens: &[TokenText]) -> bool
    requires { length tokens.now ≤ 200000 }
{
    let read = declaration_at(alloc, 0, tokens).ok().expect(rt, "items");
    match read.value.as_slice() {
        [item] => is_open(rt, alloc, item),
        _ => false,
    }
}

#[test]
fn asterisks(rt: HostRuntime) {
    let tokens = tokens_of(&rt, rt.alloc(), "X(*) CHAR(*);");
    assert!(rt; is_declared_open(&rt, rt.alloc(), &tokens));
}

/// Whether what RETURNS says is VARYING of three characters.
fn is_varying(rt: &impl Abort, alloc: Global, tokens: &[TokenText]) -> bool
    requires { length tokens.now ≤ 200000 }
{
    let read = returned_at(alloc, 0, tokens).ok().expect(rt, "attributes");
    read.next == 7
        && result_fault(&read.value).is_none()
        && matches!(completed_result(&read.value), Ok(Description::Varying(3)))
}

#[test]
fn results(rt: HostRuntime) {
    let tokens = tokens_of(&rt, rt.alloc(), "(CHAR(3) VAR)");
    assert!(rt; is_varying(&rt, rt.alloc(), &tokens));
}
