//! What variables are made from.
ghost use Rattle.std.specs.Prelude.{◌≡◌, ◌≤◌, ◌++◌, [], List, IfOk, OnOk, false, length, map, option_map, replicate};
ghost use Rattle.std.specs.Prelude.{take, true};
ghost use Rattle.std.specs.List.{All};
ghost use Rattle.pli_declare_outline.specs.Outlines.{PlacedMark};
ghost use Rattle.pli_map.specs.views.DescriptionView.{description_view};
ghost use Rattle.pli_declare.specs.views.SymbolView.{symbol_view, symbol_kind_view};
ghost use Rattle.pli_type_rules.specs.NamedUnits.{is_stored, templates_of};
ghost use Rattle.pli_type_templates.specs.Groups.{AreMembers, is_such, made_in, templates_with};
ghost use Rattle.pli_type_templates.specs.ItemNames.{AreOfItems};
ghost use Rattle.pli_type_templates.specs.views.ItemView.{HasMadeItem, items_view, made_template, made_view, rows_view};
ghost use Rattle.pli_type_templates.specs.views.NumberView.{marks_of};
ghost use Rattle.pli_type_tree.specs.views.TemplateView.{group_view, groups_view, template_view};

use crate::item_numbers::ItemNumbers;
use crate::items::{ValuedItem, put_item};
use crate::lifetime::Lifetime;
use crate::made_variable::MadeVariable;
use crate::plan::variable_plan;
use pli_declare::{StorageClass, Symbol, SymbolKind};
use pli_map::Description;
use pli_type_names::{is_stored, is_valued};
use pli_type_tree::{Template, VariableGroup};
use std::alloc::{AllocError, Global};

/// Whether a variable has the wanted lifetime, and is compiled: a BASED one is no area.
#[tactic(auto, using(pli_type_names::proofs::PlainLemmas::valued_stored))]
fn is_such(wanted: Lifetime, class: StorageClass, description: &Description) -> bool
    ensures value { result ≡ is_such wanted class (description_view description.now) }
    ensures stored { result ≡ true → is_stored 63 (description_view description.now) ≡ true }
{
    match (wanted, class) {
        (Lifetime::Activation, StorageClass::Automatic)
        | (Lifetime::Program, StorageClass::Static | StorageClass::Controlled) => {
            is_stored(description)
        }
        (Lifetime::Allocation, StorageClass::Based(_)) => is_valued(description),
        _ => false,
    }
}

/// A variable of the wanted lifetime that is compiled, with these members; none of anything else.
pub(crate) fn made_in<'a>(
    wanted: Lifetime,
    symbol: &Symbol<'a>,
    members: &'a [ValuedItem<'a>],
) -> Option<MadeVariable<'a>>
    ensures { option_map made_view result ≡ made_in wanted (symbol_view symbol.now) (items_view members.now) }
{
    match symbol.kind {
        SymbolKind::Variable {
            description,
            class,
            initial,
            ..
        } => {
            if !is_such(wanted, class, description) {
                return None;
            }
            Some(MadeVariable {
                at: symbol.identifier.at,
                description,
                values: initial,
                members,
            })
        }
        _ => None,
    }
}

/// Whether a variable or a member of it has initial values.
fn has_values(made: &MadeVariable<'_>) -> bool
    ensures { result ≡ false → (made_template made.now).initial ≡ [] }
{
    if !made.values.is_empty() {
        return true;
    }
    let members = made.members;
    for member in members {
        if !member.values.is_empty() {
            return true;
        }
    }
    false
}

/// What one variable is made from that has no initial values.
fn plain_template(alloc: Global, made: &MadeVariable<'_>) -> Result<Template, AllocError>
    requires { (made_template made.now).initial ≡ [] }
    ensures { IfOk result (λ template. template_view template ≡ made_template made.now) }
{
    let description = made.description.copy(alloc)?;
    let initial = Vec::new(alloc);
    Ok(Template {
        description,
        initial,
    })
}

/// What one variable is made from, by its own INITIAL and by those of its members.
pub(crate) fn variable_template(
    alloc: Global,
    made: &MadeVariable<'_>,
) -> Result<Template, AllocError>
    ensures { IfOk result (λ template. template_view template ≡ made_template made.now) }
{
    if !has_values(made) {
        return plain_template(alloc, made);
    }
    let plan = variable_plan(alloc, made.description)?;
    let mut scalars = Vec::new(alloc);
    let own = ValuedItem {
        path: &[],
        values: made.values,
    };
    put_item(alloc, &plan, own, &mut scalars)?;
    let members = made.members;
    for member in members {
        put_item(alloc, &plan, *member, &mut scalars)?;
    }
    drop(plan);
    let description = made.description.copy(alloc)?;
    Ok(Template {
        description,
        initial: scalars,
    })
}

/// Puts the variable that a symbol is, if it is one of the wanted lifetime that is compiled.
fn put_made<'a>(
    wanted: Lifetime,
    symbol: &Symbol<'a>,
    members: &'a [ValuedItem<'a>],
    made: &mut Vec<MadeVariable<'a>>,
) -> Result<(), AllocError>
    ensures templates { OnOk result (map made_template made.new.items ≡ map made_template made.old.items
        ++ templates_with (made_in wanted (symbol_view symbol.now) (items_view members.now))) }
    ensures items { OnOk result ((marks : List PlacedMark) → AreOfItems marks (symbol_view symbol.now)
        → All (HasMadeItem marks) made.old.items → All (HasMadeItem marks) made.new.items) }
{
    let Some(variable) = made_in(wanted, symbol, members) else {
        return Ok(());
    };
    made.push(variable)?;
    Ok(())
}

/// The variables of a lifetime among the symbols of a block, in the order of the text.
fn made_variables<'a>(
    alloc: Global,
    wanted: Lifetime,
    symbols: &'a [Symbol<'a>],
    members: &'a [Vec<ValuedItem<'a>>],
) -> Result<Vec<MadeVariable<'a>>, AllocError>
    requires { AreMembers (rows_view members.now) (map symbol_view symbols.now) }
    ensures templates { IfOk result (λ made. map made_template made.items
        ≡ templates_of (is_such wanted) (map symbol_view symbols.now)) }
    ensures items { IfOk result (λ made. (marks : List PlacedMark) →
        All (AreOfItems marks) (map symbol_view symbols.now)
        → All (HasMadeItem marks) made.items) }
{
    let mut made = Vec::with_capacity(alloc, symbols.len())?;
    for number in 0..symbols.len() {
        put_made(wanted, &symbols[number], &members[number], &mut made)?;
    }
    Ok(made)
}

/// Whether variables are of one item, or have no initial values.
fn has_same_values(
    items: &ItemNumbers<'_>,
    left: &MadeVariable<'_>,
    right: &MadeVariable<'_>,
) -> bool
    ensures { result ≡ true → HasMadeItem (marks_of items.now) left.now → HasMadeItem (marks_of items.now) right.now
        → left.now.values.now ≡ right.now.values.now }
{
    if left.values.is_empty() && right.values.is_empty() {
        return true;
    }
    items.are_of_one(left.at, right.at)
}

/// Whether variables are made from one template: they have one description, and are of one item, or have no initial
/// values. Members may have initial values of their own.
pub(crate) fn is_made_alike(
    items: &ItemNumbers<'_>,
    left: &MadeVariable<'_>,
    right: &MadeVariable<'_>,
) -> bool
    ensures { result ≡ true → HasMadeItem (marks_of items.now) left.now → HasMadeItem (marks_of items.now) right.now
        → made_template left.now ≡ made_template right.now }
{
    left.members.is_empty()
        && right.members.is_empty()
        && has_same_values(items, left, right)
        && left.description.equals(right.description)
}

/// How many variables, from the first on, are made from what this one is made from.
fn alike_after(
    items: &ItemNumbers<'_>,
    first: &MadeVariable<'_>,
    more: &[MadeVariable<'_>],
) -> usize
    ensures within { result ≤ length more.now }
    ensures alike { HasMadeItem (marks_of items.now) first.now → All (HasMadeItem (marks_of items.now)) more.now
        → All (λ m. made_template m ≡ made_template first.now) (take result more.now) }
{
    for count in 0..more.len() {
        if !is_made_alike(items, first, &more[count]) {
            return count;
        }
    }
    more.len()
}

/// A group of so many variables, which are made from what this one is made from.
pub(crate) fn variable_group(
    alloc: Global,
    count: usize,
    made: &MadeVariable<'_>,
) -> Result<VariableGroup, AllocError>
    ensures { IfOk result (λ group. group_view group ≡ replicate count (made_template made.now)) }
{
    let template = variable_template(alloc, made)?;
    Ok(VariableGroup { count, template })
}

/// Groups of variables that stand in a row and are made from one template.
fn grouped(
    alloc: Global,
    items: &ItemNumbers<'_>,
    made: &[MadeVariable<'_>],
) -> Result<Vec<VariableGroup>, AllocError>
    requires { All (HasMadeItem (marks_of items.now)) made.now }
    ensures { IfOk result (λ groups. groups_view groups.items ≡ map made_template made.now) }
{
    let mut groups = Vec::new(alloc);
    let mut at = 0;
    while at < made.len() {
        let first = &made[at];
        let count = 1 + alike_after(items, first, &made[at + 1..]);
        groups.push(variable_group(alloc, count, first)?)?;
        at += count;
    }
    Ok(groups)
}

/// What the variables of a lifetime among the symbols of a block are made from, in the order of the text.
pub(crate) fn lifetime_groups<'a>(
    alloc: Global,
    items: &ItemNumbers<'_>,
    wanted: Lifetime,
    symbols: &'a [Symbol<'a>],
    members: &'a [Vec<ValuedItem<'a>>],
) -> Result<Vec<VariableGroup>, AllocError>
    requires members { AreMembers (rows_view members.now) (map symbol_view symbols.now) }
    requires items { All (AreOfItems (marks_of items.now)) (map symbol_view symbols.now) }
    ensures { IfOk result (λ groups. groups_view groups.items
        ≡ templates_of (is_such wanted) (map symbol_view symbols.now)) }
{
    let made = made_variables(alloc, wanted, symbols, members)?;
    grouped(alloc, items, &made)
}
