//! ALLOCATE.
ghost use Rattle.std.specs.Prelude.{◌≡◌, ◌≤◌, ◌+◌, ℕ, Bool, [], length, map, option_map, IfOk};
ghost use Rattle.pli_base.specs.answers.FailureAnswers.{Gives};
ghost use Rattle.pli_base.specs.views.StatementView.{allocation_view};
ghost use Rattle.pli_base.specs.views.SyntaxView.{reference_view};
ghost use Rattle.pli_type_rules.specs.AllocationTyping as spec;
ghost use Rattle.pli_type_rules.specs.Beginnings.{root_at};
ghost use Rattle.pli_type_rules.specs.Names as names;
ghost use Rattle.pli_type_rules.specs.TypingSteps.{allocate_typed};
ghost use Rattle.pli_type_operands.specs.views.TypingView.{referent_view};
ghost use Rattle.pli_type_expression.specs.views.SegmentView.{variable_view};
ghost use Rattle.pli_type_names.specs.SymbolMeaning.{IsVariable};
ghost use Rattle.pli_type_names.specs.UnitNaming.{naming_in};
ghost use Rattle.pli_type_names.specs.views.StorageView.{locator_view as named_view};
ghost use Rattle.pli_type_templates.specs.views.UnitView.{based_at};
ghost use Rattle.pli_type_tree.specs.views.TemplateView.{template_view};
ghost use Rattle.pli_type_tree.specs.views.TypedView.{allocated_view, form_view};

use crate::variables::only_variable;
use pli_base::statement::Allocation;
use pli_base::syntax::Reference;
use pli_base::{Code, fault};
use pli_type_expression::{LocatorVariable, locator_at, referred};
use pli_type_names::{NamedAs, NamedLocator, NamedStorage, NamedVariable, Naming};
use pli_type_operands::{Referent, Role, TypeError, own_token};
use pli_type_rules::{Beginning, area_meant};
use pli_type_templates::UnitTemplates;
use pli_type_tree::{AllocatedItem, Conversion, Form, Template};
use std::alloc::{AllocError, Global};

/// The reference in IN or in SET, if one stands: T1 or T2 where it is no scalar variable, or another fault of it.
fn place_given<'a>(
    alloc: Global,
    naming: &Naming<'a>,
    reference: &Option<Reference>,
) -> Result<Option<Referent<'a>>, TypeError>
    ensures { Gives (option_map referent_view) result
        (spec.place_given (naming_in naming.now) (option_map reference_view reference.now)) }
{
    let Some(reference) = reference else {
        return Ok(None);
    };
    let denoted = referred(alloc, naming, Role::Locator, reference)?;
    let referent = only_variable(denoted, own_token(reference))?;
    Ok(Some(referent))
}

/// The locator that is set: that in SET, or without SET the one that BASED names.
fn locator_set(
    alloc: Global,
    target: Option<Referent<'_>>,
    implied: Option<NamedLocator>,
) -> Option<LocatorVariable>
    ensures { option_map variable_view result
        ≡ spec.locator_set (option_map referent_view target.entry) (option_map named_view implied) }
{
    match target {
        Some(target) => locator_at(target),
        None => match implied {
            Some(locator) => Some(LocatorVariable::named(alloc, locator)),
            None => None,
        },
    }
}

/// A BASED variable in an area, of whose block this locator gets the pointer, an OFFSET as an offset of its own area.
fn placed_within(
    alloc: Global,
    area: Beginning,
    template: Template,
    temporary: usize,
    locator: LocatorVariable,
) -> AllocatedItem
    ensures { allocated_view result ≡ spec.placed_within area (template_view template) temporary
        (variable_view locator) }
{
    match locator.area {
        None => AllocatedItem::InArea {
            area: area.whole(),
            template,
            temporary,
            target: locator.reference,
            conversion: Conversion::ByOperations(Vec::new(alloc)),
        },
        Some(own) => AllocatedItem::InArea {
            area: area.whole(),
            template,
            temporary,
            target: locator.reference,
            conversion: Conversion::AsOffsetIn(own.whole()),
        },
    }
}

/// A BASED variable in free storage, or where the locator is an OFFSET, in the area that this names (own).
fn placed_freely(
    alloc: Global,
    template: Template,
    temporary: usize,
    locator: LocatorVariable,
) -> AllocatedItem
    ensures { allocated_view result ≡ spec.placed_freely (template_view template) temporary (variable_view locator) }
{
    match locator.area {
        None => AllocatedItem::Based {
            template,
            temporary,
            target: locator.reference,
        },
        Some(own) => placed_within(alloc, own, template, temporary, locator),
    }
}

/// Where a BASED variable is placed: in the area in IN, if one stands, which must be that of an area.
fn placed_in(
    alloc: Global,
    area: Option<Referent<'_>>,
    template: Template,
    temporary: usize,
    locator: LocatorVariable,
) -> Option<AllocatedItem>
    ensures { option_map allocated_view result
        ≡ spec.placed_in (option_map referent_view area.entry) (template_view template) temporary
        (variable_view locator) }
{
    let Some(area) = area else {
        return Some(placed_freely(alloc, template, temporary, locator));
    };
    let begins = area_meant(&area.reference, area.description);
    drop(area);
    match begins {
        Some(begins) => Some(placed_within(alloc, begins, template, temporary, locator)),
        None => {
            drop(template);
            drop(locator);
            None
        }
    }
}

/// A BASED variable of this template, if there is a locator to set.
fn placed_by(
    alloc: Global,
    temporary: usize,
    area: Option<Referent<'_>>,
    template: Option<Template>,
    locator: Option<LocatorVariable>,
) -> Option<AllocatedItem>
    ensures { option_map allocated_view result
        ≡ spec.placed_by temporary (option_map referent_view area.entry) (option_map template_view template)
        (option_map variable_view locator) }
{
    let Some(template) = template else {
        drop(area);
        drop(locator);
        return None;
    };
    let Some(locator) = locator else {
        drop(area);
        drop(template);
        return None;
    };
    placed_in(alloc, area, template, temporary, locator)
}

/// A CONTROLLED variable, where neither IN nor SET stands.
#[tactic(auto, using(crate::proofs::StackedAlone::not_within, crate::proofs::StackedAlone::not_set))]
fn stacked(
    begins: Beginning,
    area: Option<Referent<'_>>,
    target: Option<Referent<'_>>,
) -> Option<AllocatedItem>
    ensures { (n : names.Naming) → (temporary : ℕ) → (is_parameter : Bool) → option_map allocated_view result
        ≡ spec.taken_in n temporary (names.Begins (root_at begins) is_parameter) []
        (option_map referent_view area.entry) (option_map referent_view target.entry) }
{
    if area.is_some() || target.is_some() {
        drop(area);
        drop(target);
        return None;
    }
    match begins {
        Beginning::NewestOf { number } => Some(AllocatedItem::Controlled { number }),
        Beginning::InSlot { .. } | Beginning::OfProgram { .. } => None,
    }
}

/// What a variable takes in ALLOCATE, at level 1 (X3.74; areas own).
fn taken_in(
    alloc: Global,
    naming: &Naming<'_>,
    templates: &UnitTemplates,
    temporary: usize,
    variable: NamedVariable<'_, '_>,
    area: Option<Referent<'_>>,
    target: Option<Referent<'_>>,
) -> Result<Option<AllocatedItem>, AllocError>
    requires { (block : ℕ) → based_at templates.now block ≡ (naming_in naming.now).based block }
    ensures { (w : names.NamedVariable) → IsVariable variable.entry w →
        IfOk result (λ made. option_map allocated_view made
        ≡ spec.taken_in (naming_in naming.now) temporary w.storage w.path (option_map referent_view area.entry)
        (option_map referent_view target.entry)) }
{
    if variable.is_member {
        drop(area);
        drop(target);
        return Ok(None);
    }
    match variable.storage {
        NamedStorage::Begins { begins, .. } => Ok(stacked(begins, area, target)),
        NamedStorage::Based {
            block,
            number,
            implied,
        } => {
            let locator = locator_set(alloc, target, implied);
            let template = match templates.based_copy(alloc, block, number) {
                Ok(template) => template,
                Err(error) => {
                    drop(area);
                    drop(locator);
                    return Err(error);
                }
            };
            Ok(placed_by(alloc, temporary, area, template, locator))
        }
    }
}

/// What the name at a token takes in ALLOCATE.
fn taken(
    alloc: Global,
    naming: &Naming<'_>,
    templates: &UnitTemplates,
    temporary: usize,
    at: u32,
    area: Option<Referent<'_>>,
    target: Option<Referent<'_>>,
) -> Result<Option<AllocatedItem>, AllocError>
    requires { (block : ℕ) → based_at templates.now block ≡ (naming_in naming.now).based block }
    ensures { IfOk result (λ made. option_map allocated_view made
        ≡ spec.taken (naming_in naming.now) temporary ((naming_in naming.now).meaning at)
        (option_map referent_view area.entry)
        (option_map referent_view target.entry)) }
{
    match naming.meaning(at) {
        NamedAs::Variable(variable) => {
            taken_in(alloc, naming, templates, temporary, variable, area, target)
        }
        _ => {
            drop(area);
            drop(target);
            Ok(None)
        }
    }
}

/// An item of ALLOCATE: the faults of IN, then those of SET, whatever their order in the text; then T11 at the name of
/// what can't be allocated (own).
fn allocated(
    alloc: Global,
    naming: &Naming<'_>,
    templates: &UnitTemplates,
    temporary: usize,
    item: &Allocation,
) -> Result<AllocatedItem, TypeError>
    requires { (block : ℕ) → based_at templates.now block ≡ (naming_in naming.now).based block }
    ensures { Gives allocated_view result (spec.allocated (naming_in naming.now) temporary (allocation_view item.now)) }
{
    let area = place_given(alloc, naming, &item.area)?;
    let target = match place_given(alloc, naming, &item.target) {
        Ok(target) => target,
        Err(error) => {
            drop(area);
            return Err(error);
        }
    };
    match taken(
        alloc,
        naming,
        templates,
        temporary,
        item.name.at,
        area,
        target,
    )? {
        Some(item) => Ok(item),
        None => Err(fault(Code::CannotAllocateOrFree, item.name.at)),
    }
}

/// How many temporaries an item has.
fn kept_for(item: &AllocatedItem) -> usize
    ensures few { result ≤ 1 }
    ensures value { result ≡ spec.kept_for (allocated_view item.now) }
{
    match item {
        AllocatedItem::Controlled { .. } => 0,
        AllocatedItem::Based { .. } | AllocatedItem::InArea { .. } => 1,
    }
}

/// The items of ALLOCATE, or the first fault of them; the next temporary is this one.
fn all_allocated(
    alloc: Global,
    naming: &Naming<'_>,
    templates: &UnitTemplates,
    temporary: usize,
    items: &[Allocation],
) -> Result<Vec<AllocatedItem>, TypeError>
    requires based { (block : ℕ) → based_at templates.now block ≡ (naming_in naming.now).based block }
    requires room { temporary + length (map allocation_view items.now) ≤ 9223372036854775808 }
    ensures { Gives (λ made. map allocated_view made.items) result
        (spec.all_allocated (naming_in naming.now) temporary (map allocation_view items.now)) }
{
    let mut made = Vec::new(alloc);
    let mut next = temporary;
    for item in items {
        let one = allocated(alloc, naming, templates, next, item)?;
        let kept = kept_for(&one);
        made.push(one)?;
        next += kept;
    }
    Ok(made)
}

/// An ALLOCATE, the first of whose temporaries is this one, or the first fault of its items, which are looked at one
/// after the other (X3.74). The templates are those of the unit's BASED variables.
pub fn allocate(
    alloc: Global,
    naming: &Naming<'_>,
    templates: &UnitTemplates,
    temporary: usize,
    items: &[Allocation],
) -> Result<Form, TypeError>
    requires based { (block : ℕ) → based_at templates.now block ≡ (naming_in naming.now).based block }
    requires room { temporary + length (map allocation_view items.now) ≤ 9223372036854775808 }
    ensures { Gives form_view result (allocate_typed (naming_in naming.now) temporary (map allocation_view items.now)) }
{
    let items = all_allocated(alloc, naming, templates, temporary, items)?;
    Ok(Form::Allocate(items))
}
