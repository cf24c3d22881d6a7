//! FREE.
ghost use Rattle.std.specs.Prelude.{◌≡◌, map, option_map};
ghost use Rattle.pli_base.specs.answers.FailureAnswers.{Gives};
ghost use Rattle.pli_base.specs.views.SyntaxView.{reference_view};
ghost use Rattle.pli_type_rules.specs.AllocationTyping as spec;
ghost use Rattle.pli_type_rules.specs.AllocationTyping.{in_turn};
ghost use Rattle.pli_type_rules.specs.TypingSteps.{free_typed};
ghost use Rattle.pli_type_names.specs.UnitNaming.{naming_in};
ghost use Rattle.pli_type_tree.specs.TypedTree as tree;
ghost use Rattle.pli_type_tree.specs.views.TypedView as typed;
ghost use Rattle.pli_type_tree.specs.views.TypedView.{form_view, freed_view};

use crate::variables::only_variable;
use pli_base::syntax::Reference;
use pli_base::{Code, fault};
use pli_type_expression::referred;
use pli_type_names::Naming;
use pli_type_operands::{Role, TypeError, own_token};
use pli_type_tree::{Form, FreedItem, Root, TypedReference};
use std::alloc::Global;

/// What is freed that begins there: the newest generation of a CONTROLLED variable, or the generation or the block of a
/// BASED one to which its locator leads.
fn released_at(root: Root) -> Option<FreedItem>
    ensures { option_map freed_view result ≡ spec.released (tree.Whole (typed.root_view root)) }
{
    match root {
        Root::NewestOf { number } => Some(FreedItem::Controlled { number }),
        Root::Located {
            locator,
            description,
        } => {
            let locator = Box::into_inner(locator);
            Some(FreedItem::Based {
                locator,
                description,
            })
        }
        Root::InSlot { .. } | Root::OfProgram { .. } => None,
    }
}

/// What is freed: a CONTROLLED or BASED variable as a whole.
fn released(reference: TypedReference) -> Option<FreedItem>
    ensures { option_map freed_view result ≡ spec.released (typed.reference_view reference) }
{
    match reference {
        TypedReference::Whole(root) => released_at(root),
        _ => {
            drop(reference);
            None
        }
    }
}

/// An item of FREE: the faults of its reference, then T11 where that can't be freed (X3.74), at its first name after
/// its last arrow (own).
fn freed(alloc: Global, naming: &Naming<'_>, reference: &Reference) -> Result<FreedItem, TypeError>
    ensures { Gives freed_view result (spec.freed (naming_in naming.now) (reference_view reference.now)) }
{
    let at = own_token(reference);
    let denoted = referred(alloc, naming, Role::Target, reference)?;
    let referent = only_variable(denoted, at)?;
    match released(referent.reference) {
        Some(item) => Ok(item),
        None => Err(fault(Code::CannotAllocateOrFree, at)),
    }
}

/// The items of FREE, or the first fault of them.
fn all_freed(
    alloc: Global,
    naming: &Naming<'_>,
    references: &[Reference],
) -> Result<Vec<FreedItem>, TypeError>
    ensures { Gives (λ made. map freed_view made.items) result
        (in_turn (spec.freed (naming_in naming.now)) (map reference_view references.now)) }
{
    let mut made = Vec::new(alloc);
    for reference in references {
        let next = freed(alloc, naming, reference)?;
        made.push(next)?;
    }
    Ok(made)
}

/// A FREE, or the first fault of its items, which are looked at one after the other (X3.74).
pub fn free(alloc: Global, naming: &Naming<'_>, references: &[Reference]) -> Result<Form, TypeError>
    ensures { Gives form_view result (free_typed (naming_in naming.now) (map reference_view references.now)) }
{
    let items = all_freed(alloc, naming, references)?;
    Ok(Form::Free(items))
}
