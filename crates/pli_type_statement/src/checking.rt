//! The check of a unit.
ghost use Rattle.std.specs.Prelude.{◌≡◌, ℕ, ◌∷◌, [], IfOk};
ghost use Rattle.pli_base.specs.views.StatementView.{unit_view};
ghost use Rattle.pli_declare.specs.ResolvedUnits.{resolved_unit_of};
ghost use Rattle.pli_map.specs.Description as described;
ghost use Rattle.pli_map.specs.views.DescriptionView.{description_view};
ghost use Rattle.pli_type_rules.specs.NamedUnits.{block_symbols, checked_unit, is_based, named_unit, templates_of};
ghost use Rattle.pli_type_statement.specs.answers.Answers.{Checks};
ghost use Rattle.pli_type_templates.specs.ItemNames.{HasFewMarks, HasFewRegions};
ghost use Rattle.pli_type_templates.specs.views.UnitView.{automatic_at, based_at};
ghost use Rattle.pli_type_tree.specs.views.GlobalView.{globals_view};

use crate::statement::type_statements;
use pli_base::{Failure, Fault};
use pli_map::Description;
use pli_resolve::ResolvedUnit;
use pli_type_names::{Naming, name_unit};
use pli_type_templates::{UnitTemplates, templates};
use pli_type_tree::TypedUnit;
use pli_type_walk::{Next, TypingWalk, in_unit, outer_signature, typed_unit};
use std::alloc::{AllocError, Global};

/// Why a unit has no typed tree: all its faults of types, in the order of the text, one for each statement, and of an
/// IF and a group one for what stands in front of the statements in them; or that memory was refused.
pub type CheckError = Failure<Vec<Fault>>;

/// What the names of a unit mean in its external procedure, and what its variables are made from.
#[derive(Drop)]
struct NamesAndTemplates<'a> {
    naming: Naming<'a>,
    templates: UnitTemplates,
}

/// What the names of a unit mean in its external procedure, and what its variables are made from: both are found in the
/// symbols of its blocks, which are made once.
fn names_and_templates<'a>(
    alloc: Global,
    unit: &'a ResolvedUnit<'a>,
    undescribed: &'a Description,
) -> Result<NamesAndTemplates<'a>, AllocError>
    requires { description_view undescribed.now ≡ described.Pointer }
    ensures naming { IfOk result (λ made. made.naming ≡ record { unit = unit.now; blocks = 0 ∷ [] }) }
    ensures automatic { IfOk result (λ made. (block : ℕ) → automatic_at made.templates block
        ≡ (named_unit 63 (resolved_unit_of (unit_view unit.now))).automatic block) }
    ensures based { IfOk result (λ made. (block : ℕ) → based_at made.templates block
        ≡ templates_of (is_based 63) (block_symbols (resolved_unit_of (unit_view unit.now)) block)) }
    ensures globals { IfOk result (λ made. globals_view made.templates.globals.items
        ≡ (named_unit 63 (resolved_unit_of (unit_view unit.now))).globals) }
    ensures regions { IfOk result (λ _. HasFewRegions (unit_view unit.now)) }
    ensures marks { IfOk result (λ _. HasFewMarks (unit_view unit.now)) }
{
    let symbols = unit.symbols(alloc)?;
    let mut naming = name_unit(alloc, unit, &symbols, undescribed)?;
    naming.enter(0)?;
    let templates = templates(alloc, unit, &symbols)?;
    Ok(NamesAndTemplates { naming, templates })
}

/// The typed tree of a resolved unit, or its faults of types.
pub fn check(alloc: Global, unit: &ResolvedUnit<'_>) -> Result<TypedUnit, CheckError>
    ensures { Checks result (checked_unit (resolved_unit_of (unit_view unit.now))) }
{
    let undescribed = Description::Pointer;
    let made = names_and_templates(alloc, &*unit, &undescribed)?;
    let NamesAndTemplates {
        naming,
        mut templates,
    } = made;
    let tree = unit.unit();
    let statements = tree.statements.as_slice();
    let variables = templates.take(alloc, 0);
    let value = naming.procedure(0).returned;
    let surroundings = in_unit(alloc, statements, value)?;
    let mut walk = TypingWalk {
        naming,
        surroundings,
        next: Next {
            block: 1,
            temporary: 0,
        },
        templates,
        faults: Vec::new(alloc),
        procedures: Vec::new(alloc),
    };
    match type_statements(alloc, &mut walk, statements)? {
        Some(list) => {
            let signature = outer_signature(alloc, &walk.naming)?;
            Ok(typed_unit(tree, signature, variables, list, walk)?)
        }
        None => {
            let TypingWalk { faults, .. } = walk;
            Err(CheckError::Fault(faults))
        }
    }
}
