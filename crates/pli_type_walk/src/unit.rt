//! Where the walk over a unit begins, and the typed unit at its end.
ghost use Rattle.std.specs.Prelude.{◌≡◌, option_map, IfOk};
ghost use Rattle.pli_base.specs.views.StatementView as source;
ghost use Rattle.pli_base.specs.views.StatementView.{unit_view};
ghost use Rattle.pli_map.specs.views.DescriptionView.{description_view};
ghost use Rattle.pli_type_rules.specs.StatementTyping.{function_end, labels_of};
ghost use Rattle.pli_type_parts.specs.Around.{outermost};
ghost use Rattle.pli_type_walk.specs.Walking.{external_with, finished, unit_with};
ghost use Rattle.pli_type_parts.specs.views.AroundView.{around_view};
ghost use Rattle.pli_type_tree.specs.views.GlobalView.{globals_view, signature_view};
ghost use Rattle.pli_type_tree.specs.views.TemplateView.{groups_view};
ghost use Rattle.pli_type_tree.specs.views.TypedView as typed;

use crate::outer::may_begin;
use crate::walk::TypingWalk;
use pli_base::statement::{Procedure, Statement};
use pli_map::Description;
use pli_type_parts::{ListLabels, Surroundings, labels_of};
use pli_type_tree::{
    BlockHead, Signature, TypedProcedure, TypedStatement, TypedUnit, VariableGroup,
};
use std::alloc::{AllocError, Global};

/// In the list of the external procedure, which is block 0, and gives this if it is a function.
pub fn in_unit<'a>(
    alloc: Global,
    statements: &[Statement],
    value: Option<&'a Description>,
) -> Result<Surroundings<'a>, AllocError>
    ensures { IfOk result (λ around. around_view around ≡ outermost (labels_of (source.statements_view statements.now))
        (option_map (λ d. description_view d.now) value.entry)) }
{
    let labels = labels_of(alloc, statements)?;
    let mut lists = Vec::new(alloc);
    lists.push(ListLabels {
        block: Some(0),
        is_on_unit: false,
        labels,
    })?;
    Ok(Surroundings {
        lists,
        begins: 0,
        value,
    })
}

/// The number of a function's END; none of what gives nothing.
fn function_end(value: &Option<Description>, end: u32) -> Option<u32>
    ensures { result ≡ function_end (option_map description_view value.now) end }
{
    match value {
        Some(_) => Some(end),
        None => None,
    }
}

/// The external procedure of a unit, which is block 0.
#[tactic(auto, using(crate::proofs::WalkEndLemmas::unit_named_so))]
fn external_procedure(
    tree: &Procedure,
    signature: &Signature,
    variables: Vec<VariableGroup>,
    temporaries: usize,
    statements: Vec<TypedStatement>,
) -> TypedProcedure
    ensures { typed.procedure_view result
        ≡ external_with (unit_view tree.now) (signature_view signature.now) (groups_view variables.items) temporaries
        (typed.statements_view statements.items) }
{
    TypedProcedure {
        is_on_unit: false,
        head: BlockHead {
            number: 0,
            statement: tree.number,
            variables,
            temporaries,
        },
        parent: None,
        parameters: signature.parameters.len(),
        function_end: function_end(&signature.result, tree.end),
        statements,
    }
}

/// The typed unit of its tree, what its external procedure takes and gives, what the variables of block 0 are made
/// from, its typed statements, and what the walk over these has found.
#[tactic(auto, using(crate::proofs::WalkEndLemmas::unit_named_so))]
pub fn typed_unit(
    tree: &Procedure,
    signature: Signature,
    variables: Vec<VariableGroup>,
    statements: Vec<TypedStatement>,
    walk: TypingWalk<'_>,
) -> Result<TypedUnit, AllocError>
    ensures { IfOk result (λ made. typed.unit_view made
        ≡ unit_with (unit_view tree.now) (signature_view signature) (globals_view walk.entry.templates.globals.items)
        (groups_view variables.items) walk.entry.next.temporary (typed.statements_view statements.items)
        (finished walk.entry)) }
{
    let TypingWalk {
        next,
        templates,
        mut procedures,
        ..
    } = walk;
    let external = external_procedure(tree, &signature, variables, next.temporary, statements);
    let is_main = may_begin(tree, &signature);
    procedures.insert(0, external)?;
    Ok(TypedUnit {
        name: tree.name.name,
        procedure: tree.name.name,
        is_main,
        signature,
        globals: templates.globals,
        procedures,
    })
}
