//! Statements without statements in them.
ghost use Rattle.std.specs.Prelude.{◌≡◌, ◌≤◌, ◌+◌, ℕ, false, map};
ghost use Rattle.pli_base.specs.views.StatementView as source;
ghost use Rattle.pli_base.specs.answers.FailureAnswers.{Gives};
ghost use Rattle.pli_type_names.specs.UnitNaming.{naming_in};
ghost use Rattle.pli_type_parts.specs.Around.{surroundings_of};
ghost use Rattle.pli_type_walk.specs.NumbersTaken.{taken_of};
ghost use Rattle.pli_type_walk.specs.Compound.{is_compound};
ghost use Rattle.pli_type_simple.specs.Simple.{simple_typed};
ghost use Rattle.pli_type_parts.specs.views.AroundView.{around_view};
ghost use Rattle.pli_type_templates.specs.views.UnitView.{based_at};
ghost use Rattle.pli_type_tree.specs.views.TypedView.{form_view};

use pli_base::statement::Body;
use pli_type_allocation::{allocate, free};
use pli_type_names::Naming;
use pli_type_operands::TypeError;
use pli_type_parts::Surroundings;
use pli_type_simple::{assignment, call, jump, put, returned};
use pli_type_templates::UnitTemplates;
use pli_type_tree::Form;
use std::alloc::Global;

/// A statement without statements in it, which begins at the token `at`, and the first of whose temporaries is this
/// one.
pub(crate) fn simple(
    alloc: Global,
    naming: &Naming<'_>,
    around: &Surroundings<'_>,
    templates: &UnitTemplates,
    temporary: usize,
    at: u32,
    body: &Body,
) -> Result<Form, TypeError>
    requires blocks { naming.now.blocks ≡ map (λ b. b.number) (surroundings_of (around_view around.now)).blocks }
    requires based { (block : ℕ) → based_at templates.now block ≡ (naming_in naming.now).based block }
    requires simple { is_compound (source.body_view body.now) ≡ false }
    requires room { temporary + taken_of (source.body_view body.now) ≤ 9223372036854775808 }
    ensures { Gives form_view result
        (simple_typed (naming_in naming.now) (surroundings_of (around_view around.now)) temporary at
        (source.body_view body.now)) }
{
    match body {
        Body::Null | Body::Declare(_) => Ok(Form::Null),
        Body::Stop => Ok(Form::Stop),
        Body::Revert(condition) => Ok(Form::Revert(*condition)),
        Body::Signal(condition) => Ok(Form::Signal(*condition)),
        Body::Allocate(items) => allocate(alloc, naming, templates, temporary, items.as_slice()),
        Body::Free(references) => free(alloc, naming, references.as_slice()),
        Body::Assign {
            target,
            equals,
            value,
        } => assignment(alloc, naming, at, target, *equals, value),
        Body::Call { name, arguments } => call(alloc, naming, *name, arguments),
        Body::Goto(label) => jump(naming, around, *label),
        Body::Return(value) => returned(alloc, naming, around, at, value),
        Body::Put { skip, items } => put(alloc, naming, *skip, items.as_slice()),
        Body::Procedure(_)
        | Body::Begin { .. }
        | Body::Do { .. }
        | Body::If { .. }
        | Body::On { .. } => unreachable!(),
    }
}
