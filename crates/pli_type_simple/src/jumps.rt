//! GOTO and RETURN.
ghost use Rattle.std.specs.Prelude.{◌≡◌, map, option_map};
ghost use Rattle.pli_base.specs.views.SyntaxView as syntax;
ghost use Rattle.pli_type_rules.specs.StatementTyping as spec;
ghost use Rattle.pli_type.specs.views.ValueView.{value_view};
ghost use Rattle.pli_base.specs.answers.FailureAnswers.{Gives};
ghost use Rattle.pli_type_names.specs.UnitNaming.{naming_in};
ghost use Rattle.pli_type_parts.specs.Around.{surroundings_of};
ghost use Rattle.pli_type_parts.specs.views.AroundView.{around_view};
ghost use Rattle.pli_type_tree.specs.views.TypedView.{form_view};

use pli_base::syntax::{Expression, Identifier};
use pli_base::{Code, fault};
use pli_type::{TypedValue, converted};
use pli_type_expression::value_of;
use pli_type_names::{NamedAs, Naming};
use pli_type_operands::{TypeError, first_token};
use pli_type_parts::{Surroundings, outward_to};
use pli_type_rules::Beginning;
use pli_type_tree::Form;
use std::alloc::Global;

/// A GOTO, which leads to a label of a list that it stands in (X3.74). Any other is A11 at the label, as resolution has
/// told already: no unit that is typed has one.
pub fn jump(
    naming: &Naming<'_>,
    around: &Surroundings<'_>,
    label: Identifier,
) -> Result<Form, TypeError>
    ensures { Gives form_view result
        (spec.goto_typed (naming_in naming.now) (surroundings_of (around_view around.now)) label) }
{
    let NamedAs::Label(statement) = naming.meaning(label.at) else {
        return Err(fault(Code::BadGoto, label.at));
    };
    match outward_to(around.lists.as_slice(), statement) {
        Some(outward) => Ok(Form::Goto {
            outward,
            label: statement,
        }),
        None => Err(fault(Code::BadGoto, label.at)),
    }
}

/// The area that OFFSET names in the RETURNS of the procedure here, if it names one.
fn area_here(naming: &Naming<'_>, around: &Surroundings<'_>) -> Option<Beginning>
    requires { naming.now.blocks ≡ map (λ b. b.number) (surroundings_of (around_view around.now)).blocks }
    ensures { result ≡ spec.area_here (naming_in naming.now) (surroundings_of (around_view around.now)) }
{
    match naming.enclosing(around.begins) {
        Some(block) => naming.returned_area(block),
        None => None,
    }
}

/// A value that a procedure returns, in whose RETURNS OFFSET names this area: T9 at RETURN where it is no function, T5
/// at the value's first token where it does not suit (X3.74).
fn returned_value(
    alloc: Global,
    greatest: u8,
    area: Option<Beginning>,
    around: &Surroundings<'_>,
    at: u32,
    first: u32,
    value: TypedValue,
) -> Result<Form, TypeError>
    ensures { Gives form_view result
        (spec.returned_value greatest area at first around.now.begins (around_view around.now).value
        (value_view value)) }
{
    let Some(description) = around.value else {
        drop(value);
        return Err(fault(Code::WrongReturn, at));
    };
    match converted(alloc, greatest, area, description, value)? {
        Some(value) => Ok(Form::ReturnValue {
            outward: around.begins,
            value,
        }),
        None => Err(fault(Code::CannotAssign, first)),
    }
}

/// A RETURN at the token `at`: T9 there where a function returns nothing or another procedure a value (X3.74).
#[tactic(auto, using(crate::proofs::CallLemmas::greatest_is))]
pub fn returned(
    alloc: Global,
    naming: &Naming<'_>,
    around: &Surroundings<'_>,
    at: u32,
    value: &Option<Expression>,
) -> Result<Form, TypeError>
    requires { naming.now.blocks ≡ map (λ b. b.number) (surroundings_of (around_view around.now)).blocks }
    ensures { Gives form_view result
        (spec.return_typed (naming_in naming.now) (surroundings_of (around_view around.now)) at
        (option_map syntax.expression_view value.now)) }
{
    match value {
        None => {
            if around.value.is_none() {
                Ok(Form::Return {
                    outward: around.begins,
                })
            } else {
                Err(fault(Code::WrongReturn, at))
            }
        }
        Some(expression) => {
            let value = value_of(alloc, naming, expression)?;
            let first = first_token(expression);
            let area = area_here(naming, around);
            returned_value(alloc, naming.greatest(), area, around, at, first, value)
        }
    }
}
