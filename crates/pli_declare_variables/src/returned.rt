//! What a procedure returns.
ghost use Rattle.std.specs.Prelude.{◌≡◌, None, map, option_map};
ghost use Rattle.pli_base.specs.views.DeclarationView.{described_view};
ghost use Rattle.pli_base.specs.views.StatementView.{option_view, unit_view};
ghost use Rattle.pli_map.specs.views.DescriptionView.{description_view};
ghost use Rattle.pli_declare.specs.Faults.{result_fault, described_scalar};
ghost use Rattle.pli_declare.specs.Declarations.{returned_by, described_result, AreSound};

use pli_base::declaration::DescribedAttribute;
use pli_base::statement::{Procedure, ProcedureOption};
use pli_declare_attributes::completed_result;
use pli_map::Description;

/// The type that the attributes in RETURNS say, where they have no fault.
fn type_of(attributes: &[DescribedAttribute]) -> Description
    requires { result_fault (map described_view attributes.now) ≡ None }
    ensures { description_view result ≡ described_scalar (map described_view attributes.now) }
{
    match completed_result(attributes) {
        Ok(description) => description,
        Err(_) => unreachable!(),
    }
}

/// What the first RETURNS among options says, where none of them has a fault.
fn first_returned(options: &[ProcedureOption]) -> Option<Description>
    requires { AreSound (returned_by (map option_view options.now)) }
    ensures { option_map description_view result ≡ described_result (returned_by (map option_view options.now)) }
{
    for option in options {
        if let ProcedureOption::Returns(attributes) = option {
            return Some(type_of(attributes.as_slice()));
        }
    }
    None
}

/// The options of a procedure.
#[tactic(auto, using(crate::proofs::OptionLemmas::options_out))]
pub fn options_of(procedure: &Procedure) -> &[ProcedureOption]
    ensures { map option_view result.now ≡ (unit_view procedure.now).heading.options }
{
    procedure.options.as_slice()
}

/// What a procedure returns, if it does, where no RETURNS of it has a fault.
pub(crate) fn returned(procedure: &Procedure) -> Option<Description>
    requires { AreSound (returned_by (unit_view procedure.now).heading.options) }
    ensures { option_map description_view result ≡ described_result
        (returned_by (unit_view procedure.now).heading.options) }
{
    first_returned(options_of(procedure))
}
