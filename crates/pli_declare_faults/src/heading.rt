//! The least code of a procedure's heading.
ghost use Rattle.std.specs.Prelude.{◌≡◌, length, map};
ghost use Rattle.std.specs.List.{list_any, list_all};
ghost use Rattle.pli_declare.specs.Faults as faults;
ghost use Rattle.pli_base.specs.views.DeclarationView.{described_view};
ghost use Rattle.pli_base.specs.views.StatementView.{option_view, unit_view};
ghost use Rattle.pli_declare.specs.Resolution.{returned_are, names_nothing};
ghost use Rattle.pli_declare.specs.Declarations.{returned_by};
ghost use Rattle.pli_declare.specs.Resolution as spec;

use crate::least::{code_if, least};
use pli_base::Code;
use pli_base::declaration::{DescribedAttribute, SimpleAttribute};
use pli_base::statement::{Procedure, ProcedureOption};
use pli_declare_attributes::{lesser, result_fault};
use pli_declare_variables::options_of;

/// How many parameters a procedure may have (own).
const PARAMETER_LIMIT: usize = 64;

/// How many parameters a procedure has.
#[tactic(auto, using(crate::proofs::HeadingLemmas::parameters_out))]
fn parameter_count(procedure: &Procedure) -> usize
    ensures { result ≡ length (unit_view procedure.now).heading.parameters }
{
    procedure.parameters.len()
}

/// How often RETURNS stands.
fn returns_count(options: &[ProcedureOption]) -> usize
    ensures { result ≡ length (returned_by (map option_view options.now)) }
{
    let mut count = 0;
    for option in options {
        if let ProcedureOption::Returns(_) = option {
            count += 1;
        }
    }
    count
}

/// Whether OPTIONS(MAIN) stands.
fn has_main(options: &[ProcedureOption]) -> bool
    ensures { result ≡ list_any spec.is_main (map option_view options.now) }
{
    for option in options {
        if let ProcedureOption::Main = option {
            return true;
        }
    }
    false
}

/// The least fault of the attributes in RETURNS.
fn returned_fault(options: &[ProcedureOption]) -> Option<Code>
    ensures { result ≡ spec.least (map faults.result_fault (returned_by (map option_view options.now))) }
{
    let mut least = None;
    for option in options {
        if let ProcedureOption::Returns(attributes) = option {
            least = lesser(least, result_fault(attributes.as_slice()));
        }
    }
    least
}

/// The least code of a heading, where the names of areas in its RETURNS are good or not.
pub(crate) fn heading_code(are_good: bool, procedure: &Procedure) -> Option<Code>
    ensures { result ≡ spec.heading_code are_good (unit_view procedure.now).heading }
{
    let options = options_of(procedure);
    let parameters = parameter_count(procedure);
    let returns = returns_count(options);
    let is_main = has_main(options);
    least(&[
        code_if(returns > 1, Code::AttributesConflict),
        code_if(
            is_main && (parameters > 0 || returns > 0),
            Code::AttributesConflict,
        ),
        returned_fault(options),
        code_if(!are_good, Code::BadLocatorOrAreaName),
        code_if(parameters > PARAMETER_LIMIT, Code::TooManyParameters),
    ])
}

/// Whether attributes name no area.
fn name_nothing(attributes: &[DescribedAttribute]) -> bool
    ensures { result ≡ list_all names_nothing (map described_view attributes.now) }
{
    for attribute in attributes {
        if let DescribedAttribute::Simple(SimpleAttribute::Offset(Some(_))) = attribute {
            return false;
        }
    }
    true
}

/// Whether the RETURNS of a procedure name no area: outside the unit none is declared.
pub(crate) fn returned_name_nothing(procedure: &Procedure) -> bool
    ensures { result ≡ returned_are (list_all names_nothing) (unit_view procedure.now).heading }
{
    for option in options_of(procedure) {
        if let ProcedureOption::Returns(attributes) = option {
            if !name_nothing(attributes.as_slice()) {
                return false;
            }
        }
    }
    true
}
