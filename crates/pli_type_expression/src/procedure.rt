//! Calls of procedures and of functions of the program.
ghost use Rattle.std.specs.Prelude.{map, None};
ghost use Rattle.pli_type_rules.specs.Names as names;
ghost use Rattle.pli_type_rules.specs.ProcedureCalls as spec;
ghost use Rattle.pli_type_rules.specs.Typing as typing;
ghost use Rattle.pli_base.specs.answers.FailureAnswers.{Gives};
ghost use Rattle.pli_type_operands.specs.views.TypingView.{argument_view};
ghost use Rattle.pli_type_expression.specs.views.SegmentView.{segment_view};
ghost use Rattle.pli_type_names.specs.SymbolMeaning.{IsProcedure};
ghost use Rattle.pli_type_names.specs.UnitNaming.{naming_in};
ghost use Rattle.pli_type_tree.specs.views.TypedView.{arguments_view};

use crate::names::greatest;
use crate::segment::Segment;
use pli_base::{Code, fault};
use pli_type_names::{NamedProcedure, Naming};
use pli_type_operands::{Argument, TypeError, all_passed, result_of};
use pli_type_tree::TypedArgument;
use std::alloc::Global;

/// The arguments of a call as the procedure takes them: at the called name T6 where their number is wrong, T7 where one
/// does not suit its parameter (X3.74).
pub fn pass(
    alloc: Global,
    greatest: u8,
    procedure: NamedProcedure<'_, '_>,
    at: u32,
    arguments: Vec<Argument<'_>>,
) -> Result<Vec<TypedArgument>, TypeError>
    ensures { (named : names.NamedProcedure) → IsProcedure procedure.entry named →
        Gives (λ v. arguments_view v.items) result
        (spec.arguments_passed greatest named at (map argument_view arguments.entry.items)) }
{
    if arguments.len() != procedure.parameters.len() {
        return Err(fault(Code::WrongNumberOfArguments, at));
    }
    match all_passed(alloc, greatest, procedure.parameters, arguments)? {
        Some(passed) => Ok(passed),
        None => Err(fault(Code::WrongArgument, at)),
    }
}

/// A call of a function of the program: T6, T7 or T8 at its name, in this order (own).
pub(crate) fn procedure_called(
    alloc: Global,
    naming: &Naming<'_>,
    procedure: NamedProcedure<'_, '_>,
    at: u32,
    arguments: Vec<Argument<'_>>,
) -> Result<Segment, TypeError>
    ensures { (named : names.NamedProcedure) → IsProcedure procedure.entry named
        → Gives (segment_view (naming_in naming.now)) result
        (typing.procedure_called (naming_in naming.now) named at (map argument_view arguments.entry.items)) }
{
    let passed = pass(alloc, greatest(naming), procedure, at, arguments)?;
    let value = result_of(
        at,
        procedure.callee,
        passed,
        procedure.returned,
        procedure.area,
    )?;
    Ok(Segment::Function(value))
}
