//! The code of groups with a control variable, round their lists.
#![tactic(auto, using(crate::proofs::EmitLemmas::extended_both))]

ghost use Rattle.std.specs.Prelude.{◌≡◌, false, suc, length};
ghost use Rattle.pli_type_tree.specs.Iterations as plain;
ghost use Rattle.pli_type_tree.specs.Iterations.{kept_by};
ghost use Rattle.pli_type_tree.specs.views.TypedView.{iteration_view, range_view};
ghost use Rattle.pli_gen_emit.specs.TreeTranslation.{keeps_code, start_code};
ghost use Rattle.pli_gen_emit.specs.TreeTranslation.{limit_test, while_test, guarded, tests_code};
ghost use Rattle.pli_gen_emit.specs.TreeTranslation.{counted_code, advances_code, back_code};
ghost use Rattle.pli_gen_emit.specs.answers.Emitting.{Emits};
ghost use Rattle.pli_gen_emit.specs.answers.Pieces.{jump_place, IsTurn, LandsTurn};

use crate::conversion::emit_store;
use crate::emitter::Emitter;
use crate::expression::{emit_place, emit_value};
use pli_code::Instruction;
use pli_operation::Operation;
use pli_type_tree::{Iteration, TypedRange};

/// Where the tests before a turn stand, and the jumps out of the group after the limit's and after WHILE's.
#[derive(Clone, Copy)]
pub(crate) struct Turn {
    pub place: usize,
    pub limit: Option<usize>,
    pub condition: Option<usize>,
}

/// Emits what keeps TO and BY, after the temporary of the start.
fn emit_kept<'a>(range: &'a TypedRange, first: usize, code: &mut Emitter<'a>)
    ensures { Emits code.old code.new (keeps_code (suc first) (kept_by (range_view range.now))) }
{
    match range {
        TypedRange::Once | TypedRange::Repeated(_) | TypedRange::RepeatedString(_) => {}
        TypedRange::ToBy { to, by } => {
            emit_value(to, code);
            code.set_temporary(first, 1);
            match by {
                None => code.constant_one(),
                Some(by) => emit_value(by, code),
            }
            code.set_temporary(first, 2);
        }
        TypedRange::ByTo { by, to } => {
            emit_value(by, code);
            code.set_temporary(first, 1);
            if let Some(to) = to {
                emit_value(to, code);
                code.set_temporary(first, 2);
            }
        }
    }
}

/// Emits what is done before the first turn.
pub(crate) fn emit_start<'a>(iteration: &'a Iteration, code: &mut Emitter<'a>)
    ensures { Emits code.old code.new (start_code (iteration_view iteration.now)) }
{
    let first = iteration.temporary;
    emit_value(&iteration.start, code);
    code.set_temporary(first, 0);
    emit_kept(&iteration.range, first, code);
    emit_place(&iteration.control, code);
    code.take_temporary(first, 0);
    emit_store(&iteration.conversion, code);
}

/// The number of the limit among what is kept, if there is a limit.
fn limit_number(range: &TypedRange) -> Option<u8>
    ensures { result ≡ plain.limit_number (range_view range.now) }
{
    match range {
        TypedRange::Once | TypedRange::Repeated(_) | TypedRange::RepeatedString(_) => None,
        TypedRange::ToBy { .. } => Some(1),
        TypedRange::ByTo { to, .. } => match to {
            None => None,
            Some(_) => Some(2),
        },
    }
}

/// The number of the step among what is kept; 0 where there is none.
fn step_number(range: &TypedRange) -> u8
    ensures { result ≡ plain.step_number (range_view range.now) }
{
    match range {
        TypedRange::Once | TypedRange::Repeated(_) | TypedRange::RepeatedString(_) => 0,
        TypedRange::ToBy { .. } => 2,
        TypedRange::ByTo { .. } => 1,
    }
}

/// Emits the test against the limit, if there is one, and says where its jump stands.
fn emit_limit<'a>(iteration: &'a Iteration, code: &mut Emitter<'a>) -> Option<usize>
    ensures code { Emits code.old code.new (guarded (limit_test (iteration_view iteration.now)) 0) }
    ensures place { code.new.tables.lacks_memory ≡ false →
        result ≡ jump_place (limit_test (iteration_view iteration.now)) (length code.old.code.items) }
{
    let Some(limit) = limit_number(&iteration.range) else {
        return None;
    };
    let first = iteration.temporary;
    let step = step_number(&iteration.range);
    emit_place(&iteration.control, code);
    code.emit(Instruction::Load);
    code.take_temporary(first, limit);
    code.take_temporary(first, step);
    code.emit(Instruction::Operate(Operation::Within));
    let test = code.place();
    code.jump_unless(0);
    Some(test)
}

/// Emits the test of WHILE, if there is one, and says where its jump stands.
fn emit_while<'a>(iteration: &'a Iteration, code: &mut Emitter<'a>) -> Option<usize>
    ensures code { Emits code.old code.new (guarded (while_test (iteration_view iteration.now).condition) 0) }
    ensures place { code.new.tables.lacks_memory ≡ false →
        result ≡ jump_place (while_test (iteration_view iteration.now).condition) (length code.old.code.items) }
{
    match &iteration.condition {
        None => None,
        Some(condition) => {
            emit_value(condition, code);
            let test = code.place();
            code.jump_unless(0);
            Some(test)
        }
    }
}

/// Emits the tests before a turn, whose jumps have no targets yet.
pub(crate) fn emit_tests<'a>(iteration: &'a Iteration, code: &mut Emitter<'a>) -> Turn
    ensures code { Emits code.old code.new (tests_code (iteration_view iteration.now) 0) }
    ensures turn { code.new.tables.lacks_memory ≡ false →
        IsTurn (iteration_view iteration.now) (length code.old.code.items) result }
{
    let place = code.place();
    let limit = emit_limit(iteration, code);
    let condition = emit_while(iteration, code);
    Turn {
        place,
        limit,
        condition,
    }
}

/// Emits what adds the step of this number to the control variable.
fn emit_count<'a>(iteration: &'a Iteration, step: u8, code: &mut Emitter<'a>)
    ensures { Emits code.old code.new (counted_code (iteration_view iteration.now) step) }
{
    emit_place(&iteration.control, code);
    emit_place(&iteration.control, code);
    code.emit(Instruction::Load);
    code.take_temporary(iteration.temporary, step);
    code.emit(Instruction::Operate(Operation::Add));
    emit_store(&iteration.conversion, code);
}

/// Emits what gives the control variable its next value.
fn emit_advance<'a>(iteration: &'a Iteration, code: &mut Emitter<'a>)
    ensures { Emits code.old code.new
        (advances_code (iteration_view iteration.now).range (iteration_view iteration.now)) }
{
    match &iteration.range {
        TypedRange::Once => {}
        TypedRange::ToBy { .. } => emit_count(iteration, 2, code),
        TypedRange::ByTo { .. } => emit_count(iteration, 1, code),
        TypedRange::Repeated(next) => {
            emit_place(&iteration.control, code);
            emit_value(next, code);
            code.emit(Instruction::Store);
        }
        TypedRange::RepeatedString(next) => {
            emit_place(&iteration.control, code);
            emit_value(next, code);
            code.emit(Instruction::FitToPlace);
            code.emit(Instruction::Store);
        }
    }
}

/// Whether there may be more than one turn.
fn is_iterated(range: &TypedRange) -> bool
    ensures { result ≡ plain.is_iterated (range_view range.now) }
{
    !matches!(range, TypedRange::Once)
}

/// Emits what comes between two turns, and the jump back to the tests.
pub(crate) fn emit_back<'a>(
    number: u32,
    iteration: &'a Iteration,
    turn: usize,
    code: &mut Emitter<'a>,
)
    ensures { let i = iteration_view iteration.now in
        Emits code.old code.new (back_code (plain.is_iterated i.range) number (advances_code i.range i) turn) }
{
    if !is_iterated(&iteration.range) {
        return;
    }
    code.emit(Instruction::Line { statement: number });
    emit_advance(iteration, code);
    code.jump(turn);
}

/// The targets of the jumps after the tests are the place after the code so far.
pub(crate) fn land_tests(code: &mut Emitter<'_>, turn: Turn)
    ensures { LandsTurn code.old code.new turn (length code.old.code.items) }
{
    let after = code.place();
    code.land_guard(turn.limit, after);
    code.land_guard(turn.condition, after);
}
