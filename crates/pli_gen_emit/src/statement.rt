//! The code of statements.
#![tactic(auto, using(crate::proofs::EmitLemmas::extended_both))]

ghost use Rattle.std.specs.Prelude.{length};
ghost use Rattle.pli_type_tree.specs.views.TypedView.{form_view, statement_view, statements_view};
ghost use Rattle.pli_gen_emit.specs.TreeTranslation.{statement_code, form_code, list_code};
ghost use Rattle.pli_gen_emit.specs.answers.Emitting.{Emits};

use crate::emitter::Emitter;
use crate::expression::emit_value;
use crate::iteration::{emit_back, emit_start, emit_tests, land_tests};
use crate::simple::emit_simple;
use pli_code::Instruction;
use pli_type_tree::{Form, TypedStatement};

/// Emits the code of statements.
#[cycle(emit)]
pub(crate) fn emit_list<'a>(statements: &'a [TypedStatement], code: &mut Emitter<'a>)
    ensures { Emits code.old code.new (list_code (statements_view statements.now) (length code.old.code.items)) }
{
    for statement in statements {
        emit_statement(statement, code);
    }
}

/// Emits the code of a statement.
#[cycle(emit)]
fn emit_statement<'a>(statement: &'a TypedStatement, code: &mut Emitter<'a>)
    ensures { Emits code.old code.new (statement_code (statement_view statement.now) (length code.old.code.items)) }
{
    let number = statement.number;
    code.emit(Instruction::Step { statement: number });
    emit_form(number, &statement.form, code);
}

/// Emits the code of what a statement does.
#[cycle(emit)]
fn emit_form<'a>(number: u32, form: &'a Form, code: &mut Emitter<'a>)
    ensures { Emits code.old code.new (form_code number (form_view form.now) (length code.old.code.items)) }
{
    match form {
        Form::If {
            condition,
            consequence,
            alternative,
        } => {
            emit_value(condition, code);
            let test = code.place();
            code.jump_unless(0);
            emit_statement(consequence, code);
            match alternative {
                None => {
                    let after = code.place();
                    code.land_test(test, after);
                }
                Some(other) => {
                    let over = code.place();
                    code.jump(0);
                    let part = code.place();
                    code.land_test(test, part);
                    emit_statement(other, code);
                    let after = code.place();
                    code.land_jump(over, after);
                }
            }
        }
        Form::Group(statements) => emit_list(statements.as_slice(), code),
        Form::While {
            condition,
            statements,
        } => {
            let turn = code.place();
            code.emit(Instruction::Line { statement: number });
            emit_value(condition, code);
            let test = code.place();
            code.jump_unless(0);
            code.emit(Instruction::Step { statement: number });
            emit_list(statements.as_slice(), code);
            code.jump(turn);
            let after = code.place();
            code.land_test(test, after);
        }
        Form::Iterate {
            iteration,
            statements,
        } => {
            emit_start(iteration, code);
            let turn = emit_tests(iteration, code);
            code.emit(Instruction::Step { statement: number });
            emit_list(statements.as_slice(), code);
            emit_back(number, iteration, turn.place, code);
            land_tests(code, turn);
        }
        Form::Null
        | Form::Assign { .. }
        | Form::AssignString { .. }
        | Form::AssignAggregate { .. }
        | Form::AssignArea { .. }
        | Form::EmptyArea(_)
        | Form::Put { .. }
        | Form::Begin { .. }
        | Form::Call { .. }
        | Form::Goto { .. }
        | Form::Return { .. }
        | Form::ReturnValue { .. }
        | Form::Stop
        | Form::On { .. }
        | Form::Revert(_)
        | Form::Signal(_)
        | Form::Allocate(_)
        | Form::Free(_) => emit_simple(form, code),
    }
}
