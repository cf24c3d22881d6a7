//! The code of references and expressions.
#![tactic(auto, using(crate::proofs::EmitLemmas::extended_both))]

ghost use Rattle.pli_type_tree.specs.views.TypedView.{expression_view, reference_view, root_view};
ghost use Rattle.pli_type_tree.specs.views.TypedView.{argument_before};
ghost use Rattle.pli_type_tree.specs.views.TypedView.{operands_view, subscripts_view, arguments_view};
ghost use Rattle.pli_type_tree.specs.TypedTree.{NoArgument};
ghost use Rattle.pli_gen_emit.specs.TreeTranslation.{value_code, root_code, place_code, operands_code, subscripts_code};
ghost use Rattle.pli_gen_emit.specs.TreeTranslation.{dimensions_code, arguments_code};
ghost use Rattle.pli_gen_emit.specs.answers.Emitting.{Emits};

use crate::emitter::Emitter;
use pli_code::Instruction;
use pli_type_tree::{Root, TypedArgument, TypedExpression, TypedReference, TypedSubscript};

/// Emits the code of an expression.
#[cycle(emit)]
pub(crate) fn emit_value<'a>(expression: &'a TypedExpression, code: &mut Emitter<'a>)
    ensures { Emits code.old code.new (value_code (expression_view expression.now)) }
{
    match expression {
        TypedExpression::Literal(value) => { code.constant(value) }
        TypedExpression::Held(variable) => {
            emit_place(variable, code);
            code.emit(Instruction::Load)
        }
        TypedExpression::Calculated {
            operation,
            operands,
        } => {
            emit_operands(operands.as_slice(), code);
            code.operation(operation)
        }
        TypedExpression::Called { callee, arguments } => {
            let arguments = arguments.as_slice();
            emit_arguments(arguments, code);
            code.call(*callee, arguments.len())
        }
        TypedExpression::Generations { number } => code.count_generations(*number),
        TypedExpression::Address(variable) => {
            emit_place(variable, code);
            code.emit(Instruction::AddressOf)
        }
        TypedExpression::AsPointer { area, offset } => {
            emit_value(offset, code);
            emit_place(area, code);
            code.emit(Instruction::ToPointer)
        }
        TypedExpression::AsOffset { area, pointer } => {
            emit_value(pointer, code);
            emit_place(area, code);
            code.emit(Instruction::ToOffset)
        }
        TypedExpression::Bounded {
            which,
            dimension,
            variable,
        } => {
            emit_place(variable, code);
            code.emit(Instruction::BoundOf {
                which: *which,
                dimension: *dimension,
            })
        }
    }
}

/// Emits the code of operands.
#[cycle(emit)]
fn emit_operands<'a>(operands: &'a [TypedExpression], code: &mut Emitter<'a>)
    ensures { Emits code.old code.new (operands_code (operands_view operands.now)) }
{
    for operand in operands {
        emit_value(operand, code);
    }
}

/// Emits the code of where a reference begins.
#[cycle(emit)]
fn emit_root<'a>(root: &'a Root, code: &mut Emitter<'a>)
    ensures { Emits code.old code.new (root_code (root_view root.now)) }
{
    match root {
        Root::InSlot { outward, slot } => code.local(*outward, *slot),
        Root::OfProgram { number } => code.global(*number),
        Root::NewestOf { number } => code.global(*number),
        Root::Located {
            locator,
            description,
        } => {
            emit_value(locator, code);
            code.based(description)
        }
    }
}

/// Emits the code of a place.
#[cycle(emit)]
pub(crate) fn emit_place<'a>(reference: &'a TypedReference, code: &mut Emitter<'a>)
    ensures { Emits code.old code.new (place_code (reference_view reference.now)) }
{
    match reference {
        TypedReference::Whole(root) => { emit_root(root, code) }
        TypedReference::Part {
            root,
            offset,
            description,
            subscripts,
        } => {
            emit_root(root, code);
            code.field(*offset, description);
            emit_subscripts(subscripts.as_slice(), code)
        }
        TypedReference::ElementOf { root, subscripts } => {
            emit_root(root, code);
            emit_dimensions(subscripts.as_slice(), code)
        }
    }
}

/// Emits the code of subscripts.
#[cycle(emit)]
fn emit_subscripts<'a>(subscripts: &'a [TypedSubscript], code: &mut Emitter<'a>)
    ensures { Emits code.old code.new (subscripts_code (subscripts_view subscripts.now)) }
{
    for subscript in subscripts {
        emit_value(&subscript.value, code);
        code.subscript(subscript.stride);
    }
}

/// Emits the code of a subscript for each dimension of an array.
#[cycle(emit)]
fn emit_dimensions<'a>(subscripts: &'a [TypedExpression], code: &mut Emitter<'a>)
    ensures { Emits code.old code.new (dimensions_code 1 (operands_view subscripts.now)) }
{
    for at in 0..subscripts.len() {
        emit_value(&subscripts[at], code);
        code.subscript_in(at + 1);
    }
}

/// Emits the code of an argument.
#[cycle(emit)]
fn emit_argument<'a>(argument: &'a TypedArgument, code: &mut Emitter<'a>)
    ensures { Emits code.old code.new (arguments_code (argument_before argument.now NoArgument)) }
{
    match argument {
        TypedArgument::ByPlace(variable) => emit_place(variable, code),
        TypedArgument::ByDummy { description, value } => {
            emit_value(value, code);
            code.make_dummy(description)
        }
        TypedArgument::ByString { form, value } => {
            emit_value(value, code);
            code.emit(Instruction::MakeStringDummy { form: *form })
        }
    }
}

/// Emits the code of arguments.
#[cycle(emit)]
pub(crate) fn emit_arguments<'a>(arguments: &'a [TypedArgument], code: &mut Emitter<'a>)
    ensures { Emits code.old code.new (arguments_code (arguments_view arguments.now)) }
{
    for argument in arguments {
        emit_argument(argument, code);
    }
}
