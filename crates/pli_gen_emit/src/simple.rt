//! The code of statements in which no other stands.
#![tactic(auto, using(crate::proofs::EmitLemmas::extended_both))]

ghost use Rattle.std.specs.Prelude.{◌++◌, ◌∷◌, [], length, map};
ghost use Rattle.pli_program.specs.declared.instruction.Instruction.TheVariants as op;
ghost use Rattle.pli_type_tree.specs.views.TypedView.{expression_view, reference_view, form_view, allocated_view};
ghost use Rattle.pli_type_tree.specs.views.TypedView.{freed_view};
ghost use Rattle.pli_gen_emit.specs.TreeTranslation.{place_code, skip_code, items_code, allocation_code};
ghost use Rattle.pli_gen_emit.specs.TreeTranslation.{allocations_code};
ghost use Rattle.pli_gen_emit.specs.TreeTranslation.{freeing_code, freeings_code};
ghost use Rattle.pli_gen_emit.specs.answers.Emitting.{Emits};
ghost use Rattle.pli_gen_emit.specs.answers.Pieces.{simple_code};

use crate::conversion::emit_store;
use crate::emitter::Emitter;
use crate::expression::{emit_arguments, emit_place, emit_value};
use pli_code::Instruction;
use pli_type_tree::{AllocatedItem, Form, FreedItem, TypedExpression, TypedReference};

/// Emits the code of a target's place and of a source's.
fn emit_places<'a>(target: &'a TypedReference, source: &'a TypedReference, code: &mut Emitter<'a>)
    ensures { Emits code.old code.new (place_code (reference_view target.now)
        ++ place_code (reference_view source.now)) }
{
    emit_place(target, code);
    emit_place(source, code);
}

/// Emits the code of items that are printed.
fn emit_items<'a>(items: &'a [TypedExpression], code: &mut Emitter<'a>)
    ensures { Emits code.old code.new (items_code (map expression_view items.now)) }
{
    for item in items {
        emit_value(item, code);
        code.emit(Instruction::Put);
    }
}

/// Emits the code of SKIP, if it stands, and of items.
fn emit_put<'a>(skip: bool, items: &'a [TypedExpression], code: &mut Emitter<'a>)
    ensures { Emits code.old code.new (skip_code skip ++ items_code (map expression_view items.now)) }
{
    if skip {
        code.emit(Instruction::Skip);
    }
    emit_items(items, code);
}

/// Emits what keeps a pointer till the place of its target is there.
fn emit_kept_pointer<'a>(temporary: usize, target: &'a TypedReference, code: &mut Emitter<'a>)
    ensures { Emits code.old code.new
        (op.SetTemporary temporary ∷ (place_code (reference_view target.now) ++ op.TakeTemporary temporary ∷ [])) }
{
    code.set_temporary(temporary, 0);
    emit_place(target, code);
    code.take_temporary(temporary, 0);
}

/// Emits the code of an item of ALLOCATE.
fn emit_allocation<'a>(item: &'a AllocatedItem, code: &mut Emitter<'a>)
    ensures { Emits code.old code.new (allocation_code (allocated_view item.now) (length code.old.code.items)) }
{
    match item {
        AllocatedItem::Controlled { number } => code.allocate_controlled(*number),
        AllocatedItem::Based {
            template,
            temporary,
            target,
        } => {
            code.allocate_based(template);
            emit_kept_pointer(*temporary, target, code);
            code.emit(Instruction::Store);
        }
        AllocatedItem::InArea {
            area,
            template,
            temporary,
            target,
            conversion,
        } => {
            let place = code.place();
            emit_place(area, code);
            code.allocate_in_area(template, place);
            emit_kept_pointer(*temporary, target, code);
            emit_store(conversion, code);
        }
    }
}

/// Emits the code of the items of ALLOCATE.
fn emit_allocations<'a>(items: &'a [AllocatedItem], code: &mut Emitter<'a>)
    ensures { Emits code.old code.new (allocations_code (map allocated_view items.now) (length code.old.code.items)) }
{
    for item in items {
        emit_allocation(item, code);
    }
}

/// Emits the code of an item of FREE.
fn emit_freeing<'a>(item: &'a FreedItem, code: &mut Emitter<'a>)
    ensures { Emits code.old code.new (freeing_code (freed_view item.now)) }
{
    match item {
        FreedItem::Controlled { number } => code.free_controlled(*number),
        FreedItem::Based {
            locator,
            description,
        } => {
            emit_value(locator, code);
            code.free_based(description);
        }
    }
}

/// Emits the code of the items of FREE.
fn emit_freeings<'a>(items: &'a [FreedItem], code: &mut Emitter<'a>)
    ensures { Emits code.old code.new (freeings_code (map freed_view items.now)) }
{
    for item in items {
        emit_freeing(item, code);
    }
}

/// Emits the code of a form in which no other stands; nothing for another form.
pub(crate) fn emit_simple<'a>(form: &'a Form, code: &mut Emitter<'a>)
    ensures { Emits code.old code.new (simple_code (form_view form.now) (length code.old.code.items)) }
{
    match form {
        Form::Assign { target, value } => {
            emit_place(target, code);
            emit_value(value, code);
            code.emit(Instruction::Store);
        }
        Form::AssignString { target, value } => {
            emit_place(target, code);
            emit_value(value, code);
            code.emit(Instruction::FitToPlace);
            code.emit(Instruction::Store);
        }
        Form::AssignAggregate { target, source } => {
            emit_places(target, source, code);
            code.emit(Instruction::Copy);
        }
        Form::AssignArea { target, source } => {
            emit_places(target, source, code);
            code.emit(Instruction::AssignArea);
        }
        Form::EmptyArea(target) => {
            emit_place(target, code);
            code.emit(Instruction::EmptyArea);
        }
        Form::Put { skip, items } => emit_put(*skip, items.as_slice(), code),
        Form::Begin { head, .. } => code.begin(head.number),
        Form::Call { callee, arguments } => {
            let arguments = arguments.as_slice();
            emit_arguments(arguments, code);
            code.call(*callee, arguments.len());
        }
        Form::Goto { outward, label } => code.goto(*outward, *label),
        Form::Return { outward } => code.return_outward(*outward),
        Form::ReturnValue { outward, value } => {
            emit_value(value, code);
            code.return_value(*outward);
        }
        Form::Stop => code.emit(Instruction::Stop),
        Form::On { condition, block } => code.on(*condition, *block),
        Form::Revert(condition) => code.emit(Instruction::Revert {
            condition: *condition,
        }),
        Form::Signal(condition) => code.emit(Instruction::Signal {
            condition: *condition,
        }),
        Form::Allocate(items) => emit_allocations(items.as_slice(), code),
        Form::Free(items) => emit_freeings(items.as_slice(), code),
        Form::Null | Form::If { .. } | Form::Group(_) | Form::While { .. } | Form::Iterate { .. } =>
            {}
    }
}
