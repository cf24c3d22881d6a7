//! Instructions at the end of bytes.
ghost use Rattle.std.specs.Prelude.{◌≡◌, ◌++◌, ◌∷◌, [], OnOk};
ghost use Rattle.std.specs.Int.{w32, cast_unsigned};
ghost use Rattle.byteorder.specs.Endian.{big_bytes};
ghost use Rattle.pli_code.specs.Instructions as instruction_fields;

use crate::fields::{put_byte, put_short, put_signed, put_with_byte, put_with_short, put_word};
use crate::instruction::Instruction;
use crate::numbered::{
    bound_number, condition_number, error_number, relation_number, string_number,
};
use pli_operation::Operation;
use std::alloc::AllocError;

/// Puts an opcode with an operand of four bytes.
fn put_with_word(out: &mut Vec<u8>, code: u8, number: u32) -> Result<(), AllocError>
    ensures { OnOk result (out.new.items ≡ out.old.items ++ (code ∷ big_bytes 4 number)) }
{
    put_byte(out, code)?;
    put_word(out, number)
}

/// Puts an opcode with two operands of one byte.
fn put_two_bytes(out: &mut Vec<u8>, code: u8, first: u8, second: u8) -> Result<(), AllocError>
    ensures { OnOk result (out.new.items ≡ out.old.items ++ (code ∷ first ∷ second ∷ [])) }
{
    put_with_byte(out, code, first)?;
    put_byte(out, second)
}

/// Puts an opcode with operands of one and two bytes.
fn put_byte_short(out: &mut Vec<u8>, code: u8, first: u8, second: u16) -> Result<(), AllocError>
    ensures { OnOk result (out.new.items ≡ out.old.items ++ (code ∷ first ∷ big_bytes 2 second)) }
{
    put_with_byte(out, code, first)?;
    put_short(out, second)
}

/// Puts an opcode with operands of two bytes and one.
fn put_short_byte(out: &mut Vec<u8>, code: u8, first: u16, second: u8) -> Result<(), AllocError>
    ensures { OnOk result (out.new.items ≡ out.old.items ++ (code ∷ (big_bytes 2 first ++ (second ∷ [])))) }
{
    put_with_short(out, code, first)?;
    put_byte(out, second)
}

/// Puts an opcode with two operands of two bytes.
fn put_two_shorts(out: &mut Vec<u8>, code: u8, first: u16, second: u16) -> Result<(), AllocError>
    ensures { OnOk result (out.new.items ≡ out.old.items ++ (code ∷ (big_bytes 2 first ++ big_bytes 2 second))) }
{
    put_with_short(out, code, first)?;
    put_short(out, second)
}

/// Puts an opcode with operands of four bytes and two.
fn put_word_short(out: &mut Vec<u8>, code: u8, first: u32, second: u16) -> Result<(), AllocError>
    ensures { OnOk result (out.new.items ≡ out.old.items ++ (code ∷ (big_bytes 4 first ++ big_bytes 2 second))) }
{
    put_with_word(out, code, first)?;
    put_short(out, second)
}

/// Puts a subscript's opcode, its bounds and its multiplier.
fn put_subscript(out: &mut Vec<u8>, low: i32, high: i32, multiplier: u32) -> Result<(), AllocError>
    ensures { OnOk result (out.new.items ≡ out.old.items ++ (17
        ∷ (big_bytes 4 (cast_unsigned w32 low) ++ (big_bytes 4 (cast_unsigned w32 high) ++ big_bytes 4 multiplier)))) }
{
    put_byte(out, 17)?;
    put_signed(out, low)?;
    put_signed(out, high)?;
    put_word(out, multiplier)
}

/// Puts an operation: its opcode, and its width, precision or relation.
fn put_operation(out: &mut Vec<u8>, operation: Operation) -> Result<(), AllocError>
    ensures { OnOk result (let form = instruction_fields.operation_form operation in out.new.items
        ≡ out.old.items ++ (form.tag ∷ form.bytes)) }
{
    match operation {
        Operation::ToCharacters { width } => put_with_byte(out, 24, width),
        Operation::FromBits => put_byte(out, 25),
        Operation::Add => put_byte(out, 26),
        Operation::Subtract => put_byte(out, 27),
        Operation::Multiply => put_byte(out, 28),
        Operation::Negate => put_byte(out, 29),
        Operation::Divide { precision } => put_with_byte(out, 30, precision),
        Operation::Modulo => put_byte(out, 31),
        Operation::Absolute => put_byte(out, 32),
        Operation::Sign => put_byte(out, 33),
        Operation::Greatest => put_byte(out, 34),
        Operation::Least => put_byte(out, 35),
        Operation::Compare(relation) => put_with_byte(out, 36, relation_number(relation)),
        Operation::Concatenate => put_byte(out, 37),
        Operation::And => put_byte(out, 38),
        Operation::Or => put_byte(out, 39),
        Operation::Not => put_byte(out, 40),
        Operation::LengthOf => put_byte(out, 41),
        Operation::Index => put_byte(out, 42),
        Operation::Substring => put_byte(out, 43),
        Operation::Rest => put_byte(out, 44),
        Operation::Within => put_byte(out, 63),
    }
}

/// Puts the bytes of an instruction at the end: the byte that says which it is, and its operands. They are its one
/// spelling where it has one: a subscript's bounds are at most 32,767 from 0, a precision is from 1 to 63, and a
/// dimension from 1 to 8. An error comes where memory runs out.
#[tactic(auto, unfolding(crate::specs::Instructions::instruction))]
pub fn encode(instruction: Instruction, out: &mut Vec<u8>) -> Result<(), AllocError>
    ensures { OnOk result (out.new.items ≡ out.old.items ++ instruction_fields.instruction.bytes_of instruction) }
{
    match instruction {
        Instruction::Step { statement } => put_with_word(out, 1, statement),
        Instruction::Line { statement } => put_with_word(out, 2, statement),
        Instruction::Jump { target } => put_with_short(out, 3, target),
        Instruction::JumpUnless { target } => put_with_short(out, 4, target),
        Instruction::Goto { outward, target } => put_byte_short(out, 5, outward, target),
        Instruction::Call { block, arguments } => put_short_byte(out, 6, block, arguments),
        Instruction::CallExternal { global, arguments } => {
            put_short_byte(out, 7, global, arguments)
        }
        Instruction::Begin { block } => put_with_short(out, 8, block),
        Instruction::Return { outward } => put_with_byte(out, 9, outward),
        Instruction::ReturnValue { outward } => put_with_byte(out, 10, outward),
        Instruction::Raise(error) => put_with_byte(out, 11, error_number(error)),
        Instruction::Stop => put_byte(out, 12),
        Instruction::Local { outward, slot } => put_byte_short(out, 13, outward, slot),
        Instruction::Global { number } => put_with_short(out, 14, number),
        Instruction::Based { description } => put_with_short(out, 15, description),
        Instruction::Field {
            offset,
            description,
        } => put_word_short(out, 16, offset, description),
        Instruction::Subscript {
            low,
            high,
            multiplier,
        } => { put_subscript(out, low, high, multiplier) }
        Instruction::Constant { value } => put_with_short(out, 18, value),
        Instruction::Load => put_byte(out, 19),
        Instruction::Store => put_byte(out, 20),
        Instruction::Copy => put_byte(out, 21),
        Instruction::MakeDummy { template } => put_with_short(out, 22, template),
        Instruction::Fit { description } => put_with_short(out, 23, description),
        Instruction::Operate(operation) => put_operation(out, operation),
        Instruction::AddressOf => put_byte(out, 45),
        Instruction::ToPointer => put_byte(out, 46),
        Instruction::ToOffset => put_byte(out, 47),
        Instruction::AllocateControlled { global } => put_with_short(out, 48, global),
        Instruction::FreeControlled { global } => put_with_short(out, 49, global),
        Instruction::CountGenerations { global } => put_with_short(out, 50, global),
        Instruction::AllocateBased { template } => put_with_short(out, 51, template),
        Instruction::AllocateInArea { template, target } => {
            put_two_shorts(out, 52, template, target)
        }
        Instruction::FreeBased { description } => put_with_short(out, 53, description),
        Instruction::AssignArea => put_byte(out, 54),
        Instruction::EmptyArea => put_byte(out, 55),
        Instruction::On { condition, block } => {
            put_byte_short(out, 56, condition_number(condition), block)
        }
        Instruction::Revert { condition } => put_with_byte(out, 57, condition_number(condition)),
        Instruction::Signal { condition } => put_with_byte(out, 58, condition_number(condition)),
        Instruction::Put => put_byte(out, 59),
        Instruction::Skip => put_byte(out, 60),
        Instruction::SetTemporary { number } => put_with_short(out, 61, number),
        Instruction::TakeTemporary { number } => put_with_short(out, 62, number),
        Instruction::SubscriptIn { dimension } => put_with_byte(out, 64, dimension),
        Instruction::BoundOf { which, dimension } => {
            put_two_bytes(out, 65, bound_number(which), dimension)
        }
        Instruction::MakeStringDummy { form } => put_with_byte(out, 66, string_number(form)),
        Instruction::FitToPlace => put_byte(out, 67),
    }
}
