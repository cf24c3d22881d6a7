//! Instructions at the front of bytes.
#![tactic(auto, unfolding(crate::specs::Instructions::reader_of), using(crate::proofs::OperandReading::bare, crate::proofs::OperandReading::of_one, crate::proofs::OperandReading::of_both))]

ghost use Rattle.std.specs.Prelude.{◌≡◌, ◌≤◌};
ghost use Rattle.pli_code.specs.Fields.{Answers};
ghost use Rattle.pli_code.specs.Instructions as instruction_fields;
ghost use Rattle.pli_code.specs.Instructions.{reader_of};
ghost use Rattle.pli_code.specs.Operands.{operands_view, Reads};

use crate::fault::DeckFault;
use crate::fields::byte_of;
use crate::instruction::Instruction;
use crate::operands::Operands;
use pli_operation::Operation;

/// The instruction at the front of bytes, and the bytes after it. The fault is that the bytes end within it, or that
/// no instruction has such an opcode or operand.
#[tactic(auto, unfolding(crate::specs::Instructions::instruction, crate::specs::Instructions::reader_of))]
pub fn decode(bytes: &[u8]) -> Result<(Instruction, &[u8]), DeckFault>
    ensures { Answers (λ x. (x.0, x.1.now)) result (instruction_fields.instruction.read bytes.now) }
{
    let (code, rest) = byte_of(bytes)?;
    instruction_of(code, rest)
}

/// The instruction of this opcode, with what stands after it.
fn instruction_of(code: u8, bytes: &[u8]) -> Result<(Instruction, &[u8]), DeckFault>
    ensures { Answers (λ x. (x.0, x.1.now)) result (reader_of code bytes.now) }
{
    let mut operands = Operands {
        rest: bytes,
        fault: None,
    };
    let instruction = with_operands(code, &mut operands);
    match operands.fault {
        None => Ok((instruction, operands.rest)),
        Some(fault) => Err(fault),
    }
}

/// The instruction of this opcode, with these operands.
#[tactic(auto, using(crate::proofs::OperandReading::none_beyond))]
fn with_operands(code: u8, operands: &mut Operands<'_>) -> Instruction
    ensures { Reads (reader_of code) (operands_view operands.old) result (operands_view operands.new) }
{
    if code <= 8 {
        step_or_call(code, operands)
    } else if code <= 16 {
        end_or_place(code, operands)
    } else if code <= 23 {
        place_or_value(code, operands)
    } else if code <= 44 {
        operation(code, operands)
    } else if code <= 53 {
        locator_or_storage(code, operands)
    } else if code <= 63 {
        condition_or_print(code, operands)
    } else if code <= 67 {
        at_parameter(code, operands)
    } else {
        operands.unknown()
    }
}

/// The instruction of an opcode from 0 to 8.
fn step_or_call(code: u8, operands: &mut Operands<'_>) -> Instruction
    requires { (0 ≤ code) × (code ≤ 8) }
    ensures { Reads (reader_of code) (operands_view operands.old) result (operands_view operands.new) }
{
    match code {
        1 => Instruction::Step {
            statement: operands.word(),
        },
        2 => Instruction::Line {
            statement: operands.word(),
        },
        3 => Instruction::Jump {
            target: operands.short(),
        },
        4 => Instruction::JumpUnless {
            target: operands.short(),
        },
        5 => Instruction::Goto {
            outward: operands.byte(),
            target: operands.short(),
        },
        6 => Instruction::Call {
            block: operands.short(),
            arguments: operands.byte(),
        },
        7 => Instruction::CallExternal {
            global: operands.short(),
            arguments: operands.byte(),
        },
        8 => Instruction::Begin {
            block: operands.short(),
        },
        _ => operands.unknown(),
    }
}

/// The instruction of an opcode from 9 to 16.
fn end_or_place(code: u8, operands: &mut Operands<'_>) -> Instruction
    requires { (9 ≤ code) × (code ≤ 16) }
    ensures { Reads (reader_of code) (operands_view operands.old) result (operands_view operands.new) }
{
    match code {
        9 => Instruction::Return {
            outward: operands.byte(),
        },
        10 => Instruction::ReturnValue {
            outward: operands.byte(),
        },
        11 => Instruction::Raise(operands.run_error()),
        12 => Instruction::Stop,
        13 => Instruction::Local {
            outward: operands.byte(),
            slot: operands.short(),
        },
        14 => Instruction::Global {
            number: operands.short(),
        },
        15 => Instruction::Based {
            description: operands.short(),
        },
        16 => Instruction::Field {
            offset: operands.word(),
            description: operands.short(),
        },
        _ => operands.unknown(),
    }
}

/// The instruction of an opcode from 17 to 23.
fn place_or_value(code: u8, operands: &mut Operands<'_>) -> Instruction
    requires { (17 ≤ code) × (code ≤ 23) }
    ensures { Reads (reader_of code) (operands_view operands.old) result (operands_view operands.new) }
{
    match code {
        17 => Instruction::Subscript {
            low: operands.signed_within(32767),
            high: operands.signed_within(32767),
            multiplier: operands.word(),
        },
        18 => Instruction::Constant {
            value: operands.short(),
        },
        19 => Instruction::Load,
        20 => Instruction::Store,
        21 => Instruction::Copy,
        22 => Instruction::MakeDummy {
            template: operands.short(),
        },
        23 => Instruction::Fit {
            description: operands.short(),
        },
        _ => operands.unknown(),
    }
}

/// The operation of an opcode from 24 to 44.
fn operation(code: u8, operands: &mut Operands<'_>) -> Instruction
    requires { (24 ≤ code) × (code ≤ 44) }
    ensures { Reads (reader_of code) (operands_view operands.old) result (operands_view operands.new) }
{
    match code {
        24 => Instruction::Operate(Operation::ToCharacters {
            width: operands.byte(),
        }),
        25 => Instruction::Operate(Operation::FromBits),
        26 => Instruction::Operate(Operation::Add),
        27 => Instruction::Operate(Operation::Subtract),
        28 => Instruction::Operate(Operation::Multiply),
        29 => Instruction::Operate(Operation::Negate),
        30 => Instruction::Operate(Operation::Divide {
            precision: operands.byte_within(1, 63),
        }),
        31 => Instruction::Operate(Operation::Modulo),
        32 => Instruction::Operate(Operation::Absolute),
        33 => Instruction::Operate(Operation::Sign),
        34 => Instruction::Operate(Operation::Greatest),
        35 => Instruction::Operate(Operation::Least),
        36 => Instruction::Operate(Operation::Compare(operands.relation())),
        37 => Instruction::Operate(Operation::Concatenate),
        38 => Instruction::Operate(Operation::And),
        39 => Instruction::Operate(Operation::Or),
        40 => Instruction::Operate(Operation::Not),
        41 => Instruction::Operate(Operation::LengthOf),
        42 => Instruction::Operate(Operation::Index),
        43 => Instruction::Operate(Operation::Substring),
        44 => Instruction::Operate(Operation::Rest),
        _ => operands.unknown(),
    }
}

/// The instruction of an opcode from 45 to 53.
fn locator_or_storage(code: u8, operands: &mut Operands<'_>) -> Instruction
    requires { (45 ≤ code) × (code ≤ 53) }
    ensures { Reads (reader_of code) (operands_view operands.old) result (operands_view operands.new) }
{
    match code {
        45 => Instruction::AddressOf,
        46 => Instruction::ToPointer,
        47 => Instruction::ToOffset,
        48 => Instruction::AllocateControlled {
            global: operands.short(),
        },
        49 => Instruction::FreeControlled {
            global: operands.short(),
        },
        50 => Instruction::CountGenerations {
            global: operands.short(),
        },
        51 => Instruction::AllocateBased {
            template: operands.short(),
        },
        52 => Instruction::AllocateInArea {
            template: operands.short(),
            target: operands.short(),
        },
        53 => Instruction::FreeBased {
            description: operands.short(),
        },
        _ => operands.unknown(),
    }
}

/// The instruction of an opcode from 54 to 63.
fn condition_or_print(code: u8, operands: &mut Operands<'_>) -> Instruction
    requires { (54 ≤ code) × (code ≤ 63) }
    ensures { Reads (reader_of code) (operands_view operands.old) result (operands_view operands.new) }
{
    match code {
        54 => Instruction::AssignArea,
        55 => Instruction::EmptyArea,
        56 => Instruction::On {
            condition: operands.condition(),
            block: operands.short(),
        },
        57 => Instruction::Revert {
            condition: operands.condition(),
        },
        58 => Instruction::Signal {
            condition: operands.condition(),
        },
        59 => Instruction::Put,
        60 => Instruction::Skip,
        61 => Instruction::SetTemporary {
            number: operands.short(),
        },
        62 => Instruction::TakeTemporary {
            number: operands.short(),
        },
        63 => Instruction::Operate(Operation::Within),
        _ => operands.unknown(),
    }
}

/// The instruction of an opcode from 64 to 67.
fn at_parameter(code: u8, operands: &mut Operands<'_>) -> Instruction
    requires { (64 ≤ code) × (code ≤ 67) }
    ensures { Reads (reader_of code) (operands_view operands.old) result (operands_view operands.new) }
{
    match code {
        64 => Instruction::SubscriptIn {
            dimension: operands.byte_within(1, 8),
        },
        65 => Instruction::BoundOf {
            which: operands.which_bound(),
            dimension: operands.byte_within(1, 8),
        },
        66 => Instruction::MakeStringDummy {
            form: operands.string_form(),
        },
        67 => Instruction::FitToPlace,
        _ => operands.unknown(),
    }
}
