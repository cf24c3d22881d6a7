//! The items of a deck's tables at the front of bytes.
ghost use Rattle.std.specs.Prelude.{◌≡◌, ℕ, List, map};
ghost use Rattle.pli_code.specs.Fields.{Answers, Field, checked, many, may_begin, u2, list, made, ◌⊗◌};
ghost use Rattle.pli_deck_write.specs.DeckFields as deck_fields;
ghost use Rattle.pli_code.specs.Instructions.{instruction, instruction_in, is_code_in, is_instruction_in};
ghost use Rattle.pli_code.specs.CodeTables as code;
ghost use Rattle.pli_code.specs.CodeTables.{CodedBlock};
ghost use Rattle.pli_code.specs.views.CodeView.{kind_view, block_view, signature_view, global_view};
ghost use Rattle.pli_base.specs.answers.FailureAnswers.{Gives};

use crate::error::ReadError;
use crate::reading::{
    ReadsOne, count_within, list_at, many_of, name_text_of, optional_of, upper_name,
};
use pli_code::fields::{byte_of, byte_within, short_of, word_of};
use pli_code::{
    Block, BlockKind, CodedGlobal, CodedSignature, DeckFault, Instruction, Version, decode,
    stands_in,
};
use pli_program::VariableKind;
use std::alloc::Global;

/// Reads a number of two bytes.
struct Numbers;

impl ReadsOne for Numbers {
    type Value = u16;

    ghost Said = { ℕ };

    ghost say = { λ n. n };

    ghost field = { λ _. u2 };

    fn read<'a>(&self, _alloc: Global, bytes: &'a [u8]) -> Result<(u16, &'a [u8]), ReadError> {
        Ok(short_of(bytes)?)
    }
}

/// So many numbers of two bytes.
pub fn numbers_of(alloc: Global, count: u32, bytes: &[u8]) -> Result<(Vec<u16>, &[u8]), ReadError>
    ensures { Gives (λ x. (x.0.items, x.1.now)) result (many u2.read count bytes.now) }
{
    many_of(alloc, &Numbers, count, bytes)
}

/// The parameters and the result of a procedure.
#[tactic(auto, unfolding(pli_deck_write::specs::DeckFields::signature))]
pub fn signature_of(alloc: Global, bytes: &[u8]) -> Result<(CodedSignature, &[u8]), ReadError>
    ensures { Gives (λ x. (signature_view x.0, x.1.now)) result (deck_fields.signature.read bytes.now) }
{
    let (count, rest) = count_within(bytes, 0, 64)?;
    let (parameters, rest) = numbers_of(alloc, u32::from(count), rest)?;
    let (returned, rest) = optional_of(rest)?;
    Ok((
        CodedSignature {
            parameters,
            result: returned,
        },
        rest,
    ))
}

/// A list of numbers, with its count.
fn number_list_of(alloc: Global, bytes: &[u8]) -> Result<(Vec<u16>, &[u8]), ReadError>
    ensures { Gives (λ x. (x.0.items, x.1.now)) result ((list u2).read bytes.now) }
{
    list_at(alloc, &Numbers, bytes)
}

/// An external procedure.
#[tactic(auto, unfolding(pli_deck_write::specs::DeckFields::name))]
fn entry_of(alloc: Global, bytes: &[u8]) -> Result<(CodedGlobal, &[u8]), ReadError>
    ensures { Gives (λ x. (global_view x.0, x.1.now)) result
        (made (λ p. code.EntryPoint p.0 p.1) (deck_fields.name ⊗ deck_fields.signature) bytes.now) }
{
    let (text, rest) = name_text_of(bytes)?;
    let Some(name) = upper_name(text) else {
        return Err(ReadError::Fault(DeckFault::OutOfRange));
    };
    let (signature, rest) = signature_of(alloc, rest)?;
    Ok((CodedGlobal::EntryPoint { name, signature }, rest))
}

/// A variable of a unit's own, of a kind.
fn own_of(bytes: &[u8], kind: VariableKind) -> Result<(CodedGlobal, &[u8]), ReadError>
    ensures { Gives (λ x. (global_view x.0, x.1.now)) result (made (code.OwnVariable kind) u2 bytes.now) }
{
    let (template, rest) = short_of(bytes)?;
    Ok((CodedGlobal::OwnVariable { kind, template }, rest))
}

/// An external variable of a kind.
#[tactic(auto, unfolding(pli_deck_write::specs::DeckFields::name))]
fn external_of(bytes: &[u8], kind: VariableKind) -> Result<(CodedGlobal, &[u8]), ReadError>
    ensures { Gives (λ x. (global_view x.0, x.1.now)) result
        (made (λ p. code.ExternalVariable p.0 kind p.1) (deck_fields.name ⊗ u2) bytes.now) }
{
    let (text, rest) = name_text_of(bytes)?;
    let Some(name) = upper_name(text) else {
        return Err(ReadError::Fault(DeckFault::OutOfRange));
    };
    let (template, rest) = short_of(rest)?;
    Ok((
        CodedGlobal::ExternalVariable {
            name,
            kind,
            template,
        },
        rest,
    ))
}

/// Reads a global.
pub struct Globals;

impl ReadsOne for Globals {
    type Value = CodedGlobal;

    ghost Said = { code.CodedGlobal };

    ghost say = { global_view };

    ghost field = { λ _. deck_fields.global };

    #[tactic(auto, unfolding(pli_deck_write::specs::DeckFields::global))]
    fn read<'a>(
        &self,
        alloc: Global,
        bytes: &'a [u8],
    ) -> Result<(CodedGlobal, &'a [u8]), ReadError> {
        let (kind, rest) = byte_of(bytes)?;
        match kind {
            0 => own_of(rest, VariableKind::Static),
            1 => own_of(rest, VariableKind::Controlled),
            2 => external_of(rest, VariableKind::Static),
            3 => external_of(rest, VariableKind::Controlled),
            4 => entry_of(alloc, rest),
            _ => Err(ReadError::Fault(DeckFault::OutOfRange)),
        }
    }
}

/// The kind of blocks of a number from 0 to 2.
fn kind_of(number: u8) -> BlockKind
    ensures { kind_view result ≡ deck_fields.kind_of number }
{
    match number {
        0 => BlockKind::Procedure,
        1 => BlockKind::Begin,
        _ => BlockKind::OnUnit,
    }
}

/// The kind of a block.
fn block_kind_of(bytes: &[u8]) -> Result<(BlockKind, &[u8]), DeckFault>
    ensures { Answers (λ x. (kind_view x.0, x.1.now)) result (deck_fields.block_kind.read bytes.now) }
{
    let (number, rest) = byte_within(bytes, 0, 2)?;
    Ok((kind_of(number), rest))
}

/// Reads a block.
pub struct Blocks;

impl ReadsOne for Blocks {
    type Value = Block;

    ghost Said = { CodedBlock };

    ghost say = { block_view };

    ghost field = { λ _. deck_fields.block };

    #[tactic(auto, unfolding(pli_deck_write::specs::DeckFields::block))]
    fn read<'a>(&self, alloc: Global, bytes: &'a [u8]) -> Result<(Block, &'a [u8]), ReadError> {
        let (kind, rest) = block_kind_of(bytes)?;
        let (parent, rest) = optional_of(rest)?;
        let (parameters, rest) = byte_within(rest, 0, 64)?;
        let (variables, rest) = number_list_of(alloc, rest)?;
        let (temporaries, rest) = short_of(rest)?;
        let (entry, rest) = short_of(rest)?;
        let (statement, rest) = word_of(rest)?;
        Ok((
            Block {
                kind,
                parent,
                parameters,
                variables,
                temporaries,
                entry,
                statement,
            },
            rest,
        ))
    }
}

/// Whether bytes begin with an opcode that may stand in a version, if they begin at all: those over 63 are for types
/// with a `*`.
fn may_begin(version: Version, bytes: &[u8]) -> bool
    ensures { result ≡ may_begin (is_code_in version) bytes.now }
{
    match bytes {
        [] => true,
        [code, ..] => *code <= 63 || version.has_stars(),
    }
}

/// An instruction, if it may stand in a version.
fn instruction_of(version: Version, bytes: &[u8]) -> Result<(Instruction, &[u8]), ReadError>
    ensures { Gives (λ x. (x.0, x.1.now)) result ((checked (is_instruction_in version) instruction).read bytes.now) }
{
    let (instruction, rest) = decode(bytes)?;
    if stands_in(instruction, version) {
        Ok((instruction, rest))
    } else {
        Err(ReadError::Fault(DeckFault::OutOfRange))
    }
}

/// Reads an instruction of a version.
#[derive(Clone, Copy)]
pub struct Instructions {
    pub version: Version,
}

impl ReadsOne for Instructions {
    ghost use Rattle.pli_code.specs.CodedInstruction.{Instruction};

    type Value = Instruction;

    ghost Said = { Instruction };

    ghost say = { λ i. i };

    ghost field = { λ r. instruction_in r.version };

    fn read<'a>(
        &self,
        _alloc: Global,
        bytes: &'a [u8],
    ) -> Result<(Instruction, &'a [u8]), ReadError> {
        if may_begin(self.version, bytes) {
            return instruction_of(self.version, bytes);
        }
        Err(ReadError::Fault(DeckFault::OutOfRange))
    }
}
