//! The items of a deck at the end of bytes.
ghost use Rattle.std.specs.Prelude.{◌≡◌, ◌∷◌, ◌++◌, ℕ, List, length, map, OnOk};
ghost use Rattle.std.specs.List.{flat_map};
ghost use Rattle.byteorder.specs.Endian.{big_bytes};
ghost use Rattle.pli_code.specs.Fields.{u2, ◌⊗◌};
ghost use Rattle.pli_deck_write.specs.DeckFields as deck_fields;
ghost use Rattle.pli_code.specs.Numbered as numbered;
ghost use Rattle.pli_program.specs.Templates as templates;
ghost use Rattle.pli_type_tree.specs.views.TemplateView.{initial_view};
ghost use Rattle.pli_code.specs.CodeTables as tables;
ghost use Rattle.pli_code.specs.views.CodeView.{block_view, coded_template_view, global_view, kind_view};
ghost use Rattle.pli_code.specs.views.CodeView.{signature_view};
ghost use Rattle.pli_value.specs.Value as values;
ghost use Rattle.pli_value.specs.Value.{value_view};

use crate::writing::{
    PutsOne, put_all, put_bits, put_characters, put_large_count, put_list, put_name, put_number,
    put_optional, put_small_count,
};
use pli_base::Name;
use pli_code::fields::{put_byte, put_short, put_with_short, put_word};
use pli_code::{
    Block, BlockKind, CodedGlobal, CodedSignature, CodedTemplate, Instruction, Version, encode,
};
use pli_program::VariableKind;
use pli_type_tree::InitialScalar;
use pli_value::{Locator, Value};
use std::alloc::AllocError;

/// Puts a number of two bytes.
struct Numbers;

impl PutsOne for Numbers {
    type Value = u16;

    ghost Said = { ℕ };

    ghost say = { λ n. n };

    ghost bytes_of = { λ _. u2.bytes_of };

    fn put(&self, out: &mut Vec<u8>, value: &u16) -> Result<(), AllocError> {
        put_short(out, *value)
    }
}

/// Puts a list of numbers.
#[tactic(auto, using(crate::proofs::PutLemmas::unmapped))]
pub fn put_numbers(out: &mut Vec<u8>, numbers: &[u16]) -> Result<(), AllocError>
    ensures { OnOk result (out.new.items ≡ out.old.items ++ (big_bytes 2 (length numbers.now)
        ++ flat_map u2.bytes_of numbers.now)) }
{
    put_list(out, &Numbers, numbers)
}

/// Puts the parameters' descriptions, with a count of one byte.
#[tactic(auto, using(crate::proofs::PutLemmas::unmapped))]
fn put_parameters(out: &mut Vec<u8>, parameters: &[u16]) -> Result<(), AllocError>
    ensures { OnOk result (out.new.items ≡ out.old.items ++ (big_bytes 1 (length parameters.now)
        ++ flat_map u2.bytes_of parameters.now)) }
{
    put_small_count(out, parameters.len())?;
    put_all(out, &Numbers, parameters)
}

/// Puts a signature.
#[tactic(auto, unfolding(crate::specs::DeckFields::signature))]
pub fn put_signature(out: &mut Vec<u8>, signature: &CodedSignature) -> Result<(), AllocError>
    ensures { OnOk result (out.new.items ≡ out.old.items ++ deck_fields.signature.bytes_of
        (signature_view signature.now)) }
{
    put_parameters(out, signature.parameters.as_slice())?;
    put_optional(out, signature.result)
}

/// The tag of a locator. Null alone has a spelling: nothing tells which other one it was.
fn locator_tag(locator: Locator) -> u8
    ensures { result ≡ deck_fields.locator_tag locator }
{
    match locator {
        Locator::Null => 4,
        Locator::Pointer { .. } => 4,
        Locator::Offset(_) => 5,
    }
}

/// Puts a constant, with a number as the version has it.
#[tactic(auto, unfolding(crate::specs::DeckFields::constant))]
fn put_constant(out: &mut Vec<u8>, version: Version, constant: &Value) -> Result<(), AllocError>
    ensures { OnOk result (out.new.items ≡ out.old.items ++ (deck_fields.constant version).bytes_of
        (value_view constant.now)) }
{
    match constant {
        Value::Number(number) => {
            put_byte(out, 1)?;
            put_number(out, version, *number)
        }
        Value::Characters(text) => {
            put_byte(out, 2)?;
            put_characters(out, text.as_slice())
        }
        Value::Bits(bits) => {
            put_byte(out, 3)?;
            put_bits(out, bits)
        }
        Value::Locator(locator) => put_byte(out, locator_tag(*locator)),
    }
}

/// Puts a constant of a version.
#[derive(Clone, Copy)]
pub struct Constants {
    pub version: Version,
}

impl PutsOne for Constants {
    type Value = Value;

    ghost Said = { values.Value };

    ghost say = { value_view };

    ghost bytes_of = { λ w. (deck_fields.constant w.version).bytes_of };

    fn put(&self, out: &mut Vec<u8>, value: &Value) -> Result<(), AllocError> {
        put_constant(out, self.version, value)
    }
}

/// Puts an initial value of a version.
#[derive(Clone, Copy)]
struct Initials {
    version: Version,
}

impl PutsOne for Initials {
    type Value = InitialScalar;

    ghost Said = { templates.InitialScalar };

    ghost say = { initial_view };

    ghost bytes_of = { λ w. (deck_fields.initial w.version).bytes_of };

    #[tactic(auto, unfolding(crate::specs::DeckFields::initial))]
    fn put(&self, out: &mut Vec<u8>, value: &InitialScalar) -> Result<(), AllocError> {
        put_word(out, value.offset)?;
        put_constant(out, self.version, &value.value)
    }
}

/// Puts a template of a version.
#[derive(Clone, Copy)]
pub struct Templates {
    pub version: Version,
}

impl PutsOne for Templates {
    type Value = CodedTemplate;

    ghost Said = { tables.CodedTemplate };

    ghost say = { coded_template_view };

    ghost bytes_of = { λ w. (deck_fields.template w.version).bytes_of };

    #[tactic(auto, unfolding(crate::specs::DeckFields::template))]
    fn put(&self, out: &mut Vec<u8>, value: &CodedTemplate) -> Result<(), AllocError> {
        put_short(out, value.description)?;
        put_large_count(out, value.initial.len())?;
        let initials = Initials {
            version: self.version,
        };
        put_all(out, &initials, value.initial.as_slice())
    }
}

/// Puts a tag, a name and a number of two bytes.
fn put_shared(out: &mut Vec<u8>, tag: u8, name: &Name, template: u16) -> Result<(), AllocError>
    ensures { OnOk result (out.new.items ≡ out.old.items ++ (tag
        ∷ (deck_fields.name ⊗ u2).bytes_of (name.now, template))) }
{
    put_byte(out, tag)?;
    put_name(out, name)?;
    put_short(out, template)
}

/// Puts a global.
pub struct Globals;

impl PutsOne for Globals {
    type Value = CodedGlobal;

    ghost Said = { tables.CodedGlobal };

    ghost say = { global_view };

    ghost bytes_of = { λ _. deck_fields.global.bytes_of };

    #[tactic(auto, unfolding(crate::specs::DeckFields::global))]
    fn put(&self, out: &mut Vec<u8>, value: &CodedGlobal) -> Result<(), AllocError> {
        match value {
            CodedGlobal::OwnVariable {
                kind: VariableKind::Static,
                template,
            } => put_with_short(out, 0, *template),
            CodedGlobal::OwnVariable {
                kind: VariableKind::Controlled,
                template,
            } => put_with_short(out, 1, *template),
            CodedGlobal::ExternalVariable {
                name,
                kind: VariableKind::Static,
                template,
            } => put_shared(out, 2, name, *template),
            CodedGlobal::ExternalVariable {
                name,
                kind: VariableKind::Controlled,
                template,
            } => put_shared(out, 3, name, *template),
            CodedGlobal::EntryPoint { name, signature } => {
                put_byte(out, 4)?;
                put_name(out, name)?;
                put_signature(out, signature)
            }
        }
    }
}

/// The number of a kind of blocks.
fn kind_number(kind: BlockKind) -> u8
    ensures { result ≡ numbered.kind_number (kind_view kind) }
{
    match kind {
        BlockKind::Procedure => 0,
        BlockKind::Begin => 1,
        BlockKind::OnUnit => 2,
    }
}

/// Puts a block.
pub struct Blocks;

impl PutsOne for Blocks {
    type Value = Block;

    ghost Said = { tables.CodedBlock };

    ghost say = { block_view };

    ghost bytes_of = { λ _. deck_fields.block.bytes_of };

    #[tactic(auto, unfolding(crate::specs::DeckFields::block))]
    fn put(&self, out: &mut Vec<u8>, value: &Block) -> Result<(), AllocError> {
        put_byte(out, kind_number(value.kind))?;
        put_optional(out, value.parent)?;
        put_byte(out, value.parameters)?;
        put_numbers(out, value.variables.as_slice())?;
        put_short(out, value.temporaries)?;
        put_short(out, value.entry)?;
        put_word(out, value.statement)
    }
}

/// Puts an instruction, which has the same bytes in each version.
pub struct Instructions;

impl PutsOne for Instructions {
    ghost use Rattle.pli_code.specs.CodedInstruction.{Instruction};
    ghost use Rattle.pli_code.specs.Instructions.{instruction};

    type Value = Instruction;

    ghost Said = { Instruction };

    ghost say = { λ i. i };

    ghost bytes_of = { λ _. instruction.bytes_of };

    fn put(&self, out: &mut Vec<u8>, value: &Instruction) -> Result<(), AllocError> {
        encode(*value, out)
    }
}
