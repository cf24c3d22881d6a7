//! Whether what code names by numbers is there.
ghost use Rattle.std.specs.Prelude.{◌≡◌, ◌++◌, ◌∷◌, [], nat_lt, length, map};
ghost use Rattle.std.specs.List.{flat_map, list_all};
ghost use Rattle.pli_deck_write.specs.DeckFaults as faults;
ghost use Rattle.pli_deck_write.specs.DeckFaults.{OfParameter, OfDescription, OfTemplate, OfValue, OfGlobal, OfBlock};
ghost use Rattle.pli_deck_write.specs.DeckFaults.{OfInstruction};
ghost use Rattle.pli_code.specs.views.CodeView.{block_view, code_view, coded_template_view, global_view};
ghost use Rattle.pli_code.specs.views.CodeView.{signature_view};

use pli_code::{Block, Code, CodedGlobal, CodedSignature, CodedTemplate, Instruction};

/// Whether a type of this number is there, in which a `*` may stand.
#[tactic(auto, using(crate::proofs::CountLemmas::mapped_length))]
fn has_type(code: &Code, number: u16) -> bool
    ensures { result ≡ faults.is_there (code_view code.now) (OfParameter number) }
{
    usize::from(number) < code.descriptions.len()
}

/// Whether a description of this number is there, in which no `*` stands.
pub(crate) fn has_description(code: &Code, number: u16) -> bool
    ensures { result ≡ faults.is_there (code_view code.now) (OfDescription number) }
{
    match code.description(number) {
        Some(_) => true,
        None => false,
    }
}

/// Whether a template of this number is there.
#[tactic(auto, using(crate::proofs::CountLemmas::mapped_length))]
fn has_template(code: &Code, number: u16) -> bool
    ensures { result ≡ faults.is_there (code_view code.now) (OfTemplate number) }
{
    usize::from(number) < code.templates.len()
}

/// Whether a value of this number is there.
#[tactic(auto, using(crate::proofs::CountLemmas::mapped_length))]
fn has_value(code: &Code, number: u16) -> bool
    ensures { result ≡ faults.is_there (code_view code.now) (OfValue number) }
{
    usize::from(number) < code.values.len()
}

/// Whether a global of this number is there.
#[tactic(auto, using(crate::proofs::CountLemmas::mapped_length))]
fn has_global(code: &Code, number: u16) -> bool
    ensures { result ≡ faults.is_there (code_view code.now) (OfGlobal number) }
{
    usize::from(number) < code.globals.len()
}

/// Whether a block of this number is there.
#[tactic(auto, using(crate::proofs::CountLemmas::mapped_length))]
fn has_block(code: &Code, number: u16) -> bool
    ensures { result ≡ faults.is_there (code_view code.now) (OfBlock number) }
{
    usize::from(number) < code.blocks.len()
}

/// Whether an instruction of this number is there.
fn has_instruction(code: &Code, number: u16) -> bool
    ensures { result ≡ faults.is_there (code_view code.now) (OfInstruction number) }
{
    usize::from(number) < code.instructions.len()
}

/// Whether a result's description is there, if there is a result.
#[tactic(auto, using(crate::proofs::CountLemmas::alone))]
fn result_stands(code: &Code, description: Option<u16>) -> bool
    ensures { result ≡ list_all (faults.is_there (code_view code.now)) (faults.named_by_result description) }
{
    match description {
        None => true,
        Some(number) => has_description(code, number),
    }
}

/// Whether types of these numbers are there.
fn types_stand(code: &Code, numbers: &[u16]) -> bool
    ensures { result ≡ list_all (λ n. faults.is_there (code_view code.now) (OfParameter n)) numbers.now }
{
    for number in numbers {
        if !has_type(code, *number) {
            return false;
        }
    }
    true
}

/// Whether the types of a signature's parameters are there, and the description of its result.
#[tactic(auto, using(crate::proofs::CountLemmas::mapped_passes, crate::proofs::CountLemmas::both_pass))]
fn signature_stands(code: &Code, signature: &CodedSignature) -> bool
    ensures { result ≡ list_all (faults.is_there (code_view code.now))
        (faults.named_by_signature (signature_view signature.now)) }
{
    types_stand(code, &signature.parameters) && result_stands(code, signature.result)
}

/// Whether the description of a template is there.
#[tactic(auto, using(crate::proofs::CountLemmas::alone))]
fn template_stands(code: &Code, template: &CodedTemplate) -> bool
    ensures { result ≡ list_all (faults.is_there (code_view code.now))
        (faults.named_by_template (coded_template_view template.now)) }
{
    has_description(code, template.description)
}

/// Whether the descriptions of templates are there.
fn templates_stand(code: &Code, templates: &[CodedTemplate]) -> bool
    ensures { result ≡ list_all (λ t. list_all (faults.is_there (code_view code.now)) (faults.named_by_template t))
        (map coded_template_view templates.now) }
{
    for template in templates {
        if !template_stands(code, template) {
            return false;
        }
    }
    true
}

/// Whether what a global names is there.
#[tactic(auto, using(crate::proofs::CountLemmas::alone))]
fn global_stands(code: &Code, global: &CodedGlobal) -> bool
    ensures { result ≡ list_all (faults.is_there (code_view code.now))
        (faults.named_by_global (global_view global.now)) }
{
    match global {
        CodedGlobal::OwnVariable { template, .. } => has_template(code, *template),
        CodedGlobal::ExternalVariable { template, .. } => has_template(code, *template),
        CodedGlobal::EntryPoint { signature, .. } => signature_stands(code, signature),
    }
}

/// Whether what globals name is there.
fn globals_stand(code: &Code, globals: &[CodedGlobal]) -> bool
    ensures { result ≡ list_all (λ g. list_all (faults.is_there (code_view code.now)) (faults.named_by_global g))
        (map global_view globals.now) }
{
    for global in globals {
        if !global_stands(code, global) {
            return false;
        }
    }
    true
}

/// Whether a block's parent is there, if it has one.
#[tactic(auto, using(crate::proofs::CountLemmas::alone))]
fn parent_stands(code: &Code, parent: Option<u16>) -> bool
    ensures { result ≡ list_all (faults.is_there (code_view code.now)) (faults.named_by_parent parent) }
{
    match parent {
        None => true,
        Some(number) => has_block(code, number),
    }
}

/// Whether templates of these numbers are there.
fn variables_stand(code: &Code, variables: &[u16]) -> bool
    ensures { result ≡ list_all (λ n. faults.is_there (code_view code.now) (OfTemplate n)) variables.now }
{
    for number in variables {
        if !has_template(code, *number) {
            return false;
        }
    }
    true
}

/// Whether a first instruction of this number is there.
#[tactic(auto, using(crate::proofs::CountLemmas::alone))]
fn entry_stands(code: &Code, entry: u16) -> bool
    ensures { result ≡ list_all (faults.is_there (code_view code.now)) (OfInstruction entry ∷ []) }
{
    has_instruction(code, entry)
}

/// Whether a block's templates and its first instruction are there.
#[tactic(auto, using(crate::proofs::CountLemmas::mapped_passes, crate::proofs::CountLemmas::both_pass))]
fn frame_stands(code: &Code, variables: &[u16], entry: u16) -> bool
    ensures { result ≡ list_all (faults.is_there (code_view code.now))
        (map OfTemplate variables.now ++ OfInstruction entry ∷ []) }
{
    variables_stand(code, variables) && entry_stands(code, entry)
}

/// Whether what a block names is there.
#[tactic(auto, using(crate::proofs::CountLemmas::both_pass))]
fn block_stands(code: &Code, block: &Block) -> bool
    ensures { result ≡ list_all (faults.is_there (code_view code.now)) (faults.named_by_block (block_view block.now)) }
{
    parent_stands(code, block.parent) && frame_stands(code, &block.variables, block.entry)
}

/// Whether what blocks name is there.
fn blocks_stand(code: &Code, blocks: &[Block]) -> bool
    ensures { result ≡ list_all (λ b. list_all (faults.is_there (code_view code.now)) (faults.named_by_block b))
        (map block_view blocks.now) }
{
    for block in blocks {
        if !block_stands(code, block) {
            return false;
        }
    }
    true
}

/// Whether what an instruction names is there.
#[tactic(auto, using(crate::proofs::CountLemmas::alone))]
fn instruction_stands(code: &Code, instruction: &Instruction) -> bool
    ensures { result ≡ list_all (faults.is_there (code_view code.now)) (faults.named_by_instruction instruction.now) }
{
    match *instruction {
        Instruction::Call { block, .. } => has_block(code, block),
        Instruction::CallExternal { global, .. } => has_global(code, global),
        Instruction::Begin { block } => has_block(code, block),
        Instruction::Global { number } => has_global(code, number),
        Instruction::Based { description } => has_description(code, description),
        Instruction::Field { description, .. } => has_description(code, description),
        Instruction::Constant { value } => has_value(code, value),
        Instruction::MakeDummy { template } => has_template(code, template),
        Instruction::Fit { description } => has_description(code, description),
        Instruction::AllocateControlled { global } => has_global(code, global),
        Instruction::FreeControlled { global } => has_global(code, global),
        Instruction::CountGenerations { global } => has_global(code, global),
        Instruction::AllocateBased { template } => has_template(code, template),
        Instruction::AllocateInArea { template, .. } => has_template(code, template),
        Instruction::FreeBased { description } => has_description(code, description),
        Instruction::On { block, .. } => has_block(code, block),
        _ => true,
    }
}

/// Whether what instructions name is there.
fn instructions_stand(code: &Code, instructions: &[Instruction]) -> bool
    ensures { result ≡ list_all (λ i. list_all (faults.is_there (code_view code.now)) (faults.named_by_instruction i))
        instructions.now }
{
    for instruction in instructions {
        if !instruction_stands(code, instruction) {
            return false;
        }
    }
    true
}

/// Whether what templates and globals name is there.
#[tactic(auto, using(crate::proofs::CountLemmas::both_pass, crate::proofs::CountLemmas::each_passes))]
fn variables_known(code: &Code) -> bool
    ensures { let c = code_view code.now in
        result ≡ list_all (faults.is_there c) (flat_map faults.named_by_template c.templates
        ++ flat_map faults.named_by_global c.globals) }
{
    templates_stand(code, &code.templates) && globals_stand(code, &code.globals)
}

/// Whether what the variables of code name is there, and a first block.
#[tactic(auto, using(crate::proofs::CountLemmas::alone, crate::proofs::CountLemmas::both_pass))]
fn tables_stand(code: &Code) -> bool
    ensures { result ≡ list_all (faults.is_there (code_view code.now))
        (faults.named_by_variables (code_view code.now)) }
{
    variables_known(code) && has_block(code, 0)
}

/// Whether what blocks and instructions of code name is there.
#[tactic(auto, using(crate::proofs::CountLemmas::both_pass, crate::proofs::CountLemmas::each_passes))]
fn blocks_known(code: &Code) -> bool
    ensures { result ≡ list_all (faults.is_there (code_view code.now)) (faults.named_by_blocks (code_view code.now)) }
{
    blocks_stand(code, &code.blocks) && instructions_stand(code, &code.instructions)
}

/// Whether all that code names is there, save by jumps.
#[tactic(auto, using(crate::proofs::CountLemmas::three_pass))]
pub fn all_stand(code: &Code) -> bool
    ensures { result ≡ list_all (faults.is_there (code_view code.now)) (faults.named_by (code_view code.now)) }
{
    signature_stands(code, &code.signature) && tables_stand(code) && blocks_known(code)
}

/// Whether an instruction jumps to one of so many, if it jumps.
#[tactic(auto, using(crate::proofs::CountLemmas::alone))]
fn jump_stands(count: usize, instruction: &Instruction) -> bool
    ensures { result ≡ list_all (λ i. nat_lt i count) (faults.targets_of instruction.now) }
{
    match *instruction {
        Instruction::Jump { target } => usize::from(target) < count,
        Instruction::JumpUnless { target } => usize::from(target) < count,
        Instruction::Goto { target, .. } => usize::from(target) < count,
        Instruction::AllocateInArea { target, .. } => usize::from(target) < count,
        _ => true,
    }
}

/// Whether instructions jump to one of so many, where they jump.
fn jumps_within(count: usize, instructions: &[Instruction]) -> bool
    ensures { result ≡ list_all (λ i. list_all (λ target. nat_lt target count) (faults.targets_of i)) instructions.now }
{
    for instruction in instructions {
        if !jump_stands(count, instruction) {
            return false;
        }
    }
    true
}

/// Whether all jumps lead to an instruction of the code.
#[tactic(auto, using(crate::proofs::CountLemmas::each_passes))]
pub fn jumps_stand(code: &Code) -> bool
    ensures { result ≡ faults.jumps_within (code_view code.now) }
{
    jumps_within(code.instructions.len(), &code.instructions)
}
