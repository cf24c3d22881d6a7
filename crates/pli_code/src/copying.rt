//! Copies of decks.
ghost use Rattle.std.specs.Prelude.{◌≡◌, map, IfOk};
ghost use Rattle.pli_map.specs.ParameterTypes as types;
ghost use Rattle.pli_map.specs.views.ParameterView.{type_view};
ghost use Rattle.pli_program.specs.Templates as templates;
ghost use Rattle.pli_type_tree.specs.views.TemplateView.{initial_view};
ghost use Rattle.pli_code.specs.CodeTables as plain;
ghost use Rattle.pli_code.specs.views.CodeView.{block_view, code_view, coded_template_view, deck_view, global_view};
ghost use Rattle.pli_code.specs.views.CodeView.{signature_view};
ghost use Rattle.pli_value.specs.Value as values;
ghost use Rattle.pli_value.specs.Value.{value_view};

use crate::code::{Block, Code, CodedGlobal, CodedSignature, CodedTemplate, Deck};
use pli_map::ParameterType;
use pli_type_tree::InitialScalar;
use pli_value::Value;
use std::alloc::{AllocError, Global};

/// What stands in a table of code.
trait TableEntry: Sized + Drop {
    /// What contracts see of an entry: what it says, apart from where it lies in memory.
    ghost View: { Type 0 };

    ghost view: { Self → View };

    /// An entry that says the same.
    fn copied(&self, alloc: Global) -> Result<Self, AllocError>
        ensures { IfOk result (λ copied. view copied ≡ view self.now) };
}

impl TableEntry for ParameterType {
    ghost View = { types.ParameterType };

    ghost view = { type_view };

    fn copied(&self, alloc: Global) -> Result<ParameterType, AllocError> {
        self.copy(alloc)
    }
}

impl TableEntry for Value {
    ghost View = { values.Value };

    ghost view = { value_view };

    fn copied(&self, alloc: Global) -> Result<Value, AllocError> {
        self.copy(alloc)
    }
}

impl TableEntry for InitialScalar {
    ghost View = { templates.InitialScalar };

    ghost view = { initial_view };

    fn copied(&self, alloc: Global) -> Result<InitialScalar, AllocError> {
        Ok(InitialScalar {
            offset: self.offset,
            value: self.value.copy(alloc)?,
        })
    }
}

impl TableEntry for CodedTemplate {
    ghost View = { plain.CodedTemplate };

    ghost view = { coded_template_view };

    fn copied(&self, alloc: Global) -> Result<CodedTemplate, AllocError> {
        Ok(CodedTemplate {
            description: self.description,
            initial: copied_table(alloc, self.initial.as_slice())?,
        })
    }
}

impl TableEntry for CodedGlobal {
    ghost View = { plain.CodedGlobal };

    ghost view = { global_view };

    fn copied(&self, alloc: Global) -> Result<CodedGlobal, AllocError> {
        match self {
            CodedGlobal::OwnVariable { kind, template } => Ok(CodedGlobal::OwnVariable {
                kind: *kind,
                template: *template,
            }),
            CodedGlobal::ExternalVariable {
                name,
                kind,
                template,
            } => Ok(CodedGlobal::ExternalVariable {
                name: *name,
                kind: *kind,
                template: *template,
            }),
            CodedGlobal::EntryPoint { name, signature } => Ok(CodedGlobal::EntryPoint {
                name: *name,
                signature: copied_signature(alloc, signature)?,
            }),
        }
    }
}

impl TableEntry for Block {
    ghost View = { plain.CodedBlock };

    ghost view = { block_view };

    fn copied(&self, alloc: Global) -> Result<Block, AllocError> {
        Ok(Block {
            kind: self.kind,
            parent: self.parent,
            parameters: self.parameters,
            variables: Vec::from_slice(alloc, self.variables.as_slice())?,
            temporaries: self.temporaries,
            entry: self.entry,
            statement: self.statement,
        })
    }
}

/// Copies a table.
fn copied_table<T: TableEntry>(alloc: Global, table: &[T]) -> Result<Vec<T>, AllocError>
    ensures { IfOk result (λ copied. map T.view copied.items ≡ map T.view table.now) }
{
    let mut copied = Vec::new(alloc);
    for entry in table {
        copied.push(entry.copied(alloc)?)?;
    }
    Ok(copied)
}

/// Copies a signature.
fn copied_signature(alloc: Global, signature: &CodedSignature) -> Result<CodedSignature, AllocError>
    ensures { IfOk result (λ copied. signature_view copied ≡ signature_view signature.now) }
{
    Ok(CodedSignature {
        parameters: Vec::from_slice(alloc, signature.parameters.as_slice())?,
        result: signature.result,
    })
}

/// Copies the code of a unit.
fn copied_code(alloc: Global, code: &Code) -> Result<Code, AllocError>
    ensures { IfOk result (λ copied. code_view copied ≡ code_view code.now) }
{
    Ok(Code {
        signature: copied_signature(alloc, &code.signature)?,
        descriptions: copied_table(alloc, code.descriptions.as_slice())?,
        templates: copied_table(alloc, code.templates.as_slice())?,
        values: copied_table(alloc, code.values.as_slice())?,
        globals: copied_table(alloc, code.globals.as_slice())?,
        blocks: copied_table(alloc, code.blocks.as_slice())?,
        instructions: Vec::from_slice(alloc, code.instructions.as_slice())?,
    })
}

/// Copies a deck.
pub fn copied_deck(alloc: Global, deck: &Deck) -> Result<Deck, AllocError>
    ensures { IfOk result (λ copied. deck_view copied ≡ deck_view deck.now) }
{
    Ok(Deck {
        version: deck.version,
        name: deck.name,
        is_main: deck.is_main,
        code: copied_code(alloc, &deck.code)?,
    })
}
