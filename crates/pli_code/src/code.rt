//! The code of a unit.
ghost use Rattle.std.specs.Prelude.{◌≡◌, map, option_map, slice_get};
ghost use Rattle.pli_map.specs.views.DescriptionView.{description_view};
ghost use Rattle.pli_map.specs.views.ParameterView.{type_view};
ghost use Rattle.pli_code.specs.CodeTables.{stated_at};
ghost use Rattle.pli_code.specs.Versions.{version_number};
ghost use Rattle.pli_code.specs.views.CodeView.{code_view};

use crate::instruction::Instruction;
use crate::version::Version;
use pli_base::Name;
use pli_map::{Description, ParameterType};
use pli_program::VariableKind;
use pli_type_tree::InitialScalar;
use pli_value::Value;

/// What a variable or a dummy argument is made from: the number of its description, and its initial values in the order
/// of the text.
#[derive(Drop)]
pub struct CodedTemplate {
    pub description: u16,
    pub initial: Vec<InitialScalar>,
}

/// What a block is of.
#[derive(Clone, Copy)]
pub enum BlockKind {
    Procedure,
    Begin,
    OnUnit,
}

/// A block of a unit.
#[derive(Drop)]
pub struct Block {
    pub kind: BlockKind,
    /// The block around it; none for an external procedure.
    pub parent: Option<u16>,
    /// At most 64.
    pub parameters: u8,
    /// The templates of its AUTOMATIC variables in the order of the text.
    pub variables: Vec<u16>,
    pub temporaries: u16,
    /// Its first instruction.
    pub entry: u16,
    /// Its PROCEDURE, BEGIN or ON.
    pub statement: u32,
}

/// What an external procedure takes, and what it gives if it is a function: the numbers of types, of which the result's
/// is a description.
#[derive(Drop)]
pub struct CodedSignature {
    pub parameters: Vec<u16>,
    pub result: Option<u16>,
}

/// What a unit names that is there for the whole program.
#[derive(Drop)]
pub enum CodedGlobal {
    /// A variable of the unit's own, by the number of its template.
    OwnVariable {
        kind: VariableKind,
        template: u16,
    },
    /// A variable that all units which have one of its name share.
    ExternalVariable {
        name: Name,
        kind: VariableKind,
        template: u16,
    },
    /// The external procedure of a name.
    EntryPoint {
        name: Name,
        signature: CodedSignature,
    },
}

/// The code of a unit: its tables and its instructions, block after block. A table has at most 65,535 entries (own).
#[derive(Drop)]
pub struct Code {
    /// What its external procedure takes and gives.
    pub signature: CodedSignature,
    /// Descriptions, and types with a `*`, which parameters of signatures alone name.
    pub descriptions: Vec<ParameterType>,
    pub templates: Vec<CodedTemplate>,
    pub values: Vec<Value>,
    /// In the order of the text.
    pub globals: Vec<CodedGlobal>,
    /// Numbered from 0 in the order of the text.
    pub blocks: Vec<Block>,
    pub instructions: Vec<Instruction>,
}

/// The type of a number in a table.
#[inline]
fn type_at(types: &[ParameterType], number: u16) -> Option<&ParameterType>
    ensures { option_map (λ t. type_view t.now) result ≡ slice_get (map type_view types.now) number }
{
    types.get(usize::from(number))
}

impl Code {
    /// The description of a number, if the table has it and no `*` stands in it. Takes no memory.
    #[inline]
    pub fn description(&self, number: u16) -> Option<&Description>
        ensures { option_map (λ d. description_view d.now) result ≡ stated_at (code_view self.now) number }
    {
        match type_at(&self.descriptions, number) {
            Some(found) => found.stated(),
            None => None,
        }
    }
}

/// A deck: its version, the name of a unit's external procedure, whether that is a main one, and the code of the unit.
#[derive(Drop)]
pub struct Deck {
    pub version: Version,
    pub name: Name,
    pub is_main: bool,
    pub code: Code,
}

impl Deck {
    /// The number of its version, from 1 to 3.
    pub fn version(&self) -> u8
        ensures { result ≡ version_number self.now.version }
    {
        self.version.number()
    }
}
