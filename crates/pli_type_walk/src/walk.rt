//! The walk over the statements of a unit: what it keeps, and how it goes into blocks and out of them.
ghost use Rattle.std.specs.Prelude.{◌≡◌, ◌<◌, option_map, IfOk};
ghost use Rattle.pli_base.specs.views.StatementView as source;
ghost use Rattle.pli_map.specs.views.DescriptionView.{description_view};
ghost use Rattle.pli_type_rules.specs.StatementTyping.{labels_of};
ghost use Rattle.pli_type_walk.specs.Walking.{Enters, Leaves};

use pli_base::Fault;
use pli_base::statement::Statement;
use pli_map::Description;
use pli_type_names::Naming;
use pli_type_parts::{Surroundings, labels_of};
use pli_type_templates::UnitTemplates;
use pli_type_tree::{BlockHead, TypedProcedure, VariableGroup};
use std::alloc::{AllocError, Global};

/// The next block of the unit, and the next temporary of the block here.
#[derive(Clone, Copy)]
pub struct Next {
    pub block: usize,
    pub temporary: usize,
}

/// Where the walk is, and what it has found: faults, and the procedures that have ended, in the order in which they
/// end.
#[derive(Drop)]
pub struct TypingWalk<'a> {
    pub naming: Naming<'a>,
    pub surroundings: Surroundings<'a>,
    pub next: Next,
    /// What the variables of the blocks that are still to come are made from.
    pub templates: UnitTemplates,
    pub faults: Vec<Fault>,
    pub procedures: Vec<TypedProcedure>,
}

/// A block that the walk has gone into, with what is outside of it.
#[derive(Drop)]
pub struct OpenBlock<'a> {
    pub number: usize,
    pub variables: Vec<VariableGroup>,
    pub begins: usize,
    pub value: Option<&'a Description>,
    pub temporary: usize,
}

/// Goes into the next block, which has these statements, and stands in so many BEGIN blocks of a procedure that gives
/// this, or of an ON-unit.
pub fn enter_block<'a>(
    alloc: Global,
    walk: &mut TypingWalk<'a>,
    is_on_unit: bool,
    begins: usize,
    value: Option<&'a Description>,
    statements: &[Statement],
) -> Result<OpenBlock<'a>, AllocError>
    requires { walk.old.next.block < 18446744073709551615 }
    ensures { IfOk result (λ block. Enters walk.old walk.new block is_on_unit begins
        (option_map (λ d. description_view d.now) value.entry) (labels_of (source.statements_view statements.now))) }
{
    let labels = labels_of(alloc, statements)?;
    let number = walk.next.block;
    walk.naming.enter(number)?;
    let open = OpenBlock {
        number,
        variables: walk.templates.take(alloc, number),
        begins: walk.surroundings.begins,
        value: walk.surroundings.value,
        temporary: walk.next.temporary,
    };
    walk.surroundings.enter(Some(number), is_on_unit, labels)?;
    walk.surroundings.begins = begins;
    walk.surroundings.value = value;
    walk.next = Next {
        block: number + 1,
        temporary: 0,
    };
    Ok(open)
}

/// Goes out of a block, whose PROCEDURE, BEGIN or ON is this statement; gives what its activations begin with.
pub fn leave_block<'a>(walk: &mut TypingWalk<'a>, block: OpenBlock<'a>, statement: u32) -> BlockHead
    ensures { Leaves walk.old walk.new block.entry statement result }
{
    let head = BlockHead {
        number: block.number,
        statement,
        variables: block.variables,
        temporaries: walk.next.temporary,
    };
    walk.naming.leave();
    walk.surroundings.leave();
    walk.surroundings.begins = block.begins;
    walk.surroundings.value = block.value;
    walk.next.temporary = block.temporary;
    head
}
