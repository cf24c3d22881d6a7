//! Instructions as they are emitted.
#![tactic(auto, unfolding(crate::specs::answers::Emitting::with_instruction, crate::specs::answers::Emitting::landed))]

ghost use Rattle.std.specs.Prelude.{◌≡◌, ◌+◌, ◌∷◌, [], length, min, pos, true};
ghost use Rattle.pli_map.specs.views.DescriptionView.{description_view};
ghost use Rattle.pli_program.specs.Templates.{dummy};
ghost use Rattle.pli_program.specs.declared.instruction.Instruction.TheVariants as op;
ghost use Rattle.pli_type_tree.specs.views.TemplateView.{template_view};
ghost use Rattle.pli_type_tree.specs.views.TypedView.{callee_view, operation_view};
ghost use Rattle.pli_value.specs.Value.{Number, value_view};
ghost use Rattle.pli_code.specs.CodeTables.{there};
ghost use Rattle.pli_gen_emit.specs.TreeTranslation.{call_instruction, operation_code};
ghost use Rattle.pli_gen_emit.specs.answers.Emitting.{Puts, Emits, Lands, LandsGuard, shared, is_shared};

use crate::fields::{BYTE_LIMIT, SHORT_LIMIT, byte, short, temporary, temporary_fits};
use crate::one::One;
use crate::table::{
    NumberedTables, number_description, number_template, number_used, number_value,
};
use pli_base::statement::Condition;
use pli_code::Instruction;
use pli_map::Description;
use pli_operation::Operation;
use pli_type_keys::TemplateKey;
use pli_type_tree::{Callee, Stride, Template, TypedOperation};
use pli_value::Value;

/// A GOTO whose target is not known yet: its place, how many static links outward it leads, and its label's statement.
#[derive(Clone, Copy)]
pub struct LabelJump {
    pub place: usize,
    pub outward: u8,
    pub label: u32,
}

/// The instructions of a unit as they are emitted, and the tables of what they name. A number that is wider than its
/// field is cut to the greatest of the field, which is noted; where memory is wanting, the tables note it. So emitting
/// has no path that fails: both are asked for once, at the end.
#[derive(Drop)]
pub struct Emitter<'a> {
    pub one: One<'a>,
    pub tables: NumberedTables<'a>,
    pub code: Vec<Instruction>,
    /// In the order of the code.
    pub gotos: Vec<LabelJump>,
    /// Whether a number other than that of an entry or an instruction is wider than its field.
    pub is_wide: bool,
}

impl<'a> Emitter<'a> {
    /// Appends an instruction, whose numbers fit or were cut.
    fn put(&mut self, fits: bool, instruction: Instruction)
        ensures { Puts self.old self.new fits instruction }
    {
        self.is_wide = self.is_wide || !fits;
        if self.code.push(instruction).is_err() {
            self.tables.lacks_memory = true;
        }
    }

    /// Appends an instruction that names nothing.
    pub(crate) fn emit(&mut self, instruction: Instruction)
        requires { is_shared instruction ≡ true }
        ensures { Emits self.old self.new (there (shared instruction)) }
    {
        self.put(true, instruction);
    }

    /// Appends a jump.
    pub(crate) fn jump(&mut self, target: usize)
        ensures { Emits self.old self.new (op.Jump target ∷ []) }
    {
        let target = short(target);
        self.put(true, Instruction::Jump { target });
    }

    /// Appends a jump after a test.
    pub(crate) fn jump_unless(&mut self, target: usize)
        ensures { Emits self.old self.new (op.JumpUnless target ∷ []) }
    {
        let target = short(target);
        self.put(true, Instruction::JumpUnless { target });
    }

    /// Appends a GOTO, whose target is put in when all statements have their places.
    pub(crate) fn goto(&mut self, outward: usize, label: u32)
        ensures { Emits self.old self.new (op.Goto outward label ∷ []) }
    {
        let fits = outward <= BYTE_LIMIT;
        let place = self.code.len();
        let outward = byte(outward);
        let goto = LabelJump {
            place,
            outward,
            label,
        };
        if self.gotos.push(goto).is_err() {
            self.tables.lacks_memory = true;
        }
        self.put(fits, Instruction::Goto { outward, target: 0 });
    }

    /// Appends a call with so many arguments.
    pub(crate) fn call(&mut self, callee: Callee, arguments: usize)
        ensures { Emits self.old self.new (call_instruction (callee_view callee) arguments ∷ []) }
    {
        match callee {
            Callee::OfBlock { block } => self.call_block(block, arguments),
            Callee::OfEntry { number } => self.call_external(number, arguments),
        }
    }

    /// Appends a call of a procedure of the unit.
    fn call_block(&mut self, block: usize, arguments: usize)
        ensures { Emits self.old self.new (op.Call block arguments ∷ []) }
    {
        let fits = block <= SHORT_LIMIT && arguments <= BYTE_LIMIT;
        let block = short(block);
        let arguments = byte(arguments);
        self.put(fits, Instruction::Call { block, arguments });
    }

    /// Appends a call of the external procedure of an entry.
    fn call_external(&mut self, global: usize, arguments: usize)
        ensures { Emits self.old self.new (op.CallExternal global arguments ∷ []) }
    {
        let fits = global <= SHORT_LIMIT && arguments <= BYTE_LIMIT;
        let global = short(global);
        let arguments = byte(arguments);
        self.put(fits, Instruction::CallExternal { global, arguments });
    }

    /// Appends the start of a BEGIN block.
    pub(crate) fn begin(&mut self, block: usize)
        ensures { Emits self.old self.new (op.Begin block ∷ []) }
    {
        let fits = block <= SHORT_LIMIT;
        let block = short(block);
        self.put(fits, Instruction::Begin { block });
    }

    /// Appends what establishes the ON-unit of a block.
    pub(crate) fn on(&mut self, condition: Condition, block: usize)
        ensures { Emits self.old self.new (op.On condition block ∷ []) }
    {
        let fits = block <= SHORT_LIMIT;
        let block = short(block);
        self.put(fits, Instruction::On { condition, block });
    }

    /// Appends a RETURN.
    pub(crate) fn return_outward(&mut self, outward: usize)
        ensures { Emits self.old self.new (op.Return outward ∷ []) }
    {
        let fits = outward <= BYTE_LIMIT;
        let outward = byte(outward);
        self.put(fits, Instruction::Return { outward });
    }

    /// Appends a RETURN with a value.
    pub(crate) fn return_value(&mut self, outward: usize)
        ensures { Emits self.old self.new (op.ReturnValue outward ∷ []) }
    {
        let fits = outward <= BYTE_LIMIT;
        let outward = byte(outward);
        self.put(fits, Instruction::ReturnValue { outward });
    }

    /// Appends the place in a slot.
    pub(crate) fn local(&mut self, outward: usize, slot: usize)
        ensures { Emits self.old self.new (op.Local outward slot ∷ []) }
    {
        let fits = outward <= BYTE_LIMIT && slot <= SHORT_LIMIT;
        let outward = byte(outward);
        let slot = short(slot);
        self.put(fits, Instruction::Local { outward, slot });
    }

    /// Appends the place of a global variable; of a CONTROLLED one that of its newest generation.
    pub(crate) fn global(&mut self, number: usize)
        ensures { Emits self.old self.new (op.Global number ∷ []) }
    {
        let fits = number <= SHORT_LIMIT;
        let number = short(number);
        self.put(fits, Instruction::Global { number });
    }

    /// Appends the count of a CONTROLLED variable's generations.
    pub(crate) fn count_generations(&mut self, global: usize)
        ensures { Emits self.old self.new (op.CountGenerations global ∷ []) }
    {
        let fits = global <= SHORT_LIMIT;
        let global = short(global);
        self.put(fits, Instruction::CountGenerations { global });
    }

    /// Appends what makes a generation of a CONTROLLED variable.
    pub(crate) fn allocate_controlled(&mut self, global: usize)
        ensures { Emits self.old self.new (op.AllocateControlled global ∷ []) }
    {
        let fits = global <= SHORT_LIMIT;
        let global = short(global);
        self.put(fits, Instruction::AllocateControlled { global });
    }

    /// Appends what ends the newest generation of a CONTROLLED variable.
    pub(crate) fn free_controlled(&mut self, global: usize)
        ensures { Emits self.old self.new (op.FreeControlled global ∷ []) }
    {
        let fits = global <= SHORT_LIMIT;
        let global = short(global);
        self.put(fits, Instruction::FreeControlled { global });
    }

    /// Appends the place to which a locator leads, of this whole description.
    pub(crate) fn based(&mut self, description: &'a Description)
        ensures { Emits self.old self.new (op.Based (description_view description.now) ∷ []) }
    {
        let description = number_description(&mut self.tables, description);
        self.put(true, Instruction::Based { description });
    }

    /// Appends what makes a generation of a BASED variable.
    pub(crate) fn allocate_based(&mut self, template: &'a Template)
        ensures { Emits self.old self.new (op.AllocateBased (template_view template.now) ∷ []) }
    {
        let template = number_used(&mut self.tables, template);
        self.put(true, Instruction::AllocateBased { template });
    }

    /// Appends what makes a block of an area for a BASED variable. After a unit of the AREA condition the code at this
    /// place goes on.
    pub(crate) fn allocate_in_area(&mut self, template: &'a Template, target: usize)
        ensures { Emits self.old self.new (op.AllocateInArea (template_view template.now) target ∷ []) }
    {
        let template = number_used(&mut self.tables, template);
        let target = short(target);
        self.put(true, Instruction::AllocateInArea { template, target });
    }

    /// Appends what ends the generation to which a locator leads, of this whole description.
    pub(crate) fn free_based(&mut self, description: &'a Description)
        ensures { Emits self.old self.new (op.FreeBased (description_view description.now) ∷ []) }
    {
        let description = number_description(&mut self.tables, description);
        self.put(true, Instruction::FreeBased { description });
    }

    /// Appends what leads a place on to a part of it.
    pub(crate) fn field(&mut self, offset: u32, description: &'a Description)
        ensures { Emits self.old self.new (op.Field offset (description_view description.now) ∷ []) }
    {
        let description = number_description(&mut self.tables, description);
        self.put(
            true,
            Instruction::Field {
                offset,
                description,
            },
        );
    }

    /// Appends the test of a subscript, and what it does to a place.
    pub(crate) fn subscript(&mut self, stride: Stride)
        ensures { Emits self.old self.new (op.Subscript stride.low stride.high stride.multiplier ∷ []) }
    {
        self.emit(Instruction::Subscript {
            low: stride.low,
            high: stride.high,
            multiplier: stride.multiplier,
        });
    }

    /// Appends the test of a subscript of this dimension of the array that a place is, and what it does to the place.
    pub(crate) fn subscript_in(&mut self, dimension: usize)
        ensures { Emits self.old self.new (op.SubscriptIn dimension ∷ []) }
    {
        let fits = dimension <= BYTE_LIMIT;
        let dimension = byte(dimension);
        self.put(fits, Instruction::SubscriptIn { dimension });
    }

    /// Appends a constant.
    pub(crate) fn constant(&mut self, value: &'a Value)
        ensures { Emits self.old self.new (op.Constant (value_view value.now) ∷ []) }
    {
        let value = number_value(&mut self.tables, value);
        self.put(true, Instruction::Constant { value });
    }

    /// Appends the constant 1: the step of a group where BY is absent.
    pub(crate) fn constant_one(&mut self)
        ensures { Emits self.old self.new (op.Constant (Number (pos 1)) ∷ []) }
    {
        let value = self.one.value;
        self.constant(value);
    }

    /// Appends what makes a dummy argument.
    pub(crate) fn make_dummy(&mut self, description: &'a Description)
        ensures { Emits self.old self.new (op.MakeDummy (dummy (description_view description.now)) ∷ []) }
    {
        number_description(&mut self.tables, description);
        let key = TemplateKey {
            description,
            initial: &[],
        };
        let template = number_template(&mut self.tables, key);
        self.put(true, Instruction::MakeDummy { template });
    }

    /// Appends an operation.
    pub(crate) fn operation(&mut self, operation: &'a TypedOperation)
        ensures { Emits self.old self.new (operation_code (operation_view operation.now) ∷ []) }
    {
        match operation {
            TypedOperation::Fit(description) => self.fit(description),
            TypedOperation::Operate(operation) => self.operate(*operation),
        }
    }

    /// Appends what fits a value to a description.
    fn fit(&mut self, description: &'a Description)
        ensures { Emits self.old self.new (op.Fit (description_view description.now) ∷ []) }
    {
        let description = number_description(&mut self.tables, description);
        self.put(true, Instruction::Fit { description });
    }

    /// Appends an operation on values.
    fn operate(&mut self, operation: Operation)
        ensures { Emits self.old self.new (op.Operate operation ∷ []) }
    {
        self.emit(Instruction::Operate(operation));
    }

    /// Appends what keeps a value as the temporary so many after the first one of a group.
    pub(crate) fn set_temporary(&mut self, first: usize, after: u8)
        ensures { Emits self.old self.new (op.SetTemporary (first + after) ∷ []) }
    {
        let fits = temporary_fits(first, after);
        let number = temporary(first, after);
        self.put(fits, Instruction::SetTemporary { number });
    }

    /// Appends the value of the temporary so many after the first one of a group.
    pub(crate) fn take_temporary(&mut self, first: usize, after: u8)
        ensures { Emits self.old self.new (op.TakeTemporary (first + after) ∷ []) }
    {
        let fits = temporary_fits(first, after);
        let number = temporary(first, after);
        self.put(fits, Instruction::TakeTemporary { number });
    }

    /// Where the next instruction will stand.
    pub(crate) fn place(&self) -> usize
        ensures { result ≡ length self.now.code.items }
    {
        self.code.len()
    }

    /// Puts an instruction in the place of another, if there is one.
    fn replace(&mut self, place: usize, instruction: Instruction)
        ensures { Lands self.old self.new place instruction }
    {
        if place < self.code.len() {
            self.code[place] = instruction;
        }
    }

    /// The jump there leads to a target.
    pub(crate) fn land_jump(&mut self, jump: usize, target: usize)
        ensures { Lands self.old self.new jump (op.Jump (min target 65535)) }
    {
        let target = short(target);
        self.replace(jump, Instruction::Jump { target });
    }

    /// The jump there, after a test, leads to a target.
    pub(crate) fn land_test(&mut self, test: usize, target: usize)
        ensures { Lands self.old self.new test (op.JumpUnless (min target 65535)) }
    {
        let target = short(target);
        self.replace(test, Instruction::JumpUnless { target });
    }

    /// The same, if there is a jump.
    pub(crate) fn land_guard(&mut self, test: Option<usize>, target: usize)
        ensures { LandsGuard self.old self.new test target }
    {
        if let Some(test) = test {
            self.land_test(test, target);
        }
    }
}
