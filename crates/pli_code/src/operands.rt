//! The operands of an instruction, one after another.
ghost use Rattle.std.specs.Prelude.{◌≡◌};
ghost use Rattle.std.specs.Int.{w32};
ghost use Rattle.pli_code.specs.Fields.{Answers, Reader, u1, u2, u4, from_to, signed, unknown};
ghost use Rattle.pli_code.specs.Instructions as instruction_fields;
ghost use Rattle.pli_code.specs.Operands.{operands_view, kept, Reads};

use crate::fault::DeckFault;
use crate::fields::{byte_of, byte_within, short_of, signed_within, word_of};
use crate::instruction::Instruction;
use crate::numbered::{condition_of, error_of, relation_of, string_form_of, which_of};
use pli_base::statement::Condition;
use pli_map::{StringForm, WhichBound};
use pli_operation::Relation;
use pli_run::RunError;

/// The bytes from which operands are read. The first fault is kept, and what is read after it says nothing: so whether
/// all went well is asked once, after the last operand.
#[derive(Drop)]
pub struct Operands<'a> {
    pub rest: &'a [u8],
    pub fault: Option<DeckFault>,
}

impl<'a> Operands<'a> {
    /// Keeps the fault, unless there was one before.
    fn failed(&mut self, fault: DeckFault)
        ensures same { self.new.rest ≡ self.old.rest }
        ensures first { self.new.fault ≡ kept self.old.fault fault }
    {
        match self.fault {
            None => self.fault = Some(fault),
            Some(_) => {}
        }
    }

    /// The value that was read from the front of the bytes. Where none was, the fault is kept, and `otherwise` stands
    /// for a value.
    fn taken<T: Copy>(&mut self, given: Result<(T, &'a [u8]), DeckFault>, otherwise: T) -> T
        ensures { (read : Reader T) → Answers (λ x. (x.0, x.1.now)) given.entry (read self.old.rest.now) →
            Reads read (operands_view self.old) result (operands_view self.new) }
    {
        match given {
            Ok((value, rest)) => {
                self.rest = rest;
                value
            }
            Err(fault) => {
                self.failed(fault);
                otherwise
            }
        }
    }

    /// One byte.
    pub fn byte(&mut self) -> u8
        ensures { Reads u1.read (operands_view self.old) result (operands_view self.new) }
    {
        let given = byte_of(self.rest);
        self.taken(given, 0)
    }

    /// A number of two bytes.
    pub fn short(&mut self) -> u16
        ensures { Reads u2.read (operands_view self.old) result (operands_view self.new) }
    {
        let given = short_of(self.rest);
        self.taken(given, 0)
    }

    /// A number of four bytes.
    pub fn word(&mut self) -> u32
        ensures { Reads u4.read (operands_view self.old) result (operands_view self.new) }
    {
        let given = word_of(self.rest);
        self.taken(given, 0)
    }

    /// One byte from `low` to `high`.
    pub fn byte_within(&mut self, low: u8, high: u8) -> u8
        ensures { Reads (from_to low high u1).read (operands_view self.old) result (operands_view self.new) }
    {
        let given = byte_within(self.rest, low, high);
        self.taken(given, 0)
    }

    /// A signed number of four bytes that is at most `bound` from 0.
    pub fn signed_within(&mut self, bound: u32) -> i32
        ensures { Reads (signed 4 w32 bound).read (operands_view self.old) result (operands_view self.new) }
    {
        let given = signed_within(self.rest, bound);
        self.taken(given, 0)
    }

    /// An error that ends a run.
    #[tactic(auto, using(crate::proofs::OperandReading::of_one))]
    pub fn run_error(&mut self) -> RunError
        ensures { Reads instruction_fields.error.read (operands_view self.old) result (operands_view self.new) }
    {
        error_of(self.byte_within(1, 13))
    }

    /// What a comparison asks.
    #[tactic(auto, using(crate::proofs::OperandReading::of_one))]
    pub fn relation(&mut self) -> Relation
        ensures { Reads instruction_fields.relation.read (operands_view self.old) result (operands_view self.new) }
    {
        relation_of(self.byte_within(0, 5))
    }

    /// A condition.
    #[tactic(auto, using(crate::proofs::OperandReading::of_one))]
    pub fn condition(&mut self) -> Condition
        ensures { Reads instruction_fields.condition.read (operands_view self.old) result (operands_view self.new) }
    {
        condition_of(self.byte_within(0, 2))
    }

    /// One of the two bounds of a dimension.
    #[tactic(auto, using(crate::proofs::OperandReading::of_one))]
    pub fn which_bound(&mut self) -> WhichBound
        ensures { Reads instruction_fields.which_bound.read (operands_view self.old) result (operands_view self.new) }
    {
        which_of(self.byte_within(0, 1))
    }

    /// A form of strings.
    #[tactic(auto, using(crate::proofs::OperandReading::of_one))]
    pub fn string_form(&mut self) -> StringForm
        ensures { Reads instruction_fields.string_form.read (operands_view self.old) result (operands_view self.new) }
    {
        string_form_of(self.byte_within(2, 4))
    }

    /// No instruction has the opcode: that is a fault, and any instruction stands for it.
    pub fn unknown(&mut self) -> Instruction
        ensures { Reads unknown (operands_view self.old) result (operands_view self.new) }
    {
        self.failed(DeckFault::OutOfRange);
        Instruction::Stop
    }
}
