//! Instructions of the stack machine.
use pli_base::statement::Condition;
use pli_map::{StringForm, WhichBound};
use pli_operation::Operation;
use pli_run::RunError;
use std::alloc::AllocError;

/// An instruction of the stack machine, by what it names (own): `D` is a description, `T` a template and `V` a value,
/// each itself or the number of an entry of the unit's tables. Operands on the machine's list are values and places, of
/// which the newest is taken first. A target is the place of an instruction in its unit, counted from 0; blocks and
/// globals are numbers of entries in the unit's tables. Numbers are as wide as an instruction's bytes have them.
#[derive(Copy)]
pub enum Instruction<D, T, V> {
    /// A step; the activation's statement is this one.
    Step {
        statement: u32,
    },
    /// The activation's statement is this one.
    Line {
        statement: u32,
    },
    /// Jumps.
    Jump {
        target: u16,
    },
    /// Takes bits, and jumps if none of them is one.
    JumpUnless {
        target: u16,
    },
    /// Ends the activations inside the one so many static links outward, clears its operands and jumps there.
    Goto {
        outward: u8,
        target: u16,
    },
    /// Takes so many places and activates a procedure.
    Call {
        block: u16,
        arguments: u8,
    },
    /// Takes so many places and activates the external procedure of an entry.
    CallExternal {
        global: u16,
        arguments: u8,
    },
    /// Activates a BEGIN block.
    Begin {
        block: u16,
    },
    /// Ends this activation and so many more.
    Return {
        outward: u8,
    },
    /// The same, and gives a value to the activation that goes on.
    ReturnValue {
        outward: u8,
    },
    /// Ends the run by an error.
    Raise(RunError),
    /// Ends the run.
    Stop,
    /// The place in a slot of the activation so many static links outward.
    Local {
        outward: u8,
        slot: u16,
    },
    /// The place of a STATIC variable, or of the newest generation of a CONTROLLED one.
    Global {
        number: u16,
    },
    /// Takes a pointer and gives the place to which it leads, of this description.
    Based {
        description: D,
    },
    /// Leads a place so many bytes on, to a part of this description.
    Field {
        offset: u32,
        description: D,
    },
    /// Takes a number, tests it and leads a place on by so many bytes for each number over the low one. Bounds are from
    /// -32,767 to 32,767.
    Subscript {
        low: i32,
        high: i32,
        multiplier: u32,
    },
    /// Gives the value.
    Constant {
        value: V,
    },
    /// Takes a place and gives what it holds.
    Load,
    /// Takes a value and a place, and puts the value there.
    Store,
    /// Takes a source's place and a target's, of aggregates, and copies what the source holds.
    Copy,
    /// Takes a value and gives the place of a dummy argument, which is made from the template and has the value. Initial
    /// values of the template are not used.
    MakeDummy {
        template: T,
    },
    /// Holds a number against a precision, or cuts or extends a string to a length.
    Fit {
        description: D,
    },
    /// Takes as many operands as the operation has, and gives its value.
    Operate(Operation),
    /// Takes a place and gives a pointer to it.
    AddressOf,
    /// Takes an area's place and an offset, and gives the pointer.
    ToPointer,
    /// Takes an area's place and a pointer, and gives the offset.
    ToOffset,
    /// Makes a generation of a CONTROLLED variable, which is its newest from then on.
    AllocateControlled {
        global: u16,
    },
    /// Removes its newest generation.
    FreeControlled {
        global: u16,
    },
    /// How many generations it has.
    CountGenerations {
        global: u16,
    },
    /// Makes a generation in free storage and gives a pointer to it.
    AllocateBased {
        template: T,
    },
    /// Takes an area's place, makes a block there and gives a pointer to it. After the ON-unit of the AREA condition,
    /// takes a step and jumps to the target.
    AllocateInArea {
        template: T,
        target: u16,
    },
    /// Takes a pointer and frees that to which it leads.
    FreeBased {
        description: D,
    },
    /// Takes a source area and a target area, and assigns the one to the other.
    AssignArea,
    /// Takes an area and empties it.
    EmptyArea,
    /// The activation has the ON-unit of this block for a condition from then on.
    On {
        condition: Condition,
        block: u16,
    },
    /// The activation has none for the condition from then on.
    Revert {
        condition: Condition,
    },
    /// Raises the condition.
    Signal {
        condition: Condition,
    },
    /// Takes characters or bits and prints them.
    Put,
    /// Ends the line.
    Skip,
    /// Takes a value and keeps it as a temporary. Those of a block are numbered from 0.
    SetTemporary {
        number: u16,
    },
    /// The value that is kept as a temporary.
    TakeTemporary {
        number: u16,
    },
    /// Takes a number and leads the place of an array on by a subscript of this dimension of it, from 1 to 8; after the
    /// last one, to an element.
    SubscriptIn {
        dimension: u8,
    },
    /// Takes the place of an array, and gives this bound of this dimension of it, from 1 to 8.
    BoundOf {
        which: WhichBound,
        dimension: u8,
    },
    /// Takes a string and gives the place of a dummy argument as long as it is.
    MakeStringDummy {
        form: StringForm,
    },
    /// Fits a string to the place of a string that lies below it.
    FitToPlace,
}

impl<D: Copy, T: Copy, V: Copy> Clone for Instruction<D, T, V> {
    fn clone(&self) -> Result<Self, AllocError> {
        Ok(*self)
    }
}
