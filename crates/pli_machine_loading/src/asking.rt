//! Descriptions of strings for the dummy arguments of a module that are as long as their strings, made before a run.
ghost use Rattle.std.specs.Prelude.{◌≡◌, true, IfOk};
ghost use Rattle.pli_machine_activations.specs.answers.Served.{AllServed};
ghost use Rattle.pli_machine_loading.specs.answers.AskedForms.{AreAmong, AreAsked, UnitsAsked, is_asked};

use pli_code::{Code, Instruction, Module};
use pli_store::{StringDescriptions, StringForms};
use std::alloc::{AllocError, Global};

/// Forms of strings, with that of an instruction, if it has one.
fn with_instruction(forms: StringForms, instruction: Instruction) -> StringForms
    ensures one { is_asked result instruction ≡ true }
    ensures others { AreAmong forms result }
{
    match instruction {
        Instruction::MakeStringDummy { form } => forms.with(form),
        _ => forms,
    }
}

/// The same with those of the instructions of a unit.
fn with_code(forms: StringForms, code: &Code) -> StringForms
    ensures all { AreAsked code.now.instructions.items result }
    ensures others { AreAmong forms result }
{
    let mut all = forms;
    for instruction in &code.instructions {
        all = with_instruction(all, *instruction);
    }
    all
}

/// Those of all units of a module.
fn forms_in(module: &Module) -> StringForms
    ensures { UnitsAsked «module».now.units.items result }
{
    let mut forms = StringForms::none();
    for unit in &module.units {
        forms = with_code(forms, &unit.deck.code);
    }
    forms
}

/// Descriptions of strings of every length, of each form for which an instruction of a module makes dummy arguments:
/// some hundred kilobytes for a form, and none where no instruction does.
pub fn strings_for(alloc: Global, module: &Module) -> Result<StringDescriptions, AllocError>
    ensures { IfOk result (AllServed «module».now.units.items) }
{
    StringDescriptions::new(alloc, forms_in(module))
}
