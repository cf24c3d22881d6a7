//! Where statements begin, and the GOTOs that lead there.
ghost use Rattle.std.specs.Prelude.{◌≡◌, ◌∷◌, [], ℕ, nat_eq, unwrap_or, slice_set, IfOk, OnOk};
ghost use Rattle.std.specs.HashMap.{get};
ghost use Rattle.pli_gen.specs.answers.Pieces.{first_step, gotos_landed};

use pli_code::Instruction;
use pli_gen_emit::{LabelJump, short};
use std::alloc::{AllocError, Global};
use std::collections::HashMap;

/// Notes where a statement begins, if an instruction is its first step.
fn note_step(
    places: &mut HashMap<u32, usize>,
    instruction: Instruction,
    place: usize,
) -> Result<(), AllocError>
    ensures { OnOk result ((n other : ℕ) →
        unwrap_or (get nat_eq places.new n) other
        ≡ unwrap_or (get nat_eq places.old n) (first_step (instruction ∷ []) place n other)) }
{
    let Instruction::Step { statement } = instruction else {
        return Ok(());
    };
    if !places.contains_key(&statement) {
        places.insert(statement, place)?;
    }
    Ok(())
}

/// The places at which the statements of code begin. A loop's statement has a step at each turn, after the first.
fn step_places(alloc: Global, code: &[Instruction]) -> Result<HashMap<u32, usize>, AllocError>
    ensures { IfOk result (λ places. (n : ℕ) →
        unwrap_or (get nat_eq places n) 0 ≡ first_step code.now 0 n 0) }
{
    let mut places = HashMap::new(alloc);
    for (place, instruction) in code.iter().enumerate() {
        note_step(&mut places, *instruction, place)?;
    }
    Ok(places)
}

/// Where a statement begins; 0 if there is none of this number.
fn place_of(places: &HashMap<u32, usize>, statement: u32) -> usize
    ensures { result ≡ unwrap_or (get nat_eq places.now statement) 0 }
{
    places.get(&statement).copied().unwrap_or(0)
}

/// Puts an instruction in the place of another, if there is one.
fn replace(code: &mut Vec<Instruction>, place: usize, instruction: Instruction)
    ensures { code.new.items ≡ slice_set code.old.items place instruction }
{
    if place < code.len() {
        code[place] = instruction;
    }
}

/// Each GOTO leads to the place of its label's statement.
fn land_each(places: &HashMap<u32, usize>, gotos: &[LabelJump], code: &mut Vec<Instruction>)
    ensures { let place = λ (n : ℕ). unwrap_or (get nat_eq places.now n) 0 in
        code.new.items ≡ gotos_landed place code.old.items gotos.now }
{
    for jump in gotos {
        let target = short(place_of(places, jump.label));
        let goto = Instruction::Goto {
            outward: jump.outward,
            target,
        };
        replace(code, jump.place, goto);
    }
}

/// Each GOTO of code leads to where its label's statement begins.
pub(crate) fn land_gotos(
    alloc: Global,
    gotos: &[LabelJump],
    code: &mut Vec<Instruction>,
) -> Result<(), AllocError>
    ensures { let place = λ (n : ℕ). first_step code.old.items 0 n 0 in
        OnOk result (code.new.items ≡ gotos_landed place code.old.items gotos.now) }
{
    if gotos.is_empty() {
        return Ok(());
    }
    let places = step_places(alloc, code.as_slice())?;
    land_each(&places, gotos, code);
    Ok(())
}
