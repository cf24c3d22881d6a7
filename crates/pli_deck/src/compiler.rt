//! The compiler.
ghost use Rattle.std.specs.Prelude.{◌≡◌, ◌≤◌, ◌+◌, ◌-◌, ◌^◌, min, length, OnOk, OnErr, IfOk};
ghost use Rattle.pli_deck.specs.Faults.{IsDeckOrFaults};
ghost use Rattle.pli_deck.specs.views.OutcomeView.{outcome_view};
ghost use Rattle.pli_meaning.specs.Scratch.{compiled_texts};

use crate::compiled::Compiled;
use crate::passes::{CompileError, compile_texts};
use pli_base::TokenText;
use std::alloc::{AllocError, Global};
use std::marker::Model;

/// Compiles units, and counts them. Contracts see the count.
#[derive(Drop)]
pub struct Compiler {
    alloc: Global,
    count: u64,
}

impl Model for Compiler {
    ghost use Rattle.std.specs.Prelude.{ℕ};

    ghost Value = { ℕ };

    ghost view = { λ c. c.count };
}

/// What the tokens of a unit are compiled to.
fn outcome_of(alloc: Global, texts: &[TokenText]) -> Result<Compiled, AllocError>
    requires { length texts.now ≤ 200000 }
    ensures { IfOk result (λ compiled. outcome_view compiled ≡ compiled_texts texts.now) }
{
    match compile_texts(alloc, texts) {
        Ok(deck) => Ok(Compiled::whole(alloc, deck)),
        Err(CompileError::Fault(fault)) => {
            Ok(Compiled::faulty(Vec::from_slice(alloc, &[fault])?))
        }
        Err(CompileError::Faults(faults)) => Ok(Compiled::faulty(faults)),
        Err(CompileError::OutOfMemory) => Err(AllocError),
    }
}

impl Compiler {
    /// A compiler that has compiled nothing.
    pub fn new(alloc: Global) -> Compiler
        ensures { result ≡ 0 }
    {
        Compiler { alloc, count: 0 }
    }

    /// How many units were compiled, well or with faults, up to 2^64 - 1, where the count stays.
    pub fn count(&self) -> u64
        ensures { result ≡ self.now }
    {
        self.count
    }

    /// What the tokens of a unit, at most 200,000, are compiled to: its deck, or all faults, one at least, of the first
    /// pass that has any: of reading, of declarations, of types, or of the length of code and of its deck. Nothing else
    /// counts, neither what the unit's member is called nor where its tokens come from. Refused only when out of
    /// memory, and then not counted.
    pub fn compile(&mut self, texts: &[TokenText]) -> Result<Compiled, AllocError>
        requires { length texts.now ≤ 200000 }
        ensures compiled { IfOk result (λ compiled. outcome_view compiled ≡ compiled_texts texts.now) }
        ensures told { IfOk result (λ compiled. IsDeckOrFaults (outcome_view compiled)) }
        ensures counted { OnOk result (self.new ≡ min (self.old + 1) (2 ^ 64 - 1)) }
        ensures refused { OnErr result (self.new ≡ self.old) }
    {
        let compiled = outcome_of(self.alloc, texts)?;
        self.counted();
        Ok(compiled)
    }

    /// One unit more.
    fn counted(&mut self)
        ensures { self.new ≡ min (self.old + 1) (2 ^ 64 - 1) }
    {
        self.count = self.count.saturating_add(1);
    }
}
