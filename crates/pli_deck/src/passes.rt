//! The passes of the compiler over the tokens of a unit.
ghost use Rattle.std.specs.Prelude.{◌≡◌, ◌≤◌, length};
ghost use Rattle.pli_base.specs.views.StatementView.{unit_view};
ghost use Rattle.pli_code.specs.views.CodeView.{deck_view};
ghost use Rattle.pli_declare.specs.ResolvedUnits.{resolved_unit_of};
ghost use Rattle.pli_type_rules.specs.NamedUnits.{checked_unit};
ghost use Rattle.pli_declare.specs.Resolution.{resolution_faults};
ghost use Rattle.pli_type_tree.specs.views.TypedView as typed;
ghost use Rattle.pli_meaning.specs.Scratch.{coded, compiled_texts, short_deck, typed_unless};
ghost use Rattle.pli_meaning.specs.MemberParts.{coded_from};
ghost use Rattle.pli_deck.specs.answers.Outcomes.{Compiles, of_fault, of_faults, of_generating};
ghost use Rattle.pli_deck.specs.declared.passes.CompileError.TheVariants.{OutOfMemory};
ghost use Rattle.pli_gen.specs.declared.generating.GenerateError.TheVariants.{TooLong};

use crate::spelled::SpelledDeck;
use pli_base::{Code, Failure, Fault, TokenText, Unit};
use pli_code::{Deck, Version};
use pli_gen::{GenerateError, generate};
use pli_parse::parse;
use pli_resolve::ResolvedUnit;
use pli_resolve_unit::resolve_unit;
use pli_type_statement::check;
use pli_type_tree::TypedUnit;
use std::alloc::{AllocError, Global};

/// Why the tokens of a unit are not compiled.
#[derive(Drop)]
pub(crate) enum CompileError {
    /// The one fault of a pass.
    Fault(Fault),
    /// All faults of the declarations and uses of names, or of types, in the order of their tokens.
    Faults(Vec<Fault>),
    OutOfMemory,
}

/// G1, at the first token.
fn too_long() -> CompileError
    ensures { result ≡ of_generating TooLong }
{
    CompileError::Fault(Fault {
        code: Code::CodeTooLong,
        at: 0,
    })
}

impl From<AllocError> for CompileError {
    ghost from_gives = { λ _ e. e ≡ OutOfMemory };

    fn from(_error: AllocError) -> CompileError {
        CompileError::OutOfMemory
    }
}

impl From<Failure<Fault>> for CompileError {
    ghost from_gives = { λ error e. e ≡ of_fault error };

    fn from(error: Failure<Fault>) -> CompileError {
        match error {
            Failure::Fault(fault) => CompileError::Fault(fault),
            Failure::OutOfMemory => CompileError::OutOfMemory,
        }
    }
}

impl From<Failure<Vec<Fault>>> for CompileError {
    ghost from_gives = { λ error e. e ≡ of_faults error };

    fn from(error: Failure<Vec<Fault>>) -> CompileError {
        match error {
            Failure::Fault(faults) => CompileError::Faults(faults),
            Failure::OutOfMemory => CompileError::OutOfMemory,
        }
    }
}

impl From<GenerateError> for CompileError {
    ghost from_gives = { λ error e. e ≡ of_generating error };

    fn from(error: GenerateError) -> CompileError {
        match error {
            GenerateError::TooLong => too_long(),
            GenerateError::OutOfMemory => CompileError::OutOfMemory,
        }
    }
}

/// A deck with its bytes, or that they are too many.
fn with_bytes(alloc: Global, deck: Deck) -> Result<SpelledDeck, CompileError>
    ensures { Compiles result (short_deck (deck_view deck)) }
{
    let spelled = SpelledDeck::new(alloc, deck)?;
    if spelled.is_long() {
        drop(spelled);
        return Err(too_long());
    }
    Ok(spelled)
}

/// A typed unit, compiled, or that its code or its deck is too long.
#[tactic(auto, using(crate::proofs::TypedCompiled::long_decides))]
fn compile_typed(alloc: Global, unit: &TypedUnit) -> Result<SpelledDeck, CompileError>
    ensures { Compiles result (coded (typed.unit_view unit.now)) }
{
    let code = generate(alloc, unit)?;
    with_bytes(
        alloc,
        Deck {
            version: Version::WRITTEN,
            name: unit.procedure,
            is_main: unit.is_main,
            code,
        },
    )
}

/// A unit without faults of declarations, compiled, or its faults of types, or that its code or its deck is too long.
fn compile_resolved(alloc: Global, resolved: &ResolvedUnit<'_>) -> Result<SpelledDeck, CompileError>
    ensures { Compiles result (coded_from (checked_unit (resolved_unit_of (unit_view resolved.now)))) }
{
    let unit = check(alloc, resolved)?;
    let compiled = compile_typed(alloc, &unit);
    drop(unit);
    compiled
}

/// A unit's tree, compiled, or the faults of the first pass after reading that has any.
fn compile_tree(alloc: Global, tree: &Unit) -> Result<SpelledDeck, CompileError>
    ensures { let unit = unit_view tree.now in
        Compiles result (coded_from (typed_unless (resolution_faults unit) unit)) }
{
    let resolved = resolve_unit(alloc, tree)?;
    let compiled = compile_resolved(alloc, &resolved);
    drop(resolved);
    compiled
}

/// The tokens of a unit, compiled, or the faults of the first pass that has any.
pub(crate) fn compile_texts(alloc: Global, texts: &[TokenText]) -> Result<SpelledDeck, CompileError>
    requires { length texts.now ≤ 200000 }
    ensures { Compiles result (compiled_texts texts.now) }
{
    let tree = parse(alloc, texts)?;
    let compiled = compile_tree(alloc, &tree);
    drop(tree);
    compiled
}
