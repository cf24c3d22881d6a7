//! Code whose blocks are entered.
ghost use Rattle.std.proofs.Props.{props};
ghost use Rattle.pli_code.specs.views.CodeView.{code_view};
ghost use Rattle.pli_machine_activations.specs.answers.LaidTemplates.{AreLaid};

use pli_code::Code;

/// A unit's code, with what is laid for its templates.
#[derive(Clone, Copy)]
pub struct ReadyCode<'l, 'm> {
    pub code: &'m Code,
    /// For each template, by its number, the bytes with which its variables begin, where they are laid.
    pub laid: &'l [Option<Vec<u8>>],
    ghost are_laid: { AreLaid (code_view code.now) laid.now } by { Prim.hlevel props },
}
