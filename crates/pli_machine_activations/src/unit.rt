//! Units whose code is performed.
ghost use Rattle.std.specs.Prelude.{◌≡◌, Some, map, slice_get};
ghost use Rattle.std.proofs.Props.{props};
ghost use Rattle.pli_code.specs.views.CodeView.{code_view};
ghost use Rattle.pli_machine_activations.specs.answers.LaidTemplates.{AreLaid};

use crate::linked::LinkedGlobal;
use crate::loaded::Loaded;
use pli_code::Member;

/// A unit of a module whose variables are made, with its globals.
#[derive(Clone, Copy)]
pub struct ActiveUnit<'l, 'm> {
    pub loaded: &'l Loaded<'m>,
    pub number: usize,
    pub linked: &'m Member,
    pub globals: &'l [LinkedGlobal<'m>],
    /// What is laid for its templates.
    pub(crate) laid: &'l [Option<Vec<u8>>],
    ghost there: { slice_get loaded.now.«module».now.units.items number ≡ Some linked.now },
    ghost are_laid: { AreLaid (code_view linked.now.deck.code) laid.now } by { Prim.hlevel props },
    ghost table: { slice_get (map (λ t. t.items) loaded.now.globals.items) number ≡ Some globals.now },
}
