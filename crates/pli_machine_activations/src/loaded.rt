//! Modules whose programs may begin.
ghost use Rattle.std.specs.Prelude.{map};
ghost use Rattle.std.proofs.Props.{props};
ghost use Rattle.pli_code.specs.views.CodeView.{module_view};
ghost use Rattle.pli_machine_activations.specs.answers.LaidTemplates.{UnitsLaid};
ghost use Rattle.pli_machine_activations.specs.answers.Served.{AllServed};
ghost use Rattle.pli_machine_activations.specs.views.TableView.{AreLinked};

use crate::linked::LinkedGlobal;
use pli_code::Module;
use pli_store::StringDescriptions;

/// A module whose variables are made that are there before its program begins.
#[derive(Drop)]
pub struct Loaded<'m> {
    pub module: &'m Module,
    /// For each unit, its globals by number.
    pub globals: Vec<Vec<LinkedGlobal<'m>>>,
    /// For each unit, what is laid for its templates.
    pub laid: Vec<Vec<Option<Vec<u8>>>>,
    /// What dummy arguments have that are as long as their strings.
    pub strings: &'m StringDescriptions,
    ghost are_laid: { UnitsLaid «module».now.units.items laid.items } by { Prim.hlevel props },
    ghost served: { AllServed «module».now.units.items strings.now } by { Prim.hlevel props },
    ghost linked: { AreLinked (module_view «module».now).units (map (λ t. t.items) globals.items) },
}
