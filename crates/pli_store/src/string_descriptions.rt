//! Descriptions of strings of every length.
ghost use Rattle.std.proofs.Props.{props};
ghost use Rattle.pli_map.specs.declared.parameter.StringForm.TheVariants as forms;
ghost use Rattle.pli_store.specs.answers.StringLists.{AreStrings};

use pli_map::Description;

/// Descriptions of strings of every length from 1 to 32,767, the shortest first, of each form that was asked for; of
/// the others none.
#[derive(Drop)]
pub struct StringDescriptions {
    pub(crate) characters: Vec<Description>,
    pub(crate) varying: Vec<Description>,
    pub(crate) bits: Vec<Description>,
    ghost of_characters: { AreStrings forms.Character characters.items } by { Prim.hlevel props },
    ghost of_varying: { AreStrings forms.Varying varying.items } by { Prim.hlevel props },
    ghost of_bits: { AreStrings forms.Bit bits.items } by { Prim.hlevel props },
}
