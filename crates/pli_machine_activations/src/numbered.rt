//! Units of a module and their globals, by number.
ghost use Rattle.std.specs.Prelude.{◌≡◌, None, Some, map, slice_get, MatchOption};
ghost use Rattle.pli_code.specs.declared.module.Member.{Member};
ghost use Rattle.pli_code.specs.views.CodeView.{code_view};
ghost use Rattle.pli_machine_activations.specs.answers.LaidTemplates.{AreLaid};

use crate::linked::LinkedGlobal;
use crate::loaded::Loaded;
use pli_code::{Member, Module};

/// The unit of a number.
#[inline]
pub fn linked_at(module: &Module, number: usize) -> Option<&Member>
    ensures { MatchOption result (slice_get «module».now.units.items number ≡ None)
        (λ u. slice_get «module».now.units.items number ≡ Some u.now) }
{
    module.units.get(number)
}

/// The globals of the unit of a number.
#[inline]
pub fn table_at<'l, 'm>(loaded: &'l Loaded<'m>, number: usize) -> Option<&'l [LinkedGlobal<'m>]>
    ensures { MatchOption result (slice_get (map (λ t. t.items) loaded.now.globals.items) number ≡ None)
        (λ t. slice_get (map (λ t. t.items) loaded.now.globals.items) number ≡ Some t.now) }
{
    match loaded.globals.get(number) {
        Some(table) => Some(table),
        None => None,
    }
}

/// What is laid for the templates of the unit of a number.
#[inline]
pub fn laid_at<'l>(loaded: &'l Loaded<'_>, number: usize) -> &'l [Option<Vec<u8>>]
    ensures { (u : Member) → slice_get loaded.now.«module».now.units.items number ≡ Some u →
        AreLaid (code_view u.deck.code) result.now }
{
    match loaded.laid.get(number) {
        Some(table) => table,
        None => &[],
    }
}
