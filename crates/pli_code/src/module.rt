//! Modules: the decks of units, and what their external names stand for.
ghost use Rattle.std.specs.Prelude.{◌≡◌, map, IfOk};
ghost use Rattle.pli_code.specs.views.CodeView.{lent_member_view, lent_module_view, member_view, module_view};

use crate::code::Deck;
use crate::version::Version;
use pli_base::Name;
use pli_program::VariableKind;
use std::alloc::{AllocError, Global};

/// A variable that units share, with the unit and the global of its first declaration.
#[derive(Clone, Copy)]
pub struct External {
    pub name: Name,
    pub kind: VariableKind,
    pub unit: u16,
    pub global: u16,
}

/// A unit of a module: its member's name, its deck, and what each of its external globals stands for, in their order:
/// the number of an external or, for an entry, of the unit that has its procedure. Both are counted from 0.
#[derive(Drop)]
pub struct Member {
    pub name: Name,
    pub deck: Deck,
    pub links: Vec<u16>,
}

/// A module: its version, which its decks have too; the number of the unit whose external procedure is the main one,
/// counted from 0; the externals in the order of their names; and from 1 to 999 units.
#[derive(Drop)]
pub struct Module {
    pub version: Version,
    pub main: u16,
    pub externals: Vec<External>,
    pub units: Vec<Member>,
}

/// A unit of a module, its deck lent.
#[derive(Drop)]
pub struct LentMember<'a> {
    pub name: Name,
    pub deck: &'a Deck,
    pub links: Vec<u16>,
}

/// A module whose units' decks are lent.
#[derive(Drop)]
pub struct LentModule<'a> {
    pub version: Version,
    pub main: u16,
    pub externals: Vec<External>,
    pub units: Vec<LentMember<'a>>,
}

/// Units, their decks lent.
fn lent_members<'a>(alloc: Global, units: &'a [Member]) -> Result<Vec<LentMember<'a>>, AllocError>
    ensures { IfOk result (λ lent. map lent_member_view lent.items ≡ map member_view units.now) }
{
    let mut lent = Vec::with_capacity(alloc, units.len())?;
    for unit in units {
        lent.push(LentMember {
            name: unit.name,
            deck: &unit.deck,
            links: Vec::from_slice(alloc, &unit.links)?,
        })?;
    }
    Ok(lent)
}

impl Module {
    /// The module, its units' decks lent. Takes time in proportion to the externals, the units and their links. An
    /// error comes where memory runs out.
    pub fn lent(&self, alloc: Global) -> Result<LentModule<'_>, AllocError>
        ensures { IfOk result (λ lent. lent_module_view lent ≡ module_view self.now) }
    {
        Ok(LentModule {
            version: self.version,
            main: self.main,
            externals: Vec::from_slice(alloc, &self.externals)?,
            units: lent_members(alloc, &self.units)?,
        })
    }
}
