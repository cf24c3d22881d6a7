//! Resolved units.
ghost use Rattle.std.specs.Prelude.{◌≡◌, map};
ghost use Rattle.pli_base.specs.views.StatementView.{unit_view};
ghost use Rattle.pli_declare_outline.specs.views.OutlineView.{regions_view};
ghost use Rattle.pli_declare.specs.views.DeclarationView.{declaration_view};
ghost use Rattle.pli_declare.specs.Resolved.{resolved_of, meaning_at};
ghost use Rattle.pli_declare.specs.views.BlockView.{block_view, IsResolvedOf};

use crate::block::{BlockDeclarations, Target};
use crate::declaration::Declaration;
use indexmap::IndexMap;
use pli_base::statement::Procedure;
use pli_declare_outline::Region;
use std::marker::Model;

/// What the names in the attributes of declared names mean, by the tokens of these.
#[derive(Drop)]
pub struct NamedMeanings {
    /// The area that each has in its OFFSET, or in that of its RETURNS.
    pub areas: IndexMap<u32, Target>,
    /// The locator that each has in its BASED.
    pub locators: IndexMap<u32, Target>,
}

/// What the names of a unit mean, by the tokens of these.
#[derive(Drop)]
pub struct UnitMeanings {
    /// What each reference and the label of each GOTO means.
    pub uses: IndexMap<u32, Target>,
    pub named: NamedMeanings,
}

/// A unit whose declarations have no faults: its tree, with what each of its blocks declares and what each name means.
/// Contracts see the tree.
#[derive(Drop)]
pub struct Resolved<'a> {
    unit: &'a Procedure,
    regions: Vec<Region>,
    outermost: Vec<Declaration<'a>>,
    blocks: Vec<BlockDeclarations<'a>>,
    meanings: UnitMeanings,
}

impl<'a> Model for Resolved<'a> {
    ghost use Rattle.pli_base.specs.declared.statement.Procedure.{Procedure};
    ghost use Rattle.pli_base.specs.views.StatementView.{unit_view};
    ghost use Rattle.pli_declare.specs.views.BlockView.{IsResolvedOf};
    ghost use Rattle.pli_base.specs.contracts.statement.Body.TheKnot.{coded-Procedure};

    ghost Value = { Procedure };

    ghost coded = { coded-Procedure };

    ghost view = { λ r. r.unit.now };

    ghost invariant = { λ r. IsResolvedOf (unit_view r.unit.now) r.regions.items r.outermost.items r.blocks.items
        r.meanings.uses r.meanings.named.areas r.meanings.named.locators };
}

impl<'a> Resolved<'a> {
    /// The resolved unit of a tree, of all that the pass that resolves it has found: what blocks declare, and what
    /// names mean.
    pub fn new(
        unit: &'a Procedure,
        regions: Vec<Region>,
        outermost: Vec<Declaration<'a>>,
        blocks: Vec<BlockDeclarations<'a>>,
        meanings: UnitMeanings,
    ) -> Resolved<'a>
        requires { IsResolvedOf (unit_view unit.now) regions.items outermost.items blocks.items meanings.uses
            meanings.named.areas meanings.named.locators }
        ensures { result ≡ unit.now }
    {
        Resolved {
            unit,
            regions,
            outermost,
            blocks,
            meanings,
        }
    }

    /// The tree of the unit.
    pub fn unit(&self) -> &'a Procedure
        ensures { result.now ≡ self.now }
    {
        self.unit
    }

    /// Its regions: procedures, BEGIN blocks, groups and ON-units, in the order in which they begin.
    pub fn regions(&self) -> &[Region]
        ensures { regions_view result.now ≡ (resolved_of (unit_view self.now)).regions }
    {
        &self.regions
    }

    /// What the outermost block declares: the unit's own name.
    pub fn outermost(&self) -> &[Declaration<'a>]
        ensures { map declaration_view result.now ≡ (resolved_of (unit_view self.now)).outermost }
    {
        &self.outermost
    }

    /// For each region what it declares; that of a group or an ON-unit is empty.
    pub fn blocks(&self) -> &[BlockDeclarations<'a>]
        ensures { map block_view result.now ≡ (resolved_of (unit_view self.now)).blocks }
    {
        &self.blocks
    }

    /// What a reference, by the token of its first name, or the label of a GOTO means. Tokens are counted from 0.
    pub fn meaning_at(&self, at: u32) -> Option<Target>
        ensures { result ≡ meaning_at (resolved_of (unit_view self.now)).uses at }
    {
        self.meanings.uses.get(&at).copied()
    }

    /// The area of the OFFSET of the name that is declared at a token, or of that in its RETURNS, if it names one.
    pub fn area_at(&self, at: u32) -> Option<Target>
        ensures { result ≡ meaning_at (resolved_of (unit_view self.now)).areas at }
    {
        self.meanings.named.areas.get(&at).copied()
    }

    /// The locator of the BASED of the name that is declared at a token, if it names one.
    pub fn locator_at(&self, at: u32) -> Option<Target>
        ensures { result ≡ meaning_at (resolved_of (unit_view self.now)).locators at }
    {
        self.meanings.named.locators.get(&at).copied()
    }
}
