//! What names mean where types are asked for.
ghost use Rattle.std.specs.Prelude.{◌≡◌, [], slice_get, IfOk, OnErr, OnOk};
ghost use Rattle.pli_resolve.specs.views.UnitView.{AreSymbolsOf};
ghost use Rattle.pli_type_rules.specs.NamedUnits.{declared_as, names_based};
ghost use Rattle.pli_type_rules.specs.Names as plain;
ghost use Rattle.pli_base.specs.views.StatementView.{unit_view};
ghost use Rattle.pli_map.specs.Description as described;
ghost use Rattle.pli_map.specs.views.DescriptionView.{description_view};
ghost use Rattle.pli_declare.specs.ResolvedUnits.{resolved_unit_of};
ghost use Rattle.pli_type_names.specs.SymbolMeaning.{IsMeantAs, IsProcedure};
ghost use Rattle.pli_type_names.specs.Seen.{seen};
ghost use Rattle.pli_type_names.specs.UnitNaming.{based_in, inside, naming_in, outside, procedure_in};
ghost use Rattle.pli_type_names.specs.views.MeaningView.{answer_view};

use crate::around::block_outward;
use crate::descriptions::GREATEST;
use crate::entries::{BlockEntry, area_at, block_entries, parameters_at, returned_at};
use crate::meanings::{SymbolMeaning, unit_meanings};
use crate::part::StridedPart;
use crate::seen::{area_under, symbol_seen};
use crate::storage::NamedStorage;
use pli_base::statement::Procedure;
use pli_declare::{BuiltInFunction, NameMeaning, Symbol, SymbolKey};
use pli_map::{Description, TypeRef};
use pli_resolve::ResolvedUnit;
use pli_type_rules::Beginning;
use pli_type_tree::Callee;
use std::alloc::{AllocError, Global};
use std::marker::Model;

/// A variable of its own, or a member of one.
#[derive(Clone, Copy)]
pub struct NamedVariable<'n, 'a> {
    /// Where the variable's storage is, from where the name is used.
    pub storage: NamedStorage,
    /// What the whole variable is, which is open where a `*` stands in a parameter.
    pub whole: TypeRef<'a>,
    /// Whether it is a member, and not a variable of its own.
    pub is_member: bool,
    /// Which part of the variable it is; none where the way leads nowhere, and of what is open.
    pub part: &'n Option<StridedPart<'a>>,
    /// The area that OFFSET in its declaration names, seen from where the name is used.
    pub area: Option<Beginning>,
}

/// A procedure.
#[derive(Clone, Copy)]
pub struct NamedProcedure<'n, 'a> {
    /// What a call of it calls.
    pub callee: Callee,
    /// What its parameters are, each under its slot.
    pub parameters: &'n [TypeRef<'a>],
    /// What it gives, if it is a function.
    pub returned: Option<&'a Description>,
    /// The area that OFFSET in its RETURNS names, seen from where the name is used.
    pub area: Option<Beginning>,
}

/// What a name means where it is used.
#[derive(Clone, Copy)]
pub enum NamedAs<'n, 'a> {
    Variable(NamedVariable<'n, 'a>),
    Function(BuiltInFunction),
    Procedure(NamedProcedure<'n, 'a>),
    /// The label of the statement of this number.
    Label(u32),
    /// What has no type.
    Untyped,
}

/// What the names of a unit mean where some of its blocks stand around. Contracts see the tree of the unit and the
/// numbers of the blocks around, the innermost first.
#[derive(Drop)]
pub struct Naming<'a> {
    resolved: &'a ResolvedUnit<'a>,
    /// What each symbol of each block means, under the block's number.
    meanings: Vec<Vec<SymbolMeaning<'a>>>,
    /// What is found once for each block, under its number.
    entries: Vec<BlockEntry<'a>>,
    /// The parameters of what is no block.
    no_parameters: Vec<TypeRef<'a>>,
    /// The blocks around, the innermost last.
    around: Vec<usize>,
}

impl<'a> Model for Naming<'a> {
    ghost use Rattle.std.specs.Prelude.{◌≡◌, length, reverse};
    ghost use Rattle.pli_type_names.specs.UnitNaming.{Names, names_code};

    ghost Value = { Names };

    ghost coded = { names_code };

    ghost use Rattle.pli_type_names.specs.views.EntryView.{AreEntries};
    ghost use Rattle.pli_type_names.specs.views.MeaningView.{AreMeanings};

    ghost view = { λ n. record { unit = n.resolved.now; blocks = reverse n.around.items } };

    ghost invariant = { λ n. AreMeanings n.meanings.items n.resolved.now × AreEntries n.entries.items n.resolved.now
        × (length n.no_parameters.items ≡ 0) };
}

/// What the names of a resolved unit with these symbols mean, outside of all its blocks. What is undescribed, a pointer,
/// stands for a parameter that is no variable, of which a unit without faults has none. Takes time for the symbols.
pub fn name_unit<'a>(
    alloc: Global,
    resolved: &'a ResolvedUnit<'a>,
    symbols: &[Vec<Symbol<'a>>],
    undescribed: &'a Description,
) -> Result<Naming<'a>, AllocError>
    requires symbols { AreSymbolsOf symbols.now (unit_view resolved.now) }
    requires undescribed { description_view undescribed.now ≡ described.Pointer }
    ensures { IfOk result (λ naming. naming ≡ record { unit = resolved.now; blocks = [] }) }
{
    let meanings = unit_meanings(alloc, resolved, symbols)?;
    let entries = block_entries(alloc, resolved, undescribed)?;
    Ok(Naming {
        resolved,
        meanings,
        entries,
        no_parameters: Vec::new(alloc),
        around: Vec::new(alloc),
    })
}

/// Whether a name that means this is that of a BASED variable, and of no member.
#[tactic(auto, using(crate::proofs::BasedNames::variable_based, crate::proofs::BasedNames::function_based, crate::proofs::BasedNames::procedure_based, crate::proofs::BasedNames::label_based, crate::proofs::BasedNames::untyped_based))]
fn names_based(meant: NamedAs<'_, '_>) -> bool
    ensures { (m : plain.NamedAs) → IsMeantAs meant.entry m → result ≡ names_based m }
{
    match meant {
        NamedAs::Variable(variable) => !variable.is_member && variable.storage.is_based(),
        NamedAs::Function(_) | NamedAs::Procedure(_) | NamedAs::Label(_) | NamedAs::Untyped =>
            false,
    }
}

impl<'a> Naming<'a> {
    /// How many binary digits numbers have at most.
    pub fn greatest(&self) -> u8
        ensures { result ≡ 63 }
    {
        GREATEST
    }

    /// The tree of the unit.
    pub fn unit(&self) -> &'a Procedure
        ensures { result.now ≡ self.now.unit }
    {
        self.resolved.unit()
    }

    /// Goes into the block of this number, which stands around from then on. Want of memory leaves the blocks as they
    /// are.
    pub fn enter(&mut self, block: usize) -> Result<(), AllocError>
        ensures entered { OnOk result (self.new ≡ inside self.old block) }
        ensures kept { OnErr result (self.new ≡ self.old) }
    {
        self.around.push(block)?;
        Ok(())
    }

    /// Leaves the innermost block.
    pub fn leave(&mut self)
        ensures { self.new ≡ outside self.old }
    {
        let _block = self.around.pop();
    }

    /// The number of the block so many static links outward, if one stands there.
    pub fn enclosing(&self, links: usize) -> Option<usize>
        ensures { result ≡ slice_get self.now.blocks links }
    {
        block_outward(&self.around, links)
    }

    /// The block of this number as a procedure: what its parameters are, and what it gives, seen from here; nothing of
    /// what is no procedure.
    pub fn procedure(&self, block: usize) -> NamedProcedure<'_, 'a>
        ensures { IsProcedure result (procedure_in self.now block) }
    {
        NamedProcedure {
            callee: Callee::OfBlock { block },
            parameters: parameters_at(&self.entries, &self.no_parameters, block),
            returned: returned_at(&self.entries, block),
            area: self.returned_area(block),
        }
    }

    /// The area that OFFSET names in the RETURNS of the function that is the block of this number, seen from here; none
    /// where it names none.
    pub fn returned_area(&self, block: usize) -> Option<Beginning>
        ensures { result ≡ (naming_in self.now).returned_area block }
    {
        area_under(&self.around, &self.meanings, area_at(&self.entries, block))
    }

    /// Whether the name at a token means a BASED variable, and no member of one. Tokens are counted from 0.
    #[tactic(auto, using(crate::proofs::BasedNames::based_here))]
    pub fn is_based(&self, at: u32) -> bool
        ensures { result ≡ based_in self.now at }
    {
        names_based(self.meaning(at))
    }

    /// What the symbol under a key means here.
    fn declared(&self, key: SymbolKey) -> NamedAs<'_, 'a>
        ensures { answer_view result ≡ seen (declared_as 63 (resolved_unit_of (unit_view self.now.unit)) self.now.blocks
            key) }
    {
        symbol_seen(&self.around, &self.entries, &self.meanings, key)
    }

    /// What the name at a token means here: the first name of each reference between arrows, the name in CALL, and the
    /// label in GOTO. Tokens are counted from 0.
    pub fn meaning(&self, at: u32) -> NamedAs<'_, 'a>
        ensures { IsMeantAs result ((naming_in self.now).meaning at) }
    {
        match self.resolved.meaning_at(at) {
            None => NamedAs::Untyped,
            Some(NameMeaning::BuiltIn(function)) => NamedAs::Function(function),
            Some(NameMeaning::Symbol(key)) => self.declared(key),
        }
    }
}
