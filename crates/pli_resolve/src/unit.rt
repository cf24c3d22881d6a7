//! Resolved units as the later passes see them.
ghost use Rattle.std.specs.Prelude.{◌≡◌, ◌++◌, ℕ, [], get_or, length, map, option_map, slice_get, IfOk, OnOk};
ghost use Rattle.pli_base.specs.views.StatementView.{unit_view};
ghost use Rattle.pli_map.specs.views.DescriptionView.{description_view};
ghost use Rattle.pli_declare_outline.specs.Outlines.{outline_of};
ghost use Rattle.pli_declare_outline.specs.views.OutlineView.{outline_view};
ghost use Rattle.pli_declare.specs.Completed.{OfVariable};
ghost use Rattle.pli_declare.specs.views.CompletedView.{variable_view};
ghost use Rattle.pli_declare.specs.Declarations.{OfItem};
ghost use Rattle.pli_declare.specs.views.DeclarationView.{declaration_view};
ghost use Rattle.pli_declare.specs.Resolved.{resolved_of};
ghost use Rattle.pli_declare.specs.views.BlockView.{block_view as declare_view};
ghost use Rattle.pli_declare.specs.Symbols as symbols;
ghost use Rattle.pli_declare.specs.ResolvedUnits.{resolved_unit_of, meaning_at, symbol_at, block_of_statement};
ghost use Rattle.pli_declare.specs.ResolvedUnits.{facts_of, numbers_of, declared_by, declared_meaning};
ghost use Rattle.pli_declare.specs.ResolvedUnits.{outermost_number, region_block, block_of, block_regions_of};
ghost use Rattle.pli_declare.specs.views.SymbolView.{symbol_view, symbol_kind_view};
ghost use Rattle.pli_resolve.specs.views.TableView.{way_view};
ghost use Rattle.pli_resolve.specs.views.UnitView.{AreSymbolsOf, AreTablesOf, IsOutlineOf, resolved_block_view};
ghost use Rattle.pli_resolve.specs.views.UnitView.{rows_view, without_symbols};

use crate::tables::{declaration_at, parameters_at, place_among, start_at, way_at, ways_at};
use crate::unit_tables::UnitTables;
use crate::ways::Way;
use pli_base::Name;
use pli_base::statement::Procedure;
use pli_base::syntax::Identifier;
use pli_declare::{
    BlockDeclarations, BlockRegion, Completed, Declaration, DeclaredKind, DeclaredStorage,
    NameMeaning, Resolved, ResolvedBlockKind, StorageClass, Symbol, SymbolKey, SymbolKind, Target,
    Variable, function_named,
};
use pli_declare_outline::Outline;
use pli_map::Description;
use std::alloc::{AllocError, Global};
use std::marker::Model;

/// A unit whose declarations have no faults: its tree, with what its blocks declare and what each name means. Contracts
/// see the tree.
#[derive(Drop)]
pub struct ResolvedUnit<'a> {
    declared: Resolved<'a>,
    outline: Outline<'a>,
    tables: UnitTables,
    /// What stands for the description of a variable without one; a unit without faults has none such.
    undescribed: Description,
}

impl<'a> Model for ResolvedUnit<'a> {
    ghost use Rattle.pli_base.specs.declared.statement.Procedure.{Procedure};
    ghost use Rattle.pli_base.specs.views.StatementView.{unit_view};
    ghost use Rattle.pli_resolve.specs.views.UnitView.{IsUnitOf};
    ghost use Rattle.pli_base.specs.contracts.statement.Body.TheKnot.{coded-Procedure};

    ghost Value = { Procedure };

    ghost coded = { coded-Procedure };

    ghost view = { λ r. r.declared };

    ghost invariant = { λ r. IsUnitOf (unit_view r.declared) r.outline r.tables r.undescribed };
}

/// A block: a procedure, a BEGIN block or an ON-unit.
#[derive(Clone, Copy)]
pub struct ResolvedBlock<'a> {
    pub kind: ResolvedBlockKind,
    /// The number of the block that it stands in; that of the unit, none.
    pub outer: Option<usize>,
    /// The number of its PROCEDURE, BEGIN or ON.
    pub statement: u32,
    /// The symbol of a procedure's name.
    pub name: Option<SymbolKey>,
    /// The numbers of its parameters among its symbols, each under its slot.
    pub parameters: &'a [usize],
}

impl<'a> ResolvedUnit<'a> {
    /// The resolved unit of what a unit declares, with its outline, and the tables that the pass that resolves it has
    /// made of both.
    pub fn new(declared: Resolved<'a>, outline: Outline<'a>, tables: UnitTables) -> ResolvedUnit<'a>
        requires outline { IsOutlineOf outline (unit_view declared) }
        requires tables { AreTablesOf tables (unit_view declared) }
        ensures { result ≡ declared.entry }
    {
        ResolvedUnit {
            declared,
            outline,
            tables,
            undescribed: Description::Pointer,
        }
    }

    /// The tree of the unit.
    pub fn unit(&self) -> &'a Procedure
        ensures { result.now ≡ self.now }
    {
        self.declared.unit()
    }

    /// Its outline, which is kept from the walk that resolving it began with.
    pub fn outline(&self) -> &Outline<'a>
        ensures { outline_view result.now ≡ outline_of (unit_view self.now) }
    {
        &self.outline
    }

    /// How many blocks it has, the outermost one apart.
    pub fn block_count(&self) -> usize
        ensures { result ≡ length (resolved_unit_of (unit_view self.now)).blocks }
    {
        self.tables.regions.blocks.len()
    }

    /// The number of the block of a region.
    pub(crate) fn number_of(&self, region: usize) -> usize
        ensures { result ≡ get_or (numbers_of (unit_view self.now)) region 0 }
    {
        self.tables
            .regions
            .numbers
            .get(region)
            .copied()
            .unwrap_or(0)
    }

    /// The number of the block of a region, or of the outermost block.
    pub(crate) fn block_under(&self, region: Option<usize>) -> usize
        ensures { result ≡ symbols.block_under (numbers_of (unit_view self.now))
            (outermost_number (unit_view self.now)) region }
    {
        match region {
            Some(region) => self.number_of(region),
            None => self.tables.regions.blocks.len(),
        }
    }

    /// The block in which a statement stands.
    pub fn block_of_statement(&self, statement: u32) -> Option<usize>
        ensures { result ≡ block_of_statement (resolved_unit_of (unit_view self.now)) statement }
    {
        let region = self
            .tables
            .maps
            .statements
            .regions
            .get(&statement)
            .copied()?;
        Some(self.number_of(region))
    }

    /// The name of this number that a region, or the outermost block, declares.
    fn declaration(&self, region: Option<usize>, number: usize) -> Option<&Declaration<'a>>
        ensures { option_map (λ d. declaration_view d.now) result
            ≡ slice_get (declared_by (resolved_of (unit_view self.now)) region) number }
    {
        match region {
            Some(region) => self.declared.blocks().get(region)?.declarations.get(number),
            None => self.declared.outermost().get(number),
        }
    }

    /// What a name means that is declared so.
    fn declared_meaning(&self, region: Option<usize>, number: usize) -> Option<NameMeaning>
        ensures { result ≡ declared_meaning (record {
          block = symbols.block_under (numbers_of (unit_view self.now))
              (outermost_number (unit_view self.now)) region;
          number = number;
        })
            (slice_get (declared_by (resolved_of (unit_view self.now)) region) number) }
    {
        let declaration = self.declaration(region, number)?;
        match &declaration.kind {
            DeclaredKind::Item {
                completed: Completed::BuiltIn,
                ..
            } => {
                let function = function_named(declaration.identifier.name)?;
                Some(NameMeaning::BuiltIn(function))
            }
            DeclaredKind::Item { .. }
            | DeclaredKind::Label { .. }
            | DeclaredKind::Procedure { .. } => {
                let block = self.block_under(region);
                Some(NameMeaning::Symbol(SymbolKey { block, number }))
            }
        }
    }

    /// What the name at a token means where it is used: a reference, by the token of its first name, the name of CALL
    /// or ALLOCATE, or the label of GOTO. Tokens are counted from 0.
    pub fn meaning_at(&self, at: u32) -> Option<NameMeaning>
        ensures { result ≡ meaning_at (resolved_unit_of (unit_view self.now)) at }
    {
        match self.declared.meaning_at(at)? {
            Target::Function => {
                let function = self.tables.maps.callables.functions.get(&at).copied()?;
                Some(NameMeaning::BuiltIn(function))
            }
            Target::Name { block, number } => self.declared_meaning(block, number),
        }
    }

    /// The symbol that is meant, if one is.
    fn key_of(&self, target: Option<Target>) -> Option<SymbolKey>
        ensures { result ≡ symbols.key_of (numbers_of (unit_view self.now))
            (outermost_number (unit_view self.now)) target }
    {
        match target {
            Some(Target::Name { block, number }) => Some(SymbolKey {
                block: self.block_under(block),
                number,
            }),
            Some(Target::Function) | None => None,
        }
    }

    /// The area that the declaration of the name at a token names.
    fn area_of(&self, at: u32) -> Option<SymbolKey>
        ensures { result ≡ symbols.area_of (facts_of (unit_view self.now)) at }
    {
        self.key_of(self.declared.area_at(at))
    }

    /// Where the generations of a variable come from.
    fn class_of(
        &self,
        parameters: &[Name],
        identifier: Identifier,
        storage: Option<DeclaredStorage>,
    ) -> StorageClass
        ensures { result ≡ symbols.class_of storage (symbols.place_among parameters.now identifier.name)
            (symbols.locator_of (facts_of (unit_view self.now)) identifier.at) }
    {
        match storage {
            None => StorageClass::Parameter(place_among(parameters, identifier.name)),
            Some(DeclaredStorage::Automatic) => StorageClass::Automatic,
            Some(DeclaredStorage::Static) => StorageClass::Static,
            Some(DeclaredStorage::Controlled) => StorageClass::Controlled,
            Some(DeclaredStorage::Based) => {
                StorageClass::Based(self.key_of(self.declared.locator_at(identifier.at)))
            }
        }
    }

    /// What a variable is declared as, by the item that it is a member of.
    fn variable<'s>(
        &'s self,
        parameters: &[Name],
        way: &'s Way,
        declaration: &Declaration,
        variable: &'s Variable<'s>,
        description: &'s Option<Description>,
    ) -> SymbolKind<'s>
        ensures { symbol_kind_view result ≡ symbols.symbol_kind (facts_of (unit_view self.now)) parameters.now
            (way_view way.now) declaration.now.identifier declaration.now.owner
            (OfItem (OfVariable (variable_view variable.now)) (option_map description_view description.now)) }
    {
        let identifier = declaration.identifier;
        let owner = declaration.owner;
        let area = self.area_of(identifier.at);
        let initial = variable.initial;
        if owner.is_some() {
            return SymbolKind::Member {
                root: way.root,
                path: way.path.as_slice(),
                initial,
                area,
            };
        }
        let scope = variable.scope;
        match &variable.taken {
            Some(taken) => SymbolKind::OpenParameter {
                taken,
                slot: place_among(parameters, identifier.name),
                area,
            },
            None => SymbolKind::Variable {
                description: description.as_ref().unwrap_or(&self.undescribed),
                class: self.class_of(parameters, identifier, variable.storage),
                scope,
                initial,
                area,
            },
        }
    }

    /// What a name is declared as, by the item that it is a member of.
    fn kind_of<'s>(
        &'s self,
        parameters: &[Name],
        way: &'s Way,
        declaration: &'s Declaration<'s>,
    ) -> SymbolKind<'s>
        ensures { symbol_kind_view result ≡ (symbols.symbol_of (facts_of (unit_view self.now)) parameters.now
            (way_view way.now) (declaration_view declaration.now)).kind }
    {
        let identifier = declaration.identifier;
        match &declaration.kind {
            DeclaredKind::Item {
                completed: Completed::Variable(variable),
                description,
            } => self.variable(parameters, way, declaration, variable, description),
            DeclaredKind::Item {
                completed: Completed::Entry { parameters, result },
                ..
            } => SymbolKind::Entry {
                parameters: parameters.as_slice(),
                returned: result.as_ref(),
                area: self.area_of(identifier.at),
            },
            DeclaredKind::Item {
                completed: Completed::BuiltIn,
                ..
            } => SymbolKind::BuiltIn,
            DeclaredKind::Label { .. } => SymbolKind::Label {
                statement: self
                    .tables
                    .maps
                    .statements
                    .labels
                    .get(&identifier.at)
                    .copied()
                    .unwrap_or(0),
            },
            DeclaredKind::Procedure { returned, region } => SymbolKind::Procedure {
                block: self.number_of(*region),
                returned: returned.as_ref(),
                area: self.area_of(identifier.at),
            },
        }
    }

    /// What a name is, by the item that it is a member of.
    fn symbol_of<'s>(
        &'s self,
        parameters: &[Name],
        way: &'s Way,
        declaration: &'s Declaration<'s>,
    ) -> Symbol<'s>
        ensures { symbol_view result ≡ symbols.symbol_of (facts_of (unit_view self.now)) parameters.now
            (way_view way.now) (declaration_view declaration.now) }
    {
        Symbol {
            identifier: declaration.identifier,
            kind: self.kind_of(parameters, way, declaration),
        }
    }

    /// The symbol of this number among names with their ways.
    #[tactic(auto, using(crate::proofs::SymbolsAt::symbols_at))]
    fn symbol_among<'s>(
        &'s self,
        parameters: &[Name],
        ways: &'s [Way],
        declarations: &'s [Declaration<'s>],
        number: usize,
    ) -> Option<Symbol<'s>>
        ensures { option_map symbol_view result ≡ slice_get (symbols.symbols_with
            (facts_of (unit_view self.now)) parameters.now (map way_view ways.now)
            (map declaration_view declarations.now)) number }
    {
        let Some(way) = way_at(ways, number) else {
            return None;
        };
        let Some(declaration) = declaration_at(declarations, number) else {
            return None;
        };
        Some(self.symbol_of(parameters, way, declaration))
    }

    /// The symbols of names with their ways.
    fn symbols_among<'s>(
        &'s self,
        alloc: Global,
        parameters: &[Name],
        ways: &'s [Way],
        declarations: &'s [Declaration<'s>],
    ) -> Result<Vec<Symbol<'s>>, AllocError>
        ensures { IfOk result (λ made. map symbol_view made.items ≡ symbols.symbols_with
            (facts_of (unit_view self.now)) parameters.now (map way_view ways.now)
            (map declaration_view declarations.now)) }
    {
        let mut made = Vec::with_capacity(alloc, declarations.len())?;
        for (way, declaration) in ways.iter().zip(declarations) {
            if made
                .push(self.symbol_of(parameters, way, declaration))
                .is_err()
            {
                return Err(AllocError);
            }
        }
        Ok(made)
    }

    /// The numbers of the parameters of a region among its symbols.
    #[tactic(auto, using(crate::proofs::TablesAt::parameters_declared))]
    fn parameters_of(&self, region: usize) -> &[usize]
        ensures { result.now ≡ map (symbols.number_declared (region_block (unit_view self.now) region).declarations)
            (region_block (unit_view self.now) region).parameters }
    {
        parameters_at(&self.tables.tables, region)
    }

    /// The ways of the names that a region declares.
    #[tactic(auto, using(crate::proofs::TablesAt::ways_declared))]
    fn ways_of(&self, region: usize) -> &[Way]
        ensures { map way_view result.now ≡ symbols.ways_of (region_block (unit_view self.now) region).declarations }
    {
        ways_at(&self.tables.tables, region)
    }

    /// The block that is a region.
    fn block_of(&self, block: BlockRegion) -> ResolvedBlock<'_>
        ensures { resolved_block_view result ≡ without_symbols (block_of (unit_view self.now) block) }
    {
        let outer = match block.outer {
            Some(outer) => Some(self.number_of(outer)),
            None => None,
        };
        ResolvedBlock {
            kind: block.kind,
            outer,
            statement: start_at(&self.outline.regions, block.region),
            name: self
                .tables
                .maps
                .callables
                .procedures
                .get(&block.region)
                .copied(),
            parameters: self.parameters_of(block.region),
        }
    }

    /// What a region declares.
    fn region_block(&self, region: usize) -> Option<&BlockDeclarations<'a>>
        ensures { option_map (λ b. declare_view b.now) result
            ≡ slice_get (resolved_of (unit_view self.now)).blocks region }
    {
        self.declared.blocks().get(region)
    }

    /// The symbol of this number in a block that is a region.
    #[tactic(auto, using(crate::proofs::TablesAt::declared_there, crate::proofs::TablesAt::declared_nowhere))]
    fn symbol_in(&self, region: usize, number: usize) -> Option<Symbol<'_>>
        ensures { option_map symbol_view result ≡ slice_get (symbols.symbols_of (facts_of (unit_view self.now))
            (region_block (unit_view self.now) region).parameters
            (region_block (unit_view self.now) region).declarations) number }
    {
        let block = self.region_block(region)?;
        let ways = self.ways_of(region);
        self.symbol_among(&block.parameters, ways, &block.declarations, number)
    }

    /// The symbols of a region that is a block.
    #[tactic(auto, using(crate::proofs::TablesAt::declared_there, crate::proofs::TablesAt::declared_nowhere))]
    fn symbols_in(&self, alloc: Global, region: usize) -> Result<Vec<Symbol<'_>>, AllocError>
        ensures { IfOk result (λ made. map symbol_view made.items ≡ symbols.symbols_of
            (facts_of (unit_view self.now)) (region_block (unit_view self.now) region).parameters
            (region_block (unit_view self.now) region).declarations) }
    {
        let Some(block) = self.region_block(region) else {
            return Ok(Vec::new(alloc));
        };
        let ways = self.ways_of(region);
        self.symbols_among(alloc, &block.parameters, ways, &block.declarations)
    }

    /// Puts the symbols of blocks.
    fn put_symbols<'s>(
        &'s self,
        alloc: Global,
        blocks: &[BlockRegion],
        made: &mut Vec<Vec<Symbol<'s>>>,
    ) -> Result<(), AllocError>
        ensures { OnOk result (rows_view made.new.items ≡ rows_view made.old.items
            ++ map (λ b. (block_of (unit_view self.now) b).symbols) blocks.now) }
    {
        for block in blocks {
            made.push(self.symbols_in(alloc, block.region)?)?;
        }
        Ok(())
    }

    /// The symbols of the outermost block.
    fn outermost_symbols(&self, alloc: Global) -> Result<Vec<Symbol<'_>>, AllocError>
        ensures { IfOk result (λ made. map symbol_view made.items
            ≡ (resolved_unit_of (unit_view self.now)).outermost) }
    {
        let declarations = self.declared.outermost();
        self.symbols_among(alloc, &[], &self.tables.ways, declarations)
    }

    /// The symbols of each block, under its number, and after them those of the outermost one, each in the order of the
    /// text. Takes time for all of them.
    pub fn symbols(&self, alloc: Global) -> Result<Vec<Vec<Symbol<'_>>>, AllocError>
        ensures { IfOk result (λ made. AreSymbolsOf made.items (unit_view self.now)) }
    {
        let blocks = self.tables.regions.blocks.as_slice();
        let mut made = Vec::with_capacity(alloc, blocks.len() + 1)?;
        self.put_symbols(alloc, blocks, &mut made)?;
        made.push(self.outermost_symbols(alloc)?)?;
        Ok(made)
    }

    /// The region that is the block of this number.
    fn region_at(&self, number: usize) -> Option<&BlockRegion>
        ensures { option_map (λ b. b.now) result ≡ slice_get (block_regions_of (unit_view self.now)) number }
    {
        self.tables.regions.blocks.get(number)
    }

    /// The symbol under a key.
    #[tactic(auto, using(crate::proofs::SymbolsAt::symbol_inside, crate::proofs::SymbolsAt::symbol_outside, crate::proofs::SymbolsAt::symbol_beyond))]
    pub fn symbol(&self, key: SymbolKey) -> Option<Symbol<'_>>
        ensures { option_map symbol_view result ≡ symbol_at (resolved_unit_of (unit_view self.now)) key }
    {
        if let Some(block) = self.region_at(key.block) {
            return self.symbol_in(block.region, key.number);
        }
        if key.block != self.tables.regions.blocks.len() {
            return None;
        }
        let declarations = self.declared.outermost();
        self.symbol_among(&[], &self.tables.ways, declarations, key.number)
    }

    /// The block of this number.
    pub fn block(&self, number: usize) -> Option<ResolvedBlock<'_>>
        ensures { option_map resolved_block_view result ≡ option_map without_symbols
            (slice_get (resolved_unit_of (unit_view self.now)).blocks number) }
    {
        let block = self.tables.regions.blocks.get(number)?;
        Some(self.block_of(*block))
    }
}
