//! Static globals of units.
ghost use Rattle.std.specs.Prelude.{◌≡◌, ◌<◌, ◌∷◌, ◌++◌, ℕ, List, [], None, Some, map, drop, get_or, length};
ghost use Rattle.std.specs.Prelude.{option_map, OnOk};
ghost use Rattle.pli_base.specs.Name.{Name};
ghost use Rattle.pli_map.specs.views.DescriptionView.{description_view};
ghost use Rattle.pli_type_tree.specs.Templates.{variable_of};
ghost use Rattle.pli_type_tree.specs.views.TemplateView.{initial_view};
ghost use Rattle.pli_program.specs.declared.kind.VariableKind.TheVariants.{Static as StaticKind, Controlled};
ghost use Rattle.pli_world.specs.World as plain;
ghost use Rattle.pli_world.specs.World.{Static};
ghost use Rattle.pli_code.specs.CodeTables as tables;
ghost use Rattle.pli_code.specs.CodeTables.{globals_linked, there, variable_at};
ghost use Rattle.pli_code.specs.Modules.{unit_of};
ghost use Rattle.pli_code.specs.views.CodeView.{code_view, global_view, member_view};
ghost use Rattle.pli_machine_loading.specs.answers.MadeGlobals.{MadeAs, Placed, PlacedKnown, IsNoted, LinkTaken};
ghost use Rattle.pli_machine_loading.specs.answers.MadeGlobals.{AreKnown, global_of, as_global, NextLinked, Links};
ghost use Rattle.pli_machine_loading.specs.answers.MadeGlobals.{LinksUnit, LinksAll};

use crate::shared::Shared;
use crate::standing::Standing;
use pli_code::{Code, CodedGlobal, Member, Module};
use pli_machine_activations::{LinkedGlobal, template_of};
use pli_map::Description;
use pli_program::VariableKind;
use pli_stacks::make_initial;
use pli_store::{Made, StoreFault};
use pli_type_tree::InitialScalar;
use std::alloc::{AllocError, Global};

/// Makes a variable of one generation.
fn make_static<'m>(
    alloc: Global,
    shared: &mut Shared<'m>,
    description: &'m Description,
    scalars: &'m [InitialScalar],
) -> Result<Standing<'m>, StoreFault>
    ensures made { (statics : List Static) → MadeAs StaticKind
        (variable_of (record {
          description = description_view description.now;
          initial = map initial_view scalars.now;
        })) shared.old shared.new statics result }
    ensures same { shared.new.externals ≡ shared.old.externals }
{
    match make_initial(
        alloc,
        &mut shared.storage,
        description,
        Made::Static,
        scalars,
        None,
    ) {
        Ok(place) => Ok(Standing::Lies(place)),
        Err(fault) => Err(fault),
    }
}

/// Makes a CONTROLLED variable, which has no generation yet.
fn make_stack<'m>(
    alloc: Global,
    shared: &mut Shared<'m>,
    description: &'m Description,
    scalars: &'m [InitialScalar],
) -> Result<Standing<'m>, StoreFault>
    ensures made { (statics : List Static) → MadeAs Controlled
        (variable_of (record {
          description = description_view description.now;
          initial = map initial_view scalars.now;
        })) shared.old shared.new statics result }
    ensures same { shared.new.externals ≡ shared.old.externals }
{
    let stack = shared.stacks.add(alloc, description, scalars)?;
    Ok(Standing::Stacked(stack))
}

/// Makes a variable, as its generations come.
fn make_kind<'m>(
    alloc: Global,
    shared: &mut Shared<'m>,
    kind: VariableKind,
    description: &'m Description,
    scalars: &'m [InitialScalar],
) -> Result<Standing<'m>, StoreFault>
    ensures made { (statics : List Static) → MadeAs kind
        (variable_of (record {
          description = description_view description.now;
          initial = map initial_view scalars.now;
        })) shared.old shared.new statics result }
    ensures same { shared.new.externals ≡ shared.old.externals }
{
    match kind {
        VariableKind::Static => make_static(alloc, shared, description, scalars),
        VariableKind::Controlled => make_stack(alloc, shared, description, scalars),
    }
}

/// Makes the variable of a template's number; where the tables have no such template, there is no variable.
fn make_variable<'m>(
    alloc: Global,
    code: &'m Code,
    shared: &mut Shared<'m>,
    kind: VariableKind,
    template: u16,
) -> Result<Option<Standing<'m>>, StoreFault>
    ensures placed { (statics : List Static) →
        Placed kind (variable_at (code_view code.now) template) None shared.old shared.new statics result }
    ensures same { shared.new.externals ≡ shared.old.externals }
{
    match template_of(code, template) {
        Some((description, scalars)) => {
            match make_kind(alloc, shared, kind, description, scalars) {
                Ok(standing) => Ok(Some(standing)),
                Err(fault) => Err(fault),
            }
        }
        None => Ok(None),
    }
}

/// Where the external variable of a number stands, if it was made already.
fn known_standing<'m>(externals: &[Option<Standing<'m>>], number: u16) -> Option<Standing<'m>>
    ensures { result ≡ get_or externals.now number None }
{
    match externals.get(number as usize) {
        Some(standing) => *standing,
        None => None,
    }
}

/// Makes the list long enough for a number, with nothing noted there.
fn make_room(externals: &mut Vec<Option<Standing>>, number: u16) -> Result<(), AllocError>
    ensures room { OnOk result (number < length externals.new.items) }
    ensures same { OnOk result ((other : ℕ) → get_or externals.new.items other None
        ≡ get_or externals.old.items other None) }
{
    for _count in externals.len()..number as usize + 1 {
        externals.push(None)?;
    }
    Ok(())
}

/// Notes where the external variable of a number stands.
fn note_external<'m>(
    externals: &mut Vec<Option<Standing<'m>>>,
    number: u16,
    standing: Standing<'m>,
) -> Result<(), AllocError>
    ensures { OnOk result (IsNoted number standing.entry externals.old.items externals.new.items) }
{
    make_room(externals, number)?;
    externals[number as usize] = Some(standing);
    Ok(())
}

/// Makes the external variable of a number, where none was made before.
fn make_external<'m>(
    alloc: Global,
    code: &'m Code,
    shared: &mut Shared<'m>,
    number: u16,
    kind: VariableKind,
    template: u16,
) -> Result<Option<Standing<'m>>, StoreFault>
    requires { get_or shared.old.externals.items number None ≡ None }
    ensures { (statics : List Static) (externals : List (ℕ × plain.Standing)) → AreKnown shared.old externals →
        PlacedKnown kind (variable_at (code_view code.now) template)
        (Some number) shared.old shared.new statics externals result }
{
    match make_variable(alloc, code, shared, kind, template) {
        Ok(Some(standing)) => {
            note_external(&mut shared.externals, number, standing)?;
            Ok(Some(standing))
        }
        Ok(None) => Ok(None),
        Err(fault) => Err(fault),
    }
}

/// Where a variable stands that was made already, if the tables have the template of this number.
fn again<'m>(code: &Code, standing: Standing<'m>, template: u16) -> Option<Standing<'m>>
    ensures { result ≡ option_map (λ _. standing.entry) (variable_at (code_view code.now) template) }
{
    match template_of(code, template) {
        Some(_) => Some(standing),
        None => None,
    }
}

/// Where the external variable of a number stands: the first unit that has it makes it.
fn place_external<'m>(
    alloc: Global,
    code: &'m Code,
    shared: &mut Shared<'m>,
    number: u16,
    kind: VariableKind,
    template: u16,
) -> Result<Option<Standing<'m>>, StoreFault>
    ensures { (statics : List Static) (externals : List (ℕ × plain.Standing)) → AreKnown shared.old externals →
        PlacedKnown kind (variable_at (code_view code.now) template)
        (Some number) shared.old shared.new statics externals result }
{
    match known_standing(&shared.externals, number) {
        Some(standing) => Ok(again(code, standing, template)),
        None => make_external(alloc, code, shared, number, kind, template),
    }
}

/// A variable that stands so as a global.
fn global_of<'m>(standing: Standing<'m>) -> LinkedGlobal<'m>
    ensures { result ≡ global_of standing.entry }
{
    match standing {
        Standing::Lies(place) => LinkedGlobal::Variable(place),
        Standing::Stacked(stack) => LinkedGlobal::ControlledVariable(stack),
    }
}

/// A variable that stands so, if there is one, as a global.
fn as_global<'m>(
    placed: Result<Option<Standing<'m>>, StoreFault>,
) -> Result<Option<LinkedGlobal<'m>>, StoreFault>
    ensures { result ≡ as_global placed.entry }
{
    match placed {
        Ok(Some(standing)) => Ok(Some(global_of(standing))),
        Ok(None) => Ok(None),
        Err(fault) => Err(fault),
    }
}

/// Makes a variable of a unit's own.
fn link_own<'m>(
    alloc: Global,
    code: &'m Code,
    shared: &mut Shared<'m>,
    kind: VariableKind,
    template: u16,
) -> Result<Option<LinkedGlobal<'m>>, StoreFault>
    ensures { (more : List tables.CodedGlobal) (links : List ℕ) (unit number : ℕ) (statics : List Static)
        (externals : List (ℕ × plain.Standing))
        → AreKnown shared.old externals → Links unit number statics externals
        (globals_linked (code_view code.now) (tables.OwnVariable kind template ∷ more) links)
        (globals_linked (code_view code.now) more links)
        shared.old shared.new result }
{
    as_global(make_variable(alloc, code, shared, kind, template))
}

/// Makes the external variable of a number, unless it was made before.
fn link_external<'m>(
    alloc: Global,
    code: &'m Code,
    shared: &mut Shared<'m>,
    external: u16,
    kind: VariableKind,
    template: u16,
) -> Result<Option<LinkedGlobal<'m>>, StoreFault>
    ensures { (name : Name) (more : List tables.CodedGlobal) (links : List ℕ) (unit number : ℕ) (statics : List Static)
        (externals : List (ℕ × plain.Standing))
        → AreKnown shared.old externals → Links unit number statics externals
        (globals_linked (code_view code.now) (tables.ExternalVariable name kind template ∷ more) (external ∷ links))
        (globals_linked (code_view code.now) more links) shared.old shared.new result }
{
    as_global(place_external(alloc, code, shared, external, kind, template))
}

/// The next link, if there is one.
fn next_link(links: &[u16], taken: &mut usize) -> Option<u16>
    ensures { LinkTaken links.now taken.old taken.new result }
{
    match links.get(*taken) {
        Some(link) => {
            *taken += 1;
            Some(*link)
        }
        None => None,
    }
}

/// Makes the external variable that the next link stands for, if there is one.
fn link_next<'m>(
    alloc: Global,
    unit: &'m Member,
    shared: &mut Shared<'m>,
    taken: &mut usize,
    kind: VariableKind,
    template: u16,
) -> Result<Option<LinkedGlobal<'m>>, StoreFault>
    ensures { (name : Name) (more : List tables.CodedGlobal) (own number : ℕ) (statics : List Static)
        (externals : List (ℕ × plain.Standing))
        → AreKnown shared.old externals → Links own number statics externals
        (globals_linked (code_view unit.now.deck.code) (tables.ExternalVariable name kind template ∷ more)
        (drop taken.old unit.now.links.items))
        (globals_linked (code_view unit.now.deck.code) more (drop taken.new unit.now.links.items)) shared.old
        shared.new result }
{
    match next_link(&unit.links, taken) {
        Some(external) => link_external(alloc, &unit.deck.code, shared, external, kind, template),
        None => Ok(None),
    }
}

/// The entry of the unit that the next link stands for, if there is one.
fn link_entry<'m>(unit: &Member, shared: &Shared, taken: &mut usize) -> Option<LinkedGlobal<'m>>
    ensures { (name : Name) (signature : tables.CodedSignature) (more : List tables.CodedGlobal) (own number : ℕ)
        (statics : List Static)
        (externals : List (ℕ × plain.Standing)) → AreKnown shared.now externals →
        NextLinked own number statics externals
        (globals_linked (code_view unit.now.deck.code) (tables.EntryPoint name signature ∷ more)
        (drop taken.old unit.now.links.items))
        (globals_linked (code_view unit.now.deck.code) more (drop taken.new unit.now.links.items)) shared.now
        shared.now result }
{
    match next_link(&unit.links, taken) {
        Some(other) => Some(LinkedGlobal::EntryPoint(other)),
        None => None,
    }
}

/// Makes the next global of a unit, of whose links so many are taken. None where the tables have not what it names, or
/// there is no link for it.
fn link_global<'m>(
    alloc: Global,
    unit: &'m Member,
    shared: &mut Shared<'m>,
    taken: &mut usize,
    global: &CodedGlobal,
) -> Result<Option<LinkedGlobal<'m>>, StoreFault>
    ensures { (more : List tables.CodedGlobal) (own number : ℕ) (statics : List Static)
        (externals : List (ℕ × plain.Standing))
        → AreKnown shared.old externals → Links own number statics externals
        (globals_linked (code_view unit.now.deck.code) (global_view global.now ∷ more)
        (drop taken.old unit.now.links.items))
        (globals_linked (code_view unit.now.deck.code) more (drop taken.new unit.now.links.items)) shared.old
        shared.new result }
{
    match global {
        CodedGlobal::OwnVariable { kind, template } => {
            link_own(alloc, &unit.deck.code, shared, *kind, *template)
        }
        CodedGlobal::ExternalVariable { kind, template, .. } => {
            link_next(alloc, unit, shared, taken, *kind, *template)
        }
        CodedGlobal::EntryPoint { .. } => Ok(link_entry(unit, shared, taken)),
    }
}

/// Puts a global after the others, if it is one.
fn add_global<'m>(
    table: &mut Vec<LinkedGlobal<'m>>,
    global: Option<LinkedGlobal<'m>>,
) -> Result<(), AllocError>
    ensures { OnOk result (table.new.items ≡ table.old.items ++ there global.entry) }
{
    if let Some(global) = global {
        table.push(global)?;
    }
    Ok(())
}

/// Makes the globals of a unit, one after another, after those of the units before.
fn link_unit<'m>(
    alloc: Global,
    unit: &'m Member,
    shared: &mut Shared<'m>,
    table: &mut Vec<LinkedGlobal<'m>>,
) -> Result<(), StoreFault>
    requires { table.old.items ≡ [] }
    ensures { (number : ℕ) (statics : List Static) (externals : List (ℕ × plain.Standing)) →
        AreKnown shared.old externals →
        LinksUnit number (unit_of (member_view unit.now)).globals statics externals shared.old shared.new
        table.new.items result }
{
    let mut taken = 0;
    for global in &unit.deck.code.globals {
        match link_global(alloc, unit, shared, &mut taken, global) {
            Ok(linked) => add_global(table, linked)?,
            Err(fault) => return Err(fault),
        }
    }
    Ok(())
}

/// Puts the globals of a unit after those of the others.
fn add_table<'m>(
    tables: &mut Vec<Vec<LinkedGlobal<'m>>>,
    table: Vec<LinkedGlobal<'m>>,
) -> Result<(), AllocError>
    ensures { OnOk result (tables.new.items ≡ tables.old.items ++ table.entry ∷ []) }
{
    tables.push(table)?;
    Ok(())
}

/// Makes the globals of all units of a module, unit after unit.
pub fn link_units<'m>(
    alloc: Global,
    module: &'m Module,
    shared: &mut Shared<'m>,
    tables: &mut Vec<Vec<LinkedGlobal<'m>>>,
) -> Result<(), StoreFault>
    requires none { tables.old.items ≡ [] }
    requires known { AreKnown shared.old [] }
    ensures { LinksAll (map member_view «module».now.units.items) shared.old shared.new
        (map (λ t. t.items) tables.new.items) result }
{
    for unit in &module.units {
        let mut table = Vec::new(alloc);
        match link_unit(alloc, unit, shared, &mut table) {
            Ok(()) => add_table(tables, table)?,
            Err(fault) => return Err(fault),
        }
    }
    Ok(())
}
