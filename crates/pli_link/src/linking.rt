//! The module of units, or the faults of linking.
ghost use Rattle.std.specs.Prelude.{◌≡◌, ◌++◌, map, OnOk, IfOk};
ghost use Rattle.pli_link.specs.Link as link;
ghost use Rattle.pli_link.specs.LinkedModule.{link_of};
ghost use Rattle.pli_link.specs.Units.{AreWritten};
ghost use Rattle.pli_link.specs.answers.Linking.{Links, fault_of, main_faults_of};
ghost use Rattle.pli_link.specs.answers.Tables.{AreNames, HaveClasses, units_in};
ghost use Rattle.pli_link.specs.views.UnitView.{compiled_view};

use crate::global_fault::GlobalFault;
use crate::linked::{Linked, main_at, module_of};
use crate::mismatches::faulty_names;
use crate::names::{Names, externals, procedures};
use crate::order::{main_names, repeated_names, sort};
use crate::sizes::is_too_large;
use crate::units::{LinkedName, NamedUnit};
use indexmap::IndexSet;
use pli_base::Failure;
use pli_type_keys::TemplateKey;
use std::alloc::{AllocError, Global};

/// A fault of linking.
#[derive(Clone, Copy)]
pub enum LinkFault {
    /// N1, where there is no main procedure.
    NoMainProcedure,
    /// N2, for each main procedure after the first.
    TwoMainProcedures(LinkedName),
    /// N3, for each unit and name of an entry of which no unit has a procedure, or of a CONTROLLED external variable.
    Unresolved(LinkedName),
    /// N4, for each procedure that has the name of an earlier one.
    DefinedTwice(LinkedName),
    /// N5, for each unit and name of an entry that takes or gives something else than the first procedure of the name,
    /// or of a STATIC external variable that has a procedure's name, or another description or other initial values
    /// than the first variable of its name.
    Mismatch(LinkedName),
    /// N6, where the module has more than 1,000,000 instructions, 65,535 external variables, 65,535 units or 16,777,216
    /// bytes of static variables, or one of these has more than 1,000,000 bytes.
    ModuleTooLarge,
}

/// Why units are not linked: all faults, by code, name and unit, or that memory was refused.
pub type LinkError = Failure<Vec<LinkFault>>;

/// The module of units, whose decks are lent and of the version in which modules are written, and which come in the
/// order of their names; or all faults.
pub fn link<'a>(alloc: Global, units: &[NamedUnit<'a>]) -> Result<Linked<'a>, LinkError>
    requires { AreWritten (map compiled_view units.now) }
    ensures { Links result (link_of (map compiled_view units.now)) }
{
    let procedures = procedures(alloc, units)?;
    let mut known = IndexSet::new(alloc);
    let externals = externals(alloc, &mut known, units)?;
    let names = Names {
        units,
        procedures: &procedures,
        externals: &externals,
    };
    link_by(alloc, &mut known, &names)
}

/// The same of units whose names these are.
fn link_by<'a>(
    alloc: Global,
    known: &mut IndexSet<TemplateKey<'a>>,
    names: &Names<'a, '_>,
) -> Result<Linked<'a>, LinkError>
    requires names { AreNames names.now }
    requires classes { HaveClasses known.old.keys names.now }
    ensures { Links result (link.link_of (units_in names.now)) }
{
    let faults = faults_among(alloc, known, names)?;
    if !faults.is_empty() {
        return Err(LinkError::Fault(faults));
    }
    let Some(main) = main_at(names.units) else {
        return Err(LinkError::Fault(faults));
    };
    drop(faults);
    Ok(Linked {
        program: module_of(alloc, names, main as u16)?,
    })
}

/// Which fault a name of a unit has.
#[derive(Clone, Copy)]
pub(crate) enum NameFault {
    TwoMainProcedures,
    Unresolved,
    DefinedTwice,
    Mismatch,
}

/// The fault of a name.
fn fault_of(fault: NameFault, name: LinkedName) -> LinkFault
    ensures { result ≡ fault_of fault name }
{
    match fault {
        NameFault::TwoMainProcedures => LinkFault::TwoMainProcedures(name),
        NameFault::Unresolved => LinkFault::Unresolved(name),
        NameFault::DefinedTwice => LinkFault::DefinedTwice(name),
        NameFault::Mismatch => LinkFault::Mismatch(name),
    }
}

/// Appends a fault for each name.
fn add_faults(
    faults: &mut Vec<LinkFault>,
    fault: NameFault,
    names: &[LinkedName],
) -> Result<(), AllocError>
    ensures { OnOk result (faults.new.items ≡ faults.old.items ++ map (fault_of fault) names.now) }
{
    for name in names {
        faults.push(fault_of(fault, *name))?;
    }
    Ok(())
}

/// Appends a fault for each name, in their order.
fn add_in_order(
    faults: &mut Vec<LinkFault>,
    fault: NameFault,
    names: Vec<LinkedName>,
) -> Result<(), AllocError>
    ensures { OnOk result (faults.new.items ≡ faults.old.items ++ map (fault_of fault) (link.in_order names.items)) }
{
    let mut names = names;
    sort(&mut names)?;
    add_faults(faults, fault, &names)
}

/// N1 and N2.
fn main_faults(alloc: Global, units: &[NamedUnit<'_>]) -> Result<Vec<LinkFault>, AllocError>
    ensures { IfOk result (λ found. found.items ≡ main_faults_of (map compiled_view units.now)) }
{
    let mut faults = Vec::new(alloc);
    match main_names(alloc, units)?.split_first() {
        None => faults.push(LinkFault::NoMainProcedure)?,
        Some((_, later)) => {
            let later = Vec::from_slice(alloc, later)?;
            add_in_order(&mut faults, NameFault::TwoMainProcedures, later)?;
        }
    }
    Ok(faults)
}

/// The faults of units whose names these are, by code, name and unit.
fn faults_among<'a>(
    alloc: Global,
    known: &mut IndexSet<TemplateKey<'a>>,
    names: &Names<'a, '_>,
) -> Result<Vec<LinkFault>, AllocError>
    requires names { AreNames names.now }
    requires classes { HaveClasses known.old.keys names.now }
    ensures { IfOk result (λ found. found.items ≡ link.link_faults (units_in names.now)) }
{
    let units = names.units;
    let mut faults = main_faults(alloc, units)?;
    let unresolved = faulty_names(alloc, known, names, GlobalFault::Unresolved, units)?;
    add_in_order(&mut faults, NameFault::Unresolved, unresolved)?;
    let repeated = repeated_names(alloc, units)?;
    add_in_order(&mut faults, NameFault::DefinedTwice, repeated)?;
    let mismatches = faulty_names(alloc, known, names, GlobalFault::Mismatch, units)?;
    add_in_order(&mut faults, NameFault::Mismatch, mismatches)?;
    if is_too_large(names) {
        faults.push(LinkFault::ModuleTooLarge)?;
    }
    Ok(faults)
}
