//! The lines of diagnostics and of faults of linking.
ghost use Rattle.std.specs.Prelude.{◌≡◌, ◌++◌, map, slice_get, IfOk, OnOk};
ghost use Rattle.std.specs.List.{flat_map};
ghost use Rattle.pli_ledger.specs.Told.{kept_text, told};
ghost use Rattle.pli_meaning.specs.Scratch.{code_line, diagnostic_line, diagnostics_in, link_line, located, name_line};
ghost use Rattle.pli_meaning.specs.MemberParts.{origin_of};

use crate::kept::KeptUnit;
use pli_base::{Code, Fault, Name, Origin};
use pli_include::Origins;
use pli_link::{LinkFault, LinkedName};
use std::alloc::{AllocError, Global};
use std::fmt::Write;

/// Appends `unit member:line code text`.
fn write_diagnostic(
    text: &mut String,
    unit: Name,
    origin: Origin,
    code: Code,
) -> Result<(), AllocError>
    ensures { OnOk result (text.new.bytes.items ≡ text.old.bytes.items
        ++ diagnostic_line unit (record { origin = origin; code = code })) }
{
    writeln!(text, "{unit} {}:{} {code}", origin.member, origin.line)
}

/// The origin of the token at a place, or the unit's line 1 where there is none.
fn origin_at(unit: Name, origins: &Origins, place: usize) -> Origin
    ensures { result ≡ origin_of unit (slice_get origins.now place) }
{
    match origins.get(place) {
        Some(origin) => origin,
        None => Origin {
            member: unit,
            line: 1,
        },
    }
}

/// Appends the diagnostics of faults at tokens.
fn write_faults(
    text: &mut String,
    unit: Name,
    origins: &Origins,
    faults: &[Fault],
) -> Result<(), AllocError>
    ensures { OnOk result (text.new.bytes.items ≡ text.old.bytes.items
        ++ flat_map (diagnostic_line unit) (map (located unit origins.now) faults.now)) }
{
    for fault in faults {
        let origin = origin_at(unit, origins, fault.at as usize);
        write_diagnostic(text, unit, origin, fault.code)?;
    }
    Ok(())
}

/// Appends the diagnostics of a unit, in the order of their tokens, where the tokens of its last expansion stand.
fn write_unit(text: &mut String, unit: &KeptUnit) -> Result<(), AllocError>
    ensures { OnOk result (text.new.bytes.items ≡ text.old.bytes.items ++ diagnostics_in unit.now.0 (told unit.now)) }
{
    let Some(expansion) = unit.expansion() else {
        return Ok(());
    };
    if let Some(fault) = expansion.fault() {
        return write_diagnostic(text, unit.name(), fault.origin, fault.code);
    }
    let Some(compiled) = unit.compiled() else {
        return Ok(());
    };
    write_faults(text, unit.name(), expansion.origins(), compiled.faults())
}

/// The diagnostics of units.
pub fn diagnostics(alloc: Global, units: &[KeptUnit]) -> Result<String, AllocError>
    ensures { IfOk result (λ text. text.bytes.items ≡ kept_text units.now) }
{
    let mut text = String::new(alloc);
    for unit in units {
        write_unit(&mut text, unit)?;
    }
    Ok(text)
}

/// Appends `code text`.
fn write_code(text: &mut String, code: Code) -> Result<(), AllocError>
    ensures { OnOk result (text.new.bytes.items ≡ text.old.bytes.items ++ code_line code) }
{
    writeln!(text, "{code}")
}

/// Appends `code text name unit`.
fn write_name(text: &mut String, code: Code, linked: LinkedName) -> Result<(), AllocError>
    ensures { OnOk result (text.new.bytes.items ≡ text.old.bytes.items ++ name_line code linked) }
{
    writeln!(text, "{code} {} {}", linked.name, linked.unit)
}

/// Appends the line of a fault of linking.
fn write_link_fault(text: &mut String, fault: LinkFault) -> Result<(), AllocError>
    ensures { OnOk result (text.new.bytes.items ≡ text.old.bytes.items ++ link_line fault) }
{
    match fault {
        LinkFault::NoMainProcedure => write_code(text, Code::NoMainProcedure),
        LinkFault::TwoMainProcedures(name) => write_name(text, Code::TwoMainProcedures, name),
        LinkFault::Unresolved(name) => write_name(text, Code::Unresolved, name),
        LinkFault::DefinedTwice(name) => write_name(text, Code::DefinedTwice, name),
        LinkFault::Mismatch(name) => write_name(text, Code::Mismatch, name),
        LinkFault::ModuleTooLarge => write_code(text, Code::ModuleTooLarge),
    }
}

/// The lines of faults of linking.
pub fn link_text(alloc: Global, faults: &[LinkFault]) -> Result<String, AllocError>
    ensures { IfOk result (λ text. text.bytes.items ≡ flat_map link_line faults.now) }
{
    let mut text = String::new(alloc);
    for fault in faults {
        write_link_fault(&mut text, *fault)?;
    }
    Ok(text)
}
