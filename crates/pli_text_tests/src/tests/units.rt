use crate::tests::name;
use crate::tests::tokens::tokens_of;
use pli_base::ParseError;
use pli_base::statement::Procedure;
use pli_copy::Copied;
use pli_declare::{NameMeaning, Resolved, SymbolKey, Target};
use pli_declare_constructs::Nesting;
use pli_declare_faults::{ResolveError, resolve};
use pli_declare_outline::{Outline, outline};
use pli_declare_scopes::Found;
use pli_declare_tables::Tables;
use pli_parse::parse;
use pli_resolve::ResolvedUnit;
use pli_resolve_unit::resolve_unit;
use std::alloc::Global;
use std::process::Abort;
use std::test::*;

/// A structure, a label and a procedure in a block, with a use of each.
const UNIT: &str =
    "M : PROC ; DCL 1 S , 2 X BIT ; L : BEGIN ; F : PROC ; S . X = X ; CALL F ; END ; END ; GOTO L ; END ;";

/// The unit of a text.
fn unit_of(rt: &impl Abort, alloc: Global, text: &str) -> Procedure {
    let tokens = tokens_of(rt, alloc, text);
    parse(alloc, &tokens).ok().expect(rt, "a unit")
}

/// Whether the tables of the blocks of an outline find a member.
fn finds_member(rt: &impl Abort, alloc: Global, outline: &Outline<'_>) -> bool {
    let nesting = Nesting::new(alloc, &outline.regions).expect(rt, "memory");
    let tables = Tables::new(alloc, outline, &nesting).expect(rt, "memory");
    match tables.blocks.first() {
        Some(table) => table.block.find(&[name(rt, "S"), name(rt, "X")]) == Found::One(1),
        None => false,
    }
}

/// Whether the outline of a unit has three regions, and its first block that member.
fn is_outlined(rt: &impl Abort, alloc: Global, unit: &Procedure) -> bool {
    let outline = outline(alloc, unit).expect(rt, "memory");
    outline.regions.len() == 3 && !outline.places.is_empty() && finds_member(rt, alloc, &outline)
}

#[test]
fn outlines(rt: HostRuntime) {
    assert!(rt; is_outlined(&rt, rt.alloc(), &unit_of(&rt, rt.alloc(), UNIT)));
}

/// Whether that is the member of the structure.
fn is_member(meaning: Option<Target>) -> bool {
    matches!(
        meaning,
        Some(Target::Name {
            block: Some(0),
            number: 1,
        })
    )
}

/// Whether what the names of a unit mean is told so.
fn are_told(resolved: &Resolved<'_>) -> bool {
    resolved.blocks().len() == 3
        && is_member(resolved.meaning_at(20))
        && resolved.outermost().len() == 1
        && resolved.area_at(20).is_none()
}

/// Whether the names of a unit mean what they should.
fn are_named(rt: &impl Abort, alloc: Global, unit: &Procedure) -> bool {
    let outline = outline(alloc, unit).expect(rt, "memory");
    let resolved = resolve(alloc, unit, &outline).ok().expect(rt, "no faults");
    are_told(&resolved)
}

#[test]
fn names(rt: HostRuntime) {
    assert!(rt; are_named(&rt, rt.alloc(), &unit_of(&rt, rt.alloc(), UNIT)));
}

/// Whether a unit is resolved as that one should be.
fn is_resolved(unit: &ResolvedUnit<'_>) -> bool {
    let key = SymbolKey {
        block: 0,
        number: 1,
    };
    let means_member = match unit.meaning_at(20) {
        Some(NameMeaning::Symbol(meant)) => meant.block == 0 && meant.number == 1,
        _ => false,
    };
    means_member
        && unit.block_count() == 3
        && unit.symbol(key).is_some()
        && unit.block_of_statement(5) == Some(2)
}

/// Whether a unit is, with its outline, and the symbols of its blocks and of the outermost one.
fn are_resolved(rt: &impl Abort, alloc: Global, unit: &Procedure) -> bool {
    let resolved = resolve_unit(alloc, unit).ok().expect(rt, "no faults");
    let rows = resolved.symbols(alloc).expect(rt, "memory");
    is_resolved(&resolved) && resolved.outline().regions.len() == 3 && rows.len() == 4
}

#[test]
fn units(rt: HostRuntime) {
    let unit = unit_of(&rt, rt.alloc(), UNIT);
    let copy = unit.copy(rt.alloc()).expect(&rt, "memory");
    drop(unit);
    assert!(rt; are_resolved(&rt, rt.alloc(), &copy));
}

/// The label and the token of the first fault of a unit.
fn fault_of(rt: &impl Abort, alloc: Global, text: &str) -> Option<(&'static str, u32)> {
    let tokens = tokens_of(rt, alloc, text);
    let unit = match parse(alloc, &tokens) {
        Ok(unit) => unit,
        Err(ParseError::Fault(fault)) => return Some((fault.code.label(), fault.at)),
        Err(ParseError::OutOfMemory) => return None,
    };
    match resolve_unit(alloc, &unit) {
        Err(ResolveError::Fault(faults)) => {
            let first = faults.first()?;
            Some((first.code.label(), first.at))
        }
        _ => None,
    }
}

#[test]
fn faults(rt: HostRuntime) {
    assert!(rt; fault_of(&rt, rt.alloc(), "M : PROC ; GOTO ; END ;") == Some(("P6", 5)));
    assert!(rt; fault_of(&rt, rt.alloc(), "M : PROC ; CALL F ; END ;") == Some(("A1", 5)));
}
