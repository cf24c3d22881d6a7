//! Calls whose memory may be refused at any time. Each test ends well wherever that is: `bench/refuse.py --tests`
//! refuses each allocation in turn.
ghost use Rattle.pli_ledger.specs.Fits.{Fits};

use pli_base::{Device, Name};
use pli_bench::go;
use pli_deck::Compiler;
use pli_include::Expander;
use pli_ledger::{Ledger, Outcome, edits_keep_fits};
use pli_members::{MemberKind, Members};
use std::alloc::Global;
use std::io::Cursor;
use std::test::*;

/// Units, each its member's name and its line.
static UNITS: [(&str, &str); 3] = [
    (
        "FIRST",
        "FIRST: PROC OPTIONS(MAIN); DCL SECOND ENTRY; CALL SECOND; END;",
    ),
    ("SECOND", "SECOND: PROC; DCL THIRD ENTRY; CALL THIRD; END;"),
    ("THIRD", "THIRD: PROC; PUT LIST(7); END;"),
];

/// How many they are.
const COUNT: u64 = 3;

/// Members that are the units; none where memory is refused.
fn members_of(alloc: Global) -> Option<Members> {
    let mut members = Members::new(alloc, 1);
    for (name, line) in &UNITS {
        let name = Name::read(name.as_bytes())?;
        members.add(name, MemberKind::Source).ok()?;
        members.insert_line(name, 0, line.as_bytes()).ok()?;
    }
    Some(members)
}

/// The bytes of the module that a build gives; none where it is refused, or gives none.
fn built(
    alloc: Global,
    ledger: &mut Ledger,
    members: &Members,
    expander: &mut Expander,
    compiler: &mut Compiler,
) -> Option<Vec<u8>>
    requires { Fits ledger.old.units members.now }
    ensures { Fits ledger.new.units members.now }
{
    match ledger.build(alloc, members, expander, compiler, None) {
        Ok(Outcome::Module(module)) => Some(module.bytes),
        _ => None,
    }
}

/// A ledger that keeps nothing, which fits any members.
fn empty_ledger(alloc: Global, _members: &Members) -> Ledger
    ensures { Fits result.units _members.now }
{
    edits_keep_fits();
    Ledger::new(alloc)
}

/// The module of a build from scratch.
fn scratch(alloc: Global, members: &Members) -> Option<Vec<u8>> {
    let mut ledger = empty_ledger(alloc, members);
    let mut expander = Expander::new(alloc);
    let mut compiler = Compiler::new(alloc);
    built(alloc, &mut ledger, members, &mut expander, &mut compiler)
}

/// Whether a build, which may be refused, and the next one that is not have together expanded each unit once and
/// compiled it once, and the next one tells what was left to it and gives what a build from scratch does.
fn add_up(alloc: Global, members: &Members) -> Option<bool> {
    let mut ledger = empty_ledger(alloc, members);
    let mut expander = Expander::new(alloc);
    let mut compiler = Compiler::new(alloc);
    let first = built(alloc, &mut ledger, members, &mut expander, &mut compiler);
    let told = if first.is_some() { COUNT } else { 0 };
    let is_told = ledger.expanded_last() == told && ledger.compiled_last() == told;
    let expanded = COUNT.saturating_sub(expander.count());
    let compiled = COUNT.saturating_sub(compiler.count());
    let next = built(alloc, &mut ledger, members, &mut expander, &mut compiler)?;
    let is_left = ledger.expanded_last() == expanded && ledger.compiled_last() == compiled;
    let is_once = expander.count() == COUNT && compiler.count() == COUNT;
    Some(is_told && is_left && is_once && next == scratch(alloc, members)?)
}

/// Whether two builds of the units add up; also where memory is refused to what stands around the first.
fn units_add_up(alloc: Global) -> bool {
    let Some(members) = members_of(alloc) else {
        return true;
    };
    add_up(alloc, &members).unwrap_or(true)
}

#[test]
fn three_units(rt: HostRuntime) {
    assert!(rt; units_add_up(rt.alloc()));
}

/// A member typed, built and run.
const PROGRAM: &str = "ADD M SOURCE\nINSERT M 0 M: PROC OPTIONS(MAIN); ; END;\nBUILD\nRUN\n";

/// Whether the program without words ends with status 3 and nothing written, or with a lower one.
fn ends_well(alloc: Global) -> bool {
    let words: Vec<String> = Vec::new(alloc);
    let mut reader = Device::over(Cursor::new(PROGRAM.as_bytes()));
    let mut writer = Device::over(Vec::new(alloc));
    let mut errors = Device::over(Vec::new(alloc));
    let status = go(alloc, &words, &mut reader, &mut writer, &mut errors);
    let is_silent = writer.into_inner().is_empty() && errors.into_inner().is_empty();
    status < 2 || status == 3 && is_silent
}

#[test]
fn statuses(rt: HostRuntime) {
    assert!(rt; ends_well(rt.alloc()));
}
