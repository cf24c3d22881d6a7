use crate::tests::name;
use pli_base::Name;
use pli_include::{Expander, Expansion};
use pli_members::{MemberKind, Members};
use std::alloc::Global;
use std::process::Abort;
use std::test::*;

/// The members A and B, where A has this line.
fn members_of(rt: &impl Abort, alloc: Global, line: &str) -> Members {
    let mut members = Members::new(alloc, 1);
    let (a, b) = (name(rt, "A"), name(rt, "B"));
    let are_put = members.add(a, MemberKind::Source).is_ok()
        && members.insert_line(a, 0, line.as_bytes()).is_ok()
        && members.add(b, MemberKind::Include).is_ok()
        && members.insert_line(b, 0, b";").is_ok();
    assert!(rt; are_put);
    members
}

/// The expansion of member A with this line.
fn expanded(rt: &impl Abort, alloc: Global, line: &str) -> Expansion {
    let members = members_of(rt, alloc, line);
    let mut expander = Expander::new(alloc);
    let expansion = expander
        .expand(&members, name(rt, "A"))
        .expect(rt, "memory");
    assert!(rt; expander.count() == 1);
    expansion
}

/// Whether an expansion has as many tokens, the last of them in this member, and has looked up two names with these
/// versions.
fn is_so(expansion: &Expansion, count: usize, last: Name, versions: [Option<u64>; 2]) -> bool {
    let looked = match expansion.trace() {
        [first, second] => [first.version, second.version] == versions,
        _ => false,
    };
    let last_place = expansion.texts().len().saturating_sub(1);
    let ends = match expansion.origins().get(last_place) {
        Some(origin) => origin.member == last && origin.line == 1,
        None => count == 0,
    };
    looked && ends && expansion.texts().len() == count
}

#[test]
fn expansions(rt: HostRuntime) {
    let expansion = expanded(&rt, rt.alloc(), "X %INCLUDE B; Y %INCLUDE B;");
    let is_right = is_so(&expansion, 4, name(&rt, "B"), [Some(2), Some(4)]);
    let is_good = expansion.fault().is_none();
    drop(expansion);
    assert!(rt; is_right && is_good);
}

/// Whether an expansion has the fault of an absent member in this one.
fn is_absent(expansion: &Expansion, member: Name) -> bool {
    match expansion.fault() {
        Some(fault) => {
            fault.code.label() == "I1" && fault.origin.member == member && fault.origin.line == 1
        }
        None => false,
    }
}

#[test]
fn absent_members(rt: HostRuntime) {
    let a = name(&rt, "A");
    let expansion = expanded(&rt, rt.alloc(), "X %INCLUDE NONE;");
    let is_right = is_so(&expansion, 0, a, [Some(2), None]) && is_absent(&expansion, a);
    drop(expansion);
    assert!(rt; is_right);
}
