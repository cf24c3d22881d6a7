use crate::tests::name;
use pli_base::Name;
use pli_members::{EditError, MemberKind, Members, Refusal};
use std::alloc::Global;
use std::process::Abort;
use std::test::*;

/// A member A of one line, where adding it gives this version.
fn members_from(rt: &impl Abort, alloc: Global, version: u64) -> Members {
    let mut members = Members::new(alloc, version);
    let a = name(rt, "A");
    let is_put = members.add(a, MemberKind::Source).is_ok()
        && members.insert_line(a, 0, b"X").is_ok();
    assert!(rt; is_put);
    members
}

/// Whether a member has this one line and this version.
fn has(members: &Members, name: Name, text: &[u8], version: u64) -> bool {
    match members.lines(name) {
        Some([line]) => line.text() == text && members.version(name) == Some(version),
        _ => false,
    }
}

/// Whether there are these two members, in this order.
fn are_named(members: &Members, first: Name, second: Name) -> bool {
    let mut names = members.names();
    names.next() == Some(first)
        && names.next() == Some(second)
        && names.next().is_none()
        && members.count() == 2
        && members.kind(second) == Some(MemberKind::Include)
}

/// Whether edits of the member A give one version after another, and deleting it none.
fn are_edited(members: &mut Members, a: Name, b: Name) -> bool {
    has(members, a, b"X", 2)
        && members.replace_line(a, 1, b"Y").is_ok()
        && has(members, a, b"Y", 3)
        && members.add(b, MemberKind::Include).is_ok()
        && are_named(members, a, b)
        && members.remove_lines(a, 1, 1).is_ok()
        && members.version(a) == Some(5)
        && members.delete(a).is_ok()
        && members.lines(a).is_none()
        && members.add(a, MemberKind::Source).is_ok()
        && members.version(a) == Some(6)
}

#[test]
fn edits(rt: HostRuntime) {
    let (a, b) = (name(&rt, "A"), name(&rt, "b"));
    let mut members = members_from(&rt, rt.alloc(), 1);
    let is_right = are_edited(&mut members, a, b);
    drop(members);
    assert!(rt; is_right);
}

/// Whether an edit is refused for this.
fn is_refused(answer: Result<(), EditError>, wanted: Refusal) -> bool {
    answer == Err(EditError::Refused(wanted))
}

/// Whether there is no version after the last.
fn are_ended(members: &mut Members, a: Name) -> bool {
    let ended = Refusal::VersionsExhausted;
    is_refused(members.replace_line(a, 1, b"Y"), ended)
        && is_refused(members.replace_line(a, 1, b"\x7f"), Refusal::BadByte)
        && members.remove_lines(a, 1, 1) == Err(ended)
        && has(members, a, b"X", u64::MAX)
        && members.delete(a).is_ok()
        && is_refused(members.add(a, MemberKind::Source), ended)
}

#[test]
fn versions_end(rt: HostRuntime) {
    let mut members = members_from(&rt, rt.alloc(), u64::MAX - 1);
    let is_right = are_ended(&mut members, name(&rt, "A"));
    drop(members);
    let refusal = Refusal::TooManyLines;
    assert!(rt; is_right && refusal.label() == "M6" && refusal.text() == "TOO MANY LINES");
}
