use pli_base::Name;
use pli_declare_constructs::Nesting;
use pli_declare_outline::{Region, RegionKind};
use pli_declare_scopes::{
    BlockItems, Found, ItemStanding, ReferenceMeaning, Scope, Verdict, Written,
    bad_levels_are_found, examples_of_levels, examples_of_references, examples_of_repeats,
    later_is_fault, meant_is_means, owners_are_nearest, standings,
};
use std::alloc::Global;
use std::process::Abort;
use std::test::*;

fn name(rt: &impl Abort, text: &str) -> Name {
    Name::read(text.as_bytes()).expect(rt, "a name")
}

/// Declares a name whose owner, if it has one, stands in the block already.
fn declare(rt: &impl Abort, block: &mut BlockItems, text: &str, owner: Option<usize>) -> Verdict {
    if let Some(owner) = owner {
        assert!(rt; owner < block.len());
    }
    let written = Written {
        name: name(rt, text),
        owner,
    };
    block.declare(written).expect(rt, "memory")
}

/// The block of a structure S with a member A, and of a variable A after it.
fn block(rt: &impl Abort, alloc: Global) -> BlockItems {
    let mut block = BlockItems::new(alloc);
    declare(rt, &mut block, "S", None);
    declare(rt, &mut block, "A", Some(0));
    declare(rt, &mut block, "A", None);
    block
}

/// Whether names mean in that block what they should.
fn are_found(block: &BlockItems, structure: Name, member: Name) -> bool {
    block.declares(structure)
        && block.len() == 3
        && block.find(&[structure, member]) == Found::One(1)
        && block.find(&[member]) == Found::One(2)
        && block.find(&[member, member]) == Found::Nothing
}

#[test]
fn blocks(rt: HostRuntime) {
    let (structure, member) = (name(&rt, "S"), name(&rt, "A"));
    assert!(rt; are_found(&block(&rt, rt.alloc()), structure, member));
    assert!(rt; Found::Nothing.with_number(3) == Found::One(3));
}

/// Whether a name means the second item of a block outside of another, and nothing outside of all.
fn is_within(rt: &impl Abort, alloc: Global, scope: &mut Scope, member: Name) -> bool {
    scope.open_block(block(rt, alloc)).expect(rt, "memory");
    scope
        .open_block(BlockItems::new(alloc))
        .expect(rt, "memory");
    let meant = scope.look_up(&[member]);
    let closed = scope.close_block().is_some() && scope.close_block().is_some();
    closed
        && scope.close_block().is_none()
        && meant == Found::One(2).meant(1)
        && scope.look_up(&[member]) == ReferenceMeaning::NotDeclared
}

#[test]
fn nested_blocks(rt: HostRuntime) {
    let member = name(&rt, "A");
    let mut scope = Scope::new(rt.alloc());
    let is_right = is_within(&rt, rt.alloc(), &mut scope, member);
    drop(scope);
    assert!(rt; is_right);
}

/// Whether a bad level, a member and one beyond all levels stand as they should.
fn stand(stand: &[ItemStanding]) -> bool {
    match stand {
        [bad, member, beyond] => {
            bad.is_bad && member.owner == Some(0) && !member.is_bad && beyond.is_bad
        }
        _ => false,
    }
}

#[test]
fn levels(rt: HostRuntime) {
    let levels = [Some(0), Some(2), Some(4_294_967_295)];
    assert!(rt; stand(&standings(rt.alloc(), &levels).expect(&rt, "memory")));
}

/// Whether a structure S, a member A of it, S again and a member A of that are judged as they should be.
fn are_judged(rt: &impl Abort, block: &mut BlockItems) -> bool {
    declare(rt, block, "S", None) == Verdict::Counts
        && declare(rt, block, "A", Some(0)) == Verdict::Counts
        && declare(rt, block, "S", None) == Verdict::Twice
        && declare(rt, block, "A", Some(2)) == Verdict::Beneath
        && declare(rt, block, "A", Some(0)) == Verdict::Twice
}

#[test]
fn declared_twice(rt: HostRuntime) {
    let mut block = BlockItems::new(rt.alloc());
    let is_right = are_judged(&rt, &mut block);
    drop(block);
    assert!(rt; is_right);
}

/// A procedure, with an ON-unit of a BEGIN block in a group.
static REGIONS: [Region; 4] = [
    Region {
        kind: RegionKind::Procedure,
        outer: None,
        statement: 1,
    },
    Region {
        kind: RegionKind::Group,
        outer: Some(0),
        statement: 2,
    },
    Region {
        kind: RegionKind::OnUnit,
        outer: Some(1),
        statement: 3,
    },
    Region {
        kind: RegionKind::Begin,
        outer: Some(2),
        statement: 4,
    },
];

/// Whether those regions nest, and labels are reached, as they should.
fn nest(unit: &Nesting) -> bool {
    unit.innermost(2) == Some(0)
        && unit.innermost(3) == Some(3)
        && unit.innermost(4).is_none()
        && unit.outward(3) == Some(0)
        && unit.reaches(3, 0)
        && !unit.reaches(3, 1)
}

#[test]
fn regions(rt: HostRuntime) {
    assert!(rt; nest(&Nesting::new(rt.alloc(), &REGIONS).expect(&rt, "memory")));
}

#[test]
fn laws() {
    owners_are_nearest();
    bad_levels_are_found();
    meant_is_means();
    later_is_fault();
    examples_of_levels();
    examples_of_references();
    examples_of_repeats();
}
