use pli_map::{Description, Table};
use std::alloc::Global;
use std::process::Abort;
use std::test::*;

/// A table of three characters and an area, which is given once more; and the numbers of what is given.
fn table(rt: &impl Abort, alloc: Global) -> (Table, [u32; 3]) {
    let mut table = Table::new(alloc);
    let text = table.number(Description::Character(3)).expect(rt, "memory");
    let area = table.number(Description::Area(16)).expect(rt, "memory");
    let again = table.number(Description::Area(9)).expect(rt, "memory");
    (table, [text, area, again])
}

/// Whether a table has these two descriptions.
fn has_both(table: &Table) -> bool {
    table
        .get(0)
        .is_some_and(|first| *first == Description::Character(3))
        && table
            .get(1)
            .is_some_and(|second| *second == Description::Area(16))
        && table.get(2).is_none()
}

#[test]
fn tables(rt: HostRuntime) {
    let (table, numbers) = table(&rt, rt.alloc());
    table.is_distinct();
    let is_right = has_both(&table) && has_both(&table.copy(rt.alloc()).expect(&rt, "memory"));
    drop(table);
    assert!(rt; is_right && numbers == [0, 1, 1]);
}
