use pli_map::{
    Bounds, Description, Layout, PathStep, alignment, areas_are_rounded,
    elements_are_in_row_major_order, elements_are_within_bounds, filled_parts_take_bytes,
    first_values_are_held, fixed_binary_size, four_alignments, marks_differ, measure,
    offsets_are_sums, parts_do_not_meet, parts_have_their_scalars, parts_lie_within,
    parts_of_parts, parts_stand_aligned, place, same_is_equal, scalars_lie_within, size,
    stored_is_loaded, worked_examples,
};
use std::alloc::Global;
use std::process::Abort;
use std::test::*;

/// Arrays of two areas in a structure, after locators of both kinds with characters between.
fn record(rt: &impl Abort, alloc: Global) -> Description {
    let areas = Description::Array {
        bounds: vec![in alloc; Bounds { low: 1, high: 2 }].expect(rt, "memory"),
        element: Box::new(alloc, Description::Area(10)).expect(rt, "memory"),
    };
    let members = vec![in alloc;
        Description::Bit(1),
        Description::Pointer,
        Description::Offset,
        Description::Character(5),
        Description::Offset,
        areas,
    ]
    .expect(rt, "memory");
    Description::Structure(members)
}

/// Where a member lies, or an element of it, if there is one.
fn offset_of(description: &Description, path: &[PathStep]) -> Option<u32> {
    size(description)?;
    Some(place(description, path)?.offset)
}

/// Whether the members of a record lie where they should.
fn members_lie(record: &Description) -> bool {
    offset_of(record, &[PathStep::Member(1)]) == Some(4)
        && offset_of(record, &[PathStep::Member(2)]) == Some(12)
        && offset_of(record, &[PathStep::Member(3)]) == Some(16)
        && offset_of(record, &[PathStep::Member(4)]) == Some(24)
        && offset_of(record, &[PathStep::Member(5)]) == Some(32)
        && offset_of(record, &[PathStep::Member(6)]).is_none()
        && size(record) == Some(64)
        && alignment(record) == 8
}

/// Where an area of a record lies.
fn area_at(rt: &impl Abort, alloc: Global, record: &Description, subscript: i32) -> Option<u32> {
    let subscripts = vec![in alloc; subscript].expect(rt, "memory");
    let path = [PathStep::Member(5), PathStep::Element(subscripts)];
    offset_of(record, &path)
}

/// Whether a record equals its copy, and nothing less.
fn is_equal(rt: &impl Abort, alloc: Global, record: &Description) -> bool {
    let copy = record.copy(alloc).expect(rt, "memory");
    copy == *record && copy.equals(record) && *record != Description::Pointer
}

/// Whether all of that holds of such a record.
fn is_laid_out(rt: &impl Abort, alloc: Global, record: &Description) -> bool {
    members_lie(record)
        && is_equal(rt, alloc, record)
        && area_at(rt, alloc, record, 2) == Some(48)
        && area_at(rt, alloc, record, 3).is_none()
}

#[test]
fn records(rt: HostRuntime) {
    assert!(rt; is_laid_out(&rt, rt.alloc(), &record(&rt, rt.alloc())));
}

/// Numbers of 15 and of 63 binary digits.
fn wide_pair(rt: &impl Abort, alloc: Global) -> Description {
    let numbers = [Description::FixedBinary(15), Description::FixedBinary(63)];
    Description::Structure(Vec::from_array(alloc, numbers).expect(rt, "memory"))
}

/// Whether the second of such a pair has eight bytes, which begin at byte 8.
fn is_wide(pair: &Description) -> bool {
    offset_of(pair, &[PathStep::Member(1)]) == Some(8)
        && size(pair) == Some(16)
        && alignment(pair) == 8
}

#[test]
fn wide_members(rt: HostRuntime) {
    assert!(rt; is_wide(&wide_pair(&rt, rt.alloc())));
}

/// Whether areas are equal, and have a size, where they should.
fn areas_are_told() -> bool {
    size(&Description::Area(1_000_000)) == Some(1_000_000)
        && size(&Description::Area(1_000_001)).is_none()
        && Description::Area(9) == Description::Area(16)
        && Description::Area(9) != Description::Area(17)
        && Description::Area(u32::MAX) == Description::Area(u32::MAX - 6)
}

/// Three layouts after a halfword, and whether more than so many have one.
fn after_halfword(layout: Layout) -> Option<Layout> {
    Layout::empty()
        .and(Layout::of(2, 2)?)?
        .and(layout.times(3)?)
}

/// Whether layouts and bounds are counted as they should be.
fn are_counted(layout: Layout) -> bool {
    let dimension = Bounds { low: -2, high: 7 };
    layout.stride() == 6
        && layout.times(166_667).is_none()
        && after_halfword(layout).is_some_and(|both| both.bytes == 20)
        && fixed_binary_size(31) == 4
        && fixed_binary_size(32) == 8
        && dimension.extent() == 10
        && dimension.distance_to(7) == Some(9)
        && dimension.distance_to(8).is_none()
}

#[test]
fn layouts(rt: HostRuntime) {
    let layout = measure(&Description::Varying(3)).expect(&rt, "a layout");
    assert!(rt; are_counted(layout) && areas_are_told());
}

#[test]
fn laws() {
    areas_are_rounded();
    elements_are_in_row_major_order();
    elements_are_within_bounds();
    four_alignments();
    parts_do_not_meet();
    parts_lie_within();
    parts_stand_aligned();
    same_is_equal();
    marks_differ();
    parts_have_their_scalars();
    scalars_lie_within();
    parts_of_parts();
    filled_parts_take_bytes();
    offsets_are_sums();
    stored_is_loaded();
    first_values_are_held();
    worked_examples();
}
