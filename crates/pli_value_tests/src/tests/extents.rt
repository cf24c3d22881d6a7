use pli_map::{
    Bounds, Description, ParameterType, StringForm, TypeRef, WhichBound, agrees, array_of,
    nth_dimension,
};
use std::alloc::Global;
use std::process::Abort;
use std::test::*;

/// The bounds of a matrix of two rows and three columns.
const MATRIX: [Bounds; 2] = [Bounds { low: 2, high: 3 }, Bounds { low: 5, high: 7 }];

/// Such a matrix of halfwords.
fn matrix(rt: &impl Abort, alloc: Global) -> Description {
    Description::Array {
        bounds: Vec::from_array(alloc, MATRIX).expect(rt, "memory"),
        element: Box::new(alloc, Description::FixedBinary(15)).expect(rt, "memory"),
    }
}

/// Whether its dimensions have the bounds that they are given, and lead on by rows and by elements.
fn leads_on(matrix: &Description) -> bool {
    match (nth_dimension(matrix, 1), nth_dimension(matrix, 2)) {
        (Some(row), Some(column)) => {
            row.multiplier == 6
                && column.multiplier == 2
                && WhichBound::Low.of(row.bounds) == 2
                && WhichBound::High.of(column.bounds) == 7
                && *row.after == *matrix
                && *column.after == Description::FixedBinary(15)
        }
        _ => false,
    }
}

#[test]
fn dimensions(rt: HostRuntime) {
    let matrix = matrix(&rt, rt.alloc());
    let has_others = nth_dimension(&matrix, 0).is_some() || nth_dimension(&matrix, 3).is_some();
    assert!(rt;
        leads_on(&matrix) && !has_others && nth_dimension(&Description::Pointer, 1).is_none()
    );
}

/// Whether any such matrix takes this one, and itself, but is not taken for it.
fn takes_matrix(taken: &ParameterType, matrix: &Description) -> bool {
    let stated = TypeRef::Stated(matrix);
    agrees(taken.lent(), stated)
        && agrees(taken.lent(), taken.lent())
        && !agrees(stated, taken.lent())
        && !taken.lent().equals(stated)
        && taken.lent().element(2).is_some()
        && taken.lent().element(1).is_none()
}

#[test]
fn any_bounds(rt: HostRuntime) {
    let element = ParameterType::of(Description::FixedBinary(15));
    let taken = ParameterType::of_arrays(rt.alloc(), 2, element).expect(&rt, "memory");
    let copy = taken.copy(rt.alloc()).expect(&rt, "memory");
    let matrix = matrix(&rt, rt.alloc());
    assert!(rt; takes_matrix(&taken, &matrix) && taken.equals(&copy) && taken.stated().is_none());
}

/// A matrix of strings of any length.
fn strings(rt: &impl Abort, alloc: Global) -> ParameterType {
    let bounds = Vec::from_array(alloc, MATRIX).expect(rt, "memory");
    let element = ParameterType::of_strings(StringForm::Bit);
    array_of(alloc, bounds, element).expect(rt, "memory")
}

/// Whether it has as many dimensions as are stated, and takes no numbers.
fn is_of_strings(taken: &ParameterType, numbers: &Description) -> bool {
    match taken.lent().array() {
        Some(array) => {
            array.dimensions == 2
                && !array.element.is_aggregate()
                && !agrees(taken.lent(), TypeRef::Stated(numbers))
                && StringForm::Bit.of_length(3) == Description::Bit(3)
        }
        None => false,
    }
}

#[test]
fn any_lengths(rt: HostRuntime) {
    let numbers = matrix(&rt, rt.alloc());
    assert!(rt; is_of_strings(&strings(&rt, rt.alloc()), &numbers));
}
