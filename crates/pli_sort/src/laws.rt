//! Laws of sorting.
ghost use Rattle.pli_sort.specs.laws.SortingLaws.{NumbersAreSorted};

/// A law: by each key, numbers that are put in order are a stable sort of them.
pub fn numbers_are_sorted()
    ensures { NumbersAreSorted }
{}
