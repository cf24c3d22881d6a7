//! Laws and worked examples of areas.
ghost use Rattle.pli_area.specs.laws.AreaLaws.{FirstHoleIsLeast};
ghost use Rattle.pli_area.specs.examples.AreaExamples.{TwoBlocksFit, SecondIsLeft, HolesJoin, HolesAreVisited};
ghost use Rattle.pli_area.specs.examples.AreaExamples.{SizesAreRounded, BytesStay};

/// A law: the position in the first hole that is long enough is the least multiple of 8 that an area allows, and where
/// there is no such hole it allows none.
pub fn first_hole_is_least()
    ensures { FirstHoleIsLeast }
{}

/// Worked examples: two blocks in 32 bytes, the second alone, none again, holes that are looked at, sizes that are
/// rounded up, and bytes.
pub fn worked_examples()
    ensures two_blocks_fit { TwoBlocksFit }
    ensures second_is_left { SecondIsLeft }
    ensures holes_join { HolesJoin }
    ensures holes_are_visited { HolesAreVisited }
    ensures sizes_are_rounded { SizesAreRounded }
    ensures bytes_stay { BytesStay }
{}
