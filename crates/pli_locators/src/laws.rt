//! Laws and worked examples of storage by locators.
ghost use Rattle.pli_locators.specs.laws.Operations.{LocatingStays, BasedStays, AllocatingStays, FreeingStays};
ghost use Rattle.pli_locators.specs.laws.Operations.{AddressStays};
ghost use Rattle.pli_locators.specs.laws.Operations.{NumberIsNew, EndedIsDead, FreedIsDead};
ghost use Rattle.pli_locators.specs.laws.Operations.{EndedAfterAllocating, EndedAfterFreeing};
ghost use Rattle.pli_locators.specs.laws.Operations.{BesideAllocated, BesideFreed, StacksBeside};
ghost use Rattle.pli_locators.specs.laws.AreaLaws as area;
ghost use Rattle.pli_locators.specs.laws.AreaLaws.{LeastIsTaken, BeginsApart, AllocatedApart, FreedApart};
ghost use Rattle.pli_locators.specs.laws.AreaLaws.{AssignedApart};
ghost use Rattle.pli_locators.specs.laws.AreaLaws.{OtherBlocksStay, OtherAreasStay, FreedBlockIsDead};
ghost use Rattle.pli_locators.specs.laws.AreaLaws.{EndsWithGeneration, OffsetsKeepTheirMeaning};
ghost use Rattle.pli_locators.specs.examples.AreaExamples as example;
ghost use Rattle.pli_locators.specs.examples.LocatorExamples.{AllocatedBegins, AllocatedAgain, FreedTwice};
ghost use Rattle.pli_locators.specs.examples.LocatorExamples.{NullIsRefused};
ghost use Rattle.pli_locators.specs.examples.LocatorExamples.{OtherIsRefused, DeadBeforeOther, InsideIsDead};
ghost use Rattle.pli_locators.specs.examples.LocatorExamples.{OffsetAlone};
ghost use Rattle.pli_locators.specs.examples.LocatorExamples.{AddressLeads, AddressIsNotFreed, AddressOfBased};
ghost use Rattle.pli_locators.specs.examples.LocatorExamples.{AddressOfPart};
ghost use Rattle.pli_locators.specs.examples.LocatorExamples.{ControlledIsNotFreed};

/// A law: an operation by locators changes storage alone: not what is printed, the column, steps or activations. Where
/// it is refused it changes nothing.
pub fn storage_alone_changes()
    ensures locating { LocatingStays }
    ensures based { BasedStays }
    ensures allocating { AllocatingStays }
    ensures freeing { FreeingStays }
    ensures address { AddressStays }
{}

/// A law: no number of a generation is used again. A new generation has a new one, what has ended is dead for every
/// reference, and stays so whatever is made and freed.
pub fn numbers_stay_given()
    ensures new { NumberIsNew }
    ensures dead { EndedIsDead }
    ensures freed { FreedIsDead }
    ensures allocating { EndedAfterAllocating }
    ensures freeing { EndedAfterFreeing }
{}

/// A law: what lives beside stays as it is. ALLOCATE changes no generation that lives, FREE ends one alone, and the
/// stacks of CONTROLLED variables stay as they are.
pub fn others_stay()
    ensures allocated { BesideAllocated }
    ensures freed { BesideFreed }
    ensures stacks { StacksBeside }
{}

/// A law: an operation on areas changes storage alone, and nothing where it is refused.
pub fn areas_alone_change()
    ensures allocating { area.AllocatingStays }
    ensures emptying { area.EmptyingStays }
    ensures assigning { area.AssigningStays }
    ensures offset { area.OffsetStays }
    ensures pointer { area.PointerStays }
{}

/// A law: ALLOCATE in an area takes the least position that it allows, and the area is full exactly where it allows
/// none; so no two blocks of an area ever meet, and none passes its capacity.
pub fn blocks_stand_apart()
    ensures least { LeastIsTaken }
    ensures begins { BeginsApart }
    ensures allocated { AllocatedApart }
    ensures freed { FreedApart }
    ensures assigned { AssignedApart }
{}

/// A law: a block that is placed, taken away or put into leaves other blocks as they are, and other areas.
pub fn other_blocks_stay()
    ensures blocks { OtherBlocksStay }
    ensures areas { OtherAreasStay }
{}

/// A law: what was freed is dead, and so are all blocks of an area whose generation has ended; after an assignment the
/// same blocks stand at the same positions of both areas.
pub fn ends_are_final()
    ensures freed { FreedBlockIsDead }
    ensures generation { EndsWithGeneration }
    ensures offsets { OffsetsKeepTheirMeaning }
{}

/// Worked examples: blocks that are allocated and freed in areas, places that outlive them, areas that are full,
/// emptied and assigned, and offsets.
pub fn worked_areas()
    ensures block_begins { example.BlockBegins }
    ensures third_finds_no_room { example.ThirdFindsNoRoom }
    ensures hole_is_taken { example.HoleIsTaken }
    ensures order_of_errors { example.OrderOfErrors }
    ensures outside_as_before { example.OutsideAsBefore }
    ensures freed_is_dead { example.FreedBlockIsDead }
    ensures place_is_tested_at_use { example.PlaceIsTestedAtUse }
    ensures ends_with_generation { example.AreaEnds }
    ensures other_blocks_stay { example.BlocksStay }
    ensures block_is_copied { example.BlockIsCopied }
    ensures address_of_block { example.AddressOfBlock }
    ensures empty_has_room { example.EmptyHasRoom }
    ensures offsets_keep_their_meaning { example.OffsetsLead }
    ensures itself_stays { example.ItselfStays }
    ensures pointers_as_offsets { example.PointersAsOffsets }
    ensures no_area_in_block { example.NoAreaInBlock }
{}

/// Worked examples: BASED variables that are allocated, freed and allocated again, null, dead and other locators, and
/// pointers of ADDR.
pub fn worked_examples()
    ensures allocated_begins { AllocatedBegins }
    ensures allocated_again { AllocatedAgain }
    ensures freed_twice { FreedTwice }
    ensures null_is_refused { NullIsRefused }
    ensures other_is_refused { OtherIsRefused }
    ensures dead_before_other { DeadBeforeOther }
    ensures inside_is_dead { InsideIsDead }
    ensures offset_alone { OffsetAlone }
    ensures address_leads { AddressLeads }
    ensures address_is_not_freed { AddressIsNotFreed }
    ensures address_of_based { AddressOfBased }
    ensures address_of_part { AddressOfPart }
    ensures controlled_is_not_freed { ControlledIsNotFreed }
{}
