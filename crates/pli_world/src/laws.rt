//! Laws of the operations on the world.
ghost use Rattle.std.specs.Prelude.{ℕ};
ghost use Rattle.pli_base.specs.Name.{Name};
ghost use Rattle.pli_world.specs.laws.Operations.{MakingKeeps, LoadingKeeps, StoringKeeps, WalkingKeeps};
ghost use Rattle.pli_world.specs.laws.Operations.{SlotKeeps, DummyKeeps, EnteringAdds, LeavingTakes};
ghost use Rattle.pli_world.specs.laws.Operations.{ClearingKeeps, StatementKeeps, PrintingKeeps, SteppingCounts};
ghost use Rattle.pli_world.specs.laws.Operations.{PartsHeldKeep, PartsStoredKeep, CopyingKeeps, SubscriptKeeps};
ghost use Rattle.pli_world.specs.laws.Operations.{CalculatingKeeps, StaticKeeps, StaticsKeep, LineKeeps, LeadingKeeps};
ghost use Rattle.pli_world.specs.laws.Operations.{StackingKeeps, UnstackingKeeps, CountingKeeps, BasedKeeps};
ghost use Rattle.pli_world.specs.laws.Operations.{AllocatingKeeps, FreeingKeeps, AddressKeeps, BlockKeeps};
ghost use Rattle.pli_world.specs.laws.Operations.{OffsetKeeps, PointerKeeps, AssigningKeeps, EmptyingKeeps};
ghost use Rattle.pli_world.specs.laws.Operations.{EstablishingKeeps, SignallingKeeps, RevertingKeeps};
ghost use Rattle.pli_world.specs.laws.Operations.{DimensionKeeps, BoundKeeps, FittingKeeps, StringDummyKeeps};
ghost use Rattle.pli_world.specs.examples.StorageExamples.{OuterVariable, DummyNumber, DummyEnds, TooLong};
ghost use Rattle.pli_world.specs.examples.StorageExamples.{DummyDead, PartStored, PartHeld, ElementCopied};
ghost use Rattle.pli_world.specs.examples.StorageExamples.{AggregateHeld, NoElement, NoPart, StaticStays};
ghost use Rattle.pli_world.specs.examples.StorageExamples.{StaticOfOther, NewestOfStack, ExternalIsShared, TooFar};
ghost use Rattle.pli_world.specs.examples.StorageExamples.{NoneAtFirst, NewestFirst, StaticIsNotAllocated};
ghost use Rattle.pli_world.specs.examples.StringExamples.{DummyOfLength, DummyOfNothing, NoStringDummy};
ghost use Rattle.pli_world.specs.examples.StringExamples.{ElementOfGrid, OutOfGrid, NoDimension, BoundsOfGrid};
ghost use Rattle.pli_world.specs.examples.StringExamples.{FittedToPlace};

/// A law: no operation takes a step or prints over what was printed, and each leaves as many activations as it
/// should.
pub fn operations_keep()
    ensures making { MakingKeeps }
    ensures loading { LoadingKeeps }
    ensures storing { StoringKeeps }
    ensures parts_held { PartsHeldKeep }
    ensures parts_stored { PartsStoredKeep }
    ensures copying { CopyingKeeps }
    ensures leading { LeadingKeeps }
    ensures subscript { SubscriptKeeps }
    ensures dimension { DimensionKeeps }
    ensures bound { BoundKeeps }
    ensures calculating { CalculatingKeeps }
    ensures fitting { FittingKeeps }
    ensures walking { WalkingKeeps }
    ensures slot { SlotKeeps }
    ensures one_static { StaticKeeps }
    ensures statics_by_number { StaticsKeep ℕ }
    ensures statics_by_name { StaticsKeep Name }
    ensures stacking { StackingKeeps }
    ensures unstacking { UnstackingKeeps }
    ensures counting { CountingKeeps }
    ensures based { BasedKeeps }
    ensures allocating { AllocatingKeeps }
    ensures freeing { FreeingKeeps }
    ensures address { AddressKeeps }
    ensures block { BlockKeeps }
    ensures offset { OffsetKeeps }
    ensures pointer { PointerKeeps }
    ensures assigning { AssigningKeeps }
    ensures emptying { EmptyingKeeps }
    ensures establishing { EstablishingKeeps }
    ensures signalling { SignallingKeeps }
    ensures reverting { RevertingKeeps }
    ensures dummy { DummyKeeps }
    ensures string_dummy { StringDummyKeeps }
    ensures entering { EnteringAdds }
    ensures leaving { LeavingTakes }
    ensures clearing { ClearingKeeps }
    ensures statement { StatementKeeps }
    ensures printing { PrintingKeeps }
    ensures line { LineKeeps }
    ensures stepping { SteppingCounts }
{}

/// Worked examples: static links, dummy arguments, what ends with an activation, parts of aggregates, how far places
/// are led on, variables that are made once, CONTROLLED ones, one that two units share; strings and arrays whose
/// extents are those of the argument.
pub fn worked_examples()
    ensures outer_variable { OuterVariable }
    ensures dummy_number { DummyNumber }
    ensures dummy_ends { DummyEnds }
    ensures too_long { TooLong }
    ensures dummy_dead { DummyDead }
    ensures part_stored { PartStored }
    ensures part_held { PartHeld }
    ensures element_copied { ElementCopied }
    ensures aggregate_held { AggregateHeld }
    ensures no_element { NoElement }
    ensures too_far { TooFar }
    ensures no_part { NoPart }
    ensures static_stays { StaticStays }
    ensures static_of_other { StaticOfOther }
    ensures newest_of_stack { NewestOfStack }
    ensures none_at_first { NoneAtFirst }
    ensures newest_first { NewestFirst }
    ensures static_is_not_allocated { StaticIsNotAllocated }
    ensures external_is_shared { ExternalIsShared }
    ensures dummy_of_length { DummyOfLength }
    ensures dummy_of_nothing { DummyOfNothing }
    ensures no_string_dummy { NoStringDummy }
    ensures element_of_grid { ElementOfGrid }
    ensures out_of_grid { OutOfGrid }
    ensures no_dimension { NoDimension }
    ensures bounds_of_grid { BoundsOfGrid }
    ensures fitted_to_place { FittedToPlace }
{}
