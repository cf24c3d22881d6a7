//! Laws of runs: they hold of every program, also of one that no compiler makes.
ghost use Rattle.pli_machine_step.specs.laws.Laws.{EveryRunEnds, OneFrameEach, OneOutcome, RunsGoOn};
ghost use Rattle.pli_machine_step.specs.examples.AreaExamples.{BlockPrints, OffsetPrints, BlocksEnd, AreaIsFull};
ghost use Rattle.pli_machine_step.specs.examples.AreaExamples.{NotInArea, AreasFault, CopiesFail};
ghost use Rattle.pli_machine_step.specs.examples.ExtentExamples.{DimensionLeads, NoDimensionFaults, BoundsPrint};
ghost use Rattle.pli_machine_step.specs.examples.ExtentExamples.{StringDummyHolds, StringDummyFaults, FitsToPlace};
ghost use Rattle.pli_machine_step.specs.examples.ExtentExamples.{FittingFaults, StringDummyIsDead};
ghost use Rattle.pli_machine_step.specs.examples.MachineExamples.{SmallestStops, SmallestEnds, GotoLeaves};
ghost use Rattle.pli_machine_step.specs.examples.MachineExamples.{GotoStops, CallStops, JumpsGoOn, JumpsFault};
ghost use Rattle.pli_machine_step.specs.examples.MachineExamples.{TurnsStop, TooMany, ManyStop, EndFaults};
ghost use Rattle.pli_machine_step.specs.examples.MachineExamples.{BeginEnds, BeginFaults, CallFaults};
ghost use Rattle.pli_machine_step.specs.examples.MachineExamples.{GotosEnd, GotosFault, JumpsEnd};
ghost use Rattle.pli_machine_step.specs.examples.MachineExamples.{ArgumentIsShared, FunctionGives, ValueFaults};
ghost use Rattle.pli_machine_step.specs.examples.MachineExamples.{BeginsEnd, LoopEnds, ElementPrints};
ghost use Rattle.pli_machine_step.specs.examples.MachineExamples.{ElementFails, LeadingFaults, PartPrints, PartFails};
ghost use Rattle.pli_machine_step.specs.examples.MachineExamples.{ComparisonPrints, SumsAreAsWide, BitsPrint};
ghost use Rattle.pli_machine_step.specs.examples.MachineExamples.{SkipEndsLine};
ghost use Rattle.pli_machine_step.specs.examples.MachineExamples.{StaticIsShared, UnitsShare, UnitsStop};
ghost use Rattle.pli_machine_step.specs.examples.MachineExamples.{UnitFails, NoUnitFaults};
ghost use Rattle.pli_machine_step.specs.examples.MachineExamples.{GenerationsPrint, NoneIsError, OthersFault};
ghost use Rattle.pli_machine_step.specs.examples.MachineExamples.{BasedPrints, AddressPrints, LocatorsFail};
ghost use Rattle.pli_machine_step.specs.examples.MachineExamples.{AddressIsNotFreed, NumbersFault};
ghost use Rattle.pli_machine_step.specs.examples.MachineExamples.{ParameterFaults, DummyEnds, DummyIsGiven};
ghost use Rattle.pli_machine_step.specs.examples.MachineExamples.{DummyIsDead};

/// A law: a program's run gives one outcome.
pub fn one_outcome()
    ensures { OneOutcome }
{}

/// A law: a run with a step more goes on from where the run stopped.
pub fn runs_go_on()
    ensures { RunsGoOn }
{}

/// A law: all along a run there is one frame for each activation.
pub fn one_frame_each()
    ensures { OneFrameEach }
{}

/// A law: every run of every program gives an outcome.
pub fn every_run_ends()
    ensures { EveryRunEnds }
{}

/// Worked examples: steps, a GOTO out of a call, jumps without a step, the limit of activations, the kinds of blocks,
/// the code's end, an argument by place, dummy arguments that end, a function's value, a loop, an element and a part of
/// a string that are there and that are not, how far a place is led on, a comparison, a sum of 32 binary digits, bits
/// printed, a line ended, a variable that is made once, a call of another unit's procedure and a variable that both
/// units have, the generations of a CONTROLLED one, BASED ones by their pointers, blocks of areas and offsets, and
/// places that have ended and are copied; subscripts, bounds and strings whose extents are those of the argument.
pub fn worked_examples()
    ensures smallest_stops { SmallestStops }
    ensures smallest_ends { SmallestEnds }
    ensures goto_leaves { GotoLeaves }
    ensures goto_stops { GotoStops }
    ensures call_stops { CallStops }
    ensures jumps_go_on { JumpsGoOn }
    ensures jumps_fault { JumpsFault }
    ensures turns_stop { TurnsStop }
    ensures too_many { TooMany }
    ensures many_stop { ManyStop }
    ensures begin_ends { BeginEnds }
    ensures begin_faults { BeginFaults }
    ensures parameter_faults { ParameterFaults }
    ensures call_faults { CallFaults }
    ensures begins_end { BeginsEnd }
    ensures end_faults { EndFaults }
    ensures gotos_end { GotosEnd }
    ensures gotos_fault { GotosFault }
    ensures jumps_end { JumpsEnd }
    ensures argument_is_shared { ArgumentIsShared }
    ensures dummy_ends { DummyEnds }
    ensures dummy_is_given { DummyIsGiven }
    ensures dummy_is_dead { DummyIsDead }
    ensures function_gives { FunctionGives }
    ensures value_faults { ValueFaults }
    ensures loop_ends { LoopEnds }
    ensures element_prints { ElementPrints }
    ensures element_fails { ElementFails }
    ensures leading_faults { LeadingFaults }
    ensures part_prints { PartPrints }
    ensures part_fails { PartFails }
    ensures comparison_prints { ComparisonPrints }
    ensures sums_are_as_wide { SumsAreAsWide }
    ensures bits_print { BitsPrint }
    ensures skip_ends_line { SkipEndsLine }
    ensures static_is_shared { StaticIsShared }
    ensures units_share { UnitsShare }
    ensures units_stop { UnitsStop }
    ensures unit_fails { UnitFails }
    ensures no_unit_faults { NoUnitFaults }
    ensures generations_print { GenerationsPrint }
    ensures none_is_error { NoneIsError }
    ensures others_fault { OthersFault }
    ensures based_prints { BasedPrints }
    ensures address_prints { AddressPrints }
    ensures locators_fail { LocatorsFail }
    ensures address_is_not_freed { AddressIsNotFreed }
    ensures numbers_fault { NumbersFault }
    ensures block_prints { BlockPrints }
    ensures offset_prints { OffsetPrints }
    ensures blocks_end { BlocksEnd }
    ensures area_is_full { AreaIsFull }
    ensures not_in_area { NotInArea }
    ensures areas_fault { AreasFault }
    ensures copies_fail { CopiesFail }
    ensures dimension_leads { DimensionLeads }
    ensures no_dimension_faults { NoDimensionFaults }
    ensures bounds_print { BoundsPrint }
    ensures string_dummy_holds { StringDummyHolds }
    ensures string_dummy_faults { StringDummyFaults }
    ensures fits_to_place { FitsToPlace }
    ensures fitting_faults { FittingFaults }
    ensures string_dummy_is_dead { StringDummyIsDead }
{}
