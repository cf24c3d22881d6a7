//! Worked examples of the meaning.
ghost use Rattle.pli_meaning_tree.specs.examples.AreaExamples.{OffsetCopied, DeadHeaderNamed, AreaFull};
ghost use Rattle.pli_meaning_tree.specs.examples.AreaExamples.{OutsideAreaNamed, BlockFreed, ListInArea};
ghost use Rattle.pli_meaning_tree.specs.examples.AreaExamples.{NoAreaIsError};
ghost use Rattle.pli_meaning_tree.specs.examples.ConditionExamples.{RevertRemoves, UnitIsSteps, UnitStays};
ghost use Rattle.pli_meaning_tree.specs.examples.ConditionExamples.{UnitsAreMany};
ghost use Rattle.pli_meaning_tree.specs.examples.ConditionExamples.{SecondTakesPlace, NamesAreOfOn, ZeroStandsAfter};
ghost use Rattle.pli_meaning_tree.specs.examples.ConditionExamples.{ZeroDivideUnit, NewestUnit, CounterOverflows};
ghost use Rattle.pli_meaning_tree.specs.examples.ConditionExamples.{AllocateIsRepeated, ExtentExceeds, SignalGoesOn};
ghost use Rattle.pli_meaning_tree.specs.examples.ConditionExamples.{AreaIsEvaluatedAnew, GroupAroundIsReached};
ghost use Rattle.pli_meaning_tree.specs.examples.ConditionExamples.{GotoLeavesUnits};
ghost use Rattle.pli_meaning_tree.specs.examples.ExtentExamples.{StringIsHanded, NothingIsHanded, StringIsFitted};
ghost use Rattle.pli_meaning_tree.specs.examples.ExtentExamples.{BoundsAreArguments, ControlIsFitted};
ghost use Rattle.pli_meaning_tree.specs.examples.TreeExamples.{LoopEnds, LoopStops, IfChooses, SubscriptIsTested};
ghost use Rattle.pli_meaning_tree.specs.examples.TreeExamples.{AggregateIsCopied, BitsArePrinted, ItemBeforeIsWritten};
ghost use Rattle.pli_meaning_tree.specs.examples.TreeExamples.{FunctionCallsItself, FunctionStops, ByReferenceChanges};
ghost use Rattle.pli_meaning_tree.specs.examples.TreeExamples.{NoValueIsReturned, GotoLeavesBlock, GotoLeavesCall};
ghost use Rattle.pli_meaning_tree.specs.examples.TreeExamples.{GotoGroupBeginsAnew, LabelsAreOfUnits};
ghost use Rattle.pli_meaning_tree.specs.examples.TreeExamples.{ReturnLeavesBlock};
ghost use Rattle.pli_meaning_tree.specs.examples.TreeExamples.{TurnsAreSteps, NoTurnAndOne, StartMustFit};
ghost use Rattle.pli_meaning_tree.specs.examples.TreeExamples.{StepMayBeNegative, StepOverflows};
ghost use Rattle.pli_meaning_tree.specs.examples.TreeExamples.{VariableIsLookedAtAnew, RepeatGoesOn};
ghost use Rattle.pli_meaning_tree.specs.examples.TreeExamples.{UnitsShare, UnitFails, NewestIsMeant, NoneIsLeft};
ghost use Rattle.pli_meaning_tree.specs.examples.TreeExamples.{ListIsLinked, AddressIsMeant, LeadsNowhere, IsNotFreed};

/// What programs give with so many steps: loops of all forms, IF, an element out of bounds, an aggregate copied, bits
/// printed, functions that call themselves, an argument changed by the procedure, GOTO out of blocks and calls, labels
/// of units, RETURN, STOP, a call of another unit's procedure and a variable that both units have, the generations of a
/// CONTROLLED variable, a list linked by pointers, and pointers that lead nowhere, offsets that are copied with their
/// area, areas that are full or that are not there, locators outside their area, and conditions: which ON-unit takes
/// them, its steps, what stands after its return or its GOTO, and the repeated ALLOCATE; and parameters whose extents
/// are those of the argument.
pub fn worked_examples()
    ensures loop_ends { LoopEnds }
    ensures loop_stops { LoopStops }
    ensures if_chooses { IfChooses }
    ensures subscript_is_tested { SubscriptIsTested }
    ensures aggregate_is_copied { AggregateIsCopied }
    ensures bits_are_printed { BitsArePrinted }
    ensures item_before_is_written { ItemBeforeIsWritten }
    ensures function_calls_itself { FunctionCallsItself }
    ensures function_stops { FunctionStops }
    ensures by_reference_changes { ByReferenceChanges }
    ensures no_value_is_returned { NoValueIsReturned }
    ensures goto_leaves_block { GotoLeavesBlock }
    ensures goto_leaves_call { GotoLeavesCall }
    ensures goto_group_begins_anew { GotoGroupBeginsAnew }
    ensures labels_are_of_units { LabelsAreOfUnits }
    ensures return_leaves_block { ReturnLeavesBlock }
    ensures turns_are_steps { TurnsAreSteps }
    ensures no_turn_and_one { NoTurnAndOne }
    ensures start_must_fit { StartMustFit }
    ensures step_may_be_negative { StepMayBeNegative }
    ensures step_overflows { StepOverflows }
    ensures variable_is_looked_at_anew { VariableIsLookedAtAnew }
    ensures repeat_goes_on { RepeatGoesOn }
    ensures units_share { UnitsShare }
    ensures unit_fails { UnitFails }
    ensures newest_is_meant { NewestIsMeant }
    ensures none_is_left { NoneIsLeft }
    ensures list_is_linked { ListIsLinked }
    ensures address_is_meant { AddressIsMeant }
    ensures leads_nowhere { LeadsNowhere }
    ensures is_not_freed { IsNotFreed }
    ensures offset_copied { OffsetCopied }
    ensures dead_header_named { DeadHeaderNamed }
    ensures area_full { AreaFull }
    ensures outside_area_named { OutsideAreaNamed }
    ensures block_freed { BlockFreed }
    ensures list_in_area { ListInArea }
    ensures no_area_is_error { NoAreaIsError }
    ensures revert_removes { RevertRemoves }
    ensures unit_is_steps { UnitIsSteps }
    ensures unit_stays { UnitStays }
    ensures units_are_many { UnitsAreMany }
    ensures second_takes_place { SecondTakesPlace }
    ensures names_are_of_on { NamesAreOfOn }
    ensures zero_stands_after { ZeroStandsAfter }
    ensures zero_divide_unit { ZeroDivideUnit }
    ensures newest_unit { NewestUnit }
    ensures counter_overflows { CounterOverflows }
    ensures allocate_is_repeated { AllocateIsRepeated }
    ensures extent_exceeds { ExtentExceeds }
    ensures signal_goes_on { SignalGoesOn }
    ensures area_is_evaluated_anew { AreaIsEvaluatedAnew }
    ensures group_around_is_reached { GroupAroundIsReached }
    ensures goto_leaves_units { GotoLeavesUnits }
    ensures string_is_handed { StringIsHanded }
    ensures nothing_is_handed { NothingIsHanded }
    ensures string_is_fitted { StringIsFitted }
    ensures bounds_are_arguments { BoundsAreArguments }
    ensures control_is_fitted { ControlIsFitted }
{}
