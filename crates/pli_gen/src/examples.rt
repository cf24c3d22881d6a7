//! Worked examples of the translation.
ghost use Rattle.pli_gen.specs.examples.ExtentExamples.{ControlFitted, ExtentsUsed, TypesNumbered};
ghost use Rattle.pli_gen.specs.examples.TranslationExamples.{AssignedAndPrinted, PartOfStructure};
ghost use Rattle.pli_gen.specs.examples.TranslationExamples.{ArgumentsHanded, AggregateCopied, Counted};
ghost use Rattle.pli_gen.specs.examples.TranslationExamples.{JumpsAndBlocks, WholeUnit, NumberedWell};
ghost use Rattle.pli_gen.specs.examples.TranslationExamples.{TablesNumbered, InstructionsNumbered, LimitsKept};
ghost use Rattle.pli_gen.specs.examples.TranslationExamples.{GlobalsNumbered, EntriesCalled, EntriesLinked};
ghost use Rattle.pli_gen.specs.examples.TranslationExamples.{GenerationsStacked, ControlledLinked};
ghost use Rattle.pli_gen.specs.examples.TranslationExamples.{PointersFollowed, AreasUsed, UnitsEstablished};
ghost use Rattle.pli_gen.specs.examples.TranslationExamples.{UnitsNumbered};

/// Worked examples: an assignment and PUT; a reference with subscripts; a call; an aggregate; a group with a control
/// variable; jumps between blocks; tables; globals and calls of entries; ALLOCATE, FREE and ALLOCATION; what
/// pointers lead to; what areas hold; ON-units; extents that are those of the argument.
#[tactic(auto, using(crate::proofs::UnitsNumbered::units_numbered))]
pub fn worked_examples()
    ensures assigned_and_printed { AssignedAndPrinted }
    ensures part_of_structure { PartOfStructure }
    ensures arguments_handed { ArgumentsHanded }
    ensures aggregate_copied { AggregateCopied }
    ensures counted { Counted }
    ensures jumps_and_blocks { JumpsAndBlocks }
    ensures whole_unit { WholeUnit }
    ensures numbered_well { NumberedWell }
    ensures tables_numbered { TablesNumbered }
    ensures instructions_numbered { InstructionsNumbered }
    ensures limits_kept { LimitsKept }
    ensures globals_numbered { GlobalsNumbered }
    ensures entries_called { EntriesCalled }
    ensures entries_linked { EntriesLinked }
    ensures generations_stacked { GenerationsStacked }
    ensures controlled_linked { ControlledLinked }
    ensures pointers_followed { PointersFollowed }
    ensures areas_used { AreasUsed }
    ensures units_established { UnitsEstablished }
    ensures units_numbered { UnitsNumbered }
    ensures extents_used { ExtentsUsed }
    ensures control_fitted { ControlFitted }
    ensures types_numbered { TypesNumbered }
{}
