//! Laws of well-typed programs.
ghost use Rattle.pli_meaning_typed.specs.TypedPrograms.{EveryRunIsMeant};
ghost use Rattle.pli_meaning_typed.specs.examples.TypedExamples.{ExampleIsWellTyped, GroupsAreWellTyped};
ghost use Rattle.pli_meaning_typed.specs.examples.TypedExamples.{StackIsWellTyped, PointersAreWellTyped};
ghost use Rattle.pli_meaning_typed.specs.examples.TypedExamples.{AreasAreWellTyped};
ghost use Rattle.pli_meaning_typed.specs.examples.TypedExamples.{ConditionsAreWellTyped, UnitsAreWellTyped};
ghost use Rattle.pli_meaning_typed.specs.examples.TypedExamples.{StarsAreWellTyped};

/// A law: each run of a well-typed program, with any number of steps, has a meaning. No operation asks for what is not
/// there, no label is sought in vain, no bound of the definition is too low, and no run ends in a fault of the machine.
pub fn every_run_is_meant()
    ensures { EveryRunIsMeant }
{}

/// Worked examples: a program with a function that is called with a variable as its argument, a conversion to
/// characters and a GOTO is well-typed; so are groups with BY, TO, REPEAT and WHILE in it, statements that allocate,
/// count and free generations of a CONTROLLED variable, others that allocate, use and free a BASED one where a POINTER
/// leads, others by an OFFSET in an AREA that is assigned and emptied, others that establish, raise and revert a
/// condition, with an ON-unit that jumps out of itself, a program of two units that share a variable, of which one
/// calls the other, and a procedure whose parameters have asterisks, which is called with a string and an array.
pub fn worked_examples()
    ensures program { ExampleIsWellTyped }
    ensures groups { GroupsAreWellTyped }
    ensures stack { StackIsWellTyped }
    ensures pointers { PointersAreWellTyped }
    ensures areas { AreasAreWellTyped }
    ensures conditions { ConditionsAreWellTyped }
    ensures units { UnitsAreWellTyped }
    ensures stars { StarsAreWellTyped }
{}
