//! Laws of the meaning.
ghost use Rattle.pli_meaning.specs.laws.Laws.{Simulation, Growth};
ghost use Rattle.pli_meaning.specs.Members.{MembersSimulate, MembersGrow, OneMeaning};
ghost use Rattle.pli_meaning.specs.examples.ScratchExamples.{FirstIsMade, RunsWithThree, RunsWithTwo, TypesAreTold};

/// For members that have a module and every number of steps, the module's run gives the output, the ending and the next
/// column that the source means. The source has a meaning, which no run ends in a fault of the machine and no bound of
/// the definition cuts short; so it is of each linked program whose units are typed and numbered well.
pub fn simulates()
    ensures members { MembersSimulate }
    ensures programs { Simulation }
{}

/// With a step more the output goes on from what it was, and a run that did not run out of steps is the same.
pub fn grows()
    ensures members { MembersGrow }
    ensures programs { Growth }
{}

/// Members mean one thing at each number of steps.
pub fn one_meaning()
    ensures { OneMeaning }
{}

/// A worked example of the whole way: the members of a first session, their module, and its runs; and a fault of types.
pub fn worked_examples()
    ensures made { FirstIsMade }
    ensures three_steps_run { RunsWithThree }
    ensures two_steps_run { RunsWithTwo }
    ensures told { TypesAreTold }
{}
