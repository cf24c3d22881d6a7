//! Laws of the simulation.
ghost use Rattle.pli_meaning_simulation.specs.laws.Laws.{Simulation, NoFault, Growth};

/// For a program of typed units whose code stands as it should, and every number of steps: where the program has a
/// meaning, the machine's run of the code gives its output, its ending and its next column, and the ending is no fault
/// of the machine.
pub fn simulates()
    ensures programs { Simulation }
    ensures no_fault { NoFault }
{}

/// With a step more the output of a program goes on from what it was, and a run that did not run out of steps is
/// the same.
pub fn goes_on()
    ensures { Growth }
{}
