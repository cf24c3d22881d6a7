//! Worked examples of the words of the command line.
ghost use Rattle.pli_bench.specs.examples.Examples.{NoWords, FiveSteps, StepsAreNoNumber, FileIsNoWord};
ghost use Rattle.pli_bench.specs.examples.Examples.{HelpIsAsked};

/// Worked examples: no words, steps, and what is no command line.
pub fn worked_examples()
    ensures no_words { NoWords }
    ensures five_steps { FiveSteps }
    ensures no_number { StepsAreNoNumber }
    ensures file { FileIsNoWord }
    ensures help { HelpIsAsked }
{}
