//! Worked examples of the definitions.
ghost use Rattle.pli_run.specs.examples.Examples.{EndsBefore, EndsFull, DoesNotFit, AtTabStop};

/// Worked examples: printing at the end of a line.
pub fn worked_examples()
    ensures ends_before { EndsBefore }
    ensures ends_full { EndsFull }
    ensures does_not_fit { DoesNotFit }
    ensures at_tab_stop { AtTabStop }
{}
