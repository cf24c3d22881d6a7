//! Laws of first faults.
ghost use Rattle.pli_parse_fault.specs.examples.FirstFaultExamples.{NoneYet, StopsAtParenthesis, EndsTooEarly};

/// Worked examples: tokens that can be completed, and first faults.
#[tactic(auto, using(crate::proofs::Examples::none_yet, crate::proofs::Examples::stops_at_parenthesis, crate::proofs::Examples::ends_too_early))]
pub fn worked_examples()
    ensures none_yet { NoneYet }
    ensures stops_at_parenthesis { StopsAtParenthesis }
    ensures ends_too_early { EndsTooEarly }
{}
