//! Worked examples.
ghost use Rattle.pli_declare_outline.specs.examples.OutlineExamples.{Uses, Regions};

/// Outlines that compute.
#[tactic(auto, unfolding(crate::specs::Outlines::outline_of))]
pub fn worked_examples()
    ensures uses { Uses }
    ensures regions { Regions }
{}
