//! Laws and worked examples of the generations of CONTROLLED variables.
ghost use Rattle.pli_stacks.specs.laws.Operations.{NewestStays, StackingStays, UnstackingStays, CountingStays};
ghost use Rattle.pli_stacks.specs.laws.Operations.{SameBesideFollows, EndedAfterMaking, EndedAfterStacking};
ghost use Rattle.pli_stacks.specs.laws.Operations.{EndedAfterUnstacking, BesideStacked, NewestGoes, OtherStacks};
ghost use Rattle.pli_stacks.specs.examples.StackExamples.{NewestIsMeant, BeginsAgain, OlderIsLeft, PlaceStays};
ghost use Rattle.pli_stacks.specs.examples.StackExamples.{NoneIsLeft, NoStack};

/// A law: an operation on stacks changes these and storage alone: not what is printed, the column, steps or
/// activations. Where it is refused it changes nothing.
pub fn storage_alone_changes()
    ensures newest { NewestStays }
    ensures stacking { StackingStays }
    ensures unstacking { UnstackingStays }
    ensures counting { CountingStays }
    ensures follows { SameBesideFollows }
{}

/// A law: no number of a generation is used again. What has ended stays so whatever is made, and whatever is allocated
/// and freed of CONTROLLED variables.
pub fn numbers_stay_given()
    ensures making { EndedAfterMaking }
    ensures stacking { EndedAfterStacking }
    ensures unstacking { EndedAfterUnstacking }
{}

/// A law: what lives beside stays as it is. ALLOCATE of a CONTROLLED variable changes no generation that lives, FREE
/// ends the newest alone, and other stacks stay as they are.
pub fn others_stay()
    ensures stacked { BesideStacked }
    ensures newest { NewestGoes }
    ensures others { OtherStacks }
{}

/// Worked examples: the newest generation is meant and freed, the next begins with the initial values again, a place
/// that was found before stays, and where there is no generation it is an error.
pub fn worked_examples()
    ensures newest_is_meant { NewestIsMeant }
    ensures begins_again { BeginsAgain }
    ensures older_is_left { OlderIsLeft }
    ensures place_stays { PlaceStays }
    ensures none_is_left { NoneIsLeft }
    ensures no_stack { NoStack }
{}
