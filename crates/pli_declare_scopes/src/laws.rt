//! Laws and worked examples of levels and references.
ghost use Rattle.pli_declare_scopes.specs.laws.ScopeLaws.{MeantIsMeans, MeansOne, ChainsAreNames};
ghost use Rattle.pli_declare_scopes.specs.examples.Examples.{MembersOfMembers, LevelZero, LevelOneAfterZero};
ghost use Rattle.pli_declare_scopes.specs.examples.Examples.{NoLesserLevel, LevelsOver255, PartialQualification};
ghost use Rattle.pli_declare_scopes.specs.examples.Examples.{FullBeforePartial, InnermostBlock, ItemsThatCount};
ghost use Rattle.pli_declare_scopes.specs.examples.Examples.{SecondIsTwice, MembersOfSecond};
ghost use Rattle.pli_declare_scopes.specs.laws.RepeatLaws.{AllAreJudged, CountsOnce, LaterIsFault};
ghost use Rattle.pli_declare_scopes.specs.laws.RepeatLaws.{MembersArePassedOver};
ghost use Rattle.pli_declare_scopes.specs.laws.LevelLaws.{AllStand, OwnersAreNearest, OwnersAreMissed};
ghost use Rattle.pli_declare_scopes.specs.laws.LevelLaws.{BadLevelsAreFound, LevelOneHasNoOwner, LevelsFall};

/// A law: the owner of an item of a level over 1 is the nearest item before it with a lesser level, and else it has
/// none; where levels are not bad, the items of level 1 are those without one.
#[tactic(auto, using(crate::proofs::OwnersFound::all_stand, crate::proofs::OwnersFound::owners_are_nearest, crate::proofs::OwnersFound::owners_are_missed, crate::proofs::OwnersFound::level_one_has_no_owner))]
pub fn owners_are_nearest()
    ensures all { AllStand }
    ensures found { OwnersAreNearest }
    ensures missed { OwnersAreMissed }
    ensures one { LevelOneHasNoOwner }
{}

/// A law: from an item to the one that it belongs to, and on to that one's owner, levels fall, whatever levels are
/// written.
pub fn levels_fall()
    ensures { LevelsFall }
{}

/// A law: a level is bad that is 0, over 255, or over 1 with no lesser level before it.
#[tactic(auto, using(crate::proofs::OwnersFound::bad_levels_are_found))]
pub fn bad_levels_are_found()
    ensures { BadLevelsAreFound }
{}

/// A law: what is looked up is what a reference means, both ways, and a reference means one thing.
#[tactic(auto, using(crate::proofs::ReferencesMeanOne::meant_is_means, crate::proofs::ReferencesMeanOne::means_one))]
pub fn meant_is_means()
    ensures both_ways { MeantIsMeans }
    ensures one { MeansOne }
{}

/// A law: an item's chain of names is its own name and then the names of the items that it belongs to, the nearest
/// first.
#[tactic(auto, using(crate::proofs::ChainLemmas::chains_are_names))]
pub fn chains_are_names()
    ensures { ChainsAreNames }
{}

/// Worked examples of levels.
pub fn examples_of_levels()
    ensures members { MembersOfMembers }
    ensures zero { LevelZero }
    ensures one { LevelOneAfterZero }
    ensures none_lesser { NoLesserLevel }
    ensures over { LevelsOver255 }
{}

/// Worked examples of references.
pub fn examples_of_references()
    ensures partial { PartialQualification }
    ensures full { FullBeforePartial }
    ensures innermost { InnermostBlock }
    ensures counting { ItemsThatCount }
{}

/// A law: an item counts where its owner does and no item before it is its like, and of those that are alike the later
/// are faults.
#[tactic(auto, using(crate::proofs::CountedItems::all_are_judged, crate::proofs::CountedItems::counts_once, crate::proofs::CountedItems::later_is_fault, crate::proofs::CountedItems::members_are_passed_over))]
pub fn later_is_fault()
    ensures all { AllAreJudged }
    ensures counts { CountsOnce }
    ensures fault { LaterIsFault }
    ensures passed { MembersArePassedOver }
{}

/// Worked examples of names that are declared twice.
pub fn examples_of_repeats()
    ensures second { SecondIsTwice }
    ensures members { MembersOfSecond }
{}
